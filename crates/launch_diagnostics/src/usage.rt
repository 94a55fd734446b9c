//! The page of usage.

ghost use Rattle.std.specs.Prelude.{◌≡◌};
ghost use Rattle.launch_diagnostics.specs.Explanations.{is_help, page};

/// The page of usage, without the last line's end.
const PAGE: &str = "\
usage: mpiexec [OPTION VALUE ..] -n N PROGRAM [ARGUMENT ..] [: -n N PROGRAM ..] ..\n\
\x20      mpiexec [OPTION VALUE ..] -configfile FILE\n\
Starts N processes of each PROGRAM as the ranks of a job on this machine, and\n\
prints what they wrote, by rising rank, once they have ended.\n\
\x20 -n N             so many processes, 1 to 1024\n\
\x20 -configfile FILE the sets stand in a file, one a line\n\
\x20 -job J           the job's number; without it 1\n\
\x20 -baseport P      rank r's port is P + r; without it P is 47000\n\
\x20 -restart K       each rank may be started again so often; without it 0\n\
\x20 -patience MS     so many milliseconds a rank waits before it gives up\n\
\x20 -abort           in front of all words: a rank that fails for good ends the others\n\
Jobs that run at one time need numbers and ports of their own. More stands in\n\
docs/LAUNCHING.md.";

const HELP: &[u8] = b"--help";

const SHORT_HELP: &[u8] = b"-h";

const VERSION: &[u8] = b"--version";

/// Whether the word asks for the page.
pub(crate) fn is_help(word: &[u8]) -> bool
    ensures { result ≡ is_help word.now }
{
    word == HELP || word == SHORT_HELP || word == VERSION
}

/// How `mpiexec` is used, without the last line's end.
#[tactic(auto, unfolding(crate::specs::Explanations::page))]
pub(crate) fn page() -> &'static str
    ensures { result.now ≡ page }
{
    PAGE
}

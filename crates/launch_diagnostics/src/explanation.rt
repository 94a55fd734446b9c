//! What is told of refused words behind the refusal's number.

ghost use Rattle.std.specs.Prelude.{◌≡◌, None, MatchOption};
ghost use Rattle.std.specs.Option.{option_copied};
ghost use Rattle.launch_diagnostics.specs.Places.{refusal_of};
ghost use Rattle.launch_diagnostics.specs.Explanations.{explanation_text, word_text, missing_text, text_at, Explains};

use crate::due::{Due, due_at, word_at, word_before};
use crate::fault::fault_place;
use crate::usage::{is_help, page};
use launch_keeper::Word;
use launch_plan::LaunchRefusal;
use shown_words::Shown;
use std::alloc::Global;
use std::fmt;

/// What is told of refused words behind the refusal's number: a line, or the page of usage, without the last line's
/// end.
#[derive(Clone, Copy)]
pub enum Explanation<'a> {
    /// How the launcher is used.
    Usage,
    /// There are too many ranks, or their ports are too high.
    OverLimit,
    /// The configuration file of this name can't be read.
    Unreadable(&'a [u8]),
    /// This word is an option of MPI 3.1, 8.8 that the launcher leaves out, and what may stand in its place.
    LeftOut(&'a [u8], Due),
    /// This word is at fault, and what may stand in its place.
    Wrong(&'a [u8], Due),
    /// What is missing behind this word, which is the last one.
    Missing(&'a [u8], Due),
    /// What is missing where there are no words.
    Nothing(Due),
}

/// What is told of this word, which is at fault.
fn told_of(refused: LaunchRefusal, word: &[u8], due: Due) -> Explanation<'_>
    ensures { explanation_text result ≡ word_text refused word.now due }
{
    match refused {
        LaunchRefusal::UnreadableFile => Explanation::Unreadable(word),
        LaunchRefusal::LeftOut => Explanation::LeftOut(word, due),
        LaunchRefusal::WrongOption if is_help(word) => Explanation::Usage,
        _ => Explanation::Wrong(word, due),
    }
}

/// What is told where a word is missing.
fn told_behind(before: Option<&[u8]>, due: Due) -> Explanation<'_>
    ensures { explanation_text result ≡ missing_text (option_copied before.entry) due }
{
    match before {
        Some(before) => Explanation::Missing(before, due),
        None => Explanation::Nothing(due),
    }
}

/// What is told of words with a fault at this place.
fn told_at(refused: LaunchRefusal, words: &[Word], place: usize, due: Due) -> Explanation<'_>
    ensures { explanation_text result ≡ text_at refused words.now place due }
{
    if refused == LaunchRefusal::OverLimit {
        return Explanation::OverLimit;
    }
    match word_at(words, place) {
        Some(word) => told_of(refused, word, due),
        None => told_behind(word_before(words, place), due),
    }
}

/// What is told of refused words; `None` where `plan` refuses them by no rule. `config` is what the configuration file
/// holds that they name, or `None` where it can't be read.
pub fn explain<'a>(
    alloc: Global,
    words: &'a [Word],
    config: Option<&[u8]>,
) -> Option<Explanation<'a>>
    ensures { MatchOption result (refusal_of words.now (option_copied config.entry) ≡ None)
        (λ told. Explains words.now (option_copied config.entry) (explanation_text told)) }
{
    let fault = fault_place(alloc, words, config)?;
    let due = due_at(alloc, words, config, fault.place);
    Some(told_at(fault.refused, words, fault.place, due))
}

/// The end of a line on a word at fault: what may stand in its place.
#[derive(Clone, Copy)]
struct MayStand {
    due: Due,
}

impl fmt::Display for MayStand {
    ghost use Rattle.std.specs.Prelude.{Some};
    ghost use Rattle.launch_diagnostics.specs.Explanations.{may_stand};

    ghost output = { λ m. Some (may_stand m.due) };

    fn fmt<W: fmt::Write>(&self, f: &mut fmt::Formatter<W>) -> fmt::Result {
        let due = self.due;
        write!(f, "': {due} may stand here")
    }
}

/// The end of a line on an option that is left out: what may stand in its place.
#[derive(Clone, Copy)]
struct IsLeftOut {
    due: Due,
}

impl fmt::Display for IsLeftOut {
    ghost use Rattle.std.specs.Prelude.{Some};
    ghost use Rattle.launch_diagnostics.specs.Explanations.{is_left_out};

    ghost output = { λ l. Some (is_left_out l.due) };

    fn fmt<W: fmt::Write>(&self, f: &mut fmt::Formatter<W>) -> fmt::Result {
        let due = self.due;
        write!(f, "': {due} may stand here; this option is left out")
    }
}

/// The end of a line on a word that is missing behind another.
#[derive(Clone, Copy)]
struct IsMissing {
    due: Due,
}

impl fmt::Display for IsMissing {
    ghost use Rattle.std.specs.Prelude.{Some};
    ghost use Rattle.launch_diagnostics.specs.Explanations.{is_missing};

    ghost output = { λ m. Some (is_missing m.due) };

    fn fmt<W: fmt::Write>(&self, f: &mut fmt::Formatter<W>) -> fmt::Result {
        let due = self.due;
        write!(f, "' {due} is missing")
    }
}

impl<'a> fmt::Display for Explanation<'a> {
    ghost use Rattle.std.specs.Prelude.{Some};
    ghost use Rattle.launch_diagnostics.specs.Explanations.{explanation_text};

    ghost output = { λ e. Some (explanation_text e) };

    fn fmt<W: fmt::Write>(&self, f: &mut fmt::Formatter<W>) -> fmt::Result {
        match self {
            Explanation::Usage => f.write_str(page()),
            Explanation::OverLimit => {
                f.write_str("mpiexec: more than 1024 ranks, or a port above 65535")
            }
            Explanation::Unreadable(word) => {
                let name = Shown { word };
                write!(f, "mpiexec: '{name}' can't be read")
            }
            Explanation::LeftOut(word, due) => {
                let (word, left_out) = (Shown { word }, IsLeftOut { due: *due });
                write!(f, "mpiexec: '{word}{left_out}")
            }
            Explanation::Wrong(word, due) => {
                let (word, may) = (Shown { word }, MayStand { due: *due });
                write!(f, "mpiexec: '{word}{may}")
            }
            Explanation::Missing(word, due) => {
                let (word, missing) = (Shown { word }, IsMissing { due: *due });
                write!(f, "mpiexec: behind '{word}{missing}")
            }
            Explanation::Nothing(due) => write!(f, "mpiexec: {due} is missing"),
        }
    }
}

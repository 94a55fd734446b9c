//! What a rank tells on its standard error where it ends otherwise than its script does.

use line_diagnostics::{explanation, gave_up_at, gave_up_behind, line_at, script_fault};
use rank_settings::{Settings, asks_for_help, fault_in};
use script_files::{RankLines, parse};
use script_judgement::hint_of;
use script_runner::{ScriptRunner, line_of_number, line_taken_last};
use shown_words::Shown;
use std::alloc::Global;
use std::str;

/// How the program is called.
const USAGE: &str =
    "usage: rank_main --rank R --size N --inc I --job J --port P [--patience MS] [--hosts A,B,..] FILE";

/// How the program is called that judges a script and runs nothing.
const JUDGE_USAGE: &str = "       rank_main --judge N FILE";

/// Which program it is.
const VERSION: &str = "rank_main (Kombazily) 0.1.0";

/// What the words of the program mean.
const MEANINGS: &str = "  --rank R       the rank, from 0 to N - 1
  --size N       how many ranks the job has, 1 to 1024
  --inc I        how often the rank was started before, 0 to 65535
  --job J        the number of the job, 0 to 18446744073709551615
  --port P       the rank's own port; rank S has port P - R + S, and each is 1 to 65535
  --patience MS  for how many milliseconds nothing may move until the rank gives up, 1 to 3600000; else 10000
  --hosts A,B,.. the IPv4 address of each rank, in rank order; else all are at 127.0.0.1
  FILE           the script
  --judge N      judges the script for N ranks, 1 to 1024, tells what is wrong with it, and runs nothing
  --help         prints this
  --version      prints which program this is";

/// A rank of a job, and the text of its script.
#[derive(Clone, Copy)]
pub(crate) struct ErrorReport<'a> {
    /// The settings of the rank.
    pub settings: &'a Settings<'a>,
    /// The text of its script.
    pub text: &'a [u8],
}

/// Tells a refusal, with the line of the script that it is about.
pub(crate) fn tell(rt: &impl Eprint, number: u8, line: Option<usize>) {
    let _ = match line {
        Some(line) => eprintln!(rt; "rank_main: refused {number} line {line}"),
        None => eprintln!(rt; "rank_main: refused {number}"),
    };
}

/// Prints how the program is called, and answers whether that could be written.
pub(crate) fn print_help(rt: &impl Print) -> bool {
    println!(rt; "{USAGE}\n{JUDGE_USAGE}\n{MEANINGS}").is_ok()
}

/// Prints which program it is, and answers whether that could be written.
pub(crate) fn print_version(rt: &impl Print) -> bool {
    println!(rt; "{VERSION}").is_ok()
}

/// Tells that the words are wrong: which one, and how the program is called.
pub(crate) fn tell_words(rt: &impl Eprint, words: &[String]) {
    tell(rt, 64, None);
    if asks_for_help(words) {
        let _ = eprintln!(rt; "{USAGE}\n{MEANINGS}");
        return;
    }
    if let Some(fault) = fault_in(words) {
        let (word, wanted) = (fault.word, fault.wanted);
        let _ = eprintln!(rt; "rank_main: '{word}': {wanted}");
    }
    tell_usage(rt);
}

/// Tells how the program is called.
pub(crate) fn tell_usage(rt: &impl Eprint) {
    let _ = eprintln!(rt; "{USAGE}");
}

/// Tells what failed of a rank.
pub(crate) fn tell_of(rt: &impl Eprint, rank: u16, what: &str) {
    let _ = eprintln!(rt; "rank_main: rank {rank}: {what}");
}

/// Tells that the script can't be read.
pub(crate) fn tell_unread(rt: &impl Eprint, settings: &Settings) {
    tell(rt, 59, None);
    let (rank, file) = (settings.rank, settings.file);
    let _ = eprintln!(rt; "rank_main: rank {rank}: {file} can't be read");
}

/// Tells that the rank's port can't be used, of its own address where the settings say at which the ranks are.
pub(crate) fn tell_port(rt: &impl Eprint, settings: &Settings) {
    let (rank, port) = (settings.rank, settings.port);
    let own = settings
        .hosts
        .and_then(|hosts| hosts.split(',').nth(usize::from(rank)));
    let _ = match own {
        Some(host) => eprintln!(rt; "rank_main: rank {rank}: port {port} of {host} can't be used"),
        None => eprintln!(rt; "rank_main: rank {rank}: port {port} can't be used"),
    };
}

/// Tells a line of ASCII, if there was memory for it.
fn tell_line(rt: &impl Eprint, line: Option<Vec<u8>>) {
    let Some(line) = line else {
        return;
    };
    if let Ok(text) = str::from_utf8(&line) {
        let _ = eprintln!(rt; "{text}");
    }
}

/// Why the line of this number is no line of a script.
fn faulty_line(alloc: Global, speaker: &str, line: &[u8]) -> Option<Vec<u8>> {
    let fault = script_fault(alloc, line).ok()?;
    explanation(alloc, speaker.as_bytes(), &fault, line).ok()
}

/// Which word of the line is wrong, and which form its statement has.
fn hint_line(alloc: Global, line: &[u8]) -> Option<String> {
    let fault = script_fault(alloc, line).ok()?;
    hint_of(alloc, &fault, line).ok()?
}

/// Tells why the line of this number of a text is no line of a script, and where it `has_hint`, which word is wrong and
/// which form the statement has.
pub(crate) fn explained<R: Eprint + AllocGlobal>(
    rt: &R,
    speaker: &str,
    text: &[u8],
    number: usize,
    has_hint: bool,
) {
    let Ok(Some(line)) = line_at(rt.alloc(), text, number) else {
        return;
    };
    tell_line(rt, faulty_line(rt.alloc(), speaker, line));
    if has_hint {
        if let Some(hint) = hint_line(rt.alloc(), line) {
            let _ = eprintln!(rt; "rank_main: {hint}");
        }
    }
}

impl<'a> ErrorReport<'a> {
    /// Who speaks: the program and the rank.
    fn speaker(&self, alloc: Global) -> Option<String> {
        let rank = self.settings.rank;
        format!(in alloc; "rank_main: rank {rank}").ok()
    }

    /// The text of the line of this number.
    fn line(&self, alloc: Global, number: usize) -> Option<&'a [u8]> {
        line_at(alloc, self.text, number).ok()?
    }

    /// The lines of the script that are for this rank.
    fn rank_lines(&self, alloc: Global) -> Option<RankLines> {
        let script = parse(alloc, self.text).ok()?;
        script
            .into_lines_for(alloc, self.settings.rank, self.settings.incarnation)
            .ok()
    }

    /// Why the runner of the script can't follow its line of this number.
    fn stopped_line(&self, alloc: Global, runner: &ScriptRunner, number: usize) -> Option<Vec<u8>> {
        let (line, speaker) = (self.line(alloc, number)?, self.speaker(alloc)?);
        let reached = line_of_number(self.rank_lines(alloc)?, number)?;
        let lack = runner.lack_of(alloc, &reached.statement);
        drop(reached);
        let fault = lack.ok()??;
        let told = explanation(alloc, speaker.as_bytes(), &fault, line);
        drop(fault);
        told.ok()
    }

    /// The number of the line that the rank took last.
    fn number_taken_last(&self, alloc: Global, runner: &ScriptRunner) -> Option<usize> {
        let last = line_taken_last(self.rank_lines(alloc)?, runner.lines_left())?;
        let number = last.number;
        drop(last);
        Some(number)
    }

    /// Where the patience of the rank was over.
    fn standing_line(&self, alloc: Global, runner: &ScriptRunner) -> Option<Vec<u8>> {
        let (speaker, patience) = (self.speaker(alloc)?, self.settings.patience);
        if !runner.awaits_answer() {
            return gave_up_behind(alloc, speaker.as_bytes(), patience).ok();
        }
        let number = self.number_taken_last(alloc, runner)?;
        let line = self.line(alloc, number)?;
        gave_up_at(alloc, speaker.as_bytes(), patience, number, line).ok()
    }

    /// Where the rank stood when it was told to stop.
    fn stop_line(&self, alloc: Global, runner: &ScriptRunner) -> Option<String> {
        let rank = self.settings.rank;
        if !runner.awaits_answer() {
            return format!(in alloc;
                "rank_main: rank {rank} was stopped behind the end of its script"
            ).ok();
        }
        let number = self.number_taken_last(alloc, runner)?;
        let line = Shown {
            word: self.line(alloc, number)?,
        };
        format!(in alloc; "rank_main: rank {rank} was stopped at line {number}: {line}").ok()
    }

    /// Tells where the rank stood when it was told to stop.
    pub(crate) fn tell_stop<R: Eprint + AllocGlobal>(&self, rt: &R, runner: &ScriptRunner) {
        if let Some(line) = self.stop_line(rt.alloc(), runner) {
            let _ = eprintln!(rt; "{line}");
        }
    }

    /// Tells that the line of this number is no line of a script, and why.
    pub(crate) fn tell_faulty<R: Eprint + AllocGlobal>(&self, rt: &R, number: usize) {
        tell(rt, 51, Some(number));
        if let Some(speaker) = self.speaker(rt.alloc()) {
            explained(
                rt,
                speaker.as_str(),
                self.text,
                number,
                self.settings.rank == 0,
            );
        }
    }

    /// Tells that the script ended at its line of this number, and why.
    pub(crate) fn tell_stopped<R: Eprint + AllocGlobal>(
        &self,
        rt: &R,
        runner: &ScriptRunner,
        line: Option<usize>,
    ) {
        tell(rt, 51, line);
        if let Some(number) = line {
            tell_line(rt, self.stopped_line(rt.alloc(), runner, number));
        }
    }

    /// Tells where the patience of the rank was over.
    pub(crate) fn tell_patience<R: Eprint + AllocGlobal>(&self, rt: &R, runner: &ScriptRunner) {
        tell_line(rt, self.standing_line(rt.alloc(), runner));
    }
}

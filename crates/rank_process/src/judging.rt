//! Judging a script before anything of it runs.

use crate::exit_status::ExitStatus;
use crate::telling::{explained, tell};
use line_diagnostics::line_at;
use numerals::number_between;
use script_files::{ParseError, Script, parse};
use script_judgement::{UnsetName, unset_line, unset_names, unset_names_of};
use std::fs;
use std::io::ErrorKind;
use std::rt::Files;

/// How the judging of a script is asked for.
const JUDGE: &str = "--judge";

/// Tells a name that isn't set where a line uses it.
fn tell_unset<R: Eprint + AllocGlobal>(rt: &R, text: &[u8], unset: &UnsetName) {
    let Ok(Some(line)) = line_at(rt.alloc(), text, unset.line) else {
        return;
    };
    if let Ok(told) = unset_line(rt.alloc(), unset, line) {
        let _ = eprintln!(rt; "rank_main: {told}");
    }
}

/// Tells the names that aren't set where a line for this rank uses them, in a job of this size. It goes on all the
/// same: what a line lacks ends the rank when the line is reached.
pub(crate) fn forewarn<R: Eprint + AllocGlobal>(
    rt: &R,
    text: &[u8],
    script: &Script,
    rank: u16,
    size: u16,
) {
    if let Ok(found) = unset_names_of(rt.alloc(), script, rank, size) {
        for unset in found.as_slice() {
            tell_unset(rt, text, unset);
        }
    }
}

/// Judges the script of this text for so many ranks, tells what is wrong with it, and answers the status.
fn judge_text<R: Eprint + AllocGlobal>(rt: &R, text: &[u8], size: u16) -> ExitStatus {
    let script = match parse(rt.alloc(), text) {
        Ok(script) => script,
        Err(ParseError::OutOfMemory) => return ExitStatus::OutOfMemory,
        Err(ParseError::Line(number)) => {
            tell(rt, 51, Some(number));
            explained(rt, "rank_main", text, number, true);
            return ExitStatus::NoScript;
        }
    };
    let Ok(found) = unset_names(rt.alloc(), &script, size) else {
        return ExitStatus::OutOfMemory;
    };
    for unset in found.as_slice() {
        tell_unset(rt, text, unset);
    }
    if found.is_empty() {
        ExitStatus::Ended(0)
    } else {
        ExitStatus::NoScript
    }
}

fn judge_file<R: Files + Eprint + AllocGlobal>(rt: &R, size: u16, file: &str) -> ExitStatus {
    match fs::read(rt, file) {
        Ok(text) => judge_text(rt, &text, size),
        Err(error) if error.kind() == ErrorKind::OutOfMemory => ExitStatus::OutOfMemory,
        Err(_) => {
            tell(rt, 59, None);
            let _ = eprintln!(rt; "rank_main: {file} can't be read");
            ExitStatus::NoScript
        }
    }
}

/// The status of `rank_main --judge N FILE`, which judges a script for N ranks and runs nothing; none where the words
/// ask for something else.
pub(crate) fn judged<R: Files + Eprint + AllocGlobal>(
    rt: &R,
    words: &[String],
) -> Option<ExitStatus> {
    match words {
        [_, judge, size, file] if judge.as_str() == JUDGE => {
            let size = number_between(size.as_str().as_bytes(), 1, 1_024)?;
            Some(judge_file(rt, size as u16, file.as_str()))
        }
        _ => None,
    }
}

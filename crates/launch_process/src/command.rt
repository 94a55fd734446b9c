//! What a launcher's words ask for: a launch, or the keeping of one rank.

use crate::keeper::keep;
use crate::launcher::launch;
use launch_decisions::request_of;
use launch_diagnostics::explain;
use launch_keeper::{Word, kept_rank};
use launch_plan::planning::plan;
use launch_plan::{LaunchOutcome, LaunchRefusal, Plan, config_name, spelled_out};
use process_commands::{ClosedStreams, open_closed_streams};
use std::alloc::AllocError;
use std::net::Net;
use std::os::fd::AsRawFd;
use std::process::{OpenProcess, Processes};
use std::rt::{Env, Files};
use std::time::Clock;
use std::{env, fs, io};

/// The words behind the program's own name.
fn words_of(rt: &(impl Env + AllocGlobal)) -> io::Result<Vec<Word>> {
    let mut all = env::args(rt)?;
    let _program = all.next();
    let mut words = Vec::new(rt.alloc());
    for word in all {
        words
            .push(Word::from_vec(word.into_bytes()))
            .map_err(AllocError::from)?;
    }
    Ok(words)
}

/// What the configuration file holds that the words name; `None` where they name none, or where it
/// can't be read.
fn config_of(
    rt: &(impl Files + AllocGlobal),
    words: &[Word],
) -> Result<Option<Vec<u8>>, LaunchRefusal> {
    let Some(name) = config_name(words) else {
        return Ok(None);
    };
    let Ok(name) = str::from_utf8(name) else {
        return Ok(None);
    };
    match fs::read(rt, name) {
        Ok(bytes) => Ok(Some(bytes)),
        Err(error) if error.kind() == io::ErrorKind::OutOfMemory => Err(LaunchRefusal::OutOfMemory),
        Err(_) => Ok(None),
    }
}

/// Tells a refusal's number on the standard error.
fn tell_number(rt: &impl Eprint, refused: LaunchRefusal) -> LaunchOutcome {
    let number = refused.number();
    let _ = eprintln!(rt; "mpiexec: refused {number}");
    LaunchOutcome::Refused(refused)
}

/// Tells why these words are refused: the number, and behind it which word is at fault and what may stand there.
fn tell_refusal(
    rt: &(impl Eprint + AllocGlobal),
    words: &[Word],
    config: Option<&[u8]>,
    refused: LaunchRefusal,
) -> LaunchOutcome {
    let outcome = tell_number(rt, refused);
    if let Some(told) = explain(rt.alloc(), words, config) {
        let _ = eprintln!(rt; "{told}");
    }
    outcome
}

/// Plans what the words ask for, and launches it.
fn run_launch<
    R: Net
        + Env
        + Files
        + Print
        + Eprint
        + AllocGlobal
        + Processes<Started: OpenProcess<Stdout: AsRawFd>>,
>(rt: &R, words: &[Word], closed: &ClosedStreams) -> LaunchOutcome {
    let alloc = rt.alloc();
    let request = request_of(words);
    let words = request.words;
    let config = match config_of(rt, words) {
        Ok(config) => config,
        Err(refused) => return tell_number(rt, refused),
    };
    let config = config.as_deref();
    let plan = match plan(alloc, words, config) {
        Ok(plan) => plan,
        Err(refused) => return tell_refusal(rt, words, config, refused),
    };
    let Ok(words) = spelled_out(alloc, words, config) else {
        return LaunchOutcome::Failed;
    };
    match launch(rt, &plan, words.as_slice(), request.aborts, closed) {
        Ok(outcome) => outcome,
        Err(_) => LaunchOutcome::Failed,
    }
}

/// Plans the launch anew, and keeps the rank.
fn run_keeper<
    R: Env
        + Files
        + Print
        + Eprint
        + AllocGlobal
        + Clock
        + Processes<Started: OpenProcess<Stdout: AsRawFd>>,
>(rt: &R, rank: u16, words: &[Word]) -> LaunchOutcome {
    let Ok(plan) = plan(rt.alloc(), words, None) else {
        return LaunchOutcome::Failed;
    };
    match keep(rt, &plan, rank) {
        Ok(()) => LaunchOutcome::Ended(0),
        Err(_) => LaunchOutcome::Failed,
    }
}

/// Does what these words ask for, a launch or the keeping of one rank, tells a refusal on the standard error, and
/// answers the status.
pub fn run_words<
    R: Net
        + Env
        + Files
        + Print
        + Eprint
        + AllocGlobal
        + Clock
        + Processes<Started: OpenProcess<Stdout: AsRawFd>>,
>(rt: &R, words: &[Word]) -> u8 {
    let Ok(closed) = open_closed_streams() else {
        return LaunchOutcome::Failed.status();
    };
    let outcome = match kept_rank(words) {
        Some(kept) => run_keeper(rt, kept.rank, kept.words),
        None => run_launch(rt, words, &closed),
    };
    outcome.status()
}

/// Does what the words of this process ask for, and answers the status.
pub fn run<
    R: Net
        + Env
        + Files
        + Print
        + Eprint
        + AllocGlobal
        + Clock
        + Processes<Started: OpenProcess<Stdout: AsRawFd>>,
>(rt: &R) -> u8 {
    match words_of(rt) {
        Ok(words) => run_words(rt, &words),
        Err(_) => tell_number(rt, LaunchRefusal::OutOfMemory).status(),
    }
}

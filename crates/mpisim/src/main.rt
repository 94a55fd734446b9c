//! Runs a world of ranks from a file of events, and prints what each event answers.
//!
//! `mpisim FILE`. Status 0 at the end; 1 with `mpisim: refused N line L` on standard error where a line is faulty (51),
//! and with `mpisim: refused N` where the file can't be read (59) or for want of memory (14); 2 with `usage: mpisim
//! FILE` on standard error where the words aren't one FILE; 3 where the output fails. Behind a refusal stands why: the
//! fault and the text of the line, or the name of the file. `mpisim --help` and `mpisim --version` print what they say;
//! a file of such a name is named with its folder, as ./--help.
#![tactic(auto)]

use file_kinds::is_script;
use line_diagnostics::{LineFault, event_fault, explanation, line_at};
use simulation::{SimulateError, Stopped, simulate_or_tell};
use std::alloc::Global;
use std::env::FillError;
use std::io::{BufWriter, ErrorKind, Write};
use std::process::ExitCode;
use std::rt::{Env, Files};
use std::{env, fs, io, str};

/// How the program is called.
const USAGE: &str = "\
usage: mpisim FILE
       mpisim --help, mpisim --version
  FILE  a file of events: its first line is `world N`, N from 1 to 1024, and each other line is what a rank does, `deliver D`,
        `tick R NOW`, `restart R` or `stray R HEX`. What each line answers is printed.";

/// What is told of a file that is a script.
const SCRIPT: &str =
    "mpisim: a script has such lines, and N ranks run it: mpirun -n N rank_main FILE";

/// Which program it is.
const VERSION: &str = "mpisim (Kombazily) 0.1.0";

/// Says why nothing more runs, and answers the status.
fn tell_refusal(rt: &impl Eprint, number: u8, line: Option<usize>) -> u8 {
    let told = match line {
        Some(line) => eprintln!(rt; "mpisim: refused {number} line {line}"),
        None => eprintln!(rt; "mpisim: refused {number}"),
    };
    match told {
        Ok(()) => 1,
        Err(_) => 3,
    }
}

/// Says how the program is called, and answers the status.
fn tell_misuse(rt: &impl Eprint) -> u8 {
    let _told = eprintln!(rt; "{USAGE}");
    2
}

/// Says that the file can't be read, and answers the status.
fn tell_unread(rt: &impl Eprint, name: &str) -> u8 {
    let status = tell_refusal(rt, 59, None);
    let _told = eprintln!(rt; "mpisim: {name} can't be read");
    status
}

/// Says that the output failed, and answers the status.
fn tell_output(rt: &impl Eprint) -> u8 {
    let _told = eprintln!(rt; "mpisim: the output can't be written");
    3
}

/// Prints a text that was asked for in place of a run, and answers the status.
fn show(rt: &(impl Print + Eprint), text: &str) -> u8 {
    match println!(rt; "{text}") {
        Ok(()) => 0,
        Err(_) => tell_output(rt),
    }
}

/// Why the line of this number is faulty: as it was found when it was reached, or else since it is no line of a file of
/// events.
fn told_of(alloc: Global, text: &[u8], number: usize, fault: Option<LineFault>) -> Option<Vec<u8>> {
    let line = line_at(alloc, text, number).ok()?.unwrap_or(b"");
    let fault = match fault {
        Some(fault) => fault,
        None => event_fault(alloc, line).ok()?,
    };
    explanation(alloc, b"mpisim", &fault, line).ok()
}

/// Says at which line the file is faulty, and why, and answers the status.
fn tell_fault(
    rt: &(impl Eprint + AllocGlobal),
    text: &[u8],
    number: usize,
    fault: Option<LineFault>,
) -> u8 {
    let status = tell_refusal(rt, 51, Some(number));
    if let Some(line) = told_of(rt.alloc(), text, number, fault) {
        if let Ok(told) = str::from_utf8(&line) {
            let _told = eprintln!(rt; "{told}");
        }
    }
    if is_script(rt.alloc(), text, number) {
        let _told = eprintln!(rt; "{SCRIPT}");
    }
    status
}

/// Whether there is a word at this place, whatever its bytes are. The program's own name is at place 0.
fn has_word(rt: &impl Env, place: usize) -> bool {
    let mut room = [0u8; 1];
    match rt.arg(place, &mut room) {
        Err(FillError::NotPresent) => false,
        Ok(_) | Err(FillError::TooLong) => true,
    }
}

/// Whether the program was given exactly one word. This takes no memory, and reads no word.
fn has_one_word(rt: &impl Env) -> bool {
    has_word(rt, 1) && !has_word(rt, 2)
}

/// Runs the file of this name, and answers the status.
fn run(rt: &(impl Files + Print + Eprint + AllocGlobal), name: &str) -> u8 {
    let text = match fs::read(rt, name) {
        Ok(text) => text,
        Err(e) if e.kind() == ErrorKind::OutOfMemory => return tell_refusal(rt, 14, None),
        Err(_) => return tell_unread(rt, name),
    };
    let Ok(mut out) = BufWriter::new(rt.alloc(), io::writer(rt)) else {
        return tell_refusal(rt, 14, None);
    };
    let ended = simulate_or_tell(rt.alloc(), &text, &mut out);
    if out.flush().is_err() {
        return tell_output(rt);
    }
    match ended {
        Ok(()) => 0,
        Err(Stopped { error, fault }) => match error {
            SimulateError::Line(line) => tell_fault(rt, &text, line, fault),
            SimulateError::OutOfMemory => tell_refusal(rt, 14, None),
            SimulateError::Output => tell_output(rt),
        },
    }
}

/// Runs the file that the one word names, and answers the status. A name that isn't UTF-8 can't be read.
fn run_word(rt: &(impl Env + Files + Print + Eprint + AllocGlobal)) -> u8 {
    let mut words = match env::args(rt) {
        Ok(words) => words,
        Err(e) if e.kind() == ErrorKind::OutOfMemory => return tell_refusal(rt, 14, None),
        Err(_) => return tell_refusal(rt, 59, None),
    };
    match words.nth(1) {
        Some(word) => match word.as_str() {
            "--help" | "-h" => show(rt, USAGE),
            "--version" | "-V" => show(rt, VERSION),
            name => run(rt, name),
        },
        None => tell_misuse(rt),
    }
}

fn main(rt: HostRuntime) -> ExitCode {
    if !has_one_word(&rt) {
        return ExitCode::from(tell_misuse(&rt));
    }
    ExitCode::from(run_word(&rt))
}

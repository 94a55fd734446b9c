//! What the program says on standard error.

use file_kinds::is_script;
use line_diagnostics::{LineFault, event_fault, explanation, line_at, script_fault};
use script_judgement::hint_of;
use std::alloc::Global;
use std::{io, str};

/// Says why nothing more runs, and answers the status.
pub fn refused(rt: &impl Eprint, number: u8, line: Option<usize>) -> u8 {
    let told = match line {
        Some(line) => eprintln!(rt; "mpidraw: refused {number} line {line}"),
        None => eprintln!(rt; "mpidraw: refused {number}"),
    };
    match told {
        Ok(()) => 1,
        Err(_) => 3,
    }
}

/// Says that the file can't be read, and answers the status.
pub fn unread(rt: &impl Eprint, name: &str) -> u8 {
    let status = refused(rt, 59, None);
    let _told = eprintln!(rt; "mpidraw: {name} can't be read");
    status
}

/// Says that an SVG isn't written to a terminal, and answers the status.
pub fn is_no_terminals(rt: &impl Eprint) -> u8 {
    let _told = eprintln!(rt;
        "mpidraw: an SVG isn't written to a terminal: name a file behind '>', or take --text"
    );
    2
}

/// Says that the output failed, and why, and answers the status.
pub fn unwritten(rt: &impl Eprint, error: &io::Error) -> u8 {
    let _told = eprintln!(rt; "mpidraw: the output can't be written: {error}");
    3
}

/// Why the line of this number is faulty: as it was found when it was reached, or else since it is no line of a file of
/// events.
fn told_of_event(
    alloc: Global,
    text: &[u8],
    number: usize,
    fault: Option<LineFault>,
) -> Option<Vec<u8>> {
    let line = line_at(alloc, text, number).ok()?.unwrap_or(b"");
    let fault = match fault {
        Some(fault) => fault,
        None => event_fault(alloc, line).ok()?,
    };
    explanation(alloc, b"mpidraw", &fault, line).ok()
}

/// Why the line of this number is faulty: as it was found when it was reached, or else since it is no line of a script.
fn told_of_script(
    alloc: Global,
    text: &[u8],
    number: usize,
    fault: Option<LineFault>,
) -> Option<Vec<u8>> {
    let line = line_at(alloc, text, number).ok()?.unwrap_or(b"");
    let fault = match fault {
        Some(fault) => fault,
        None => script_fault(alloc, line).ok()?,
    };
    explanation(alloc, b"mpidraw", &fault, line).ok()
}

/// Which word of a script's line of this number doesn't fit, and the form of its statement, or what else is known of it.
fn hint_of_script(alloc: Global, text: &[u8], number: usize) -> Option<String> {
    let line = line_at(alloc, text, number).ok()??;
    let fault = script_fault(alloc, line).ok()?;
    hint_of(alloc, &fault, line).ok()?
}

/// Says at which line a file is faulty, and why, if that is known, and answers the status.
fn faulty(rt: &impl Eprint, number: usize, why: Option<Vec<u8>>) -> u8 {
    let status = refused(rt, 51, Some(number));
    if let Some(line) = why {
        if let Ok(told) = str::from_utf8(&line) {
            let _told = eprintln!(rt; "{told}");
        }
    }
    status
}

/// Says at which line a file of events is faulty, and why, and answers the status.
pub fn faulty_events(
    rt: &(impl Eprint + AllocGlobal),
    text: &[u8],
    number: usize,
    fault: Option<LineFault>,
) -> u8 {
    let status = faulty(rt, number, told_of_event(rt.alloc(), text, number, fault));
    if is_script(rt.alloc(), text, number) {
        let _told = eprintln!(rt; "mpidraw: a script has such lines: --ranks N draws a play of it");
    }
    status
}

/// Says at which line a script is faulty, and why, and answers the status.
pub fn faulty_script(
    rt: &(impl Eprint + AllocGlobal),
    text: &[u8],
    number: usize,
    fault: Option<LineFault>,
) -> u8 {
    let hint = match &fault {
        Some(_) => None,
        None => hint_of_script(rt.alloc(), text, number),
    };
    let status = faulty(rt, number, told_of_script(rt.alloc(), text, number, fault));
    if let Some(told) = hint {
        let _told = eprintln!(rt; "mpidraw: {told}");
    }
    status
}

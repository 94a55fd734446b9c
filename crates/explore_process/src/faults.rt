//! What is told on the standard error.

use line_diagnostics::{explanation, line_at, script_fault};
use script_judgement::hint_of;
use std::alloc::Global;
use std::{io, str};

/// Tells a refusal, with the line of the script that it is about.
pub(crate) fn tell(rt: &impl Eprint, number: u8, line: Option<usize>) {
    let _ = match line {
        Some(line) => eprintln!(rt; "mpiexplore: refused {number} line {line}"),
        None => eprintln!(rt; "mpiexplore: refused {number}"),
    };
}

/// Tells that a file can't be read or written.
pub(crate) fn tell_file(rt: &impl Eprint, number: u8, file: &str, what: &str) {
    tell(rt, number, None);
    let _ = eprintln!(rt; "mpiexplore: {file} can't be {what}");
}

/// Tells that the output failed, and why.
pub(crate) fn tell_unwritten(rt: &impl Eprint, error: &io::Error) {
    let _ = eprintln!(rt; "mpiexplore: the output can't be written: {error}");
}

/// Why the line of this number is no line of a script.
fn faulty_line(alloc: Global, text: &[u8], number: usize) -> Option<Vec<u8>> {
    let line = line_at(alloc, text, number).ok()??;
    let fault = script_fault(alloc, line).ok()?;
    explanation(alloc, b"mpiexplore", &fault, line).ok()
}

/// Which word of the line of this number doesn't fit, and the form of the statement, or what else is known of it.
fn hint(alloc: Global, text: &[u8], number: usize) -> Option<String> {
    let line = line_at(alloc, text, number).ok()??;
    let fault = script_fault(alloc, line).ok()?;
    hint_of(alloc, &fault, line).ok()?
}

/// Tells that the line of this number is no line of a script, and why.
pub(crate) fn tell_faulty<R: Eprint + AllocGlobal>(rt: &R, text: &[u8], number: usize) {
    tell(rt, 51, Some(number));
    if let Some(line) = faulty_line(rt.alloc(), text, number) {
        if let Ok(told) = str::from_utf8(&line) {
            let _ = eprintln!(rt; "{told}");
        }
    }
    if let Some(told) = hint(rt.alloc(), text, number) {
        let _ = eprintln!(rt; "mpiexplore: {told}");
    }
}

//! Runs worked rows as lists of events, and prints what each event answers, as `mpisim` prints it. An event that is
//! refused for want of memory (14) is told in a line that begins with `#`, all that can be seen of the world is
//! compared with what it was before, and the event that came back is given again. So, whichever request for memory is
//! refused (see tools/refused_memory), each event gives the answer that it gives with ample memory.
//!
//! Status 0; 1 where a refusal changed something, or memory was wanting three times in turn; 3 where the output fails.
#![tactic(auto)]

mod giving;
mod rows;
mod seen;
mod steps;

use crate::giving::{Fault, run};
use crate::rows::ROWS;
use std::alloc::Global;
use std::io;
use std::io::{BufWriter, Write};
use std::process::ExitCode;

/// Says why a row ended before its end, and answers the status.
fn tell<W: Write>(fault: Fault, out: &mut W) -> u8 {
    let told = match fault {
        Fault::Output => return 3,
        Fault::Changed => writeln!(out, "a refusal changed something"),
        Fault::OutOfMemory => writeln!(out, "memory is wanting"),
    };
    if told.is_ok() { 1 } else { 3 }
}

/// Runs all rows, in order, and answers the greatest status of one.
fn run_all<W: Write>(alloc: Global, out: &mut W) -> u8 {
    let mut status = 0;
    for row in &ROWS {
        if let Err(fault) = run(alloc, *row, out) {
            status = tell(fault, out).max(status);
        }
    }
    status
}

fn main(rt: HostRuntime) -> ExitCode {
    for _try in 0..3u8 {
        if let Ok(mut out) = BufWriter::new(rt.alloc(), io::writer(&rt)) {
            let status = run_all(rt.alloc(), &mut out);
            let is_written = out.flush().is_ok();
            return ExitCode::from(if is_written { status } else { 3 });
        }
    }
    ExitCode::from(1)
}

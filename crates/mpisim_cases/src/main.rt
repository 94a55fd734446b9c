//! Runs the files of events that it is given one after the other, and prints what each prints and how it ended: worked
//! rows as data.
//!
//! Status 0 where each file could be read and printed, else 1.
#![tactic(auto)]

use simulation::{SimulateError, simulate};
use std::io::{BufWriter, Write};
use std::process::ExitCode;
use std::rt::{Env, Files};
use std::{env, fs, io};

/// Runs one file, and prints its name, what it prints, and how it ended.
fn run<W: Write>(
    rt: &(impl Files + AllocGlobal),
    out: &mut W,
    name: &str,
) -> Result<(), io::Error> {
    let text = fs::read(rt, name)?;
    writeln!(out, "== {name}")?;
    match simulate(rt.alloc(), &text, out) {
        Ok(()) => writeln!(out, "ended"),
        Err(SimulateError::Line(line)) => writeln!(out, "refused 51 line {line}"),
        Err(SimulateError::OutOfMemory) => writeln!(out, "refused 14"),
        Err(SimulateError::Output) => writeln!(out, "no output"),
    }
}

fn run_all(rt: &(impl Env + Files + Print + AllocGlobal)) -> Result<(), io::Error> {
    let mut out = BufWriter::new(rt.alloc(), io::writer(rt))?;
    for name in env::args(rt)?.skip(1) {
        run(rt, &mut out, name.as_str())?;
    }
    out.flush()
}

fn main(rt: HostRuntime) -> ExitCode {
    match run_all(&rt) {
        Ok(()) => ExitCode::from(0),
        Err(_) => ExitCode::from(1),
    }
}

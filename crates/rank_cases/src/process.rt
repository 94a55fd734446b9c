//! This program as a process of a row.

use std::alloc::Global;
use std::io;
use std::io::Write;
use std::process::{Child, Command, OpenProcess, Processes, Stdio};

/// Starts this program with these words and then more of them. What it writes is kept, and it has nothing to read.
pub fn start<R: AllocGlobal + Processes>(
    rt: &R,
    itself: &str,
    words: &[&str],
    more: &[&str],
) -> io::Result<Child<R::Started>> {
    let mut command = Command::new(rt.alloc(), itself)?;
    for word in words {
        command.arg(*word)?;
    }
    for word in more {
        command.arg(*word)?;
    }
    command.stdin(Stdio::null());
    command.stdout(Stdio::piped());
    command.stderr(Stdio::piped());
    command.spawn(rt)
}

/// Prints the status that a process ends with, what it printed, and what it wrote on its standard error.
pub fn show<W: Write, P: OpenProcess + Drop>(
    alloc: Global,
    out: &mut W,
    name: &str,
    child: Child<P>,
) -> io::Result<()> {
    let ran = child.wait_with_output(alloc)?;
    match ran.status.code() {
        Some(code) => writeln!(out, "{name}: status {code}")?,
        None => writeln!(out, "{name}: no status")?,
    }
    out.write_all(&ran.stdout)?;
    if !ran.stderr.is_empty() {
        out.write_all(b"errors: ")?;
        out.write_all(&ran.stderr)?;
    }
    Ok(())
}

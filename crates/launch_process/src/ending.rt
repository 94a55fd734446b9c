//! Asking programs to end.

use std::io;
use std::process::{Command, Processes, Stdio};

/// What a shell does with the number of a process: it sends SIGTERM.
const SENDS: &str = "kill -s TERM \"$0\"";

/// The command that asks this process to end.
fn asking<R: AllocGlobal>(rt: &R, id: u32) -> io::Result<Command> {
    let mut command = Command::new(rt.alloc(), "sh")?;
    command.arg("-c")?;
    command.arg(SENDS)?;
    command.arg(format!(in rt.alloc(); "{id}")?.as_str())?;
    command.stdin(Stdio::null());
    command.stdout(Stdio::null());
    command.stderr(Stdio::null());
    Ok(command)
}

/// Asks a process that was not waited for to end, by SIGTERM. Where that can't be done it is killed later.
pub fn terminate<R: AllocGlobal + Processes>(rt: &R, id: u32) {
    if let Ok(mut command) = asking(rt, id) {
        let _ = command.status(rt);
    }
}

//! What a shell does for `mpirun`: signals.

use std::alloc::Global;
use std::io;
use std::process::{Command, Processes, Stdio};

/// The command by which a shell runs this script with these words, the first of which is `$0`.
pub fn shell_command(alloc: Global, script: &str, name: &str) -> io::Result<Command> {
    let mut command = Command::new(alloc, "sh")?;
    command.arg("-c")?;
    command.arg(script)?;
    command.arg(name)?;
    Ok(command)
}

/// The command that asks these processes to end.
fn asking(alloc: Global, processes: &[u32]) -> io::Result<Command> {
    let mut command = shell_command(alloc, "kill -s TERM \"$@\"", "mpirun")?;
    for id in processes {
        command.arg(format!(in alloc; "{id}")?.as_str())?;
    }
    command.stdin(Stdio::null());
    command.stdout(Stdio::null());
    command.stderr(Stdio::null());
    Ok(command)
}

/// Asks these processes, which were not waited for, to end, by SIGTERM. Where that can't be done they are killed later.
pub fn terminate<R: AllocGlobal + Processes>(rt: &R, processes: &[u32]) {
    if processes.is_empty() {
        return;
    }
    if let Ok(mut command) = asking(rt.alloc(), processes) {
        let _ = command.status(rt);
    }
}

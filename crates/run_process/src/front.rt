//! The front: the process that the user started. It starts the one that launches, and waits for it.

use crate::job::FAILED;
use crate::shell::shell_command;
use launch_keeper::Word;
use process_commands::{ClosedStreams, add_arguments};
use std::os::unix::process::ExitStatusExt;
use std::process::{Command, Processes};
use std::rt::Files;
use std::{env, io};

/// What a shell does before it becomes the process that launches: what a terminal sends to all its processes doesn't end
/// it.
const SCRIPT: &str = "trap '' INT QUIT HUP; exec \"$0\" \"$@\"";

/// The first word of the process that launches.
pub const LAUNCH: &str = "-launch";

/// The same where another program is the front (bindings/launcher): its number, the descriptor where its bytes come, and
/// the words that the user typed stand behind.
pub const LED: &str = "-led";

/// The command of the process that launches.
fn launching<R: Files + AllocGlobal>(
    rt: &R,
    words: &[Word],
    closed: &ClosedStreams,
) -> io::Result<Command> {
    let itself = env::current_exe(rt)?;
    let mut command = shell_command(rt.alloc(), SCRIPT, itself.as_str())?;
    command.arg(LAUNCH)?;
    let own = libc::getpid();
    command.arg(format!(in rt.alloc(); "{own}")?.as_str())?;
    add_arguments(&mut command, words)?;
    closed.stand_in(&mut command);
    Ok(command)
}

/// Starts the process that launches what these words ask for, and waits for its end. Answers its status.
pub fn run_front<R: Files + Eprint + AllocGlobal + Processes>(
    rt: &R,
    words: &[Word],
    closed: &ClosedStreams,
) -> u8 {
    let ended = match launching(rt, words, closed) {
        Ok(mut command) => command.status(rt),
        Err(error) => Err(error),
    };
    match ended {
        Ok(status) => match (status.code(), status.signal()) {
            (Some(code), _) => u8::try_from(code).unwrap_or(FAILED),
            (None, Some(signal)) => {
                let _ = eprintln!(rt; "mpirun: its launching process was ended by signal {signal}");
                FAILED
            }
            (None, None) => FAILED,
        },
        Err(error) => {
            let _ = eprintln!(rt; "mpirun: its launching process can't be started: {error}");
            FAILED
        }
    }
}

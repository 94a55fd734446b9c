//! The guard of a job: it kills the programs that are left where the process that launches them goes away.

use crate::shell::shell_command;
use std::io;
use std::io::{PipeReader, Write};
use std::os::fd::AsRawFd;
use std::process::{Child, Command, OpenProcess, Processes, Stdio};
use std::rt::Files;

/// What the guard does, a shell whom no terminal ends. It is told of each process that is about to begin, by the name of the
/// pipe that will be its standard output (`? PIPE`), and then that it has begun (`+ N`) or couldn't (`!`), and that one
/// has ended (`- N`). At the end of its input it kills those that are left. One may have begun that nobody could tell any
/// more: that is the one whose standard output is the pipe. What the process that is gone had open is closed in it, so it
/// is the program by then.
const SCRIPT: &str = "trap '' INT QUIT HUP TERM
left= pipe=
while read -r sign id; do
  case $sign in
    '?') pipe=$id ;;
    '!') pipe= ;;
    +) left=\"$left $id\"
       pipe= ;;
    -) others=
       for it in $left; do [ \"$it\" = \"$id\" ] || others=\"$others $it\"; done
       left=$others ;;
  esac
done
[ -z \"$left\" ] || kill -s KILL $left
[ -z \"$pipe\" ] || ls -l /proc/[0-9]*/fd/1 | while read -r line; do
  case $line in
    *\" -> $pipe\")
      id=${line##*/proc/}
      kill -s KILL \"${id%%/*}\" ;;
  esac
done";

/// How long the name of a pipe is at most.
const NAME: usize = 64;

/// The guard, where it could be started.
#[derive(Drop)]
pub struct Guard<P: OpenProcess> {
    shell: Option<Child<P>>,
}

/// Starts a guard that was told of no process yet.
fn start<R: AllocGlobal + Processes>(rt: &R) -> io::Result<Child<R::Started>> {
    let mut command = shell_command(rt.alloc(), SCRIPT, "mpirun")?;
    command.stdin(Stdio::piped());
    command.stdout(Stdio::null());
    command.stderr(Stdio::null());
    command.spawn(rt)
}

/// The line that tells the guard which pipe will be the standard output of the process that begins next.
fn pipe_line<R: AllocGlobal>(rt: &R, output: &PipeReader) -> io::Result<String> {
    let fd = output.as_raw_fd();
    let link = format!(in rt.alloc(); "/proc/self/fd/{fd}")?;
    let mut room = [0u8; NAME];
    let count = usize::try_from(os::readlink(link.as_bytes(), &mut room)).unwrap_or(0);
    let name = str::from_utf8(&room[..count.min(NAME)]).unwrap_or("");
    Ok(format!(in rt.alloc(); "? {name}\n")?)
}

impl<P: OpenProcess + Drop> Guard<P> {
    /// A guard that was told of no process yet.
    pub fn new<R: AllocGlobal + Processes<Started = P>>(rt: &R) -> Guard<P> {
        Guard {
            shell: start(rt).ok(),
        }
    }

    /// Tells the guard a line.
    fn tell(&mut self, line: &str) {
        let Some(shell) = &mut self.shell else {
            return;
        };
        let Some(input) = &mut shell.stdin else {
            return;
        };
        let _ = input.write_all(line.as_bytes());
    }

    /// Starts a program, so that it doesn't outlive this process: answers it, and where its standard output comes.
    pub fn spawn<R: Files + AllocGlobal + Processes<Started = P>>(
        &mut self,
        rt: &R,
        mut command: Command,
    ) -> io::Result<(Child<P>, PipeReader)> {
        let (output, its) = io::pipe(rt)?;
        command.stdout(Stdio::from(its));
        self.tell(pipe_line(rt, &output)?.as_str());
        match command.spawn(rt) {
            Ok(child) => {
                let id = child.id();
                self.tell(format!(in rt.alloc(); "+ {id}\n")?.as_str());
                Ok((child, output))
            }
            Err(error) => {
                self.tell("!\n");
                Err(error)
            }
        }
    }

    /// This process has ended.
    pub fn ends<R: AllocGlobal>(&mut self, rt: &R, id: u32) {
        if let Ok(line) = format!(in rt.alloc(); "- {id}\n") {
            self.tell(line.as_str());
        }
    }

    /// Lets the guard go, and waits for its end.
    pub fn close(&mut self) {
        if let Some(mut shell) = self.shell.take() {
            let _ = shell.wait();
        }
    }
}

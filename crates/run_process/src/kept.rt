//! A rank's program, as the keeper on its host has it.

use crate::guard::Guard;
use crate::kept_words::command_by;
use crate::printing::{is_ready, write_all};
use crate::sought::Sought;
use host_keepers::{ReportKind, push_report, told_end};
use launch_decisions::ending_of;
use launch_keeper::Words;
use process_commands::StartFault;
use std::alloc::Global;
use std::io;
use std::io::{ErrorKind, PipeReader, Read};
use std::os::fd::{AsRawFd, RawFd};
use std::process::{Child, ExitStatus, OpenProcess, Processes, Stdio};
use std::rt::Files;

/// Where reports go.
const REPORTS: RawFd = 1;

/// How many bytes are read at a time.
const ROOM: usize = 65_536;

/// How often what a program left behind is read once it has ended.
const MOST_READS: usize = 4_096;

/// How many bytes a pipe takes at once that takes any: a write of so many never waits.
const PIPE_TAKES: usize = 4_096;

/// Writes a report of a rank.
pub fn report(alloc: Global, kind: ReportKind, rank: u16, bytes: &[u8]) -> io::Result<()> {
    let mut text = Vec::new(alloc);
    let (bytes, _) = bytes.split_at(bytes.len().min(ROOM));
    push_report(&mut text, kind, rank, bytes)?;
    write_all(REPORTS, &text)
}

/// The descriptor of a pipe; -1 where it is closed.
fn descriptor_of<S: AsRawFd>(pipe: &Option<S>) -> RawFd {
    match pipe {
        Some(pipe) => pipe.as_raw_fd(),
        None => -1,
    }
}

/// Reads from a pipe that is ready, if it is open, and reports what came. Where the pipe has ended it is closed.
fn pass_on<S: Read + Drop>(
    alloc: Global,
    pipe: &mut Option<S>,
    kind: ReportKind,
    rank: u16,
) -> io::Result<()> {
    let mut room = [0u8; ROOM];
    let Some(open) = pipe else {
        return Ok(());
    };
    match open.read(&mut room) {
        Ok(0) => {
            *pipe = None;
            Ok(())
        }
        Ok(count) => report(alloc, kind, rank, &room[..count]),
        Err(error) if error.kind() == ErrorKind::Interrupted => Ok(()),
        Err(error) => Err(error),
    }
}

/// A program that is kept.
pub struct Kept<P: OpenProcess> {
    /// The rank that it is of.
    pub rank: u16,
    child: Child<P>,
    output: Option<PipeReader>,
    errors: Option<P::Stderr>,
    /// Its standard input, where it has one.
    input: Option<P::Stdin>,
    /// What of that was handed over and not written yet.
    pending: Vec<u8>,
    /// Whether no more of it comes behind that.
    is_last: bool,
}

impl<P: OpenProcess + Drop> Drop for Kept<P> {
    fn drop(self) {
        let Self {
            rank: _,
            child,
            output,
            errors,
            input,
            pending,
            is_last: _,
        } = self;
        drop(child);
        drop(output);
        drop(errors);
        drop(input);
        drop(pending);
    }
}

/// Starts the program of these words as that of a rank. Where it can't be started that is reported, and none is answered.
pub fn started<
    R: Files + AllocGlobal + Processes<Started: OpenProcess<Stdin: AsRawFd, Stderr: AsRawFd>>,
>(
    rt: &R,
    guard: &mut Guard<R::Started>,
    rank: u16,
    words: &Words,
    has_input: bool,
) -> io::Result<Option<Kept<R::Started>>> {
    let Ok(mut command) = command_by(rt.alloc(), words.as_slice()) else {
        let number = StartFault::Other.number();
        report(rt.alloc(), ReportKind::Nothing, rank, &[number])?;
        return Ok(None);
    };
    command.stdin(if has_input {
        Stdio::piped()
    } else {
        Stdio::null()
    });
    command.stderr(Stdio::piped());
    let sought = Sought::by(rt, &command);
    match guard.spawn(rt, command) {
        Ok((mut child, output)) => Ok(Some(Kept {
            rank,
            output: Some(output),
            errors: child.stderr.take(),
            input: child.stdin.take(),
            child,
            pending: Vec::new(rt.alloc()),
            is_last: false,
        })),
        Err(error) => {
            let number = sought.fault(&error).number();
            report(rt.alloc(), ReportKind::Nothing, rank, &[number])?;
            Ok(None)
        }
    }
}

impl<P: OpenProcess<Stdin: AsRawFd, Stderr: AsRawFd> + Drop> Kept<P> {
    /// The number of its process.
    pub fn id(&self) -> u32 {
        self.child.id()
    }

    /// The descriptor of what it prints; -1 where that is closed.
    pub fn output_descriptor(&self) -> RawFd {
        descriptor_of(&self.output)
    }

    /// The descriptor of its errors; -1 where that is closed.
    pub fn error_descriptor(&self) -> RawFd {
        descriptor_of(&self.errors)
    }

    /// The descriptor of its standard input, where something is to be written there; else -1.
    pub fn input_descriptor(&self) -> RawFd {
        if self.pending.is_empty() {
            -1
        } else {
            descriptor_of(&self.input)
        }
    }

    /// Whether it closed what it writes to, and may have ended.
    pub fn is_closed(&self) -> bool {
        self.output.is_none() && self.errors.is_none()
    }

    /// Kills it.
    pub fn kill(&mut self) {
        let _ = self.child.kill();
    }

    /// Kills it, and waits for its end.
    pub fn end(&mut self) {
        let _ = self.child.kill();
        let _ = self.child.wait();
    }

    /// Reads from its output, which is ready, and reports what came.
    pub fn pass_output(&mut self, alloc: Global) -> io::Result<()> {
        pass_on(alloc, &mut self.output, ReportKind::Output, self.rank)
    }

    /// Reads from its errors, which are ready, and reports what came.
    pub fn pass_errors(&mut self, alloc: Global) -> io::Result<()> {
        pass_on(alloc, &mut self.errors, ReportKind::Errors, self.rank)
    }

    /// These bytes are the next of its standard input. Where it has none, or reads no more of it, they are taken at once.
    pub fn is_handed(&mut self, alloc: Global, bytes: &[u8]) -> io::Result<()> {
        if self.input.is_none() || bytes.is_empty() {
            return report(alloc, ReportKind::Taken, self.rank, &[]);
        }
        self.pending.extend_from_slice(bytes)?;
        Ok(())
    }

    /// No more of its standard input comes.
    pub fn is_handed_all(&mut self) {
        self.is_last = true;
        if self.pending.is_empty() {
            self.input = None;
        }
    }

    /// Writes some of its standard input to its pipe, which takes some; reports once all that was handed over is taken.
    pub fn hand_on(&mut self, alloc: Global) -> io::Result<()> {
        let fd = self.input_descriptor();
        if fd < 0 {
            return Ok(());
        }
        let (some, _) = self.pending.split_at(self.pending.len().min(PIPE_TAKES));
        let count = os::write_no_sigpipe(fd, some);
        match usize::try_from(count) {
            Ok(count) => {
                let (_, left) = self.pending.split_at(count.min(self.pending.len()));
                self.pending = Vec::from_slice(alloc, left)?;
            }
            Err(_) if os::errno() == libc::EINTR || os::errno() == libc::EAGAIN => return Ok(()),
            Err(_) => {
                self.input = None;
                self.pending.clear();
            }
        }
        if !self.pending.is_empty() {
            return Ok(());
        }
        if self.is_last {
            self.input = None;
        }
        report(alloc, ReportKind::Taken, self.rank, &[])
    }

    /// How it ended, if it has.
    pub fn look(&mut self) -> io::Result<Option<ExitStatus>> {
        self.child.try_wait()
    }

    /// Reports what is left of its writing, and how it ended.
    pub fn report_end(&mut self, alloc: Global, status: ExitStatus) -> io::Result<()> {
        for _ in 0..MOST_READS {
            if !is_ready(self.output_descriptor()) {
                break;
            }
            self.pass_output(alloc)?;
        }
        for _ in 0..MOST_READS {
            if !is_ready(self.error_descriptor()) {
                break;
            }
            self.pass_errors(alloc)?;
        }
        let (kind, number) = told_end(ending_of(status));
        report(alloc, kind, self.rank, &[number])
    }
}

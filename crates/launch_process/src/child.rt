//! A program that is watched: it ends once the launcher is gone, or asks for its end.

ghost use Rattle.std.specs.Prelude.{◌≡◌, Some, true, is_some, IfOk, IfSome, OnOk};
ghost use Rattle.std.specs.Process.{child_status};

use crate::ending::terminate;
use launch_decisions::is_grace_over;
use libc::net::{POLLIN, poll};
use libc::types::pollfd;
use std::io;
use std::io::{ErrorKind, Read};
use std::os::fd::{AsRawFd, RawFd};
use std::process::{Child, ExitStatus, OpenProcess, Processes};
use std::time::{Clock, Instant};

/// The launcher's end of this descriptor, a keeper's standard input, is closed when the launcher
/// ends, however it ends. What it writes there asks for the program's end.
const LAUNCHER: RawFd = 0;

/// So many looks at a program that closed its output follow each other after a millisecond.
const SHORT_WAITS: u64 = 16;

/// The time between two later looks, in milliseconds.
const LONG_WAIT: i32 = 20;

/// How many bytes of output are read at a time.
const ROOM: usize = 16_384;

/// What is ready to be read.
#[derive(Clone, Copy, Debug)]
struct Ready {
    /// The program's output, or its end.
    output: bool,
    /// A word of the launcher, or its end.
    launcher: bool,
}

/// Waits until the descriptor can be read, the launcher is gone or speaks, or this time is over, in
/// milliseconds; a negative time has no end. A descriptor below 0 is never ready.
fn wait_for(fd: RawFd, time: i32) -> Ready {
    let ask = |fd| pollfd {
        fd,
        events: POLLIN,
        revents: 0,
    };
    let mut asked = [ask(fd), ask(LAUNCHER)];
    let found = poll(&mut asked, time);
    Ready {
        output: found > 0 && asked[0].revents != 0,
        launcher: found > 0 && asked[1].revents != 0,
    }
}

/// What a keeper hears of its launcher while it follows its program.
pub struct Watch<'a, R> {
    rt: &'a R,
    /// When the launcher asked for the program's end.
    asked: Option<Instant>,
}

impl<'a, R> Drop for Watch<'a, R> {
    fn drop(self) {
        let Self { rt: _, asked: _ } = self;
    }
}

impl<'a, R: AllocGlobal + Processes + Clock> Watch<'a, R> {
    /// Nothing was heard of the launcher yet.
    pub fn new(rt: &'a R) -> Watch<'a, R> {
        Watch { rt, asked: None }
    }

    /// Whether the launcher asked for the program's end.
    pub fn is_asked(&self) -> bool
        ensures { result ≡ is_some self.now.asked }
    {
        self.asked.is_some()
    }

    /// Takes in what the launcher says, and asks the program to end where it says so, once: its time to end begins with
    /// the first word. An error where the launcher is gone.
    fn listen<P: OpenProcess>(&mut self, child: &Child<P>) -> io::Result<()>
        ensures asked { OnOk result (is_some self.new.asked ≡ true) }
        ensures first { IfSome self.old.asked (λ asked. self.new.asked ≡ Some asked) }
    {
        let mut word = [0u8; 1];
        if libc::read(LAUNCHER, &mut word) <= 0 {
            return Err(io::Error::from(ErrorKind::BrokenPipe));
        }
        if self.asked.is_none() {
            self.asked = Some(Instant::now(self.rt)?);
            terminate(self.rt, child.id());
        }
        Ok(())
    }

    /// Kills a program that was asked to end and had the time to.
    fn hurry<P: OpenProcess>(&self, child: &mut Child<P>) -> io::Result<()> {
        if let Some(asked) = self.asked {
            let passed = asked.elapsed(self.rt)?.as_millis();
            if is_grace_over(u64::try_from(passed).unwrap_or(u64::MAX)) {
                child.kill()?;
            }
        }
        Ok(())
    }

    /// Waits as `wait_for` does, no longer than its program may live, and takes in what the launcher says. Answers
    /// whether the descriptor can be read.
    fn wait<P: OpenProcess>(
        &mut self,
        child: &mut Child<P>,
        fd: RawFd,
        time: i32,
    ) -> io::Result<bool>
        ensures { IfSome self.old.asked (λ asked. self.new.asked ≡ Some asked) }
    {
        let time = if self.is_asked() { LONG_WAIT } else { time };
        let ready = wait_for(fd, time);
        if ready.launcher {
            self.listen(child)?;
        }
        self.hurry(child)?;
        Ok(ready.output)
    }

    /// Adds what the program writes to the output, until it closes its output, or has ended as it was asked to. An
    /// error where the launcher is gone, or memory runs out.
    pub fn collect<P: OpenProcess<Stdout: AsRawFd>>(
        &mut self,
        child: &mut Child<P>,
        pipe: &mut P::Stdout,
        output: &mut Vec<u8>,
    ) -> io::Result<()> {
        let mut room = [0u8; ROOM];
        for _ in 0..u64::MAX {
            if self.wait(child, pipe.as_raw_fd(), -1)? {
                match pipe.read(&mut room) {
                    Ok(0) => return Ok(()),
                    Ok(count) => output.extend_from_slice(&room[..count])?,
                    Err(error) if error.kind() == ErrorKind::Interrupted => {}
                    Err(error) => return Err(error),
                }
            } else if self.is_asked() && child.try_wait()?.is_some() {
                return Ok(());
            }
        }
        Ok(())
    }

    /// The program's status, once it has ended. An error where the launcher is gone.
    pub fn await_end<P: OpenProcess>(&mut self, child: &mut Child<P>) -> io::Result<ExitStatus>
        ensures { IfOk result (λ status. child_status child.new ≡ Some status) }
    {
        for look in 0..u64::MAX {
            if let Some(status) = child.try_wait()? {
                return Ok(status);
            }
            let time = if look < SHORT_WAITS { 1 } else { LONG_WAIT };
            let _ready = self.wait(child, -1, time)?;
        }
        Err(io::Error::from(ErrorKind::TimedOut))
    }
}

//! The standard streams of this process.

use libc::net::{POLLNVAL, poll};
use libc::types::pollfd;
use std::io;
use std::os::fd::RawFd;
use std::process::{Command, Stdio};

/// What stands in place of a stream that is closed.
const NOTHING: &[u8] = b"/dev/null";

/// The standard streams that were closed when this process began.
#[derive(Clone, Copy, Debug, PartialEq, Eq)]
pub struct ClosedStreams {
    /// Standard input.
    pub input: bool,
    /// Standard output.
    pub output: bool,
    /// Standard error.
    pub errors: bool,
}

/// Whether no file is open under this number.
fn is_closed(fd: RawFd) -> bool {
    let mut asked = [pollfd {
        fd,
        events: 0,
        revents: 0,
    }];
    poll(&mut asked, 0) > 0 && asked[0].revents & POLLNVAL != 0
}

/// Opens `/dev/null` under this number where it is closed and those below it aren't. Answers whether it was closed.
fn open_one(fd: RawFd) -> io::Result<bool> {
    if !is_closed(fd) {
        return Ok(false);
    }
    let opened = os::open_with(NOTHING, libc::O_RDWR, 0);
    if opened == fd {
        Ok(true)
    } else {
        Err(io::Error::from_raw_os_error(os::errno()))
    }
}

/// Opens `/dev/null` at each standard stream that is closed, before anything else is opened: what a process opens gets
/// the lowest number that is free, and then what is printed would go there. Answers which ones were closed. An error
/// where `/dev/null` can't be opened.
pub fn open_closed_streams() -> io::Result<ClosedStreams> {
    Ok(ClosedStreams {
        input: open_one(0)?,
        output: open_one(1)?,
        errors: open_one(2)?,
    })
}

impl ClosedStreams {
    /// Lets a command's program have `/dev/null` at the streams that were closed: what stands there now isn't inherited.
    pub fn stand_in(&self, command: &mut Command) {
        if self.input {
            command.stdin(Stdio::null());
        }
        if self.output {
            command.stdout(Stdio::null());
        }
        if self.errors {
            command.stderr(Stdio::null());
        }
    }
}

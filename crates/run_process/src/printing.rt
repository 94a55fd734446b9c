//! Printing what ranks write.

ghost use Rattle.std.specs.Prelude.{◌≡◌};
ghost use Rattle.run_process.specs.Streams.{descriptor_of};

use crate::waits::{add_waits, without_waits};
use libc::net::{POLLIN, POLLOUT, poll};
use libc::types::pollfd;
use libc::{EAGAIN, EINTR};
use rank_lines::{SharedStream, Wait};
use std::alloc::Global;
use std::io;
use std::io::ErrorKind;
use std::os::fd::RawFd;

/// How often a stream that takes nothing for a second is tried again.
const TRIES: u32 = 60;

/// A stream of this process.
#[derive(Clone, Copy, Debug)]
pub enum Stream {
    /// Its standard output.
    Output,
    /// Its standard error.
    Error,
}

impl Stream {
    /// The stream's descriptor.
    fn descriptor(self) -> RawFd
        ensures { result ≡ descriptor_of self }
    {
        match self {
            Stream::Output => 1,
            Stream::Error => 2,
        }
    }
}

/// What to ask of a descriptor that is to be read; one below 0 is never ready.
pub fn asked(fd: RawFd) -> pollfd {
    pollfd {
        fd,
        events: POLLIN,
        revents: 0,
    }
}

/// What to ask of a descriptor that is to be written; one below 0 is never ready.
pub fn asked_to_write(fd: RawFd) -> pollfd {
    pollfd {
        fd,
        events: POLLOUT,
        revents: 0,
    }
}

/// Whether the descriptor can be read now.
pub fn is_ready(fd: RawFd) -> bool {
    let mut asked = [asked(fd)];
    poll(&mut asked, 0) > 0 && asked[0].revents != 0
}

/// Waits until the descriptor takes something, a second at most.
fn wait_to_write(fd: RawFd) {
    let mut asked = [asked_to_write(fd)];
    let _found = poll(&mut asked, 1_000);
}

/// Writes some of these bytes, and answers how many; none where the descriptor takes nothing now. An error where it never
/// will: the disk is full, nobody reads the pipe, nothing is open there.
fn write_some(fd: RawFd, bytes: &[u8]) -> io::Result<usize> {
    match usize::try_from(os::write_no_sigpipe(fd, bytes)) {
        Ok(count) => Ok(count),
        Err(_) => {
            let error = os::errno();
            if error == EAGAIN || error == EINTR {
                Ok(0)
            } else {
                Err(io::Error::from_raw_os_error(error))
            }
        }
    }
}

/// Writes all these bytes.
pub fn write_all(fd: RawFd, bytes: &[u8]) -> io::Result<()> {
    let mut left = bytes;
    let mut tries = 0;
    for _ in 0..u64::MAX {
        if left.is_empty() || tries >= TRIES {
            break;
        }
        let count = write_some(fd, left)?;
        if count == 0 {
            wait_to_write(fd);
            tries += 1;
        } else {
            let (_, behind) = left.split_at(count.min(left.len()));
            left = behind;
            tries = 0;
        }
    }
    if left.is_empty() {
        Ok(())
    } else {
        Err(io::Error::from(ErrorKind::WriteZero))
    }
}

/// Prints what the ranks write.
#[derive(Drop)]
pub struct Printer {
    /// Whether `[r] ` stands in front of each line.
    marks: bool,
    output: SharedStream,
    errors: SharedStream,
    /// The stream that couldn't be written, and why.
    fault: Option<(Stream, io::Error)>,
    /// The waits of which ranks of C programs told.
    waits: Vec<Wait>,
    /// Whether what they tell of waits isn't printed any more.
    drops_waits: bool,
}

impl Printer {
    /// Nothing was printed yet.
    pub fn new(alloc: Global, marks: bool) -> Printer {
        Printer {
            marks,
            output: SharedStream::new(),
            errors: SharedStream::new(),
            fault: None,
            waits: Vec::new(alloc),
            drops_waits: false,
        }
    }

    /// Lets what ranks of C programs tell of waits go unprinted from now on: they are ended for another reason.
    pub fn drop_waits(&mut self) {
        self.drops_waits = true;
    }

    /// The waits of which ranks of C programs told.
    pub fn waits(&self) -> &[Wait] {
        &self.waits
    }

    /// The stream that couldn't be written, and why, if there is one.
    pub fn fault(&self) -> Option<(Stream, io::Error)> {
        self.fault
    }

    /// Writes to a stream, and keeps why it can't be written.
    fn write(&mut self, stream: Stream, text: &[u8]) -> io::Result<()> {
        let written = write_all(stream.descriptor(), text);
        if let Err(error) = &written {
            self.fault = Some((stream, *error));
        }
        written
    }

    /// Prints what a rank wrote.
    pub fn print(
        &mut self,
        alloc: Global,
        stream: Stream,
        rank: usize,
        bytes: Vec<u8>,
    ) -> io::Result<()> {
        if bytes.is_empty() {
            return Ok(());
        }
        let bytes = match stream {
            Stream::Error if self.drops_waits => without_waits(alloc, rank, &bytes)?,
            Stream::Error => {
                add_waits(&mut self.waits, rank, &bytes)?;
                bytes
            }
            Stream::Output => bytes,
        };
        let marks = self.marks;
        let text = match stream {
            Stream::Output => self.output.write(alloc, rank, marks, bytes)?,
            Stream::Error => self.errors.write(alloc, rank, marks, bytes)?,
        };
        self.write(stream, &text)
    }

    /// Ends the line of a rank that has ended, where it stands unfinished at the stream's end.
    pub fn finish(&mut self, stream: Stream, rank: usize) -> io::Result<()> {
        let is_unfinished = match stream {
            Stream::Output => self.output.finish(rank),
            Stream::Error => self.errors.finish(rank),
        };
        if is_unfinished {
            self.write(stream, b"\n")?;
        }
        Ok(())
    }
}

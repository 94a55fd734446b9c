//! The connection to a host: the process that leads to the keeper there, what it is told, and what came of its reports.

use host_keepers::{OrderKind, push_order};
use std::alloc::Global;
use std::io::{ErrorKind, PipeReader, Read};
use std::os::fd::{AsRawFd, RawFd};
use std::process::{Child, ExitStatus, OpenProcess};
use std::{io, mem};

/// How many bytes are read at a time.
const ROOM: usize = 65_536;

/// How many bytes of an order there are at most.
const MOST_BYTES: usize = 16_777_216;

/// How many bytes a pipe takes at once that takes any: a write of so many never waits.
const PIPE_TAKES: usize = 4_096;

/// A connection to a host.
pub struct Link<P: OpenProcess> {
    child: Option<Child<P>>,
    output: Option<PipeReader>,
    errors: Option<P::Stderr>,
    /// What came of reports and wasn't taken in.
    reports: Vec<u8>,
    /// What is to be told, the part that was handed over included.
    orders: Vec<u8>,
    /// How much of it was handed over.
    handed: usize,
    /// Whether the keeper has spoken.
    is_ready: bool,
}

impl<P: OpenProcess + Drop> Drop for Link<P> {
    fn drop(self) {
        let Self {
            child,
            output,
            errors,
            reports,
            orders,
            handed: _,
            is_ready: _,
        } = self;
        drop(child);
        drop(output);
        drop(errors);
        drop(reports);
        drop(orders);
    }
}

impl<P: OpenProcess<Stdin: AsRawFd, Stderr: AsRawFd> + Drop> Link<P> {
    /// A connection that hasn't begun.
    pub fn new(alloc: Global) -> Link<P> {
        Link {
            child: None,
            output: None,
            errors: None,
            reports: Vec::new(alloc),
            orders: Vec::new(alloc),
            handed: 0,
            is_ready: false,
        }
    }

    /// Tells the keeper something of a rank, once it is there.
    pub fn order(&mut self, kind: OrderKind, rank: usize, bytes: &[u8]) -> io::Result<()> {
        if bytes.len() > MOST_BYTES {
            return Err(io::Error::from(ErrorKind::InvalidInput));
        }
        let rank = u16::try_from(rank).unwrap_or(u16::MAX);
        push_order(&mut self.orders, kind, rank, bytes)?;
        Ok(())
    }

    /// Lets what is to be told go untold.
    pub fn forget(&mut self) {
        self.orders.clear();
        self.handed = 0;
    }

    /// Whether it is to begin.
    pub fn is_wanted(&self) -> bool {
        self.child.is_none() && !self.orders.is_empty()
    }

    /// Whether it has begun, and the keeper hasn't spoken yet.
    pub fn is_beginning(&self) -> bool {
        self.child.is_some() && !self.is_ready
    }

    /// Whether it has begun.
    pub fn runs(&self) -> bool {
        self.child.is_some()
    }

    /// Whether its process closed what it writes to, and may have ended.
    pub fn is_closed(&self) -> bool {
        self.child.is_some() && self.output.is_none() && self.errors.is_none()
    }

    /// This process leads to the keeper, and this is its output.
    pub fn begins(&mut self, mut child: Child<P>, output: PipeReader) {
        self.output = Some(output);
        self.errors = child.stderr.take();
        self.child = Some(child);
        self.reports.clear();
        self.handed = 0;
        self.is_ready = false;
    }

    /// The keeper has spoken.
    pub fn is_there(&mut self) {
        self.is_ready = true;
    }

    /// The descriptor of what comes; -1 where that is closed.
    pub fn output_descriptor(&self) -> RawFd {
        match &self.output {
            Some(pipe) => pipe.as_raw_fd(),
            None => -1,
        }
    }

    /// The descriptor of what its process says itself; -1 where that is closed.
    pub fn error_descriptor(&self) -> RawFd {
        match &self.errors {
            Some(pipe) => pipe.as_raw_fd(),
            None => -1,
        }
    }

    /// The descriptor of what the keeper is told, where something is to be told; else -1.
    pub fn input_descriptor(&self) -> RawFd {
        if self.handed >= self.orders.len() {
            return -1;
        }
        match &self.child {
            Some(child) => match &child.stdin {
                Some(pipe) => pipe.as_raw_fd(),
                None => -1,
            },
            None => -1,
        }
    }

    /// Hands over some of what is to be told, where the pipe takes it. Where that can't be done the keeper is gone, or will
    /// be seen to be.
    pub fn hand_over(&mut self) {
        let fd = self.input_descriptor();
        if fd < 0 {
            return;
        }
        let (_, left) = self.orders.split_at(self.handed.min(self.orders.len()));
        let (some, _) = left.split_at(left.len().min(PIPE_TAKES));
        match usize::try_from(os::write_no_sigpipe(fd, some)) {
            Ok(count) => self.handed = self.handed.saturating_add(count),
            Err(_) if os::errno() == libc::EINTR || os::errno() == libc::EAGAIN => {}
            Err(_) => self.handed = self.orders.len(),
        }
        if self.handed >= self.orders.len() {
            self.forget();
        }
    }

    /// Reads what came of reports. Where they have ended they are closed.
    pub fn read(&mut self) -> io::Result<()> {
        let mut room = [0u8; ROOM];
        let Some(open) = &mut self.output else {
            return Ok(());
        };
        match open.read(&mut room) {
            Ok(0) => {
                self.output = None;
                Ok(())
            }
            Ok(count) => {
                self.reports.extend_from_slice(&room[..count])?;
                Ok(())
            }
            Err(error) if error.kind() == ErrorKind::Interrupted => Ok(()),
            Err(error) => Err(error),
        }
    }

    /// What came of reports.
    pub fn take_reports(&mut self, alloc: Global) -> Vec<u8> {
        mem::replace(&mut self.reports, Vec::new(alloc))
    }

    /// This is left of them.
    pub fn leave_reports(&mut self, alloc: Global, rest: &[u8]) -> io::Result<()> {
        self.reports = Vec::from_slice(alloc, rest)?;
        Ok(())
    }

    /// Reads what its process says itself. Where that has ended it is closed.
    pub fn read_errors(&mut self, alloc: Global) -> io::Result<Vec<u8>> {
        let mut room = [0u8; ROOM];
        let Some(open) = &mut self.errors else {
            return Ok(Vec::new(alloc));
        };
        match open.read(&mut room) {
            Ok(0) => {
                self.errors = None;
                Ok(Vec::new(alloc))
            }
            Ok(count) => Ok(Vec::from_slice(alloc, &room[..count])?),
            Err(error) if error.kind() == ErrorKind::Interrupted => Ok(Vec::new(alloc)),
            Err(error) => Err(error),
        }
    }

    /// How its process ended, if it has.
    pub fn look(&mut self) -> io::Result<Option<ExitStatus>> {
        match &mut self.child {
            Some(child) => child.try_wait(),
            None => Ok(None),
        }
    }

    /// Its process has ended, or is let be: the connection may begin anew. Answers the number of that process.
    pub fn ends(&mut self) -> Option<u32> {
        self.output = None;
        self.errors = None;
        self.reports.clear();
        self.forget();
        self.is_ready = false;
        let child = self.child.take()?;
        Some(child.id())
    }

    /// Nothing more is told: the keeper ends.
    pub fn close(&mut self) {
        self.forget();
        if let Some(child) = &mut self.child {
            drop(child.stdin.take());
        }
    }

    /// Kills its process.
    pub fn kill(&mut self) {
        if let Some(child) = &mut self.child {
            let _ = child.kill();
        }
    }
}

//! The standard input of this process, where rank 0 is on another host: it is handed on piece by piece, the next one once
//! the rank has taken the one before.

use libc::EINTR;
use std::os::fd::RawFd;

/// Standard input.
const INPUT: RawFd = 0;

/// How many bytes are handed on at a time.
pub const PIECE: usize = 65_536;

/// What is known of this process's standard input.
#[derive(Clone, Copy, Debug)]
pub struct OwnInput {
    /// Whether more of it may come.
    is_open: bool,
    /// Whether a piece is on its way that the rank hasn't taken.
    is_on_its_way: bool,
}

/// What was read.
#[derive(Clone, Copy, Debug)]
pub enum Read {
    /// Nothing now.
    Nothing,
    /// So many bytes.
    Bytes(usize),
    /// Its end.
    End,
}

/// Whether this process may read a terminal: one behind it would be stopped.
fn may_read() -> bool {
    libc::isatty(INPUT) == 0 || libc::tcgetpgrp(INPUT) == libc::getpgrp()
}

impl OwnInput {
    /// Nothing was read yet.
    pub fn new() -> OwnInput {
        OwnInput {
            is_open: true,
            is_on_its_way: false,
        }
    }

    /// Whether more of it may come.
    pub fn is_open(&self) -> bool {
        self.is_open
    }

    /// Where it is to be read now; -1 where it isn't.
    pub fn descriptor(&self) -> RawFd {
        if self.is_open && !self.is_on_its_way && may_read() {
            INPUT
        } else {
            -1
        }
    }

    /// The rank has taken what was on its way, or begins anew.
    pub fn is_taken(&mut self) {
        self.is_on_its_way = false;
    }

    /// Reads the next piece.
    pub fn read(&mut self, room: &mut [u8; PIECE]) -> Read {
        match usize::try_from(libc::read(INPUT, room)) {
            Ok(0) => {
                self.is_open = false;
                Read::End
            }
            Ok(count) => {
                self.is_on_its_way = true;
                Read::Bytes(count)
            }
            Err(_) if os::errno() == EINTR => Read::Nothing,
            Err(_) => {
                self.is_open = false;
                Read::End
            }
        }
    }
}

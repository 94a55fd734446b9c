//! How a user asks for the end of a job: the process that he started is gone, or it hands on a byte for each signal that
//! asks for it.

use crate::printing::is_ready;
use std::os::fd::RawFd;

/// What the process that launches knows of the one that the user started.
#[derive(Clone, Copy, Debug)]
pub struct Front {
    /// Its number.
    pub process: i32,
    /// Where its bytes come; -1 where it hands on none, and is ended by a signal itself.
    pub wire: RawFd,
}

/// How often the user has asked for the end of a job, and where more of it is heard.
#[derive(Clone, Copy, Debug)]
pub struct Wish {
    front: Front,
    /// Whether the process is gone that he started.
    is_gone: bool,
    requests: u32,
}

impl Wish {
    /// Nothing was asked for yet.
    pub fn new(front: Front) -> Wish {
        Wish {
            front,
            is_gone: false,
            requests: 0,
        }
    }

    /// How often he has asked.
    pub fn requests(&self) -> u32 {
        self.requests
    }

    /// The descriptor where more is heard; -1 where there is none.
    pub fn descriptor(&self) -> RawFd {
        self.front.wire
    }

    /// Takes in what he has asked for since.
    pub fn listen(&mut self) {
        if !self.is_gone && libc::getppid() != self.front.process {
            self.is_gone = true;
            self.requests = self.requests.saturating_add(1);
        }
        let mut room = [0u8; 16];
        if !is_ready(self.front.wire) {
            return;
        }
        match u32::try_from(libc::read(self.front.wire, &mut room)) {
            Ok(count) if count > 0 => self.requests = self.requests.saturating_add(count),
            _ => self.front.wire = -1,
        }
    }
}

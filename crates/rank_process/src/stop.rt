//! How a rank is told to stop.

use libc::net::{POLLERR, POLLHUP, POLLNVAL, poll};
use libc::types::pollfd;
use std::env::FillError;
use std::os::fd::RawFd;
use std::rt::Env;

/// Where this variable is set, whatever to, a rank stops once nobody holds the other end of its standard input.
const VARIABLE: &str = "RANK_STOPS_WITH_INPUT";

/// The standard input, where a rank that starts it holds the other end.
#[derive(Clone, Copy)]
pub(crate) struct StopInput {
    is_watched: bool,
}

impl StopInput {
    /// The standard input, which is watched where the environment says so.
    pub(crate) fn new(rt: &impl Env) -> StopInput {
        let mut room = [0u8; 1];
        StopInput {
            is_watched: match rt.var(VARIABLE, &mut room) {
                Ok(_) | Err(FillError::TooLong) => true,
                Err(FillError::NotPresent) => false,
            },
        }
    }

    /// What is watched, if it is.
    pub(crate) fn descriptor(self) -> Option<RawFd> {
        if self.is_watched { Some(0) } else { None }
    }

    /// Whether the other end is closed. What stands in the input isn't looked at.
    pub(crate) fn is_closed(self) -> bool {
        let Some(fd) = self.descriptor() else {
            return false;
        };
        let mut asked = [pollfd {
            fd,
            events: 0,
            revents: 0,
        }];
        poll(&mut asked, 0) > 0 && asked[0].revents & (POLLHUP | POLLERR | POLLNVAL) != 0
    }
}

//! Why a call or a message was refused.

use thiserror::Error;

/// Why a call or a message was refused. What it was called on is as it was.
#[derive(Clone, Copy, Debug, PartialEq, Eq, Error)]
pub enum CollectiveRefusal {
    /// The rank holds no communicator at the place (4).
    #[error("no such communicator")]
    NoCommunicator,
    /// The rank is in a collective (6).
    #[error("an earlier call is blocked")]
    Blocked,
    /// The rank holds as many communicators as it may, too few contexts are left to give, or no further collective may
    /// be entered on the communicator (13).
    #[error("a limit is reached")]
    Limit,
    /// A growth was refused (14).
    #[error("out of memory")]
    OutOfMemory,
    /// The message is none that a member sends (30).
    #[error("the message of a collective is malformed")]
    BadFrame,
}

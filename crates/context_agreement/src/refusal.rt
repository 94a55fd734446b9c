//! Why a call was refused.

use thiserror::Error;

/// Why a call was refused. What it was called on is as it was.
#[derive(Clone, Copy, Debug, PartialEq, Eq, Error)]
pub enum ContextRefusal {
    /// No serial is left, or the rank holds as many communicators as it may (13).
    #[error("a limit is reached")]
    Limit,
    /// A growth was refused (14).
    #[error("out of memory")]
    OutOfMemory,
}

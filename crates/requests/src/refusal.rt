//! Why a request could not be started.

use thiserror::Error;

/// Why a request could not be started.
#[derive(Clone, Copy, Debug, PartialEq, Eq, Error)]
pub enum RequestRefusal {
    /// 65,536 requests are there, or no serial is left (13).
    #[error("a limit is reached")]
    Limit,
    /// A growth was refused (14).
    #[error("out of memory")]
    OutOfMemory,
}

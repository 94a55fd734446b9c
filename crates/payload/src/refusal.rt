//! Why bytes are no payload, and why a payload could not be written.

use thiserror::Error;

/// Why a payload could not be read or written.
#[derive(Clone, Copy, Debug, PartialEq, Eq, Error)]
pub enum PayloadRefusal {
    /// A growth was refused (14).
    #[error("out of memory")]
    OutOfMemory,
    /// The bytes are no payload of a collective (30).
    #[error("the payload of a collective is malformed")]
    BadFrame,
}

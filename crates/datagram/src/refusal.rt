//! Why bytes are no datagram, and why a datagram could not be written.

use thiserror::Error;

/// Why a datagram could not be read or written.
#[derive(Clone, Copy, Debug, PartialEq, Eq, Error)]
pub enum DatagramRefusal {
    /// A growth was refused (14).
    #[error("out of memory")]
    OutOfMemory,
    /// There are fewer than 32 bytes (21).
    #[error("fewer than 32 bytes")]
    Short,
    /// The first four bytes are not the magic (22).
    #[error("the magic differs")]
    Magic,
    /// The version is not 2 (23).
    #[error("the version is not 2")]
    Version,
    /// The kind is unknown (24).
    #[error("no such kind")]
    Kind,
    /// The length is not that of the body, or no body of the kind has it (25).
    #[error("the body length is wrong")]
    Length,
    /// The body is no frame, or it or the sequence is none of its kind (30).
    #[error("the body is no frame")]
    BadFrame,
}

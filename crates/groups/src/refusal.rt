//! Why a group could not be made.

use thiserror::Error;

/// Why a group could not be made. The groups that it was to be made of are as they were.
#[derive(Clone, Copy, Debug, PartialEq, Eq, Error)]
pub enum GroupRefusal {
    /// A position that the group doesn't have (5).
    #[error("no such position")]
    NoSuchPosition,
    /// A position or a rank that is listed twice (8).
    #[error("a position or a rank is repeated")]
    Repeated,
    /// A growth was refused (14).
    #[error("out of memory")]
    OutOfMemory,
}

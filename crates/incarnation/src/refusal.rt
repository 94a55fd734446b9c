//! Why a datagram is not handled, and why a call was refused.

use thiserror::Error;

/// Why a datagram is not handled, or a call was refused.
#[derive(Clone, Copy, Debug, PartialEq, Eq, Error)]
pub enum IncarnationRefusal {
    /// There is no further incarnation (13).
    #[error("a limit is reached")]
    Limit,
    /// A growth was refused (14).
    #[error("out of memory")]
    OutOfMemory,
    /// The datagram is of another job (26).
    #[error("the datagram is of another job")]
    ForeignJob,
    /// The datagram is for another rank or for a later incarnation of this one, or it comes from no
    /// other rank of the job (27).
    #[error("the datagram is not for this rank")]
    NotForMe,
    /// The datagram comes from a former incarnation of its source (28).
    #[error("the datagram comes from a former incarnation")]
    StaleSource,
    /// The datagram is for a former incarnation of this rank (29).
    #[error("the datagram is for a former incarnation")]
    StaleTarget,
}

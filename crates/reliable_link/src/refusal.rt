//! Why a link refused.

use thiserror::Error;

/// Why an end of a link refused.
#[derive(Clone, Copy, Debug, PartialEq, Eq, Error)]
pub enum LinkRefusal {
    /// There is no number left: numbers have 64 bits and never come round (13).
    #[error("a limit is reached")]
    Limit,
    /// A growth was refused (14).
    #[error("out of memory")]
    OutOfMemory,
    /// The number is above what may come: a frame later than the next one, or an acknowledgement
    /// of a frame that never came into the window (31).
    #[error("the sequence is outside the window")]
    OutOfWindow,
    /// The time is below that of the last tick (41).
    #[error("the clock went back")]
    ClockBack,
}

/// A refusal, with what was handed in to be kept.
#[derive(Drop)]
pub struct NotKept<T> {
    /// Why it was refused.
    pub refused: LinkRefusal,
    /// What was handed in.
    pub value: T,
}

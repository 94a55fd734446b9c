//! Moves of a schedule.

/// What a schedule says next.
#[derive(Clone, Copy, Debug, PartialEq, Eq)]
pub enum Move {
    /// The runner of this rank goes on, where it may.
    Go(u16),
    /// The datagram of this number is delivered.
    Deliver(usize),
    /// The clock of this rank says this many milliseconds.
    Tick(u16, u64),
}

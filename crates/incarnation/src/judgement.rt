//! What becomes of a datagram that is meant for this process.

/// What a datagram's header says of its source, where it is not refused.
#[derive(Clone, Copy, Debug, PartialEq, Eq)]
pub enum Judgement {
    /// The source is at the incarnation at which its rank is known.
    Current,
    /// The source is at this incarnation, which is above the one at which its rank is known: it is
    /// to be learnt before the datagram is handled.
    Learn(u16),
}

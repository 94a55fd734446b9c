//! What passes between a rank and its transport.

use datagram::Bytes;

/// One thing that passed between a rank and its transport.
#[derive(Drop)]
pub enum Exchange {
    /// The transport gave this datagram.
    Received(Bytes),
    /// A receive found that no datagram is there.
    Nothing,
    /// The transport took this datagram, to carry it to this rank.
    Sent(u16, Bytes),
    /// The transport took this line.
    Printed(Bytes),
    /// The transport waited for a datagram, for so many milliseconds at most.
    Waited(u64),
    /// A call of the transport failed.
    Failed,
}

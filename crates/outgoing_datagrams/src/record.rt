//! What is told of the datagrams that go out together.

use std::default::Default;

/// What goes out together.
#[repr(C)]
#[derive(Clone, Copy, Debug, Default, PartialEq, Eq)]
pub struct OutgoingRecord {
    /// When the acknowledgement goes that is kept back, in nanoseconds; 0 where none is.
    pub kept_until: u64,
    /// The length of each datagram but the last, in bytes.
    pub each: u32,
    /// How many datagrams there are.
    pub count: u32,
    /// The rank that they go to.
    pub target: u16,
}

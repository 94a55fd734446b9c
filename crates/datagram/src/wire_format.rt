//! The lengths and fixed fields of the format. Reading and writing take them from here.

use vocabulary::{EAGER_LIMIT, GREATEST_FRAME};

/// The first four bytes of every datagram.
pub(crate) const MAGIC: u32 = 0x4d50_5544;

/// The version of the format.
pub(crate) const VERSION: u8 = 2;

/// The length of a header, in bytes.
pub(crate) const HEADER_BYTES: usize = 32;

/// The length of an acknowledgement's body, in bytes.
pub(crate) const HELD_BYTES: usize = 8;

/// The length of an acknowledgement, in bytes.
pub const ACK_BYTES: usize = HEADER_BYTES + HELD_BYTES;

/// The length of what an EAGER and an RTS begin with, in bytes, the first byte counted. An EAGER has the elements behind
/// it.
pub(crate) const OPENING_BYTES: usize = 20;

/// The length of an RTS, in bytes.
pub(crate) const REQUEST_BYTES: usize = 24;

/// The length of a CTS, in bytes.
pub(crate) const CLEAR_BYTES: usize = 8;

/// The length of a DATA frame without its data, in bytes.
pub(crate) const DATA_BYTES: usize = 12;

/// By how many bytes a body may be longer than the data that a frame of the job has at most.
pub(crate) const BODY_BEYOND_DATA: usize = 176;

/// The length of the longest datagram of a job of scripts, in bytes.
pub const LONGEST_DATAGRAM: usize = HEADER_BYTES + BODY_BEYOND_DATA + EAGER_LIMIT;

/// The length of the longest datagram of any job, in bytes.
pub const GREATEST_DATAGRAM: usize = HEADER_BYTES + BODY_BEYOND_DATA + GREATEST_FRAME;

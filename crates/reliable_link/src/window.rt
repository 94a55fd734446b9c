//! The window of a link, and how long a frame waits for its acknowledgement.

/// So many frames are out at one time at most, and so many from the next one on may come (our own). Each of them has a
/// bit of an acknowledgement.
pub const WINDOW: usize = 64;

/// So many milliseconds a frame waits for its acknowledgement before it is sent again, where nothing else is said (our
/// own).
pub const USUAL_WAIT: u64 = 20;

//! How many bytes may be on their way to each rank of a job: a budget, and a congestion window within it (RFC 5681:
//! slow start, additive growth, halved at a loss), learned from the datagrams that go out and come alone.
//!
//! What has no room in its window is deferred: it isn't sent yet. Nothing is kept here, since whoever sends has it.
#![tactic(auto)]

mod flight;
mod limits;
mod window;
mod windows;

pub use crate::flight::{Flight, TimedOut};
pub use crate::limits::WindowLimits;
pub use crate::window::CongestionWindow;
pub use crate::windows::CongestionWindows;

//! How long frames take to their ranks and back, and how long a frame is to wait for its acknowledgement by that (RFC
//! 6298): learned from the datagrams that go out and come alone. What
//! the engines of one process learn they may share (`lateness`), and so many are told at once that frames may go again
//! (`turns`).
#![tactic(auto)]

mod estimate;
mod lateness;
mod round_trip;
mod round_trips;
mod turns;

pub use crate::estimate::{
    Estimate, FIRST_WAIT, LEAST_WAIT, MOST_WAIT, stay_for, stay_near, wait_by,
};
pub use crate::lateness::Lateness;
pub use crate::round_trip::{Gap, RoundTrip, TimedFrame};
pub use crate::round_trips::RoundTrips;
pub use crate::turns::told_at_once;

//! Running a file of events in a world, and the lines that it prints: each is stated byte by byte.
#![tactic(auto)]

mod calls;
mod error;
mod event_printing;
mod files;
mod lines;
mod rank_table;
mod ranks;
mod running;

pub use error::SimulateError;
pub use files::{Stopped, simulate, simulate_or_tell};
pub use lines::{
    print_completion, print_datagram, print_position, print_refusal, print_reply, print_taken,
};
pub use running::Simulation;

//! What is to be told of a play: what each rank printed, how it ended or whom it waits for, how its collectives were
//! entered, which request nobody waited for, which message nobody received, and which send a message is of.
#![tactic(auto)]

mod asking;
mod ending;
mod faults;
mod operations;
mod outcome;
mod printed;
mod report;
mod started;
mod teller;

pub use ending::{Verdict, verdict_of};
pub use outcome::{Outcome, outcome_of};
pub use report::{Report, report_of};

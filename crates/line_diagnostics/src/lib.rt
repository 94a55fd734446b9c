//! What is told of a faulty line: why it is faulty, and the text of the line.
//!
//! A reader of files answers the number of its first faulty line, and a runner of statements the number of the line
//! that can't be followed. Why that is so is found here, from the text and from what the names of the rank stand for.
//! The messages are this project's own.
#![tactic(auto)]

mod fault;
mod holder;
mod lacks;
mod messages;
mod out_of_range;
mod reading;
mod verbs;

pub use fault::LineFault;
pub use holder::{Holder, Slot};
pub use lacks::{lack_of_action, lack_of_statement};
pub use messages::{explanation, gave_up_at, gave_up_behind};
pub use reading::{event_fault, line_at, script_fault};

//! Which of the launcher's words is at fault, and what is told of it on the standard error behind the refusal's number.
#![tactic(auto)]

mod due;
mod explanation;
mod fault;
mod usage;

pub use due::Due;
pub use explanation::{Explanation, explain};
pub use fault::{LaunchFault, fault_place};

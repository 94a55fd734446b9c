//! What the launcher and its keepers decide: what a program's end means, how a rank is started and started again, which
//! rank's failure ends a job, and the status of all.
#![tactic(auto)]

mod commands;
mod ending;
mod failure;
mod grace;
mod request;
mod start;

pub use commands::{keeper_commands, start_command};
pub use ending::{ending_by, ending_of};
pub use failure::{AbortLine, Failure, ended, first_failure};
pub use grace::{GRACE, is_grace_over};
pub use request::{LaunchRequest, request_of};
pub use start::{Next, Start};

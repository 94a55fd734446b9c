//! The launcher's words: what the words of `mpiexec` ask for.
#![tactic(auto)]

mod configuration;
mod copies;
mod cut;
mod given_options;
mod opening;
mod outcome;
mod plan;
pub mod planning;
mod process_set;
mod refusal;
mod sets;
mod spelling;
mod stage;
mod symbol;
mod validation;

pub use opening::config_name;
pub use outcome::LaunchOutcome;
pub use plan::Plan;
pub use process_set::ProcessSet;
pub use refusal::LaunchRefusal;
pub use spelling::spelled_out;

//! Running the script of a rank, line after line: what each line asks of the rank and what is printed; at which line the
//! script stands, and why it can't go on.
#![tactic(auto)]

mod lines;
mod position;
mod runner;
mod script_rank;

pub use position::{line_of_number, line_taken_last};
pub use runner::ScriptRunner;
pub use script_rank::ScriptRank;

//! The program `mpiexplore`: its words, its files, and what it prints.
#![tactic(auto)]

mod exploring;
mod faults;
mod running;
mod summary;
mod synchronous;
mod words;
mod writing;

pub use exploring::{Explored, Extent, Progress, ToldResult, explore};
pub use running::{run, run_words};
pub use summary::{summary_of, summary_of_synchronous};
pub use synchronous::PlayedText;
pub use words::{Sends, Settings, explore_program, settings_in};

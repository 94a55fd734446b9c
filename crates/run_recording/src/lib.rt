//! Running a file of events, and keeping what happens as a picture.
#![tactic(auto)]

mod follower;
mod printed;
mod statement_lines;

pub use follower::{Recording, record};

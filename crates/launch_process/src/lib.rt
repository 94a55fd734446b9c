//! The launcher and its keepers as processes (MPI 3.1, 8.8; docs/LAUNCHING.md). What the program `mpiexec` does, apart
//! from its `main`, so that a program of worked rows can run it too.
#![tactic(auto)]

mod child;
mod command;
mod ending;
mod gathering;
mod keeper;
mod launcher;
mod reports;

pub use crate::command::{run, run_words};

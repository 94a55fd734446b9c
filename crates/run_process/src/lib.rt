//! `mpirun` as processes (docs/LAUNCHING.md): what the program does, apart from its `main`.
//!
//! The process that a user starts, the front, waits for another one, which launches: that one ignores what a terminal
//! sends to all its processes, and sees by its parent that the front is gone. Where the front is the program of
//! bindings/launcher it lives on, and hands on each signal as a byte. A guard, a shell, is told which programs run, and
//! kills them where the launching process goes away.
#![tactic(auto)]

mod allocation;
mod claim;
mod command;
mod front;
mod guard;
mod job;
mod job_hosts;
mod keeper;
mod kept;
mod kept_words;
mod link;
mod own_input;
mod own_machine;
mod own_words;
mod printing;
mod rank;
mod set_files;
mod setup;
mod shell;
mod sought;
mod waits;
mod wish;

pub use crate::command::{run, run_words};

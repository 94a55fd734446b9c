//! One rank of a job, as a process: it runs a script, and meets the other ranks over UDP. What the program `rank_main`
//! does, apart from its `main`, so that a program of worked rows can run it too.
#![tactic(auto)]

mod beginning;
mod clock;
mod command;
mod environment;
mod error_kinds;
mod exit_status;
mod failing;
mod farewell;
mod judging;
mod places;
mod rank_transport;
mod stay;
mod stop;
mod telling;
mod told_runner;
mod udp_wire;

pub use crate::command::{run, run_words};

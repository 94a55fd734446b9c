//! One rank of a job, as a process: it runs a script, and meets the other ranks over UDP on 127.0.0.1.
//!
//! `rank_main --rank r --size n --inc i --job j --port p [--patience ms] FILE`. Its status is 0 where the script ended,
//! 1 where it is faulty or can't be read, 2 where the words are wrong, 3 where the socket or the output failed, 4 where
//! its patience was over, 5 where the script says so, and 6 where memory was wanting. docs/SCRIPTS.md has the rest.
#![tactic(auto)]

use std::process::ExitCode;

fn main(rt: HostRuntime) -> ExitCode {
    ExitCode::from(rank_process::run(&rt))
}

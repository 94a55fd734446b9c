//! `mpirun`: starts the ranks of a job on this machine with their places in the environment, and prints what they write
//! as it comes (docs/LAUNCHING.md).
#![tactic(auto)]

use std::process::ExitCode;

fn main(rt: HostRuntime) -> ExitCode {
    ExitCode::from(run_process::run(&rt))
}

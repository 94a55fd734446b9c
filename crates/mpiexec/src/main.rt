//! `mpiexec`: starts the ranks of a job on this machine, keeps each of them, and prints what they
//! wrote (MPI 3.1, 8.8; docs/LAUNCHING.md).
#![tactic(auto)]

use std::process::ExitCode;

fn main(rt: HostRuntime) -> ExitCode {
    ExitCode::from(launch_process::run(&rt))
}

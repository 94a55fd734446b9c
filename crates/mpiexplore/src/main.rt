//! `mpiexplore`: plays a script under many schedules, and tells what can come of it.
//!
//! `mpiexplore -n N [OPTION ..] SCRIPT`. Its status is 0 where no schedule that was played has an error, a request or a
//! message that is left over, or a rank that isn't through, 1 where one has or the script is faulty or can't be read, 2
//! where the words are wrong, 3 where the output fails, and 6 for want of memory. docs/EXPLORING.md has the rest.
#![tactic(auto)]

use std::io::IsTerminal;
use std::process::ExitCode;

fn main(rt: HostRuntime) -> ExitCode {
    let tells = rt.stderr().is_terminal();
    ExitCode::from(explore_process::run(&rt, tells))
}

//! How a job ends whose end was asked for.

ghost use Rattle.std.specs.Prelude.{◌≡◌};
ghost use Rattle.run_plan.specs.Endings.{end_step};

use launch_decisions::{GRACE, is_grace_over};

/// How many milliseconds behind that programs which don't end are waited for, though they were killed.
pub const LAST_WAIT: u64 = 5_000;

/// What a launcher does for the end of its job.
#[derive(Clone, Copy, Debug, PartialEq, Eq)]
pub enum EndStep {
    /// Nothing: the programs run, or have time to end.
    Wait,
    /// It asks them to end.
    Ask,
    /// It kills them.
    Kill,
    /// It leaves those that don't end though they were killed.
    Leave,
}

/// What follows where the user has asked so often for the end of a job, and its programs were asked to end so many
/// milliseconds ago, if they were.
pub fn end_step(requests: u32, passed: Option<u64>) -> EndStep
    ensures { result ≡ end_step requests passed }
{
    let Some(passed) = passed else {
        return if requests == 0 {
            EndStep::Wait
        } else {
            EndStep::Ask
        };
    };
    if GRACE + LAST_WAIT <= passed {
        EndStep::Leave
    } else if is_grace_over(passed) || requests >= 2 {
        EndStep::Kill
    } else {
        EndStep::Wait
    }
}

//! What became of a launch, and the status that the launcher ends with.

ghost use Rattle.std.specs.Prelude.{◌≡◌};
ghost use Rattle.launch_plan.specs.Statuses.{status_of_outcome};

use crate::refusal::LaunchRefusal;

/// What became of a launch.
#[derive(Clone, Copy)]
pub enum LaunchOutcome {
    /// All ranks ended; the lowest one whose last status isn't 0 had this one, or it is 0.
    Ended(u8),
    /// The words were refused, and nothing was started.
    Refused(LaunchRefusal),
    /// A keeper couldn't be started or didn't tell what became of its rank, an output failed, or
    /// memory ran out.
    Failed,
}

impl LaunchOutcome {
    /// The status that the launcher ends with: 2 for refused words, 3 where the launch failed.
    pub fn status(self) -> u8
        ensures { result ≡ status_of_outcome self }
    {
        match self {
            LaunchOutcome::Ended(status) => status,
            LaunchOutcome::Refused(_) => 2,
            LaunchOutcome::Failed => 3,
        }
    }
}

//! The statuses of programs, of ranks and of a launch.

ghost use Rattle.std.specs.Prelude.{◌≡◌, ◌==◌, not};
ghost use Rattle.launch_keeper.specs.Statuses.{status_of_ending, launch_status};

/// How a rank's program ended.
#[derive(Clone, Copy)]
pub enum ProgramEnding {
    /// It couldn't be started.
    NotStarted,
    /// It ended without a status, and it isn't known why.
    WithoutStatus,
    /// A signal of this number ended it, so that it has no status.
    Signal(u8),
    /// It ended with this status.
    Status(u8),
}

impl ProgramEnding {
    /// The status that the ending counts as: 127 for a program that couldn't be started, 128 for one
    /// that ended without a status.
    pub fn status(self) -> u8
        ensures { result ≡ status_of_ending self }
    {
        match self {
            ProgramEnding::NotStarted => 127,
            ProgramEnding::WithoutStatus | ProgramEnding::Signal(_) => 128,
            ProgramEnding::Status(status) => status,
        }
    }

    /// Whether the ending counts as a failure, which is told: its status isn't 0.
    pub fn is_failure(self) -> bool
        ensures { result ≡ not (status_of_ending self == 0) }
    {
        self.status() != 0
    }
}

/// The status of a launch whose ranks, in their order, had these last statuses: that of the lowest
/// rank whose status isn't 0, else 0.
pub fn launch_status(statuses: &[u8]) -> u8
    ensures { result ≡ launch_status statuses.now }
{
    for status in statuses {
        if *status != 0 {
            return *status;
        }
    }
    0
}

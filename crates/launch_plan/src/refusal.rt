//! Why the launcher's words can't be followed.

ghost use Rattle.std.specs.Prelude.{◌≡◌};
ghost use Rattle.launch_plan.specs.declared.refusal.LaunchRefusal.TheVariants.{OutOfMemory};
ghost use Rattle.launch_plan.specs.Refusals.{number_of_refusal};

use std::alloc::{AllocError, AllocFailed};
use thiserror::Error;

/// Why words were refused: the first fault from left to right, or want of memory.
#[derive(Clone, Copy, Debug, PartialEq, Eq, Error)]
pub enum LaunchRefusal {
    /// A growth was refused: 14.
    #[error("out of memory")]
    OutOfMemory,
    /// No set at all, or an empty set before, between or after `:`: 52.
    #[error("a set is missing")]
    NoSet,
    /// An unknown, repeated or misplaced option; words after the configuration file's name; a word
    /// `:` in a configuration file: 53.
    #[error("an option is unknown, repeated or misplaced")]
    WrongOption,
    /// An option's value is missing or out of its range: 54.
    #[error("an option's value is missing or out of its range")]
    WrongValue,
    /// A program without `-n` before it in its set: 55.
    #[error("a program without -n before it")]
    NoCount,
    /// A set ends without a program: 56.
    #[error("a set ends without a program")]
    NoProgram,
    /// More than 1,024 ranks, or a port above 65,535: 57.
    #[error("too many ranks, or a port above 65535")]
    OverLimit,
    /// One of the options of MPI 3.1, 8.8 that this launcher leaves out: 58.
    #[error("an option that is left out")]
    LeftOut,
    /// The configuration file can't be read: 59.
    #[error("the configuration file can't be read")]
    UnreadableFile,
}

impl LaunchRefusal {
    /// The number of this refusal: 14, or 52 to 59.
    pub fn number(self) -> u8
        ensures { result ≡ number_of_refusal self }
    {
        match self {
            LaunchRefusal::OutOfMemory => 14,
            LaunchRefusal::NoSet => 52,
            LaunchRefusal::WrongOption => 53,
            LaunchRefusal::WrongValue => 54,
            LaunchRefusal::NoCount => 55,
            LaunchRefusal::NoProgram => 56,
            LaunchRefusal::OverLimit => 57,
            LaunchRefusal::LeftOut => 58,
            LaunchRefusal::UnreadableFile => 59,
        }
    }
}

impl From<AllocError> for LaunchRefusal {
    ghost from_gives = { λ _ e. e ≡ OutOfMemory };

    fn from(_error: AllocError) -> LaunchRefusal {
        LaunchRefusal::OutOfMemory
    }
}

impl<T: Drop> From<AllocFailed<T>> for LaunchRefusal {
    ghost from_gives = { λ _ e. e ≡ OutOfMemory };

    fn from(_error: AllocFailed<T>) -> LaunchRefusal {
        LaunchRefusal::OutOfMemory
    }
}

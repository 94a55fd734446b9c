//! Which rank's failure ends a job, and the status of all.

ghost use Rattle.std.specs.Prelude.{◌≡◌};
ghost use Rattle.launch_decisions.specs.Failures.{after_end, ended};

use launch_keeper::launch_status;
use launch_plan::LaunchOutcome;
use std::fmt;

/// A rank that ended for good with a status other than 0.
#[derive(Clone, Copy, Debug, PartialEq, Eq)]
pub struct Failure {
    /// The rank.
    pub rank: u16,
    /// Its last status, 1 to 255.
    pub status: u8,
}

/// The first failure of a job, once this rank has ended for good with this status, where `before` was the first one of
/// those that ended before it: the failure that began, which no later one takes the place of.
pub fn first_failure(before: Option<Failure>, rank: u16, status: u8) -> Option<Failure>
    ensures { result ≡ after_end before rank status }
{
    match before {
        Some(failure) => Some(failure),
        None if status != 0 => Some(Failure { rank, status }),
        None => None,
    }
}

/// What became of a launch whose ranks, in their order, had these last statuses: its status is that of the failure for
/// which the others were ended, or else that of the lowest rank whose status isn't 0, or 0.
pub fn ended(statuses: &[u8], began: Option<Failure>) -> LaunchOutcome
    ensures { result ≡ ended statuses.now began }
{
    match began {
        Some(failure) => LaunchOutcome::Ended(failure.status),
        None => LaunchOutcome::Ended(launch_status(statuses)),
    }
}

/// The line of a launch whose other ranks are ended, since this one failed for good.
#[derive(Clone, Copy)]
pub struct AbortLine {
    /// The rank that failed.
    pub rank: u16,
}

impl fmt::Display for AbortLine {
    ghost use Rattle.std.specs.Prelude.{Some};
    ghost use Rattle.launch_decisions.specs.Failures.{abort_line};

    ghost output = { λ a. Some (abort_line a.rank) };

    fn fmt<W: fmt::Write>(&self, f: &mut fmt::Formatter<W>) -> fmt::Result {
        let rank = self.rank;
        write!(
            f,
            "mpiexec: the other ranks are ended, since rank {rank} failed"
        )
    }
}

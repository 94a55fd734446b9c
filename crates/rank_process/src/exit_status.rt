//! With what the program of a rank ends.

ghost use Rattle.std.specs.Prelude.{◌≡◌};
ghost use Rattle.rank_process.specs.Endings.{ending_of, number_of};

use event_loop::{Ended, TransportFault};

/// With what the program of a rank ends (docs/NUMBERS.md has the numbers).
#[derive(Clone, Copy, Debug, PartialEq, Eq)]
pub enum ExitStatus {
    /// Its loop ended with this status: that of its script, or that of a patience that was over.
    Ended(u8),
    /// The script is faulty or can't be read.
    NoScript,
    /// The words are wrong.
    WrongWords,
    /// The socket or the output failed.
    TransportFailed,
    /// Memory was refused at the start. A script to which memory is refused ends with the same status.
    OutOfMemory,
    /// Whoever started it told it to stop.
    Stopped,
}

impl ExitStatus {
    /// The status of the process.
    pub fn number(self) -> u8
        ensures { result ≡ number_of self }
    {
        match self {
            ExitStatus::Ended(status) => status,
            ExitStatus::NoScript => 1,
            ExitStatus::WrongWords => 2,
            ExitStatus::TransportFailed => 3,
            ExitStatus::OutOfMemory => 6,
            ExitStatus::Stopped => 7,
        }
    }

    /// How a rank ends whose loop ended so, and what was kept back then went so. Where the loop failed, it `is_stopped`
    /// where it was told to stop.
    pub fn of_ending(
        ended: Result<Ended, TransportFault>,
        last: Result<(), TransportFault>,
        is_stopped: bool,
    ) -> ExitStatus
        ensures { result ≡ ending_of ended last is_stopped }
    {
        match (ended, last) {
            (Ok(ended), Ok(())) => ExitStatus::Ended(ended.status()),
            (Ok(_), Err(_)) => ExitStatus::TransportFailed,
            (Err(_), _) => if is_stopped {
                ExitStatus::Stopped
            } else {
                ExitStatus::TransportFailed
            },
        }
    }
}

//! Why a rank's loop failed.

ghost use Rattle.std.specs.Prelude.{◌≡◌};
ghost use Rattle.rank_process.specs.Faults.{failing_of};

/// Why a rank's loop failed.
#[derive(Clone, Copy, Debug, PartialEq, Eq)]
pub enum Failing {
    /// It was told to stop.
    Stop,
    /// A line couldn't be written.
    Output,
    /// A datagram couldn't be sent or received.
    Socket,
}

impl Failing {
    /// Why the loop of a rank failed that was told to stop or not, and whose line was lost or not.
    pub fn of_rank(is_stopped: bool, has_lost_line: bool) -> Failing
        ensures { result ≡ failing_of is_stopped has_lost_line }
    {
        if is_stopped {
            Failing::Stop
        } else if has_lost_line {
            Failing::Output
        } else {
            Failing::Socket
        }
    }
}

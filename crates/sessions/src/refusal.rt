//! Why the sessions refused an event.

ghost use Rattle.std.specs.Prelude.{◌≡◌};
ghost use Rattle.sessions.specs.Refusals.{of_datagram, of_judging};

use std::fmt;
use thiserror::Error;

/// Why the sessions refused an event.
#[derive(Clone, Copy, Debug, PartialEq, Eq, Error)]
pub enum SessionRefusal {
    /// No such rank.
    Rank,
    /// A limit is reached.
    Limit,
    /// A growth was refused.
    OutOfMemory,
    /// Fewer bytes than a header has.
    Short,
    /// The bytes do not begin as a datagram does.
    Magic,
    /// The version is another.
    Version,
    /// There is no such kind of datagram.
    Kind,
    /// The body has another length than the header says, or one that its kind cannot have.
    Length,
    /// The datagram is of another job.
    ForeignJob,
    /// The datagram is for another rank or for a later incarnation of this one, or comes from no other rank of the job.
    NotForMe,
    /// The datagram comes from a former incarnation of its source. MPI 3.1 has no restarts of a rank: this rule and the
    /// next are this project's own.
    StaleSource,
    /// The datagram is for a former incarnation of this rank. A reset tells its source so, unless it is one itself.
    StaleTarget,
    /// The body is no frame.
    BadFrame,
    /// The sequence is outside the window.
    OutOfWindow,
    /// The clock went back.
    ClockBack,
}

impl fmt::Display for SessionRefusal {
    // One text is written, whichever it is. A message at each variant would be a step of its own there, with a proof
    // that grows by the square of their number.
    fn fmt<W: fmt::Write>(&self, f: &mut fmt::Formatter<W>) -> fmt::Result {
        f.write_str(match self {
            SessionRefusal::Rank => "there is no such rank",
            SessionRefusal::Limit => "a limit is reached",
            SessionRefusal::OutOfMemory => "out of memory",
            SessionRefusal::Short => "fewer than 32 bytes",
            SessionRefusal::Magic => "the magic differs",
            SessionRefusal::Version => "the version is another",
            SessionRefusal::Kind => "there is no such kind",
            SessionRefusal::Length => "the body length is wrong",
            SessionRefusal::ForeignJob => "the datagram is of another job",
            SessionRefusal::NotForMe => "the datagram is not for this rank",
            SessionRefusal::StaleSource => "the datagram comes from a former incarnation",
            SessionRefusal::StaleTarget => "the datagram is for a former incarnation",
            SessionRefusal::BadFrame => "the body is no frame",
            SessionRefusal::OutOfWindow => "the sequence is outside the window",
            SessionRefusal::ClockBack => "the clock went back",
        })
    }
}

impl SessionRefusal {
    /// The refusal of bytes that are no datagram.
    pub(crate) fn of_datagram(refused: datagram::DatagramRefusal) -> SessionRefusal
        ensures { result ≡ of_datagram refused }
    {
        match refused {
            datagram::DatagramRefusal::OutOfMemory => SessionRefusal::OutOfMemory,
            datagram::DatagramRefusal::Short => SessionRefusal::Short,
            datagram::DatagramRefusal::Magic => SessionRefusal::Magic,
            datagram::DatagramRefusal::Version => SessionRefusal::Version,
            datagram::DatagramRefusal::Kind => SessionRefusal::Kind,
            datagram::DatagramRefusal::Length => SessionRefusal::Length,
            datagram::DatagramRefusal::BadFrame => SessionRefusal::BadFrame,
        }
    }

    /// The refusal of a datagram by its endpoints.
    pub(crate) fn of_judging(refused: incarnation::IncarnationRefusal) -> SessionRefusal
        ensures { result ≡ of_judging refused }
    {
        match refused {
            incarnation::IncarnationRefusal::Limit => SessionRefusal::Limit,
            incarnation::IncarnationRefusal::OutOfMemory => SessionRefusal::OutOfMemory,
            incarnation::IncarnationRefusal::ForeignJob => SessionRefusal::ForeignJob,
            incarnation::IncarnationRefusal::NotForMe => SessionRefusal::NotForMe,
            incarnation::IncarnationRefusal::StaleSource => SessionRefusal::StaleSource,
            incarnation::IncarnationRefusal::StaleTarget => SessionRefusal::StaleTarget,
        }
    }
}

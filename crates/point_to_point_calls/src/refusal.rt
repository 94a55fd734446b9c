//! Why a rank refused an event.

ghost use Rattle.std.specs.Prelude.{◌≡◌};
ghost use Rattle.point_to_point_calls.specs.Refusals.{number_of_refusal, of_datagram};

use std::fmt;
use thiserror::Error;

/// Why a rank refused an event, by whichever half of its engine. A refused event is none: the engine is as it was, but
/// for the reset that goes out with `StaleTarget`.
#[derive(Clone, Copy, Debug, PartialEq, Eq, Error)]
pub enum Refusal {
    /// More data than a send or a block of a collective may have, a buffer too short for its layout and number of
    /// copies, or a scatter's root that hands in another number of elements than a block for each member (MPI 3.1,
    /// ERR_COUNT).
    Count,
    /// Buffer and layout are of different basic types, a receive names a place twice, or a scatter's root hands in
    /// elements of another type than its blocks (ERR_TYPE, 3.3.1, 4.1.11 and 5.6).
    WrongType,
    /// A tag above 2,147,483,647, or the wildcard in a send (ERR_TAG).
    Tag,
    /// MPI_COMM_NULL, or no communicator that the rank holds (ERR_COMM).
    Communicator,
    /// No such rank, or any rank in a send (ERR_RANK).
    Rank,
    /// No such request, one twice in a list, a cancel of a send or of the null request, or any call while an earlier
    /// one is blocked (ERR_REQUEST).
    Request,
    /// A collective names a root that is no rank in the communicator (ERR_ROOT).
    Root,
    /// The operation isn't defined on the type (ERR_OP, 5.9.2).
    Operation,
    /// A member of the communicator was started anew. MPI 3.1 has no restarts of a rank: this rule is this project's
    /// own.
    Replaced,
    /// A limit is reached.
    Limit,
    /// A growth was refused.
    OutOfMemory,
    /// Fewer bytes than a header has.
    Short,
    /// The bytes do not begin as a datagram does.
    Magic,
    /// The version is another.
    Version,
    /// There is no such kind of datagram.
    Kind,
    /// The body has another length than the header says, or one that its kind cannot have.
    Length,
    /// The datagram is of another job.
    ForeignJob,
    /// The datagram is for another rank or for a later incarnation of this one, or comes from no other rank of the job.
    NotForMe,
    /// The datagram comes from a former incarnation of its source. MPI 3.1 has no restarts of a rank: this rule and the
    /// next are this project's own.
    StaleSource,
    /// The datagram is for a former incarnation of this rank. A reset tells its source so, unless it is one itself.
    StaleTarget,
    /// The body is no frame.
    BadFrame,
    /// The sequence is outside the window.
    OutOfWindow,
    /// The clock went back.
    ClockBack,
}

impl fmt::Display for Refusal {
    // One text is written, whichever it is. A message at each variant would be a step of its own there, with a proof
    // that grows by the square of their number.
    fn fmt<W: fmt::Write>(&self, f: &mut fmt::Formatter<W>) -> fmt::Result {
        f.write_str(match self {
            Refusal::Count => "the count is out of range",
            Refusal::WrongType => "the type is wrong",
            Refusal::Tag => "the tag is out of range",
            Refusal::Communicator => "there is no such communicator",
            Refusal::Rank => "there is no such rank",
            Refusal::Request =>
                "there is no such request, it is named twice or no receive, or an earlier call is blocked",
            Refusal::Root => "there is no such root",
            Refusal::Operation => "the operation isn't defined on the type",
            Refusal::Replaced => "a member of the communicator was started anew",
            Refusal::Limit => "a limit is reached",
            Refusal::OutOfMemory => "out of memory",
            Refusal::Short => "fewer than 32 bytes",
            Refusal::Magic => "the magic differs",
            Refusal::Version => "the version is another",
            Refusal::Kind => "there is no such kind",
            Refusal::Length => "the body length is wrong",
            Refusal::ForeignJob => "the datagram is of another job",
            Refusal::NotForMe => "the datagram is not for this rank",
            Refusal::StaleSource => "the datagram comes from a former incarnation",
            Refusal::StaleTarget => "the datagram is for a former incarnation",
            Refusal::BadFrame => "the body is no frame",
            Refusal::OutOfWindow => "the sequence is outside the window",
            Refusal::ClockBack => "the clock went back",
        })
    }
}

impl Refusal {
    /// The number of this refusal.
    pub fn number(self) -> u8
        ensures { result ≡ number_of_refusal self }
    {
        match self {
            Refusal::Count => 1,
            Refusal::WrongType => 2,
            Refusal::Tag => 3,
            Refusal::Communicator => 4,
            Refusal::Rank => 5,
            Refusal::Request => 6,
            Refusal::Root => 7,
            Refusal::Operation => 9,
            Refusal::Replaced => 11,
            Refusal::Limit => 13,
            Refusal::OutOfMemory => 14,
            Refusal::Short => 21,
            Refusal::Magic => 22,
            Refusal::Version => 23,
            Refusal::Kind => 24,
            Refusal::Length => 25,
            Refusal::ForeignJob => 26,
            Refusal::NotForMe => 27,
            Refusal::StaleSource => 28,
            Refusal::StaleTarget => 29,
            Refusal::BadFrame => 30,
            Refusal::OutOfWindow => 31,
            Refusal::ClockBack => 41,
        }
    }

    /// The refusal of bytes that are no datagram.
    pub fn of_datagram(refused: datagram::DatagramRefusal) -> Refusal
        ensures { result ≡ of_datagram refused }
    {
        match refused {
            datagram::DatagramRefusal::OutOfMemory => Refusal::OutOfMemory,
            datagram::DatagramRefusal::Short => Refusal::Short,
            datagram::DatagramRefusal::Magic => Refusal::Magic,
            datagram::DatagramRefusal::Version => Refusal::Version,
            datagram::DatagramRefusal::Kind => Refusal::Kind,
            datagram::DatagramRefusal::Length => Refusal::Length,
            datagram::DatagramRefusal::BadFrame => Refusal::BadFrame,
        }
    }
}

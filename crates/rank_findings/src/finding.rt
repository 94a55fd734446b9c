//! What is told, and how much it weighs.

ghost use Rattle.std.specs.Prelude.{◌≡◌, Some};
ghost use Rattle.rank_findings.specs.Findings.{does_fail, ends_job, finding_at, finding_number, is_fault, is_left};
ghost use Rattle.rank_findings.specs.Findings.{weight, weight_at};

/// A finding of a run.
#[derive(Clone, Copy)]
pub enum Finding {
    /// A rank ended with a request that no call ended.
    RequestLeft,
    /// A rank ended with a communicator that wasn't freed.
    CommunicatorLeft,
    /// A rank ended with types that weren't freed.
    TypesLeft,
    /// A rank ended with messages that were taken out and not received.
    MessagesTaken,
    /// Nobody received a message.
    NeverReceived,
    /// Nobody goes on unless a send is buffered.
    NeedsBuffer,
    /// A rank waits in a call, and nobody can go on.
    Waits,
    /// The same of one that asks for ever.
    AsksForEver,
    /// The same of one that waits for all in `MPI_Finalize`.
    InFinalize,
    /// Each rank of a row waits for the next one, and the last one for the first.
    Cycle,
    /// Members enter a collective differently.
    Differs,
    /// Some member never entered a collective.
    NeverEntered,
    /// An error of a call ends the program.
    CallFailed,
    /// An error of a call is returned.
    ErrorReturned,
    /// A rank called `MPI_Abort`.
    Aborted,
    /// A rank computes without a call.
    Silent,
    /// A signal killed a rank.
    Killed,
    /// A rank ended without `MPI_Finalize`.
    NoFinalize,
    /// A rank ended with another status than 0.
    OtherStatus,
    /// What was recorded of a rank is over.
    RecordEnds,
    /// Whether a message or the cancel of its receive comes first isn't tried both ways.
    CancelRaces,
    /// The program uses a buffer that an operation has.
    BufferMisused,
    /// A rank stood in a call, or between two, when the time was over.
    StoodThere,
    /// A rank made a call that can't be explored.
    CantExplore,
    /// A ready send may come before its receive.
    ReadyEarly,
}

impl Finding {
    /// The finding of this number.
    pub fn from_number(number: u32) -> Option<Finding>
        ensures { result ≡ finding_at number }
    {
        match number {
            1 => Some(Finding::RequestLeft),
            2 => Some(Finding::CommunicatorLeft),
            3 => Some(Finding::TypesLeft),
            4 => Some(Finding::MessagesTaken),
            5 => Some(Finding::NeverReceived),
            6 => Some(Finding::NeedsBuffer),
            7 => Some(Finding::Waits),
            8 => Some(Finding::AsksForEver),
            9 => Some(Finding::InFinalize),
            10 => Some(Finding::Cycle),
            11 => Some(Finding::Differs),
            12 => Some(Finding::NeverEntered),
            13 => Some(Finding::CallFailed),
            14 => Some(Finding::ErrorReturned),
            15 => Some(Finding::Aborted),
            16 => Some(Finding::Silent),
            17 => Some(Finding::Killed),
            18 => Some(Finding::NoFinalize),
            19 => Some(Finding::OtherStatus),
            20 => Some(Finding::RecordEnds),
            21 => Some(Finding::CancelRaces),
            22 => Some(Finding::BufferMisused),
            23 => Some(Finding::StoodThere),
            24 => Some(Finding::CantExplore),
            25 => Some(Finding::ReadyEarly),
            _ => None,
        }
    }

    /// The number of this finding, and of no other one.
    pub fn number(self) -> u32
        ensures exact { result ≡ finding_number self }
        ensures own { finding_at result ≡ Some self }
    {
        match self {
            Finding::RequestLeft => 1,
            Finding::CommunicatorLeft => 2,
            Finding::TypesLeft => 3,
            Finding::MessagesTaken => 4,
            Finding::NeverReceived => 5,
            Finding::NeedsBuffer => 6,
            Finding::Waits => 7,
            Finding::AsksForEver => 8,
            Finding::InFinalize => 9,
            Finding::Cycle => 10,
            Finding::Differs => 11,
            Finding::NeverEntered => 12,
            Finding::CallFailed => 13,
            Finding::ErrorReturned => 14,
            Finding::Aborted => 15,
            Finding::Silent => 16,
            Finding::Killed => 17,
            Finding::NoFinalize => 18,
            Finding::OtherStatus => 19,
            Finding::RecordEnds => 20,
            Finding::CancelRaces => 21,
            Finding::BufferMisused => 22,
            Finding::StoodThere => 23,
            Finding::CantExplore => 24,
            Finding::ReadyEarly => 25,
        }
    }

    /// Whether the program is wrong: somebody waits and nobody can go on, a call fails, a process dies or makes no call,
    /// members enter a collective differently or not at all, a buffer is used that an operation has, the time is over,
    /// or a ready send may come too early.
    pub fn is_fault(self) -> bool
        ensures { result ≡ is_fault self }
    {
        match self {
            Finding::Waits | Finding::AsksForEver | Finding::InFinalize | Finding::Cycle => true,
            Finding::Differs | Finding::NeverEntered | Finding::Aborted => true,
            Finding::BufferMisused => true,
            Finding::CallFailed | Finding::Silent | Finding::Killed | Finding::NoFinalize => true,
            Finding::StoodThere | Finding::ReadyEarly => true,
            _ => false,
        }
    }

    /// Whether something is left over: a request, a message, a status, or a send that a buffer is to take.
    fn is_left(self) -> bool
        ensures { result ≡ is_left self }
    {
        match self {
            Finding::RequestLeft | Finding::MessagesTaken | Finding::NeverReceived => true,
            Finding::NeedsBuffer | Finding::OtherStatus => true,
            _ => false,
        }
    }

    /// How much it weighs: 3, the program is wrong; 2, something is left over; 1, it is worth knowing.
    pub fn weight(self) -> u32
        ensures { result ≡ weight self }
    {
        if self.is_fault() {
            3
        } else if self.is_left() {
            2
        } else {
            1
        }
    }

    /// Whether its rank is known to have come no further by it.
    pub fn does_fail(self) -> bool
        ensures { result ≡ does_fail self }
    {
        match self {
            Finding::CallFailed | Finding::Aborted | Finding::CantExplore => true,
            _ => false,
        }
    }

    /// Whether it ends the job: an error does unless it is to be returned; `MPI_Abort` always does, and what can't be
    /// explored.
    pub fn ends_job(self, goes_on: bool) -> bool
        ensures { result ≡ ends_job self goes_on }
    {
        match self {
            Finding::CallFailed => !goes_on,
            Finding::CantExplore | Finding::Aborted => true,
            _ => false,
        }
    }
}

/// The weight of the finding of this number; 0 where it names none.
pub fn weight_at(number: u32) -> u32
    ensures { result ≡ weight_at number }
{
    match Finding::from_number(number) {
        Some(finding) => finding.weight(),
        None => 0,
    }
}

//! Which findings there are.

ghost use Rattle.std.specs.Prelude.{◌≡◌, slice_get};
ghost use Rattle.rank_findings.specs.Told.{asks, call_at, finding_of_wait, is_absence_told, is_rest_told, leaks};
ghost use Rattle.rank_findings.specs.Told.{sends_told};

use crate::ending::{Ending, is_any};
use crate::finding::Finding;

/// So many sends are told at one place.
const MOST_SENDS: u32 = 8;

/// A call in which a rank stands.
#[derive(Clone, Copy)]
pub enum Call {
    /// A test of requests.
    Test,
    /// A probe.
    Probe,
    /// Any other one.
    Other,
}

/// Where a rank stands that isn't answered.
#[derive(Clone, Copy)]
pub struct Wait {
    /// It waits for an answer.
    pub is_blocked: bool,
    /// It called `MPI_Finalize`.
    pub has_finalized: bool,
    /// The call in which it stands.
    pub call: Call,
    /// The call goes on until something is there.
    pub is_waiting: bool,
}

/// What a rank left behind in `MPI_Finalize`.
#[derive(Clone, Copy)]
pub struct Leaks {
    /// So many requests that no call ended.
    pub requests: u32,
    /// So many communicators.
    pub communicators: u32,
    /// So many types and persistent requests, those of one place counted once.
    pub types: u32,
    /// So many messages that were taken out and not received.
    pub messages: u32,
}

impl Call {
    /// The call that this number of an ask names.
    pub fn from_number(number: u32) -> Call
        ensures { result ≡ call_at number }
    {
        match number {
            7 | 8 | 9 => Call::Test,
            10 => Call::Probe,
            _ => Call::Other,
        }
    }
}

impl Wait {
    /// Whether it asks, and may be told no.
    fn asks(&self) -> bool
        ensures { result ≡ asks self.now }
    {
        match self.call {
            Call::Test => true,
            Call::Probe => !self.is_waiting,
            Call::Other => false,
        }
    }
}

/// What is told of a rank where nobody can go on.
pub fn finding_of_wait(wait: &Wait) -> Option<Finding>
    ensures { result ≡ finding_of_wait wait.now }
{
    if !wait.is_blocked {
        None
    } else if wait.has_finalized {
        Some(Finding::InFinalize)
    } else if wait.asks() {
        Some(Finding::AsksForEver)
    } else {
        Some(Finding::Waits)
    }
}

/// What is told at this place of what a rank left behind: each request, each communicator and each type, and messages
/// once.
pub fn leak_at(left: &Leaks, place: u64) -> Option<Finding>
    ensures { result ≡ slice_get (leaks left.now) place }
{
    if place < left.requests as u64 {
        return Some(Finding::RequestLeft);
    }
    let behind = place - left.requests as u64;
    if behind < left.communicators as u64 {
        return Some(Finding::CommunicatorLeft);
    }
    let rest = behind - left.communicators as u64;
    if rest < left.types as u64 {
        return Some(Finding::TypesLeft);
    }
    if rest - left.types as u64 == 0 && left.messages > 0 {
        Some(Finding::MessagesTaken)
    } else {
        None
    }
}

/// How many of so many sends that wait are told where nobody goes on unless one is buffered: once in a run, and some of
/// them.
pub fn sends_told(waiting: u32, only_buffers: bool, was_told: bool) -> u32
    ensures { result ≡ sends_told waiting only_buffers was_told }
{
    if only_buffers && !was_told {
        waiting.min(MOST_SENDS)
    } else {
        0
    }
}

/// Whether it is told of a collective that some member never entered: not where it was told how members entered it, nor
/// where a rank failed.
pub fn is_absence_told(has_failed: &[bool], is_absent: bool, was_told: bool) -> bool
    ensures { result ≡ is_absence_told has_failed.now is_absent was_told }
{
    is_absent && !was_told && !is_any(has_failed)
}

/// Whether it is told what nobody received and who entered no collective: where all ranks ended.
pub fn is_rest_told(ending: Ending) -> bool
    ensures { result ≡ is_rest_told ending }
{
    ending.is_all_ended()
}

//! What is told of an outcome.

ghost use Rattle.std.specs.Prelude.{◌≡◌};
ghost use Rattle.script_calls.specs.OutcomeTexts.{as_text, empty_status, error_of, status_after};

use communicators::CommunicatorComparison;
use printed_lines::ComparisonText;
use requests::Outcome;
use vocabulary::{Source, Status};

/// The status of a null request, and of no receive at all (MPI 3.1, 3.7.3).
pub fn empty_status() -> Status
    ensures { result ≡ empty_status }
{
    Status {
        source: Source::Any,
        tag: None,
        count: 0,
    }
}

/// The number of the error with which an operation ended, if it did.
pub fn error_of(outcome: &Outcome) -> Option<u8>
    ensures { result ≡ error_of outcome.now }
{
    match outcome {
        Outcome::Ended(failure, _, _) => Some(failure.number()),
        Outcome::Replaced(_) => Some(11),
        Outcome::Sent => None,
        Outcome::Received(_, _) => None,
        Outcome::Cancelled(_) => None,
        Outcome::Empty => None,
    }
}

/// The status that is told of from now on: that of a receive, or of the null request, without an error.
pub fn status_after(last: Status, outcome: &Outcome) -> Status
    ensures { result ≡ status_after last outcome.now }
{
    match outcome {
        Outcome::Received(status, _) => *status,
        Outcome::Empty => empty_status(),
        Outcome::Sent => last,
        Outcome::Ended(_, _, _) => last,
        Outcome::Replaced(_) => last,
        Outcome::Cancelled(_) => last,
    }
}

/// How two communicators compare, as it is written.
pub fn as_text(comparison: CommunicatorComparison) -> ComparisonText
    ensures { result ≡ as_text comparison }
{
    match comparison {
        CommunicatorComparison::Ident => ComparisonText::Ident,
        CommunicatorComparison::Congruent => ComparisonText::Congruent,
        CommunicatorComparison::Similar => ComparisonText::Similar,
        CommunicatorComparison::Unequal => ComparisonText::Unequal,
    }
}

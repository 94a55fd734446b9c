//! The refusals of the sessions, of communicators and of collectives, as the engine's.

ghost use Rattle.std.specs.Prelude.{◌≡◌};
ghost use Rattle.engine_calls.specs.Refusals.{of_collectives, of_entry_rule, of_rule, of_sessions};

use communicators::{CommunicatorFault, Rule};
use point_to_point::Refusal;

/// A refusal of the sessions.
pub fn of_sessions(refused: sessions::SessionRefusal) -> Refusal
    ensures { result ≡ of_sessions refused }
{
    match refused {
        sessions::SessionRefusal::Rank => Refusal::Rank,
        sessions::SessionRefusal::Limit => Refusal::Limit,
        sessions::SessionRefusal::OutOfMemory => Refusal::OutOfMemory,
        sessions::SessionRefusal::Short => Refusal::Short,
        sessions::SessionRefusal::Magic => Refusal::Magic,
        sessions::SessionRefusal::Version => Refusal::Version,
        sessions::SessionRefusal::Kind => Refusal::Kind,
        sessions::SessionRefusal::Length => Refusal::Length,
        sessions::SessionRefusal::ForeignJob => Refusal::ForeignJob,
        sessions::SessionRefusal::NotForMe => Refusal::NotForMe,
        sessions::SessionRefusal::StaleSource => Refusal::StaleSource,
        sessions::SessionRefusal::StaleTarget => Refusal::StaleTarget,
        sessions::SessionRefusal::BadFrame => Refusal::BadFrame,
        sessions::SessionRefusal::OutOfWindow => Refusal::OutOfWindow,
        sessions::SessionRefusal::ClockBack => Refusal::ClockBack,
    }
}

/// A rule that what a rank enters a collective with breaks.
fn of_entry_rule(rule: Rule) -> Refusal
    ensures { result ≡ of_entry_rule rule }
{
    match rule {
        Rule::WrongType => Refusal::WrongType,
        Rule::WrongCount => Refusal::Count,
        Rule::NoRoot => Refusal::Root,
        Rule::NotDefined => Refusal::Operation,
    }
}

/// A rule that a call breaks by its communicator, or a limit that it meets there.
pub fn of_rule(fault: CommunicatorFault) -> Refusal
    ensures { result ≡ of_rule fault }
{
    match fault {
        CommunicatorFault::Blocked => Refusal::Request,
        CommunicatorFault::NoCommunicator => Refusal::Communicator,
        CommunicatorFault::Entry(rule) => of_entry_rule(rule),
        CommunicatorFault::Replaced => Refusal::Replaced,
        CommunicatorFault::Limit => Refusal::Limit,
    }
}

/// A refusal of collectives.
pub fn of_collectives(refused: communicators::CollectiveRefusal) -> Refusal
    ensures { result ≡ of_collectives refused }
{
    match refused {
        communicators::CollectiveRefusal::NoCommunicator => Refusal::Communicator,
        communicators::CollectiveRefusal::Blocked => Refusal::Request,
        communicators::CollectiveRefusal::Limit => Refusal::Limit,
        communicators::CollectiveRefusal::OutOfMemory => Refusal::OutOfMemory,
        communicators::CollectiveRefusal::BadFrame => Refusal::BadFrame,
    }
}

//! The texts of answers.

use crate::communicators::{CommunicatorText, ComparisonText, MembersText, PositionText};
use crate::outcomes::{ElementsText, OutcomeText, OutcomesText};
use crate::statuses::{MessageText, StatusText};
use datatypes::Buffer;
use std::fmt;

/// What a call or an event answers, as it is written.
#[derive(Clone, Copy)]
pub enum AnswerText<'a> {
    /// A request was started: its number in the order of starting.
    Started(u64),
    /// The call waits.
    Blocked,
    /// The call or the event was refused, with this number.
    Refused(u8),
    /// One operation ended.
    One(OutcomeText<'a>),
    /// One of several operations ended: its place among them, from 0, and how (MPI 3.1, 3.7.5).
    Index(usize, OutcomeText<'a>),
    /// There is no request but null ones (MPI 3.1, 3.7.5).
    IndexUndefined,
    /// All operations ended: how, in the order of the requests (MPI 3.1, 3.7.5).
    All(&'a [OutcomeText<'a>]),
    /// A collective ended, and the rank gets these elements (MPI 3.1, 5.1).
    Data(&'a Buffer),
    /// A communicator was made, or none for this rank (MPI 3.1, 6.4.2).
    Communicator(CommunicatorText),
    /// The caller's rank in a communicator, and the communicator's size (MPI 3.1, 6.4.1).
    Position(PositionText),
    /// The members of a communicator's group (MPI 3.1, 6.4.2).
    Members(MembersText<'a>),
    /// How two communicators compare (MPI 3.1, 6.4.1).
    Comparison(ComparisonText),
    /// The message that a probe found (MPI 3.1, 3.8.1).
    Probed(StatusText),
    /// The message that a probe took out (MPI 3.1, 3.8.2).
    Matched(MessageText),
    /// A probe found no message (MPI 3.1, 3.8.1 and 3.8.2).
    Nothing,
    /// The operation isn't over yet.
    Pending,
    /// The call is over, and tells nothing else.
    Done,
    /// An event that answers nothing else was taken.
    Taken,
}

impl<'a> fmt::Display for AnswerText<'a> {
    ghost use Rattle.std.specs.Prelude.{Some};
    ghost use Rattle.printed_lines.specs.Answers.{answer_text};

    ghost output = { λ a. Some (answer_text a) };

    fn fmt<W: fmt::Write>(&self, f: &mut fmt::Formatter<W>) -> fmt::Result {
        match self {
            AnswerText::Started(serial) => write!(f, "request {serial}"),
            AnswerText::Blocked => f.write_str("blocked"),
            AnswerText::Refused(number) => write!(f, "refused {number}"),
            AnswerText::One(outcome) => outcome.fmt(f),
            AnswerText::Index(place, outcome) => write!(f, "index {place} {outcome}"),
            AnswerText::IndexUndefined => f.write_str("index undefined"),
            AnswerText::All(outcomes) => OutcomesText { outcomes }.fmt(f),
            AnswerText::Data(buffer) => {
                let elements = ElementsText { buffer };
                write!(f, "data{elements}")
            }
            AnswerText::Communicator(communicator) => communicator.fmt(f),
            AnswerText::Position(position) => position.fmt(f),
            AnswerText::Members(members) => members.fmt(f),
            AnswerText::Comparison(comparison) => comparison.fmt(f),
            AnswerText::Probed(status) => status.fmt(f),
            AnswerText::Matched(message) => message.fmt(f),
            AnswerText::Nothing => f.write_str("none"),
            AnswerText::Pending => f.write_str("pending"),
            AnswerText::Done => f.write_str("done"),
            AnswerText::Taken => f.write_str("ok"),
        }
    }
}

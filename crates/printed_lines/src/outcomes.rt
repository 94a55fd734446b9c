//! The texts of how operations ended.

use crate::statuses::StatusText;
use datatypes::Buffer;
use float_texts::ValueText;
use std::fmt;
use vocabulary::Status;

/// The elements of a buffer as they are written behind `data`: a space and its value for each.
#[derive(Clone, Copy)]
pub struct ElementsText<'a> {
    /// The buffer.
    pub buffer: &'a Buffer,
}

impl<'a> fmt::Display for ElementsText<'a> {
    ghost use Rattle.std.specs.Prelude.{Some};
    ghost use Rattle.printed_lines.specs.Answers.{elements_text};

    ghost output = { λ e. Some (elements_text e.buffer.now) };

    fn fmt<W: fmt::Write>(&self, f: &mut fmt::Formatter<W>) -> fmt::Result {
        let basic = self.buffer.basic();
        for place in 0..self.buffer.len() {
            let number = self.buffer.number(place);
            let element = ValueText { basic, number };
            write!(f, " {element}")?;
        }
        Ok(())
    }
}

/// `STATUS data` and the elements: what a receive took and its buffer, as they are written.
#[derive(Clone, Copy)]
struct ReceivedText<'a> {
    status: &'a Status,
    buffer: &'a Buffer,
}

impl<'a> fmt::Display for ReceivedText<'a> {
    ghost use Rattle.std.specs.Prelude.{Some};
    ghost use Rattle.printed_lines.specs.Answers.{received_text};

    ghost output = { λ r. Some (received_text r.status.now r.buffer.now) };

    fn fmt<W: fmt::Write>(&self, f: &mut fmt::Formatter<W>) -> fmt::Result {
        let status = StatusText {
            status: *self.status,
        };
        let elements = ElementsText {
            buffer: self.buffer,
        };
        write!(f, "{status} data{elements}")
    }
}

/// How an operation ended, as it is written.
#[derive(Clone, Copy)]
pub enum OutcomeText<'a> {
    /// A send finished.
    Sent,
    /// A receive finished: what it took, and its buffer.
    Received(Status, &'a Buffer),
    /// A receive ended with this error: what it took, and its buffer.
    Ended(u8, Status, &'a Buffer),
    /// A receive ended since its source was started anew: its buffer, which is as it was.
    Lost(&'a Buffer),
    /// A receive was cancelled (MPI 3.1, 3.8.4): its buffer, which is as it was.
    Cancelled(&'a Buffer),
    /// A send ended with this error.
    Failed(u8),
    /// The request was null (MPI 3.1, 3.7.3).
    Null,
}

impl<'a> fmt::Display for OutcomeText<'a> {
    ghost use Rattle.std.specs.Prelude.{Some};
    ghost use Rattle.printed_lines.specs.Answers.{outcome_text};

    ghost output = { λ o. Some (outcome_text o) };

    fn fmt<W: fmt::Write>(&self, f: &mut fmt::Formatter<W>) -> fmt::Result {
        match self {
            OutcomeText::Sent => f.write_str("sent"),
            OutcomeText::Received(status, buffer) => {
                let received = ReceivedText { status, buffer };
                received.fmt(f)
            }
            OutcomeText::Ended(number, status, buffer) => {
                let received = ReceivedText { status, buffer };
                write!(f, "error {number} {received}")
            }
            OutcomeText::Lost(buffer) => {
                let elements = ElementsText { buffer };
                write!(f, "error 11 data{elements}")
            }
            OutcomeText::Cancelled(buffer) => {
                let elements = ElementsText { buffer };
                write!(f, "cancelled data{elements}")
            }
            OutcomeText::Failed(number) => write!(f, "error {number}"),
            OutcomeText::Null => f.write_str("source any tag any count 0"),
        }
    }
}

/// How further operations ended, as it is written behind the first: `; ` and the text of each.
#[derive(Clone, Copy)]
struct FurtherOutcomes<'a> {
    outcomes: &'a [OutcomeText<'a>],
}

impl<'a> fmt::Display for FurtherOutcomes<'a> {
    ghost use Rattle.std.specs.Prelude.{Some};
    ghost use Rattle.printed_lines.specs.Answers.{further_text};

    ghost output = { λ o. Some (further_text o.outcomes.now) };

    fn fmt<W: fmt::Write>(&self, f: &mut fmt::Formatter<W>) -> fmt::Result {
        for place in 0..self.outcomes.len() {
            let outcome = self.outcomes[place];
            write!(f, "; {outcome}")?;
        }
        Ok(())
    }
}

/// How several operations ended, as it is written: the texts in their order, `; ` between two; `done` where there is
/// none.
#[derive(Clone, Copy)]
pub struct OutcomesText<'a> {
    /// How each of them ended.
    pub outcomes: &'a [OutcomeText<'a>],
}

impl<'a> fmt::Display for OutcomesText<'a> {
    ghost use Rattle.std.specs.Prelude.{Some};
    ghost use Rattle.printed_lines.specs.Answers.{outcomes_text};

    ghost output = { λ o. Some (outcomes_text o.outcomes.now) };

    fn fmt<W: fmt::Write>(&self, f: &mut fmt::Formatter<W>) -> fmt::Result {
        match self.outcomes.split_first() {
            None => f.write_str("done"),
            Some((first, rest)) => {
                let further = FurtherOutcomes { outcomes: rest };
                write!(f, "{first}{further}")
            }
        }
    }
}

//! What a rank tells the other members of a communicator.

ghost use Rattle.std.specs.Prelude.{◌≡◌};
ghost use Rattle.collective_messages.specs.Messages.{IsWithinType, says};
ghost use Rattle.payload.specs.Spellings.{payload_text};

use datatypes::WholeBuffer;
use payload::{Choice, Direction, NewGroup, Payload, PayloadContent, Record};
use vocabulary::Endpoint;

/// What a message carries beside the record.
#[derive(Drop)]
pub enum MessageContent {
    /// That two records differ.
    RecordsDiffer,
    /// Nothing: that the sender has entered, or that all have.
    Nothing(Direction),
    /// Elements.
    Elements(Direction, WholeBuffer),
    /// The context of a copy.
    Context(u64),
    /// What the sender asks for in a split.
    Choice(Choice),
    /// That the receiver gets MPI_COMM_NULL.
    NullCommunicator,
    /// The context of the communicator that the receiver gets, and the ranks in `world` of its members, in order.
    NewGroup(u64, WholeBuffer),
}

/// A message that a rank sends in a collective.
#[derive(Drop)]
pub struct CollectiveMessage {
    /// Who gets it.
    pub target: Endpoint,
    /// The number of the context of the communicator.
    pub context: u64,
    /// The number of the collective on the communicator.
    pub number: u32,
    /// What the sender entered.
    pub entered: Record,
    /// What it carries.
    pub given: MessageContent,
}

impl CollectiveMessage {
    /// The payload that goes out: record and part.
    pub fn payload(&self) -> Payload<'_>
        ensures says { payload_text result ≡ says self.now }
        ensures within { IsWithinType self.now.given }
    {
        let part = match &self.given {
            MessageContent::RecordsDiffer => PayloadContent::RecordsDiffer,
            MessageContent::Nothing(way) => PayloadContent::Nothing(*way),
            MessageContent::Elements(way, elements) => PayloadContent::Elements(
                *way,
                elements.as_bytes(),
            ),
            MessageContent::Context(context) => PayloadContent::Context(*context),
            MessageContent::Choice(choice) => PayloadContent::Choice(*choice),
            MessageContent::NullCommunicator => PayloadContent::NullCommunicator,
            MessageContent::NewGroup(context, ranks) => PayloadContent::NewGroup(NewGroup {
                context: *context,
                ranks: ranks.as_bytes(),
            }),
        };
        Payload {
            entered: self.entered,
            part,
        }
    }
}

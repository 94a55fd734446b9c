//! What others have told a rank of collectives.

ghost use Rattle.std.specs.Prelude.{◌≡◌};
ghost use Rattle.collective_messages.specs.Notes.{is_of, is_difference, is_entry, is_result, is_differing, is_found};
ghost use Rattle.collective_messages.specs.Notes.{tells_entry, tells_result, choice_said};

use crate::entry::Entry;
use datatypes::Buffer;
use groups::Group;
use payload::{Choice, Direction, Record};
use vocabulary::Endpoint;

/// What a message says beside the record of its sender.
#[derive(Drop)]
pub enum NoteContent {
    /// That two records differ.
    RecordsDiffer,
    /// Nothing more: towards member 0 that the sender has entered, from it that all have.
    Nothing(Direction),
    /// Elements.
    Elements(Direction, Buffer),
    /// The context of a copy, whose members are those of the communicator that was copied.
    Context(u64),
    /// What the sender asks for in a split.
    Choice(Choice),
    /// That the receiver gets MPI_COMM_NULL.
    NullCommunicator,
    /// The context and the members of the communicator that the receiver gets.
    NewGroup(u64, Group),
}

/// A message of a collective that came, and is kept until its collective is left. Where a lesson ends the collective,
/// it stays.
#[derive(Drop)]
pub struct Note {
    /// Who sent it.
    pub sender: Endpoint,
    /// The number of the context of the communicator.
    pub context: u64,
    /// The number of the collective on the communicator, from 0.
    pub number: u32,
    /// What the sender entered.
    pub entered: Record,
    /// What it says.
    pub said: NoteContent,
}

impl NoteContent {
    /// Whether it says that records differ.
    pub fn is_difference(&self) -> bool
        ensures { result ≡ is_difference self.now }
    {
        matches!(self, NoteContent::RecordsDiffer)
    }

    /// Whether it says that its sender has entered.
    pub fn is_entry(&self) -> bool
        ensures { result ≡ is_entry self.now }
    {
        match self {
            NoteContent::Nothing(Direction::TowardsRoot)
            | NoteContent::Elements(Direction::TowardsRoot, _) => true,
            NoteContent::Choice(_) => true,
            _ => false,
        }
    }

    /// Whether it says with what its receiver leaves.
    pub fn is_result(&self) -> bool
        ensures { result ≡ is_result self.now }
    {
        match self {
            NoteContent::Nothing(Direction::FromRoot)
            | NoteContent::Elements(Direction::FromRoot, _) => true,
            NoteContent::Context(_) | NoteContent::NullCommunicator | NoteContent::NewGroup(..) =>
                true,
            _ => false,
        }
    }

    /// What the sender asks for in a split; nothing where it says something else.
    pub fn choice(&self) -> Choice
        ensures { result ≡ choice_said self.now }
    {
        match self {
            NoteContent::Choice(choice) => *choice,
            _ => Choice {
                colour: None,
                key: 0,
            },
        }
    }
}

impl Note {
    /// Whether it is of the collective with this number on the communicator with this context.
    pub fn is_of(&self, context: u64, number: u32) -> bool
        ensures { result ≡ is_of context number self.now }
    {
        self.context == context && self.number == number
    }

    /// Whether it speaks of a difference: outright, or by another record.
    pub fn is_differing(&self, entry: &Entry) -> bool
        ensures { result ≡ is_differing entry.now self.now }
    {
        self.said.is_difference() || !entry.agrees(self.entered)
    }

    /// Whether a difference is found in its record, and not only told.
    pub fn is_found(&self, entry: &Entry) -> bool
        ensures { result ≡ is_found entry.now self.now }
    {
        !self.said.is_difference() && !entry.agrees(self.entered)
    }

    /// Whether it tells that this member has entered this collective.
    pub fn tells_entry(&self, context: u64, number: u32, member: Endpoint) -> bool
        ensures { result ≡ tells_entry context number member self.now }
    {
        self.is_of(context, number)
            && self.sender.rank == member.rank
            && self.sender.incarnation == member.incarnation
            && self.said.is_entry()
    }

    /// Whether it tells with what the receiver leaves this collective.
    pub fn tells_result(&self, context: u64, number: u32) -> bool
        ensures { result ≡ tells_result context number self.now }
    {
        self.is_of(context, number) && self.said.is_result()
    }
}

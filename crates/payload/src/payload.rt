//! A payload as a value, which borrows the bytes that it was read from.

ghost use Rattle.std.specs.Prelude.{◌≡◌, ◌*◌, ◌+◌, ◌/◌, ◌↔◌, length, drop, IsTrue, nat_lt, Some, None, if◌then◌else◌};
ghost use Rattle.byteorder.specs.Endian.{big_number};
ghost use Rattle.payload.specs.Spellings.{part_text, part_spelling, phase_of, way_phase, elements_of, SaysNothing};
ghost use Rattle.payload.specs.Spellings.{AreElements, AreRanks, PartFits};

use crate::kind::Phase;
use crate::record::Record;
use byteorder::{BigEndian, ByteOrder};

/// Which way a message of a collective goes.
#[derive(Clone, Copy, Debug, PartialEq, Eq)]
pub enum Direction {
    /// Towards the root; of a collective without one, towards member 0.
    TowardsRoot,
    /// From the root, or from member 0.
    FromRoot,
}

impl Direction {
    /// The phase of a message that goes this way.
    fn phase(self) -> Phase
        ensures { result ≡ way_phase self }
    {
        match self {
            Direction::TowardsRoot => Phase::TowardsRoot,
            Direction::FromRoot => Phase::FromRoot,
        }
    }
}

/// What a member asks for in a split (MPI 3.1, 6.4.2).
#[derive(Clone, Copy, Debug, PartialEq, Eq)]
pub struct Choice {
    /// The colour, or none for MPI_UNDEFINED.
    pub colour: Option<u32>,
    /// The key, which orders the members of one colour.
    pub key: i32,
}

/// A communicator that a split made, as its members get it.
#[derive(Clone, Copy)]
pub struct NewGroup<'a> {
    /// The context of the new communicator.
    pub context: u64,
    /// The ranks in `world` of its members, in order, two bytes each, the higher one first.
    pub ranks: &'a [u8],
}

impl NewGroup<'_> {
    /// How many members there are.
    pub fn len(&self) -> usize
        ensures { result ≡ length self.now.ranks.now / 2 }
    {
        self.ranks.len() / 2
    }

    /// The rank in `world` of the member at a place, where there is one.
    pub fn rank(&self, place: usize) -> Option<u16>
        ensures { result ≡
            (if nat_lt place (length self.now.ranks.now / 2)
            then Some (big_number 2 (drop (place * 2) self.now.ranks.now))
            else None) }
    {
        if place >= self.ranks.len() / 2 {
            return None;
        }
        Some(BigEndian::read_u16(&self.ranks[place * 2..]))
    }
}

/// What a message carries beside its sender's record.
#[derive(Clone, Copy)]
pub enum PayloadContent<'a> {
    /// That the records of two members differ: nothing else.
    RecordsDiffer,
    /// Nothing: of a barrier either way, of a copy towards member 0.
    Nothing(Direction),
    /// The bytes of as many elements as the record says.
    Elements(Direction, &'a [u8]),
    /// Of a copy from member 0: the context of the new communicator.
    Context(u64),
    /// Of a split towards member 0: what its sender asks for.
    Choice(Choice),
    /// Of a split from member 0: that the member gets MPI_COMM_NULL.
    NullCommunicator,
    /// Of a split from member 0: the communicator that the member gets.
    NewGroup(NewGroup<'a>),
}

/// One message of a collective.
#[derive(Clone, Copy)]
pub struct Payload<'a> {
    /// What its sender entered.
    pub entered: Record,
    /// What it carries.
    pub part: PayloadContent<'a>,
}

impl PayloadContent<'_> {
    /// The phase of a message that carries this.
    pub(crate) fn phase(self) -> Phase
        ensures { result ≡ phase_of (part_text self.entry) }
    {
        match self {
            PayloadContent::RecordsDiffer => Phase::RecordsDiffer,
            PayloadContent::Nothing(way) | PayloadContent::Elements(way, _) => way.phase(),
            PayloadContent::Choice(_) => Phase::TowardsRoot,
            PayloadContent::Context(_)
            | PayloadContent::NullCommunicator
            | PayloadContent::NewGroup(_) => Phase::FromRoot,
        }
    }

    /// How many bytes it has.
    pub(crate) fn byte_len(self) -> usize
        ensures { result ≡ length (part_spelling (part_text self.entry)) }
    {
        match self {
            PayloadContent::RecordsDiffer
            | PayloadContent::Nothing(_)
            | PayloadContent::NullCommunicator => 0,
            PayloadContent::Elements(_, bytes) => bytes.len(),
            PayloadContent::Context(_) => 8,
            PayloadContent::Choice(_) => 9,
            PayloadContent::NewGroup(group) => 8 + group.ranks.len(),
        }
    }
}

impl Payload<'_> {
    /// Whether a message with this record carries such a part: of a collective that moves elements as
    /// many bytes as the record says, either way; of a barrier nothing, of a copy nothing towards
    /// member 0 and the context from it, of a split what its sender asks for and what the member
    /// gets, with at least one whole rank; and of each that records differ.
    pub fn fits(&self) -> bool
        ensures { IsTrue result ↔ PartFits self.now.entered (part_text self.now.part) }
    {
        match self.part {
            PayloadContent::RecordsDiffer => true,
            PayloadContent::Nothing(way) => says_nothing(self.entered, way),
            PayloadContent::Elements(_, bytes) => are_elements(self.entered, bytes),
            PayloadContent::Context(_) => self.entered == Record::Dup,
            PayloadContent::Choice(_) | PayloadContent::NullCommunicator => self.entered
                == Record::Split,
            PayloadContent::NewGroup(group) => self.entered == Record::Split
                && are_ranks(group.ranks),
        }
    }
}

/// Whether a message with this record says nothing more this way.
fn says_nothing(entered: Record, way: Direction) -> bool
    ensures { IsTrue result ↔ SaysNothing entered way }
{
    match entered {
        Record::Barrier => true,
        Record::Dup => way == Direction::TowardsRoot,
        _ => false,
    }
}

/// Whether these are as many bytes as the record's elements have.
fn are_elements(entered: Record, bytes: &[u8]) -> bool
    ensures { IsTrue result ↔ AreElements (elements_of entered) bytes.now }
{
    match entered.elements() {
        Some(elements) => {
            bytes.len() as u64 == u64::from(elements.count) * u64::from(elements.basic.size())
        }
        None => false,
    }
}

/// Whether these are the bytes of at least one rank.
fn are_ranks(ranks: &[u8]) -> bool
    ensures { IsTrue result ↔ AreRanks ranks.now }
{
    ranks.len() >= 2 && ranks.len() % 2 == 0
}

//! Records: what a member entered.

ghost use Rattle.std.specs.Prelude.{◌≡◌, ◌<◌, ◌^◌};
ghost use Rattle.payload.specs.Agreement.{is_same_record};
ghost use Rattle.payload.specs.Spellings.{kind_of, elements_of, operation_field, root_field, type_code, count_field};
ghost use Rattle.payload.specs.Spellings.{RecordIsWithin};

use crate::kind::CollectiveKind;
use vocabulary::{BasicType, Operation};

/// The length of a record, in bytes.
pub const RECORD_BYTES: usize = 16;

/// So many elements of one basic type.
#[derive(Clone, Copy, Debug, PartialEq, Eq)]
pub struct Elements {
    /// The type of each.
    pub basic: BasicType,
    /// How many there are.
    pub count: u32,
}

/// Elements, and the member of the communicator that is their root.
#[derive(Clone, Copy, Debug, PartialEq, Eq)]
pub struct Rooted {
    /// The elements that each member gives or gets.
    pub elements: Elements,
    /// The root's rank in the communicator.
    pub root: u32,
}

/// What a member entered: a collective (MPI 3.1, 5.3 to 5.9 and 6.4.2) and what all of its members
/// have to agree on. Two records agree where they are equal.
#[derive(Clone, Copy, Debug, PartialEq, Eq)]
pub enum Record {
    /// A barrier.
    Barrier,
    /// A broadcast of these elements.
    Bcast(Rooted),
    /// A gather of these elements from each member.
    Gather(Rooted),
    /// A scatter of these elements to each member.
    Scatter(Rooted),
    /// A reduction of these elements to the root.
    Reduce(Operation, Rooted),
    /// A reduction of these elements to all members.
    Allreduce(Operation, Elements),
    /// A copy of a communicator.
    Dup,
    /// A split of a communicator.
    Split,
}

impl Record {
    /// Which collective it is of.
    pub(crate) fn kind(self) -> CollectiveKind
        ensures { result ≡ kind_of self }
    {
        match self {
            Record::Barrier => CollectiveKind::Barrier,
            Record::Bcast(_) => CollectiveKind::Bcast,
            Record::Gather(_) => CollectiveKind::Gather,
            Record::Scatter(_) => CollectiveKind::Scatter,
            Record::Reduce(..) => CollectiveKind::Reduce,
            Record::Allreduce(..) => CollectiveKind::Allreduce,
            Record::Dup => CollectiveKind::Dup,
            Record::Split => CollectiveKind::Split,
        }
    }

    /// The elements that the collective moves, where it moves any.
    pub fn elements(self) -> Option<Elements>
        ensures { result ≡ elements_of self }
    {
        match self {
            Record::Bcast(rooted) | Record::Gather(rooted) | Record::Scatter(rooted) => {
                Some(rooted.elements)
            }
            Record::Reduce(_, rooted) => Some(rooted.elements),
            Record::Allreduce(_, elements) => Some(elements),
            Record::Barrier | Record::Dup | Record::Split => None,
        }
    }

    /// The code of the operation, 0 where there is none.
    pub(crate) fn operation_code(self) -> u8
        ensures { result ≡ operation_field self }
    {
        match self {
            Record::Reduce(operation, _) | Record::Allreduce(operation, _) => operation.code(),
            Record::Barrier | Record::Dup | Record::Split => 0,
            Record::Bcast(_) | Record::Gather(_) | Record::Scatter(_) => 0,
        }
    }

    /// The root's rank in the communicator, 0 where there is no root.
    pub(crate) fn root_field(self) -> u32
        ensures { result ≡ root_field self }
    {
        match self {
            Record::Bcast(rooted) | Record::Gather(rooted) | Record::Scatter(rooted) => rooted.root,
            Record::Reduce(_, rooted) => rooted.root,
            Record::Barrier | Record::Allreduce(..) | Record::Dup | Record::Split => 0,
        }
    }

    /// The code of the elements' basic type, 0 where there are none.
    pub(crate) fn type_code(self) -> u8
        ensures { result ≡ type_code (elements_of self) }
    {
        match self.elements() {
            Some(elements) => elements.basic.code(),
            None => 0,
        }
    }

    /// Whether two records agree: in kind, root, operation, type and count.
    pub fn agrees(self, other: Record) -> bool
        ensures { result ≡ is_same_record self other }
    {
        self.kind().code() == other.kind().code()
            && self.root_field() == other.root_field()
            && self.operation_code() == other.operation_code()
            && self.type_code() == other.type_code()
            && self.count_field() == other.count_field()
    }

    /// How many elements there are, 0 where there are none.
    pub(crate) fn count_field(self) -> u32
        ensures { result ≡ count_field (elements_of self) }
    {
        match self.elements() {
            Some(elements) => elements.count,
            None => 0,
        }
    }
}

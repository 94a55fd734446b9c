//! What a rank enters a collective with.

ghost use Rattle.std.specs.Prelude.{◌≡◌, IfOk};
ghost use Rattle.std.specs.Option.{option_copied};
ghost use Rattle.collective_messages.specs.Entries.{agrees, is_making, own_choice, own_elements, record_of, rooted_at};

use crate::block::Block;
use crate::role::Role;
use datatypes::Buffer;
use payload::{Choice, Record, Rooted};
use std::alloc::{AllocError, Global};
use vocabulary::Operation;

/// A collective that a rank enters, and with what: the root's rank in the communicator, the operation, and the elements
/// that the rank hands in. In a scatter it says of which type and how many elements each member's block is.
#[derive(Drop)]
pub enum Entry {
    /// MPI_Barrier (MPI 3.1, 5.3).
    Barrier,
    /// MPI_Bcast (MPI 3.1, 5.4). Of the elements those of the root are told to the others.
    Bcast(u32, Block),
    /// MPI_Gather (MPI 3.1, 5.5).
    Gather(u32, Block),
    /// MPI_Scatter (MPI 3.1, 5.6): at the root a block for each member, in rank order. Elsewhere nothing is handed in.
    Scatter(Rooted, Option<Buffer>),
    /// MPI_Reduce (MPI 3.1, 5.9.1).
    Reduce(Operation, u32, Block),
    /// MPI_Allreduce (MPI 3.1, 5.9.6).
    Allreduce(Operation, Block),
    /// MPI_Comm_dup (MPI 3.1, 6.4.2).
    Dup,
    /// MPI_Comm_split, with what the rank asks for (MPI 3.1, 6.4.2).
    Split(Choice),
}

/// The collective that a rank is in.
#[derive(Drop)]
pub struct Inside {
    /// The place of its communicator among those that the rank holds.
    pub place: usize,
    /// The number of the communicator's context.
    pub context: u64,
    /// The incarnation of the communicator's members: 0, or the rank's own in what came from its communicator with
    /// itself alone.
    pub incarnation: u16,
    /// How many collectives the rank had entered on the communicator before.
    pub number: u32,
    /// What the rank entered with.
    pub entry: Entry,
    /// What the rank is in it.
    pub role: Role,
    /// Whether it has told that it and those below it have entered.
    pub told: bool,
}

/// A block that all members hand in alike, and its root.
fn rooted_record(root: u32, block: &Block) -> Rooted
    ensures { result ≡ rooted_at root block.now }
{
    Rooted {
        elements: block.elements(),
        root,
    }
}

/// The same elements once more, where there are any.
fn copy_of(alloc: Global, all: Option<&Buffer>) -> Result<Option<Buffer>, AllocError>
    ensures { IfOk result (λ copy. copy ≡ option_copied all.entry) }
{
    match all {
        Some(all) => Ok(Some(all.try_clone(alloc)?)),
        None => Ok(None),
    }
}

impl Entry {
    /// The same once more. The only error is want of memory.
    pub fn try_clone(&self, alloc: Global) -> Result<Entry, AllocError>
        ensures { IfOk result (λ copy. copy ≡ self.now) }
    {
        match self {
            Entry::Barrier => Ok(Entry::Barrier),
            Entry::Bcast(root, block) => Ok(Entry::Bcast(*root, block.try_clone(alloc)?)),
            Entry::Gather(root, block) => Ok(Entry::Gather(*root, block.try_clone(alloc)?)),
            Entry::Scatter(rooted, all) => {
                Ok(Entry::Scatter(*rooted, copy_of(alloc, all.as_ref())?))
            }
            Entry::Reduce(operation, root, block) => {
                Ok(Entry::Reduce(*operation, *root, block.try_clone(alloc)?))
            }
            Entry::Allreduce(operation, block) => {
                Ok(Entry::Allreduce(*operation, block.try_clone(alloc)?))
            }
            Entry::Dup => Ok(Entry::Dup),
            Entry::Split(choice) => Ok(Entry::Split(*choice)),
        }
    }

    /// The record that all members have to agree on.
    pub fn record(&self) -> Record
        ensures { result ≡ record_of self.now }
    {
        match self {
            Entry::Barrier => Record::Barrier,
            Entry::Bcast(root, block) => Record::Bcast(rooted_record(*root, block)),
            Entry::Gather(root, block) => Record::Gather(rooted_record(*root, block)),
            Entry::Scatter(rooted, _) => Record::Scatter(*rooted),
            Entry::Reduce(operation, root, block) => Record::Reduce(
                *operation,
                rooted_record(*root, block),
            ),
            Entry::Allreduce(operation, block) => Record::Allreduce(*operation, block.elements()),
            Entry::Dup => Record::Dup,
            Entry::Split(_) => Record::Split,
        }
    }

    /// Whether a record agrees with what the rank entered.
    pub fn agrees(&self, other: Record) -> bool
        ensures { result ≡ agrees self.now other }
    {
        self.record().agrees(other)
    }

    /// Whether the collective makes communicators.
    pub fn is_making(&self) -> bool
        ensures { result ≡ is_making self.now }
    {
        matches!(self, Entry::Dup | Entry::Split(_))
    }

    /// What the rank asks for in a split; in the other collectives nothing.
    pub fn choice(&self) -> Choice
        ensures { result ≡ own_choice self.now }
    {
        match self {
            Entry::Split(choice) => *choice,
            _ => Choice {
                colour: None,
                key: 0,
            },
        }
    }

    /// The elements that the rank handed in, where it handed in any.
    pub fn elements(&self) -> Option<&Buffer>
        ensures { option_copied result ≡ own_elements self.now }
    {
        match self {
            Entry::Bcast(_, block) | Entry::Gather(_, block) => Some(block.buffer()),
            Entry::Reduce(_, _, block) | Entry::Allreduce(_, block) => Some(block.buffer()),
            Entry::Scatter(_, buffer) => buffer.as_ref(),
            Entry::Barrier | Entry::Dup | Entry::Split(_) => None,
        }
    }
}

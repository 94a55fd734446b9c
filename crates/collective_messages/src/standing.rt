//! Whether what ranks keep of collectives stands alike.

use crate::block::Block;
use crate::entry::{Entry, Inside};
use crate::note::{Note, NoteContent};
use crate::tally::Tally;
use alike::Alike;

impl Alike for Block {
    fn stands_as(&self, other: &Self) -> bool {
        self.buffer().stands_as(other.buffer())
    }
}

impl Alike for Entry {
    fn stands_as(&self, other: &Self) -> bool {
        match (self, other) {
            (Entry::Barrier, Entry::Barrier) => true,
            (Entry::Bcast(root, block), Entry::Bcast(other_root, other_block)) => {
                root == other_root && block.stands_as(other_block)
            }
            (Entry::Gather(root, block), Entry::Gather(other_root, other_block)) => {
                root == other_root && block.stands_as(other_block)
            }
            (Entry::Scatter(rooted, all), Entry::Scatter(other_rooted, other_all)) => {
                rooted == other_rooted && all.stands_as(other_all)
            }
            (
                Entry::Reduce(operation, root, block),
                Entry::Reduce(other_operation, other_root, other_block),
            ) => operation == other_operation && root == other_root && block.stands_as(other_block),
            (Entry::Allreduce(operation, block), Entry::Allreduce(other_operation, other_block)) =>
                operation == other_operation && block.stands_as(other_block),
            (Entry::Dup, Entry::Dup) => true,
            (Entry::Split(choice), Entry::Split(other_choice)) => choice == other_choice,
            _ => false,
        }
    }
}

impl Alike for Inside {
    fn stands_as(&self, other: &Self) -> bool {
        self.place == other.place
            && self.context == other.context
            && self.incarnation == other.incarnation
            && self.number == other.number
            && self.entry.stands_as(&other.entry)
            && self.role.stands_as(&other.role)
            && self.told == other.told
    }
}

impl Alike for NoteContent {
    fn stands_as(&self, other: &Self) -> bool {
        match (self, other) {
            (NoteContent::RecordsDiffer, NoteContent::RecordsDiffer) => true,
            (NoteContent::Nothing(way), NoteContent::Nothing(other_way)) => way == other_way,
            (
                NoteContent::Elements(way, elements),
                NoteContent::Elements(other_way, other_elements),
            ) => way == other_way && elements.stands_as(other_elements),
            (NoteContent::Context(context), NoteContent::Context(other_context)) => {
                context == other_context
            }
            (NoteContent::Choice(choice), NoteContent::Choice(other_choice)) => {
                choice == other_choice
            }
            (NoteContent::NullCommunicator, NoteContent::NullCommunicator) => true,
            (
                NoteContent::NewGroup(context, group),
                NoteContent::NewGroup(other_context, other_group),
            ) => context == other_context && group.stands_as(other_group),
            _ => false,
        }
    }
}

impl Alike for Note {
    fn stands_as(&self, other: &Self) -> bool {
        self.sender == other.sender
            && self.context == other.context
            && self.number == other.number
            && self.entered == other.entered
            && self.said.stands_as(&other.said)
    }
}

impl Alike for Tally {
    fn stands_as(&self, other: &Self) -> bool {
        self.context == other.context && self.entered == other.entered
    }
}

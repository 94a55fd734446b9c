//! What a member handed in, as a rank knows it.

ghost use Rattle.std.specs.Prelude.{◌≡◌, find};
ghost use Rattle.std.specs.Option.{option_copied};
ghost use Rattle.collective_progress.specs.Blocks.{are_known, block_known, block_of_note, block_said, is_like};
ghost use Rattle.collective_messages.specs.Notes.{member_at, tells_entry};

use crate::seat::Seat;
use collective_messages::{Inside, NoteContent, is_same};
use datatypes::Buffer;
use vocabulary::Endpoint;

/// The member of the communicator that has this rank in `world`.
fn member(inside: &Inside, rank: u16) -> Endpoint
    ensures { result ≡ member_at inside.now.incarnation rank }
{
    Endpoint {
        rank,
        incarnation: inside.incarnation,
    }
}

/// The elements that a message brings, where it brings any.
fn block_said(said: &NoteContent) -> Option<&Buffer>
    ensures { option_copied result ≡ block_said said.now }
{
    match said {
        NoteContent::Elements(_, block) => Some(block),
        NoteContent::RecordsDiffer | NoteContent::Nothing(_) | NoteContent::Context(_) => None,
        NoteContent::Choice(_) | NoteContent::NullCommunicator | NoteContent::NewGroup(..) => None,
    }
}

/// Whether a block is as many elements of the same type as another one.
pub fn is_like(mine: &Buffer, block: &Buffer) -> bool
    ensures { result ≡ is_like mine.now block.now }
{
    block.basic() == mine.basic() && block.len() == mine.len()
}

impl<'a> Seat<'a> {
    /// The elements of the first note that tells that the member with this rank has entered, where it brings any.
    fn block_told(&self, rank: u16) -> Option<&'a Buffer>
        ensures { option_copied result ≡
            block_of_note
            (find (tells_entry self.now.inside.now.context self.now.inside.now.number
            (member_at self.now.inside.now.incarnation rank)) self.now.notes.now) }
    {
        match self.progress.entry_note(self.inside, self.notes, rank) {
            Some(note) => block_said(&note.said),
            None => None,
        }
    }

    /// What the member with this rank handed in, as the rank knows it, which handed in `mine`: as many elements of the
    /// same type. Nothing is answered where it isn't known, or is none such.
    pub fn block_known(&self, mine: &'a Buffer, rank: u16) -> Option<&'a Buffer>
        ensures { option_copied result ≡
            block_known self.now.own mine.now self.now.inside.now.context self.now.inside.now.number self.now.notes.now
            (member_at self.now.inside.now.incarnation rank) }
    {
        if is_same(member(self.inside, rank), self.own) {
            return Some(mine);
        }
        match self.block_told(rank) {
            Some(block) => {
                if is_like(mine, block) {
                    return Some(block);
                }
                None
            }
            None => None,
        }
    }

    /// Whether what each of the members with these ranks handed in is known.
    pub fn are_known(&self, mine: &'a Buffer, ranks: &[u16]) -> bool
        ensures { result ≡
            are_known self.now.own mine.now self.now.inside.now.incarnation self.now.inside.now.context
            self.now.inside.now.number self.now.notes.now ranks.now }
    {
        for rank in ranks {
            if self.block_known(mine, *rank).is_none() {
                return false;
            }
        }
        true
    }
}

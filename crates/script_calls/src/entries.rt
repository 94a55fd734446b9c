//! What is entered in a collective (MPI 3.1, 5 and 6.4.2).

ghost use Rattle.std.specs.Prelude.{◌≡◌};
ghost use Rattle.script_calls.specs.Entries.{elements_like, entry_with, split_by};

use collective_messages::{Block, Entry};
use datatypes::Buffer;
use payload::{Choice, Elements};
use statements::Splitting;
use vocabulary::Operation;

/// What is entered by a split.
pub fn split_by(splitting: &Splitting) -> Entry
    ensures { result ≡ split_by splitting.now }
{
    Entry::Split(Choice {
        colour: splitting.colour,
        key: splitting.key,
    })
}

/// What is entered by a broadcast from this root, with these elements; none where they are 2^32 or more.
pub fn broadcast_of(root: u16, buffer: Buffer) -> Option<Entry>
    ensures { result ≡ entry_with (λ block. Entry.Bcast root block) buffer }
{
    match Block::new(buffer) {
        Ok(block) => Some(Entry::Bcast(u32::from(root), block)),
        Err(_) => None,
    }
}

/// What is entered by a gather at this root, with these elements; none where they are 2^32 or more.
pub fn gather_of(root: u16, buffer: Buffer) -> Option<Entry>
    ensures { result ≡ entry_with (λ block. Entry.Gather root block) buffer }
{
    match Block::new(buffer) {
        Ok(block) => Some(Entry::Gather(u32::from(root), block)),
        Err(_) => None,
    }
}

/// What is entered by a reduction for this root, with these elements; none where they are 2^32 or more.
pub fn reduction_of(operation: Operation, root: u16, buffer: Buffer) -> Option<Entry>
    ensures { result ≡ entry_with (λ block. Entry.Reduce operation root block) buffer }
{
    match Block::new(buffer) {
        Ok(block) => Some(Entry::Reduce(operation, u32::from(root), block)),
        Err(_) => None,
    }
}

/// What is entered by a reduction for all members, with these elements; none where they are 2^32 or more.
pub fn reduction_to_all_of(operation: Operation, buffer: Buffer) -> Option<Entry>
    ensures { result ≡ entry_with (λ block. Entry.Allreduce operation block) buffer }
{
    match Block::new(buffer) {
        Ok(block) => Some(Entry::Allreduce(operation, block)),
        Err(_) => None,
    }
}

/// Of which type the blocks of a scatter are, and how many elements each has. A number that 32 bits don't hold stands
/// as the greatest that they hold.
pub fn elements_like(into: &Buffer) -> Elements
    ensures { result ≡ elements_like into.now }
{
    let count = if into.len() < 4_294_967_295 {
        into.len() as u32
    } else {
        4_294_967_295
    };
    Elements {
        basic: into.basic(),
        count,
    }
}

//! Why collectives are refused.

use crate::types::{operation_name, type_name};
use collective_messages::Entry;
use datatypes::Buffer;
use payload::{RECORD_BYTES, Rooted};
use point_to_point_calls::Refusal;
use std::alloc::{AllocError, Global};
use vocabulary::{Operation, SEND_LIMIT};

/// The elements that a rank hands in to a collective that isn't a scatter.
fn handed_in(entry: &Entry) -> Option<&Buffer> {
    match entry {
        Entry::Bcast(_, block)
        | Entry::Gather(_, block)
        | Entry::Reduce(_, _, block)
        | Entry::Allreduce(_, block) => Some(block.buffer()),
        Entry::Scatter(_, _) | Entry::Barrier | Entry::Dup | Entry::Split(_) => None,
    }
}

fn long_block(alloc: Global, bytes: u64) -> Result<String, AllocError> {
    let most = SEND_LIMIT - RECORD_BYTES;
    format!(in alloc; "a member's block has {bytes} bytes, and at most {most} may go")
}

/// Why the count of a scatter is wrong at its root, which hands in these elements.
fn scatter_words(alloc: Global, rooted: Rooted, all: &Buffer) -> Result<String, AllocError> {
    let (count, len) = (rooted.elements.count, all.len());
    let bytes = u64::from(count) * u64::from(rooted.elements.basic.size());
    if bytes > (SEND_LIMIT - RECORD_BYTES) as u64 {
        return long_block(alloc, bytes);
    }
    let name = type_name(all.basic());
    format!(in alloc; "the buffer has {len} {name}, and each member's block {count}")
}

fn count_words(alloc: Global, entry: &Entry) -> Result<Option<String>, AllocError> {
    if let Entry::Scatter(rooted, Some(all)) = entry {
        return Ok(Some(scatter_words(alloc, *rooted, all)?));
    }
    match handed_in(entry) {
        Some(buffer) => Ok(Some(long_block(alloc, buffer.byte_len() as u64)?)),
        None => Ok(None),
    }
}

fn type_words(alloc: Global, entry: &Entry) -> Result<Option<String>, AllocError> {
    if let Entry::Scatter(rooted, Some(all)) = entry {
        let (one, other) = (type_name(all.basic()), type_name(rooted.elements.basic));
        let words = format!(in alloc; "the buffer is {one}, and each member's block {other}")?;
        return Ok(Some(words));
    }
    Ok(None)
}

/// The root that is named, if one is.
fn root_in(entry: &Entry) -> Option<u32> {
    match entry {
        Entry::Bcast(root, _) | Entry::Gather(root, _) | Entry::Reduce(_, root, _) => Some(*root),
        Entry::Scatter(rooted, _) => Some(rooted.root),
        Entry::Allreduce(_, _) | Entry::Barrier | Entry::Dup | Entry::Split(_) => None,
    }
}

/// Why there is no such root. A number that 16 bits don't hold stands as the greatest that they hold, and isn't told.
fn root_words(alloc: Global, entry: &Entry) -> Result<String, AllocError> {
    match root_in(entry) {
        Some(root) if root < 65_535 => {
            format!(in alloc; "the communicator has no rank {root} to be the root")
        }
        _ => format!(in alloc; "the communicator has no such rank to be the root"),
    }
}

fn undefined_words(
    alloc: Global,
    operation: Operation,
    buffer: &Buffer,
) -> Result<String, AllocError> {
    let (operation, basic) = (operation_name(operation), type_name(buffer.basic()));
    format!(in alloc; "{operation} isn't defined on {basic}")
}

fn operation_words(alloc: Global, entry: &Entry) -> Result<Option<String>, AllocError> {
    match entry {
        Entry::Reduce(operation, _, block) | Entry::Allreduce(operation, block) => {
            Ok(Some(undefined_words(alloc, *operation, block.buffer())?))
        }
        _ => Ok(None),
    }
}

/// Why what was entered is refused; none where no more is known than the refusal itself says.
pub(crate) fn entry_words(
    alloc: Global,
    refusal: Refusal,
    entry: &Entry,
) -> Result<Option<String>, AllocError> {
    match refusal {
        Refusal::Count => count_words(alloc, entry),
        Refusal::WrongType => type_words(alloc, entry),
        Refusal::Root => Ok(Some(root_words(alloc, entry)?)),
        Refusal::Operation => operation_words(alloc, entry),
        _ => Ok(None),
    }
}

//! The parts of making a layout: offsets that are appended, and what is kept beside them.

ghost use Rattle.std.specs.Prelude.{◌≡◌, ◌+◌, ◌<◌, ◌^◌, ◌++◌, length, IfOk};
ghost use Rattle.derived_types.specs.Layouts.{highest_of, extent_of, moved, copies_at, vector_offsets, indexed_offsets};
ghost use Rattle.derived_types.specs.Layouts.{has_repeats};

use crate::block::IndexedBlock;
use std::alloc::{AllocError, Global};
use std::collections::HashSet;

/// Appends each offset of the old layout, moved on.
fn append_moved(offsets: &mut Vec<u32>, old: &[u32], by: u32) -> Result<(), AllocError>
    requires { by + highest_of old.now < 2 ^ 32 }
    ensures { IfOk result (λ _. offsets.new.items ≡ offsets.old.items ++ moved by old.now) }
{
    for offset in old {
        offsets.push(by + *offset)?;
    }
    Ok(())
}

/// Appends so many copies of the old layout, the first at a place that is counted in copies.
pub fn append_copies(
    offsets: &mut Vec<u32>,
    old: &[u32],
    extent: u64,
    first: u64,
    count: u64,
) -> Result<(), AllocError>
    requires some { 0 < length old.now }
    requires extent { extent ≡ extent_of old.now }
    requires near { highest_of (copies_at first count old.now) < 2 ^ 32 }
    ensures { IfOk result
        (λ _. offsets.new.items ≡ offsets.old.items ++ copies_at first count old.now) }
{
    for i in 0..count {
        let by = (first + i) * extent;
        append_moved(offsets, old, by as u32)?;
    }
    Ok(())
}

/// Appends so many blocks of copies, where each block begins so many copies after the one before it.
pub fn append_vector(
    offsets: &mut Vec<u32>,
    old: &[u32],
    extent: u64,
    count: u64,
    blocklength: u64,
    stride: u64,
) -> Result<(), AllocError>
    requires some { 0 < length old.now }
    requires blocks { 0 < blocklength }
    requires extent { extent ≡ extent_of old.now }
    requires near { highest_of (vector_offsets count blocklength stride old.now) < 2 ^ 32 }
    ensures { IfOk result
        (λ _.
        offsets.new.items ≡
        offsets.old.items ++ vector_offsets count blocklength stride old.now) }
{
    for i in 0..count {
        append_copies(offsets, old, extent, i * stride, blocklength)?;
    }
    Ok(())
}

/// Appends blocks of copies.
pub fn append_blocks(
    offsets: &mut Vec<u32>,
    old: &[u32],
    extent: u64,
    blocks: &[IndexedBlock],
) -> Result<(), AllocError>
    requires some { 0 < length old.now }
    requires extent { extent ≡ extent_of old.now }
    requires near { highest_of (indexed_offsets blocks.now old.now) < 2 ^ 32 }
    ensures { IfOk result
        (λ _. offsets.new.items ≡ offsets.old.items ++ indexed_offsets blocks.now old.now) }
{
    for block in blocks {
        append_copies(offsets, old, extent, block.displacement, block.length)?;
    }
    Ok(())
}

/// Whether an offset occurs twice.
pub fn occurs_twice(alloc: Global, offsets: &[u32]) -> Result<bool, AllocError>
    ensures { IfOk result (λ repeats. repeats ≡ has_repeats offsets.now) }
{
    let kinds: HashSet<u32> = offsets.iter().copied().collect(alloc)?;
    Ok(kinds.len() < offsets.len())
}

//! Elements that stand apart, gathered one after the other.

ghost use Rattle.std.specs.Prelude.{◌≡◌, ◌≤◌, ◌<◌, ◌+◌, ◌*◌, ◌++◌, length, take, drop, slice_index, IfOk, IfSome};
ghost use Rattle.std.specs.Prelude.{IsTrue};
ghost use Rattle.std.specs.List.{range_with_len};
ghost use Rattle.derived_types.specs.Layouts.{moved, places};
ghost use Rattle.datatypes.specs.Transfers.{room_for, elements_at, AreNear};
ghost use Rattle.datatypes.specs.Contents.{values_of, AreWhole};
ghost use Rattle.datatypes.specs.Pieces.{pieces_of, AreBlocks};

use crate::bytes::{number_at, put_number_at};
use crate::strided::{LayoutCopy, Strided};
use std::alloc::{AllocError, Global};

/// The fewest elements of a block that is copied as one piece.
const LONG_BLOCK: usize = 16;

/// How many of the first offsets follow one another.
fn first_run(offsets: &[u32]) -> usize
    requires { 0 < length offsets.now }
    ensures within { result ≤ length offsets.now }
    ensures run { take result offsets.now ≡ range_with_len (slice_index offsets.now 0) result }
{
    let first = u64::from(offsets[0]);
    for i in 0..offsets.len() {
        if u64::from(offsets[i]) != first + i as u64 {
            return i;
        }
    }
    offsets.len()
}

/// Whether the offsets follow one another.
pub fn is_run(offsets: &[u32]) -> bool
    requires { 0 < length offsets.now }
    ensures { IsTrue result →
        offsets.now ≡ range_with_len (slice_index offsets.now 0) (length offsets.now) }
{
    first_run(offsets) == offsets.len()
}

/// Whether so many offsets from a place on follow one another.
fn is_block(offsets: &[u32], from: usize, block: usize) -> bool
    requires some { 0 < block }
    requires there { from + block ≤ length offsets.now }
    ensures { IsTrue result →
        take block (drop from offsets.now) ≡ range_with_len (slice_index offsets.now from) block }
{
    let (_, rest) = offsets.split_at(from);
    let (here, _) = rest.split_at(block);
    is_run(here)
}

/// Whether the offsets are made of blocks of so many that follow one another.
fn are_blocks(offsets: &[u32], block: usize) -> bool
    requires { 0 < block }
    ensures { IsTrue result → AreBlocks block offsets.now }
{
    if offsets.len() % block != 0 {
        return false;
    }
    for number in 0..offsets.len() / block {
        if !is_block(offsets, number * block, block) {
            return false;
        }
    }
    true
}

/// How long the blocks are of which the offsets are made, where they are worth to be copied as one
/// piece each.
pub fn block_length(offsets: &[u32]) -> Option<usize>
    requires { 0 < length offsets.now }
    ensures { IfSome result (λ block. (0 < block) × AreBlocks block offsets.now) }
{
    let block = first_run(offsets);
    if block < LONG_BLOCK {
        return None;
    }
    if are_blocks(offsets, block) {
        Some(block)
    } else {
        None
    }
}

/// So many bytes from a place on.
#[inline(always)]
pub fn run(bytes: &[u8], from: usize, count: usize) -> &[u8]
    requires { from + count ≤ length bytes.now }
    ensures { result.now ≡ take count (drop from bytes.now) }
{
    let (_, rest) = bytes.split_at(from);
    let (here, _) = rest.split_at(count);
    here
}

/// Puts the elements of one copy of a layout over those of `out` from a place on.
#[inline(always)]
fn fill_elements(out: &mut [u8], at: usize, bytes: &[u8], copy: &LayoutCopy)
    requires out { AreWhole copy.now.size out.old }
    requires bytes { AreWhole copy.now.size bytes.now }
    requires room { at + length copy.now.offsets.now ≤ length (values_of copy.now.size out.old) }
    requires near { AreNear (moved copy.now.from copy.now.offsets.now) (length (values_of copy.now.size bytes.now)) }
    ensures len { length out.new ≡ length out.old }
    ensures whole { AreWhole copy.now.size out.new }
    ensures values { values_of copy.now.size out.new ≡
        take at (values_of copy.now.size out.old)
        ++ elements_at (values_of copy.now.size bytes.now) (moved copy.now.from copy.now.offsets.now)
        ++ drop (at + length copy.now.offsets.now) (values_of copy.now.size out.old) }
{
    for i in 0..copy.offsets.len() {
        let place = copy.from + copy.offsets[i] as usize;
        let number = number_at(bytes, copy.size, place);
        put_number_at(out, number, copy.size, at + i);
    }
}

/// Gathers the elements at the places of so many copies of a layout; compiled for each size.
#[inline(always)]
fn fill_sized(out: &mut [u8], bytes: &[u8], size: usize, strided: &Strided, copies: usize)
    requires size { size ≡ strided.now.size }
    requires some { 0 < length strided.now.offsets.now }
    requires out { AreWhole size out.old }
    requires bytes { AreWhole size bytes.now }
    requires room { length (values_of size out.old) ≡ copies * length strided.now.offsets.now }
    requires near { room_for (places copies strided.now.offsets.now) ≤ length (values_of size bytes.now) }
    ensures len { length out.new ≡ length out.old }
    ensures whole { AreWhole size out.new }
    ensures values { values_of size out.new ≡
        elements_at (values_of size bytes.now) (places copies strided.now.offsets.now) }
{
    for copy in 0..copies {
        let one = LayoutCopy {
            size,
            offsets: strided.offsets,
            from: copy * strided.extent,
        };
        fill_elements(out, copy * strided.offsets.len(), bytes, &one);
    }
}

/// Gathers the elements at the places of so many copies of a layout.
fn fill_slices(out: &mut [u8], bytes: &[u8], strided: &Strided, copies: usize)
    requires some { 0 < length strided.now.offsets.now }
    requires out { AreWhole strided.now.size out.old }
    requires bytes { AreWhole strided.now.size bytes.now }
    requires room { length (values_of strided.now.size out.old) ≡ copies * length strided.now.offsets.now }
    requires near { room_for (places copies strided.now.offsets.now) ≤ length (values_of strided.now.size bytes.now) }
    ensures len { length out.new ≡ length out.old }
    ensures whole { AreWhole strided.now.size out.new }
    ensures values { values_of strided.now.size out.new ≡
        elements_at (values_of strided.now.size bytes.now) (places copies strided.now.offsets.now) }
{
    match strided.size {
        1 => fill_sized(out, bytes, 1, strided, copies),
        2 => fill_sized(out, bytes, 2, strided, copies),
        4 => fill_sized(out, bytes, 4, strided, copies),
        8 => fill_sized(out, bytes, 8, strided, copies),
        size => fill_sized(out, bytes, size, strided, copies),
    }
}

/// How many bytes so many copies have; more than can be counted are refused.
fn byte_count(strided: &Strided, copies: usize) -> Result<usize, AllocError>
    ensures { IfOk result (λ count. count ≡ copies * length strided.now.offsets.now * strided.now.size) }
{
    let elements = copies.checked_mul(strided.offsets.len()).ok_or(AllocError)?;
    elements.checked_mul(strided.size).ok_or(AllocError)
}

/// The bytes of the elements at the places of so many copies of a layout, gathered one by one.
fn pack_apart(
    alloc: Global,
    bytes: &[u8],
    strided: &Strided,
    copies: usize,
) -> Result<Vec<u8>, AllocError>
    requires some { 0 < length strided.now.offsets.now }
    requires bytes { AreWhole strided.now.size bytes.now }
    requires near { room_for (places copies strided.now.offsets.now) ≤ length (values_of strided.now.size bytes.now) }
    ensures whole { IfOk result (λ out. AreWhole strided.now.size out.items) }
    ensures values { IfOk result
        (λ out.
        values_of strided.now.size out.items ≡
        elements_at (values_of strided.now.size bytes.now) (places copies strided.now.offsets.now)) }
{
    let count = byte_count(strided, copies)?;
    let mut out = vec![in alloc; 0; count]?;
    fill_slices(&mut out, bytes, strided, copies);
    Ok(out)
}

/// Appends the elements of one copy of a layout, which is made of blocks.
fn append_blocks(
    out: &mut Vec<u8>,
    bytes: &[u8],
    copy: &LayoutCopy,
    block: usize,
) -> Result<(), AllocError>
    requires block { 0 < block }
    requires blocks { AreBlocks block copy.now.offsets.now }
    requires bytes { AreWhole copy.now.size bytes.now }
    requires near { AreNear (moved copy.now.from copy.now.offsets.now) (length (values_of copy.now.size bytes.now)) }
    ensures { IfOk result
        (λ _.
        out.new.items ≡ out.old.items ++
        pieces_of copy.now.size bytes.now (moved copy.now.from copy.now.offsets.now)) }
{
    for number in 0..copy.offsets.len() / block {
        let first = copy.from + copy.offsets[number * block] as usize;
        out.extend_from_slice(run(bytes, first * copy.size, block * copy.size))?;
    }
    Ok(())
}

/// Appends the elements at the places of so many copies of a layout, which is made of blocks.
fn append_copied_blocks(
    out: &mut Vec<u8>,
    bytes: &[u8],
    strided: &Strided,
    copies: usize,
    block: usize,
) -> Result<(), AllocError>
    requires some { 0 < length strided.now.offsets.now }
    requires block { 0 < block }
    requires blocks { AreBlocks block strided.now.offsets.now }
    requires bytes { AreWhole strided.now.size bytes.now }
    requires near { room_for (places copies strided.now.offsets.now) ≤ length (values_of strided.now.size bytes.now) }
    ensures { IfOk result
        (λ _.
        out.new.items ≡ out.old.items ++
        pieces_of strided.now.size bytes.now (places copies strided.now.offsets.now)) }
{
    for number in 0..copies {
        let one = LayoutCopy {
            size: strided.size,
            offsets: strided.offsets,
            from: number * strided.extent,
        };
        append_blocks(out, bytes, &one, block)?;
    }
    Ok(())
}

/// The bytes of the elements at the places of so many copies of a layout, which is made of blocks:
/// each is copied as one piece.
fn pack_blocks(
    alloc: Global,
    bytes: &[u8],
    strided: &Strided,
    copies: usize,
    block: usize,
) -> Result<Vec<u8>, AllocError>
    requires some { 0 < length strided.now.offsets.now }
    requires block { 0 < block }
    requires blocks { AreBlocks block strided.now.offsets.now }
    requires bytes { AreWhole strided.now.size bytes.now }
    requires near { room_for (places copies strided.now.offsets.now) ≤ length (values_of strided.now.size bytes.now) }
    ensures whole { IfOk result (λ out. AreWhole strided.now.size out.items) }
    ensures values { IfOk result
        (λ out.
        values_of strided.now.size out.items ≡
        elements_at (values_of strided.now.size bytes.now) (places copies strided.now.offsets.now)) }
{
    let count = byte_count(strided, copies)?;
    let mut out = Vec::with_capacity(alloc, count)?;
    append_copied_blocks(&mut out, bytes, strided, copies, block)?;
    Ok(out)
}

/// The bytes of the elements at the places of so many copies of a layout, in order.
/// Offsets that follow one another are copied as one piece, long blocks of them as one piece each.
pub fn pack_bytes(
    alloc: Global,
    bytes: &[u8],
    strided: &Strided,
    copies: usize,
) -> Result<Vec<u8>, AllocError>
    requires bytes { AreWhole strided.now.size bytes.now }
    requires near { room_for (places copies strided.now.offsets.now) ≤ length (values_of strided.now.size bytes.now) }
    ensures whole { IfOk result (λ out. AreWhole strided.now.size out.items) }
    ensures values { IfOk result
        (λ out.
        values_of strided.now.size out.items ≡
        elements_at (values_of strided.now.size bytes.now) (places copies strided.now.offsets.now)) }
{
    if copies == 0 {
        return Ok(Vec::new(alloc));
    }
    let offsets = strided.offsets;
    if offsets.is_empty() {
        return Ok(Vec::new(alloc));
    }
    if is_run(offsets) {
        let first = offsets[0] as usize;
        let count = copies * offsets.len() * strided.size;
        return Vec::from_slice(alloc, run(bytes, first * strided.size, count));
    }
    match block_length(offsets) {
        Some(block) => pack_blocks(alloc, bytes, strided, copies, block),
        None => pack_apart(alloc, bytes, strided, copies),
    }
}

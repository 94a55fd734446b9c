//! A message's elements put at their places.

ghost use Rattle.std.specs.Prelude.{◌≡◌, ◌≤◌, ◌<◌, ◌+◌, length, take, drop, IfSome};
ghost use Rattle.derived_types.specs.Layouts.{moved};
ghost use Rattle.datatypes.specs.Transfers.{put_at, first_places, AreNear};
ghost use Rattle.datatypes.specs.Contents.{values_of, AreWhole};
ghost use Rattle.datatypes.specs.Pieces.{AreBlocks};

use crate::bytes::{copy_within, number_at, put_number_at};
use crate::packing::{block_length, is_run, run};
use crate::strided::{LayoutCopy, Strided};

/// Puts the elements of the message from one on at the places of one copy of a layout.
#[inline(always)]
fn put_elements(bytes: &mut [u8], message: &[u8], start: usize, copy: &LayoutCopy)
    requires bytes { AreWhole copy.now.size bytes.old }
    requires message { AreWhole copy.now.size message.now }
    requires start { start + length copy.now.offsets.now ≤ length (values_of copy.now.size message.now) }
    requires near { AreNear (moved copy.now.from copy.now.offsets.now) (length (values_of copy.now.size bytes.old)) }
    ensures len { length bytes.new ≡ length bytes.old }
    ensures whole { AreWhole copy.now.size bytes.new }
    ensures values { values_of copy.now.size bytes.new ≡
        put_at (values_of copy.now.size bytes.old) (moved copy.now.from copy.now.offsets.now)
        (take (length copy.now.offsets.now) (drop start (values_of copy.now.size message.now))) }
{
    for i in 0..copy.offsets.len() {
        let place = copy.from + copy.offsets[i] as usize;
        let number = number_at(message, copy.size, start + i);
        put_number_at(bytes, number, copy.size, place);
    }
}

/// Puts the elements of one copy of a layout whose offsets are made of blocks: each block is copied as one piece.
fn put_blocks(bytes: &mut [u8], message: &[u8], start: usize, copy: &LayoutCopy, block: usize)
    requires block { 0 < block }
    requires blocks { AreBlocks block copy.now.offsets.now }
    requires bytes { AreWhole copy.now.size bytes.old }
    requires message { AreWhole copy.now.size message.now }
    requires start { start + length copy.now.offsets.now ≤ length (values_of copy.now.size message.now) }
    requires near { AreNear (moved copy.now.from copy.now.offsets.now) (length (values_of copy.now.size bytes.old)) }
    ensures len { length bytes.new ≡ length bytes.old }
    ensures whole { AreWhole copy.now.size bytes.new }
    ensures values { values_of copy.now.size bytes.new ≡
        put_at (values_of copy.now.size bytes.old) (moved copy.now.from copy.now.offsets.now)
        (take (length copy.now.offsets.now) (drop start (values_of copy.now.size message.now))) }
{
    for number in 0..copy.offsets.len() / block {
        let place = copy.from + copy.offsets[number * block] as usize;
        let piece = run(
            message,
            (start + number * block) * copy.size,
            block * copy.size,
        );
        copy_within(bytes, place * copy.size, piece);
    }
}

/// Puts the elements of the message from one on at the places of one copy of a layout, which may be made
/// of blocks.
#[inline(always)]
fn put_copy(bytes: &mut [u8], message: &[u8], start: usize, copy: &LayoutCopy, block: Option<usize>)
    requires blocks { IfSome block (λ length. (0 < length) × AreBlocks length copy.now.offsets.now) }
    requires bytes { AreWhole copy.now.size bytes.old }
    requires message { AreWhole copy.now.size message.now }
    requires start { start + length copy.now.offsets.now ≤ length (values_of copy.now.size message.now) }
    requires near { AreNear (moved copy.now.from copy.now.offsets.now) (length (values_of copy.now.size bytes.old)) }
    ensures len { length bytes.new ≡ length bytes.old }
    ensures whole { AreWhole copy.now.size bytes.new }
    ensures values { values_of copy.now.size bytes.new ≡
        put_at (values_of copy.now.size bytes.old) (moved copy.now.from copy.now.offsets.now)
        (take (length copy.now.offsets.now) (drop start (values_of copy.now.size message.now))) }
{
    match block {
        Some(block) => put_blocks(bytes, message, start, copy, block),
        None => put_elements(bytes, message, start, copy),
    }
}

/// Puts the first elements of the message at their places in copies of a layout; compiled for each size.
#[inline(always)]
fn put_sized(bytes: &mut [u8], message: &[u8], size: usize, strided: &Strided, count: usize)
    requires size { size ≡ strided.now.size }
    requires some { 0 < count → 0 < length strided.now.offsets.now }
    requires bytes { AreWhole size bytes.old }
    requires message { AreWhole size message.now }
    requires count { count ≡ length (values_of size message.now) }
    requires near { AreNear (first_places count strided.now.offsets.now) (length (values_of size bytes.old)) }
    ensures len { length bytes.new ≡ length bytes.old }
    ensures whole { AreWhole size bytes.new }
    ensures values { values_of size bytes.new ≡
        put_at (values_of size bytes.old) (first_places count strided.now.offsets.now)
        (values_of size message.now) }
{
    let offsets = strided.offsets;
    if offsets.is_empty() {
        return;
    }
    let block = block_length(offsets);
    let whole = count / offsets.len();
    for copy in 0..whole {
        let one = LayoutCopy {
            size,
            offsets,
            from: copy * strided.extent,
        };
        put_copy(bytes, message, copy * offsets.len(), &one, block);
    }
    let rest = count % offsets.len();
    if rest > 0 {
        let (first, _) = offsets.split_at(rest);
        let part = LayoutCopy {
            size,
            offsets: first,
            from: whole * strided.extent,
        };
        put_elements(bytes, message, whole * offsets.len(), &part);
    }
}

/// Puts the first elements of the message at their places in copies of a layout.
fn put_slices(bytes: &mut [u8], message: &[u8], strided: &Strided, count: usize)
    requires some { 0 < count → 0 < length strided.now.offsets.now }
    requires bytes { AreWhole strided.now.size bytes.old }
    requires message { AreWhole strided.now.size message.now }
    requires count { count ≡ length (values_of strided.now.size message.now) }
    requires near { AreNear (first_places count strided.now.offsets.now)
        (length (values_of strided.now.size bytes.old)) }
    ensures len { length bytes.new ≡ length bytes.old }
    ensures whole { AreWhole strided.now.size bytes.new }
    ensures values { values_of strided.now.size bytes.new ≡
        put_at (values_of strided.now.size bytes.old) (first_places count strided.now.offsets.now)
        (values_of strided.now.size message.now) }
{
    if count == 0 {
        return;
    }
    if is_run(strided.offsets) {
        copy_within(bytes, strided.offsets[0] as usize * strided.size, message);
        return;
    }
    match strided.size {
        1 => put_sized(bytes, message, 1, strided, count),
        2 => put_sized(bytes, message, 2, strided, count),
        4 => put_sized(bytes, message, 4, strided, count),
        8 => put_sized(bytes, message, 8, strided, count),
        size => put_sized(bytes, message, size, strided, count),
    }
}

/// Puts the first elements of the message at their places in copies of a layout.
pub fn put_places(bytes: &mut Vec<u8>, message: &[u8], strided: &Strided, count: usize)
    requires some { 0 < count → 0 < length strided.now.offsets.now }
    requires bytes { AreWhole strided.now.size bytes.old.items }
    requires message { AreWhole strided.now.size message.now }
    requires count { count ≡ length (values_of strided.now.size message.now) }
    requires near { AreNear (first_places count strided.now.offsets.now)
        (length (values_of strided.now.size bytes.old.items)) }
    ensures whole { AreWhole strided.now.size bytes.new.items }
    ensures values { values_of strided.now.size bytes.new.items ≡
        put_at (values_of strided.now.size bytes.old.items) (first_places count strided.now.offsets.now)
        (values_of strided.now.size message.now) }
{
    put_slices(bytes, message, strided, count);
}

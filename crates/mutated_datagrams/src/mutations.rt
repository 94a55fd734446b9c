//! What is made of datagrams: bits are flipped, two are spliced, lengths and fields are others.

use crate::chance::Chance;
use std::alloc::Global;

/// Fields of a header and of frames: the first byte and how many there are.
const FIELDS: [(usize, usize); 20] = [
    (5, 1),
    (6, 2),
    (8, 2),
    (10, 2),
    (12, 2),
    (14, 2),
    (24, 8),
    (32, 1),
    (33, 1),
    (34, 1),
    (35, 1),
    (36, 4),
    (40, 4),
    (44, 4),
    (48, 4),
    (52, 4),
    (53, 1),
    (54, 1),
    (55, 1),
    (56, 4),
];

/// Writes bytes over those from a place on, as far as there are some.
fn put(bytes: &mut [u8], at: usize, value: &[u8]) {
    for (place, byte) in value.iter().enumerate() {
        if let Some(old) = bytes.get_mut(at.saturating_add(place)) {
            *old = *byte;
        }
    }
}

/// Flips a bit.
fn flip(bytes: &mut [u8], chance: &mut Chance) {
    let at = chance.place(bytes.len());
    let bit = 1u8.wrapping_shl(u32::from(chance.small(8)));
    if let Some(byte) = bytes.get_mut(at) {
        *byte ^= bit;
    }
}

/// Sets a byte.
fn set(bytes: &mut [u8], chance: &mut Chance) {
    let at = chance.place(bytes.len());
    let value = chance.byte();
    put(bytes, at, &[value]);
}

/// Sets a field to a small number, which a datagram of the job may have there.
fn set_field(bytes: &mut [u8], chance: &mut Chance) {
    let at = chance.place(FIELDS.len());
    let bound = if chance.one_in(4) { 70 } else { 4 };
    let number = chance.below(bound);
    if let Some((first, width)) = FIELDS.get(at) {
        let spelled = number.to_be_bytes();
        if let Some(value) = spelled.get(8usize.saturating_sub(*width)..) {
            put(bytes, *first, value);
        }
    }
}

/// Bytes are added behind the last one.
fn lengthen(bytes: &mut Vec<u8>, chance: &mut Chance) -> Option<()> {
    for _byte in 0..chance.small(40) {
        let byte = chance.byte();
        bytes.push(byte).ok()?;
    }
    Some(())
}

/// The header states the length of the body.
fn fit_length(bytes: &mut [u8]) {
    let len = (bytes.len().saturating_sub(32) % 65_536) as u16;
    put(bytes, 14, &len.to_be_bytes());
}

/// One change.
fn change(bytes: &mut Vec<u8>, chance: &mut Chance) -> Option<()> {
    match chance.small(8) {
        0 | 1 => flip(bytes, chance),
        2 => set(bytes, chance),
        3 => {
            let len = chance.place(bytes.len());
            bytes.truncate(len);
        }
        4 => lengthen(bytes, chance)?,
        _ => set_field(bytes, chance),
    }
    Some(())
}

/// The beginning of one, and the end of another.
fn spliced(alloc: Global, one: &[u8], other: &[u8], chance: &mut Chance) -> Option<Vec<u8>> {
    let head = one.get(..chance.place(one.len()))?;
    let tail = other.get(chance.place(other.len())..)?;
    let mut bytes = Vec::from_slice(alloc, head).ok()?;
    bytes.extend_from_slice(tail).ok()?;
    Some(bytes)
}

/// The header is that of a session with rank 0 at this incarnation, or near it.
fn redirect(bytes: &mut [u8], incarnation: u16, chance: &mut Chance) {
    let source = if chance.one_in(2) { 1u16 } else { 2 };
    put(bytes, 6, &source.to_be_bytes());
    put(bytes, 8, &[0, 0]);
    put(bytes, 12, &incarnation.to_be_bytes());
    if chance.one_in(4) {
        put(bytes, 10, &[0, chance.small(3)]);
    }
    if chance.one_in(8) {
        put(bytes, 12, &[0, chance.small(3)]);
    }
    if chance.one_in(2) {
        put(bytes, 24, &[0, 0, 0, 0, 0, 0, 0, chance.small(6)]);
    }
}

/// What is made of one datagram, and of another.
pub fn mutated(
    alloc: Global,
    one: &[u8],
    other: &[u8],
    incarnation: u16,
    chance: &mut Chance,
) -> Option<Vec<u8>> {
    let mut bytes = if chance.one_in(4) {
        spliced(alloc, one, other, chance)?
    } else {
        Vec::from_slice(alloc, one).ok()?
    };
    if chance.one_in(2) {
        redirect(&mut bytes, incarnation, chance);
    }
    for _change in 0..chance.small(4) {
        change(&mut bytes, chance)?;
    }
    if chance.one_in(2) {
        fit_length(&mut bytes);
    }
    Some(bytes)
}

//! Numbers of a given size as bytes, the highest byte first.

ghost use Rattle.std.specs.Prelude.{◌≡◌, ◌≤◌, ◌<◌, ◌+◌, ◌*◌, ◌^◌, ◌++◌, length, take, drop, replicate, slice_set};
ghost use Rattle.std.specs.Prelude.{vec_len, vec_capacity, if◌then◌else◌, is_ok, IfOk};
ghost use Rattle.byteorder.specs.Endian.{big_bytes};
ghost use Rattle.datatypes.specs.Contents.{element_at, values_of, bytes_of, copies_of, AreWhole};
ghost use Rattle.datatypes.specs.Pieces.{piece_at};

use byteorder::{BigEndian, ByteOrder};
use std::alloc::{AllocError, Global};

/// Puts the bytes of `front` over the first ones.
pub fn put_over(bytes: &mut Vec<u8>, front: &[u8])
    requires { length front.now ≤ vec_len bytes.old }
    ensures { bytes.new.items ≡ front.now ++ drop (length front.now) bytes.old.items }
{
    copy_front(bytes, front);
}

fn copy_front(bytes: &mut [u8], front: &[u8])
    requires { length front.now ≤ length bytes.old }
    ensures { bytes.new ≡ front.now ++ drop (length front.now) bytes.old }
{
    bytes[..front.len()].copy_from_slice(front);
}

/// The number in the `size` bytes at a place, where each place has `size` bytes.
#[inline(always)]
pub fn number_at(bytes: &[u8], size: usize, place: usize) -> u64
    requires low { 1 ≤ size }
    requires high { size ≤ 8 }
    requires room { place * size + size ≤ length bytes.now }
    ensures { result ≡ element_at size bytes.now place }
{
    BigEndian::read_uint(&bytes[place * size..], size)
}

/// Appends the number in `size` bytes.
pub fn append_number(bytes: &mut Vec<u8>, number: u64, size: usize) -> Result<(), AllocError>
    requires low { 1 ≤ size }
    requires high { size ≤ 8 }
    requires fits { number < 256 ^ size }
    ensures { bytes.new.items ≡
        (if is_ok result then bytes.old.items ++ big_bytes size number else bytes.old.items) }
{
    let mut room = [0; 8];
    BigEndian::write_uint(&mut room, number, size);
    bytes.extend_from_slice(&room[..size])
}

/// Appends the number in `size` bytes, so many times.
pub fn append_copies(
    bytes: &mut Vec<u8>,
    number: u64,
    size: usize,
    count: usize,
) -> Result<(), AllocError>
    requires low { 1 ≤ size }
    requires high { size ≤ 8 }
    requires fits { number < 256 ^ size }
    ensures { bytes.new.items ≡
        (if is_ok result
        then bytes.old.items ++ copies_of count (big_bytes size number)
        else bytes.old.items) }
{
    let mut room = [0; 8];
    BigEndian::write_uint(&mut room, number, size);
    let more = count.checked_mul(size).ok_or(AllocError)?;
    bytes.reserve(more)?;
    fill_up(bytes, &room[..size], count);
    Ok(())
}

fn fill_up(bytes: &mut Vec<u8>, piece: &[u8], count: usize)
    requires { vec_len bytes.old + count * length piece.now ≤ vec_capacity bytes.old }
    ensures { bytes.new.items ≡ bytes.old.items ++ copies_of count piece.now }
{
    for _ in 0..count {
        bytes.extend_from_slice(piece).unwrap();
    }
}

/// The bytes of the element at a place, where each element has `size` bytes.
#[inline(always)]
fn piece(bytes: &[u8], size: usize, place: usize) -> &[u8]
    requires { (place + 1) * size ≤ length bytes.now }
    ensures { result.now ≡ piece_at size bytes.now place }
{
    let (_, rest) = bytes.split_at(place * size);
    let (here, _) = rest.split_at(size);
    here
}

/// Puts the bytes over those from a place on, which is counted in bytes.
#[inline(always)]
pub fn copy_within(bytes: &mut [u8], at: usize, piece: &[u8])
    requires { at + length piece.now ≤ length bytes.old }
    ensures { bytes.new ≡ take at bytes.old ++ piece.now ++ drop (at + length piece.now) bytes.old }
{
    bytes[at..at + piece.len()].copy_from_slice(piece);
}

/// Puts the number in `size` bytes over the first ones. Numbers of four bytes are written as such, so
/// that a loop keeps as many of them at once as it can.
#[inline(always)]
fn write_number(bytes: &mut [u8], number: u64, size: usize)
    requires low { 1 ≤ size }
    requires high { size ≤ 8 }
    requires room { size ≤ length bytes.old }
    requires fits { number < 256 ^ size }
    ensures { bytes.new ≡ big_bytes size number ++ drop size bytes.old }
{
    if size == 4 {
        BigEndian::write_u32(bytes, number as u32);
    } else {
        BigEndian::write_uint(bytes, number, size);
    }
}

/// Puts the number in `size` bytes at a place of a slice, where each place has `size` bytes.
#[inline(always)]
pub fn put_number_at(bytes: &mut [u8], number: u64, size: usize, place: usize)
    requires low { 1 ≤ size }
    requires high { size ≤ 8 }
    requires fits { number < 256 ^ size }
    requires bytes { AreWhole size bytes.old }
    requires place { place < length (values_of size bytes.old) }
    ensures whole { AreWhole size bytes.new }
    ensures len { length bytes.new ≡ length bytes.old }
    ensures values { values_of size bytes.new ≡ slice_set (values_of size bytes.old) place number }
{
    let mut room = [0; 8];
    write_number(&mut room, number, size);
    copy_within(bytes, place * size, piece(&room, size, 0));
}

/// Puts the number in `size` bytes at a place of a vector, where each place has `size` bytes.
pub fn put_number(bytes: &mut Vec<u8>, number: u64, size: usize, place: usize)
    requires low { 1 ≤ size }
    requires high { size ≤ 8 }
    requires fits { number < 256 ^ size }
    requires bytes { AreWhole size bytes.old.items }
    requires place { place < length (values_of size bytes.old.items) }
    ensures whole { AreWhole size bytes.new.items }
    ensures values { values_of size bytes.new.items ≡ slice_set (values_of size bytes.old.items) place number }
{
    put_number_at(bytes, number, size, place);
}

/// A copy of the bytes, with memory for so many. The only error is want of memory.
pub fn copy_with_room(alloc: Global, bytes: &[u8], room: usize) -> Result<Vec<u8>, AllocError>
    ensures items { IfOk result (λ copy. copy.items ≡ bytes.now) }
    ensures room { IfOk result (λ copy. room ≤ vec_capacity copy) }
{
    let mut copy = Vec::with_capacity(alloc, room)?;
    copy.extend_from_slice(bytes)?;
    Ok(copy)
}

/// Appends more bytes, for which there is memory.
pub fn append_reserved(bytes: &mut Vec<u8>, more: &[u8])
    requires { length bytes.old.items + length more.now ≤ vec_capacity bytes.old }
    ensures items { bytes.new.items ≡ bytes.old.items ++ more.now }
    ensures capacity { vec_capacity bytes.old ≤ vec_capacity bytes.new }
{
    bytes.extend_from_slice(more).unwrap();
}

/// Appends so many zeros, for which there is memory.
pub fn append_zeros(bytes: &mut Vec<u8>, zeros: usize)
    requires { length bytes.old.items + zeros ≤ vec_capacity bytes.old }
    ensures { bytes.new.items ≡ bytes.old.items ++ replicate zeros 0 }
{
    let len = bytes.len() + zeros;
    bytes.resize(len, 0).unwrap();
}

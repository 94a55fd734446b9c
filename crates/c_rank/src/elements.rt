//! Elements as the machine keeps them, the lowest byte of each first, and as buffers keep them, the highest first.

ghost use Rattle.std.specs.Prelude.{◌≡◌, ◌≤◌, ◌<◌, ◌+◌, ◌*◌, ◌/◌, ◌%◌, ◌++◌, length, take, drop, IfOk};
ghost use Rattle.vocabulary.specs.BasicTypes.{size_of};
ghost use Rattle.c_rank.specs.Elements.{elements_of, other_order, turned, turned_at, whole_len, zeros};

use byteorder::{BigEndian, ByteOrder, LittleEndian};
use datatypes::Buffer;
use std::alloc::{AllocError, Global};
use vocabulary::BasicType;

/// Puts the bytes over those from a place on, which is counted in bytes.
#[inline(always)]
fn put_at(into: &mut [u8], at: usize, piece: &[u8])
    requires { at + length piece.now ≤ length into.old }
    ensures { into.new ≡ take at into.old ++ piece.now ++ drop (at + length piece.now) into.old }
{
    into[at..at + piece.len()].copy_from_slice(piece);
}

/// Puts the element at a place of `from` at the same place of `into`, its bytes in the opposite order.
#[inline(always)]
fn turn_one(size: usize, from: &[u8], into: &mut [u8], place: usize)
    requires low { 1 ≤ size }
    requires high { size ≤ 8 }
    requires from { place * size + size ≤ length from.now }
    requires into { place * size + size ≤ length into.old }
    ensures { into.new ≡
        take (place * size) into.old ++ turned_at size from.now place ++ drop (place * size + size) into.old }
{
    let number = LittleEndian::read_uint(&from[place * size..], size);
    let mut room = [0; 8];
    BigEndian::write_uint(&mut room, number, size);
    put_at(into, place * size, &room[..size]);
}

/// Puts the whole elements of `from` over the first ones of `into`, the bytes of each in the opposite order. It is
/// compiled for each size that a caller names, so that each element is one word.
#[inline(always)]
fn turn_sized(size: usize, from: &[u8], into: &mut [u8])
    requires low { 1 ≤ size }
    requires high { size ≤ 8 }
    requires room { length from.now ≤ length into.old }
    ensures front { into.new ≡ turned size from.now ++ drop (length from.now / size * size) into.old }
    ensures all { length from.now % size ≡ 0 → length from.now ≡ length into.old → into.new ≡ turned size from.now }
{
    for place in 0..from.len() / size {
        turn_one(size, from, into, place);
    }
}

/// Puts the bytes over the first ones.
fn copy_front(from: &[u8], into: &mut [u8])
    requires { length from.now ≤ length into.old }
    ensures { into.new ≡ from.now ++ drop (length from.now) into.old }
{
    into[..from.len()].copy_from_slice(from);
}

/// Puts whole elements over the first bytes of `into`, the bytes of each in the opposite order; answers how many bytes.
pub fn turn_elements(basic: BasicType, from: &[u8], into: &mut [u8]) -> usize
    requires { length from.now ≤ length into.old }
    ensures len { result ≡ whole_len (size_of basic) (length from.now) }
    ensures front { into.new ≡ other_order (size_of basic) from.now ++ drop result into.old }
{
    match basic {
        BasicType::Int8 | BasicType::Uint8 | BasicType::Byte => {
            copy_front(from, into);
            from.len()
        }
        BasicType::Int16 | BasicType::Uint16 => {
            turn_sized(2, from, into);
            from.len() / 2 * 2
        }
        BasicType::Int32 | BasicType::Uint32 | BasicType::Float32 => {
            turn_sized(4, from, into);
            from.len() / 4 * 4
        }
        BasicType::Int64 | BasicType::Uint64 | BasicType::Float64 => {
            turn_sized(8, from, into);
            from.len() / 8 * 8
        }
    }
}

/// The whole elements, the bytes of each in the opposite order. The only error is want of memory.
#[inline(always)]
fn turned_copy(alloc: Global, size: usize, bytes: &[u8]) -> Result<Vec<u8>, AllocError>
    requires low { 1 ≤ size }
    requires high { size ≤ 8 }
    requires whole { length bytes.now % size ≡ 0 }
    ensures items { IfOk result (λ v. v.items ≡ turned size bytes.now) }
    ensures len { IfOk result (λ v. length v.items ≡ length bytes.now) }
{
    let mut room = vec![in alloc; 0u8; bytes.len()]?;
    turn_sized(size, bytes, &mut room);
    Ok(room)
}

/// The bytes, those of each element in the opposite order. The only error is want of memory.
fn turned_bytes(alloc: Global, basic: BasicType, bytes: &[u8]) -> Result<Vec<u8>, AllocError>
    requires { length bytes.now % size_of basic ≡ 0 }
    ensures items { IfOk result (λ v. v.items ≡ other_order (size_of basic) bytes.now) }
    ensures len { IfOk result (λ v. length v.items ≡ length bytes.now) }
{
    match basic {
        BasicType::Int8 | BasicType::Uint8 | BasicType::Byte => Vec::from_slice(alloc, bytes),
        BasicType::Int16 | BasicType::Uint16 => turned_copy(alloc, 2, bytes),
        BasicType::Int32 | BasicType::Uint32 | BasicType::Float32 => turned_copy(alloc, 4, bytes),
        BasicType::Int64 | BasicType::Uint64 | BasicType::Float64 => turned_copy(alloc, 8, bytes),
    }
}

/// The elements that stand in these bytes, in the byte order of the machine. The only error is want of memory.
pub fn elements_in(alloc: Global, basic: BasicType, bytes: &[u8]) -> Result<Buffer, AllocError>
    requires { length bytes.now % size_of basic ≡ 0 }
    ensures { IfOk result (λ buffer. buffer ≡ elements_of basic bytes.now) }
{
    let own = turned_bytes(alloc, basic, bytes)?;
    Ok(Buffer::from_bytes(basic, own))
}

/// Elements of zero bytes, so many of them: the room of a receive, which costs what comes into it. The only error is
/// want of memory.
#[tactic(auto, using(datatypes::proofs::RoomLaws::zero_values))]
pub fn zero_elements(alloc: Global, basic: BasicType, count: u64) -> Result<Buffer, AllocError>
    ensures { IfOk result (λ buffer. buffer ≡ zeros basic count) }
{
    Buffer::zeros(alloc, basic, count as usize)
}

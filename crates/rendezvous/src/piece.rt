//! The pieces in which data go.

ghost use Rattle.std.specs.Prelude.{◌≡◌, ◌*◌, ◌^◌, ◌<◌, ◌≤◌, IfOk, IfSome, None, length, map};
ghost use Rattle.vocabulary.specs.BasicTypes.{size_of};
ghost use Rattle.datatypes.specs.Contents.{bytes_of};
ghost use Rattle.vocabulary.specs.MessageLimits.{frame_limit_of};
ghost use Rattle.rendezvous.specs.Pieces.{is_next_piece, piece_at, pieces_of, piece_count};

use datatypes::WholeBuffer;
use std::alloc::Global;
use vocabulary::{MessageLimit, OutOfMemory};

/// A piece of a message's data.
#[derive(Clone, Copy)]
pub struct Piece<'a> {
    /// How many bytes of the data stand before it.
    pub offset: u32,
    /// Its bytes: one at least, and at most as many as a frame of the job has.
    pub bytes: &'a [u8],
}

/// The piece with this number, from 0; none where its place has more than 32 bits.
fn piece_at(size: usize, contents: &[u8], number: usize) -> Option<Piece<'_>>
    requires some { 0 < size }
    requires there { number < piece_count size contents.now }
    ensures found { IfSome result (λ p. (p.offset, p.bytes.now) ≡ piece_at size contents.now number) }
    ensures far { result ≡ None → 2 ^ 32 ≤ number * size }
{
    let start = number * size;
    let Ok(offset) = u32::try_from(start) else {
        return None;
    };
    let (_, rest) = contents.split_at(start);
    let (bytes, _) = rest.split_at(rest.len().min(size));
    Some(Piece { offset, bytes })
}

/// These bytes in pieces of as many bytes as a frame of a job with this limit has at most, in order, the last one of one
/// byte at least; they are lent. It fails for want of memory; more than 4 GiB, which no message has, count as that.
pub fn pieces_of(
    alloc: Global,
    limit: MessageLimit,
    contents: &[u8],
) -> Result<Vec<Piece<'_>>, OutOfMemory>
    ensures { IfOk result
        (λ pieces. map (λ p. (p.offset, p.bytes.now)) pieces.items ≡ pieces_of (frame_limit_of limit) contents.now) }
{
    let size = limit.frame_bytes() as usize;
    let count = contents.len().div_ceil(size);
    let Ok(mut pieces) = Vec::with_capacity(alloc, count) else {
        return Err(OutOfMemory {});
    };
    for number in 0..count {
        let Some(piece) = piece_at(size, contents, number) else {
            return Err(OutOfMemory {});
        };
        pieces.push_reserved(piece);
    }
    Ok(pieces)
}

/// The data of these elements in such pieces, in order; they are lent. It fails for want of memory; data of more than
/// 4 GiB, which no message has, count as that.
pub fn pieces(
    alloc: Global,
    limit: MessageLimit,
    elements: &WholeBuffer,
) -> Result<Vec<Piece<'_>>, OutOfMemory>
    ensures { IfOk result (λ pieces. map (λ p. (p.offset, p.bytes.now)) pieces.items
        ≡ pieces_of (frame_limit_of limit) (bytes_of (size_of elements.now.basic) elements.now.values)) }
{
    pieces_of(alloc, limit, elements.as_bytes())
}

/// In how many pieces these bytes go. It takes no memory.
#[tactic(auto, using(crate::proofs::PieceLaws::count_is))]
pub fn count_of(limit: MessageLimit, contents: &[u8]) -> usize
    ensures { result ≡ length (pieces_of (frame_limit_of limit) contents.now) }
{
    contents.len().div_ceil(limit.frame_bytes() as usize)
}

/// In how many pieces the data of these elements go. It takes no memory.
pub fn piece_count(limit: MessageLimit, elements: &WholeBuffer) -> usize
    ensures { result ≡ length (pieces_of (frame_limit_of limit) (bytes_of (size_of elements.now.basic) elements.now.values)) }
{
    count_of(limit, elements.as_bytes())
}

/// Whether these bytes from this place on are the next piece of a message, where so many of all its bytes have come:
/// they stand where these end, and are as many as are due.
pub fn is_next_piece(
    limit: MessageLimit,
    total: usize,
    have: usize,
    offset: u32,
    bytes: &[u8],
) -> bool
    requires { have ≤ total }
    ensures { result ≡ is_next_piece (frame_limit_of limit) total have offset bytes.now }
{
    let due = (total - have).min(limit.frame_bytes() as usize);
    !bytes.is_empty() && offset as usize == have && bytes.len() == due
}

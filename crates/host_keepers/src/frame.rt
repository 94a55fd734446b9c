//! What goes over a connection to a host, in either direction: pieces, each of which is of one rank.

ghost use Rattle.std.specs.Prelude.{◌≡◌, ◌<◌, ◌≤◌, ◌++◌, ◌^◌, MatchOption, OnOk, length};
ghost use Rattle.host_keepers.specs.Frames.{HasNoFrame, IsFirstFrame, frame_text, said_rank, said_size};

use std::alloc::AllocError;

/// How many bytes stand in front of a piece's own.
const HEAD: usize = 7;

/// A piece: the byte of its kind, the rank that it is of, and its bytes.
#[derive(Clone, Copy, Debug)]
pub(crate) struct Frame<'a> {
    pub(crate) code: u8,
    pub(crate) rank: u16,
    pub(crate) bytes: &'a [u8],
}

/// Adds a piece to a text: the byte of its kind, its rank as two bytes and how many bytes it has as four, the highest
/// first, and these. Only want of memory is an error.
pub(crate) fn push_frame(
    text: &mut Vec<u8>,
    code: u8,
    rank: u16,
    bytes: &[u8],
) -> Result<(), AllocError>
    requires { length bytes.now < 2 ^ 32 }
    ensures { OnOk result (text.new.items ≡ text.old.items ++ frame_text code rank bytes.now) }
{
    let size = bytes.len() as u32;
    text.push(code)?;
    text.extend_from_slice(&rank.to_be_bytes())?;
    text.extend_from_slice(&size.to_be_bytes())?;
    text.extend_from_slice(bytes)?;
    Ok(())
}

/// The rank of the piece that begins here.
fn rank_in(text: &[u8]) -> u16
    requires { 7 ≤ length text.now }
    ensures { result ≡ said_rank text.now }
{
    u16::from_be_bytes([text[1], text[2]])
}

/// How many bytes the piece has that begins here; none where that isn't there yet.
fn size_in(text: &[u8]) -> Option<usize>
    ensures { MatchOption result (length text.now < 7) (λ size. (7 ≤ length text.now) × (size ≡ said_size text.now)) }
{
    if text.len() < HEAD {
        return None;
    }
    let size = u32::from_be_bytes([text[3], text[4], text[5], text[6]]);
    Some(size as usize)
}

/// The piece that stands whole at the front of a text, and what stands behind it; none where it isn't whole yet.
pub(crate) fn next_frame(text: &[u8]) -> Option<(Frame<'_>, &[u8])>
    ensures { MatchOption result (HasNoFrame text.now)
        (λ found. IsFirstFrame text.now found.0.code found.0.rank found.0.bytes.now found.1.now) }
{
    let size = size_in(text)?;
    let rank = rank_in(text);
    let (head, behind) = text.split_at(HEAD);
    if behind.len() < size {
        return None;
    }
    let (bytes, rest) = behind.split_at(size);
    let code = head[0];
    Some((Frame { code, rank, bytes }, rest))
}

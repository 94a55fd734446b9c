//! Why sends, receives and probes are refused.

use crate::types::type_name;
use point_to_point_calls::Refusal;
use requests::{Places, Region};
use std::alloc::{AllocError, Global};
use vocabulary::{SEND_LIMIT, Source};

/// Why a count is out of range: a buffer lacks a place of its layout, or a message is too long.
fn count_words(alloc: Global, region: &Region) -> Result<String, AllocError> {
    let (len, name) = (region.buffer.len(), type_name(region.buffer.basic()));
    if region.is_too_short() {
        return format!(in alloc;
            "the buffer has {len} {name} and lacks a place of the layout's copies"
        );
    }
    match region.places {
        Places::All => {
            let bytes = region.buffer.byte_len();
            format!(in alloc; "the message has {bytes} bytes, and at most {SEND_LIMIT} may go")
        }
        Places::Copies(_, _) => {
            format!(in alloc; "the message has more than {SEND_LIMIT} bytes")
        }
    }
}

/// Why a type is wrong: buffer and layout differ, or a place is named twice.
fn type_words(alloc: Global, region: &Region) -> Result<String, AllocError> {
    let name = type_name(region.buffer.basic());
    match &region.places {
        Places::Copies(layout, _) if region.differs_in_type() => {
            let other = type_name(layout.basic());
            format!(in alloc; "the buffer is {name}, its layout {other}")
        }
        _ => format!(in alloc;
            "the layout names a place twice, and a receive needs each place once"
        ),
    }
}

/// Why a tag is out of range.
fn tag_words(alloc: Global, tag: Option<u32>) -> Result<String, AllocError> {
    match tag {
        Some(_) => format!(in alloc; "the tag is above 2147483647"),
        None => format!(in alloc; "a message has a tag: 'any' is for receives and probes"),
    }
}

/// Why there is no such rank. A number that 16 bits don't hold stands as the greatest that they hold, and isn't told.
fn rank_words(alloc: Global, named: Source) -> Result<String, AllocError> {
    match named {
        Source::Rank(rank) if rank < u16::MAX => {
            format!(in alloc; "the communicator has no rank {rank}")
        }
        _ => format!(in alloc; "the communicator has no such rank"),
    }
}

/// Why a send or a receive is refused that names this rank and tag, and this region; none where no more is known than
/// the refusal itself says.
pub(crate) fn message_words(
    alloc: Global,
    refusal: Refusal,
    named: Source,
    tag: Option<u32>,
    region: Option<&Region>,
) -> Result<Option<String>, AllocError> {
    match (refusal, region) {
        (Refusal::Count, Some(region)) => Ok(Some(count_words(alloc, region)?)),
        (Refusal::WrongType, Some(region)) => Ok(Some(type_words(alloc, region)?)),
        (Refusal::Tag, _) => Ok(Some(tag_words(alloc, tag)?)),
        (Refusal::Rank, _) => Ok(Some(rank_words(alloc, named)?)),
        (Refusal::Replaced, _) => {
            Ok(Some(format!(in alloc; "the rank that it names was started anew")?))
        }
        _ => Ok(None),
    }
}

/// Why the receive of a message that was taken out is refused.
pub(crate) fn taken_words(
    alloc: Global,
    refusal: Refusal,
    region: &Region,
) -> Result<Option<String>, AllocError> {
    match refusal {
        Refusal::Count => Ok(Some(count_words(alloc, region)?)),
        Refusal::WrongType => Ok(Some(type_words(alloc, region)?)),
        Refusal::Request => Ok(Some(format!(in alloc; "no such message was taken out")?)),
        _ => Ok(None),
    }
}

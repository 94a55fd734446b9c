//! Lists of frames for other ranks.

ghost use Rattle.std.specs.Prelude.{◌≡◌, true, IfOk, IfErr, OnErr, is_some, map};
ghost use Rattle.datagram.specs.Spellings.{outgoing_text};
ghost use Rattle.vocabulary.specs.BasicTypes.{size_of};
ghost use Rattle.vocabulary.specs.MessageLimits.{frame_limit_of};
ghost use Rattle.datatypes.specs.Contents.{bytes_of};
ghost use Rattle.rendezvous.specs.Pieces.{pieces_of};
ghost use Rattle.point_to_point_calls.specs.Frames.{addressed, as_list};
ghost use Rattle.point_to_point_calls.specs.FrameNews.{data_frames, framed};

use crate::refusal::Refusal;
use datagram::{Data, Frame, Outgoing};
use rendezvous::{Offer, Piece, pieces};
use std::alloc::Global;
use vocabulary::MessageLimit;

/// The list of this frame, if there is one; or want of memory, where there is one.
pub fn list_of<'a>(alloc: Global, frame: Option<Outgoing<'a>>) -> Result<Vec<Outgoing<'a>>, Refusal>
    ensures ok { IfOk result (λ frames. map outgoing_text frames.items ≡ as_list (addressed frame.entry)) }
    ensures err { IfErr result (λ e. e ≡ Refusal.OutOfMemory) }
    ensures need { OnErr result (is_some frame.entry ≡ true) }
{
    let Some(frame) = frame else {
        return Ok(Vec::new(alloc));
    };
    let Ok(mut frames) = Vec::with_capacity(alloc, 1) else {
        return Err(Refusal::OutOfMemory);
    };
    frames.push_reserved(frame);
    Ok(frames)
}

/// The frames with which pieces of a transfer's data go to a rank, lent from them; or want of memory.
pub fn frames_of<'a>(
    alloc: Global,
    rank: u16,
    transfer: u32,
    pieces: &[Piece<'a>],
) -> Result<Vec<Outgoing<'a>>, Refusal>
    ensures ok { IfOk result (λ frames. frames.items ≡ map (framed rank transfer) pieces.now) }
    ensures err { IfErr result (λ e. e ≡ Refusal.OutOfMemory) }
{
    match pieces
        .iter()
        .map(|piece| Outgoing {
            target: rank,
            frame: Frame::Data(Data {
                transfer,
                offset: piece.offset,
                bytes: piece.bytes,
            }),
        })
        .collect(alloc)
    {
        Ok(frames) => Ok(frames),
        Err(_) => Err(Refusal::OutOfMemory),
    }
}

/// The frames with which the data of an offer go to a rank, lent from it.
#[tactic(auto, using(crate::proofs::Pieces::frames_are))]
pub fn data_frames<'a>(
    alloc: Global,
    limit: MessageLimit,
    rank: u16,
    offer: &'a Offer,
) -> Result<Vec<Outgoing<'a>>, Refusal>
    ensures ok { IfOk result (λ frames. map outgoing_text frames.items
        ≡ data_frames rank offer.now.transfer
        (pieces_of (frame_limit_of limit) (bytes_of (size_of offer.now.elements.basic) offer.now.elements.values))) }
    ensures err { IfErr result (λ e. e ≡ Refusal.OutOfMemory) }
{
    let Ok(pieces) = pieces(alloc, limit, &offer.elements) else {
        return Err(Refusal::OutOfMemory);
    };
    frames_of(alloc, rank, offer.transfer, &pieces)
}

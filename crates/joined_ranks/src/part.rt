//! What is kept for a rank beside its engine.

ghost use Rattle.std.specs.Prelude.{◌≡◌, IfSome, IsTrue, None, Some};
ghost use Rattle.c_rank.specs.AnswerCopies.{TakesOf};
ghost use Rattle.joined_ranks.specs.Kept.{AreNew, ended_in, received_in, with_came, with_data, with_ended};

use c_rank::ReceivedData;
use engine::Reply;
use replies::reply_of;
use std::alloc::Global;
use world::Came;

/// What is kept for a rank beside its engine.
#[derive(Drop)]
pub struct RankPart {
    /// The answer of its call that was blocked, once it is there.
    pub ended: Option<Reply>,
    /// The data of its last answer that brought any.
    pub received: Option<ReceivedData>,
}

/// Keeps nothing of so many ranks; of fewer where memory is refused: whether all are there.
fn add_new(parts: &mut Vec<RankPart>, ranks: u16) -> bool
    ensures { IsTrue result → AreNew ranks parts.new.items }
{
    parts.clear();
    for _ in 0..ranks {
        let part = RankPart {
            ended: None,
            received: None,
        };
        if parts.push(part).is_err() {
            return false;
        }
    }
    true
}

/// Of so many ranks nothing is kept; none where memory is refused.
pub(crate) fn new_parts(alloc: Global, ranks: u16) -> Option<Vec<RankPart>>
    ensures { IfSome result (λ parts. AreNew ranks parts.items) }
{
    let mut parts = Vec::new(alloc);
    if add_new(&mut parts, ranks) {
        Some(parts)
    } else {
        drop(parts);
        None
    }
}

/// Keeps the answer of a call of a rank that was blocked.
fn keep_ended(parts: &mut Vec<RankPart>, rank: u16, reply: Reply)
    ensures { parts.new.items ≡ with_ended parts.old.items rank (Some reply) }
{
    match parts.get_mut(rank as usize) {
        Some(part) => drop(part.ended.replace(reply)),
        None => drop(reply),
    }
}

/// Keeps the answer of a call of a rank that was blocked, if the datagram that came to it made one ready.
pub(crate) fn keep_came(parts: &mut Vec<RankPart>, came: Came)
    ensures { parts.new.items ≡ with_came parts.old.items came }
{
    let Came { rank, completion } = came;
    if let Some(completion) = completion {
        keep_ended(parts, rank, reply_of(completion));
    }
}

/// Takes the answer of a rank's call that was blocked, if it is there.
pub(crate) fn take_ended(parts: &mut Vec<RankPart>, rank: u16) -> Option<Reply>
    ensures taken { result ≡ ended_in parts.old.items rank }
    ensures left { parts.new.items ≡ with_ended parts.old.items rank None }
{
    match parts.get_mut(rank as usize) {
        Some(part) => part.ended.take(),
        None => None,
    }
}

/// Keeps these data of a rank, in place of what was there.
pub(crate) fn keep_data(parts: &mut Vec<RankPart>, rank: u16, received: ReceivedData)
    ensures { parts.new.items ≡ with_data parts.old.items rank received }
{
    match parts.get_mut(rank as usize) {
        Some(part) => drop(part.received.replace(received)),
        None => drop(received),
    }
}

/// Copies data that are kept of a rank out, from this element on: how many bytes.
pub(crate) fn take_data(parts: &[RankPart], rank: u16, first: u64, into: &mut [u8]) -> usize
    ensures { TakesOf (received_in parts.now rank) first into.old into.new result }
{
    match parts.get(rank as usize) {
        Some(part) => match &part.received {
            Some(received) => received.take(first, into),
            None => 0,
        },
        None => 0,
    }
}

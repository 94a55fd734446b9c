//! What a receive asks for, and what a message makes of it.

ghost use Rattle.std.specs.Option.{option_copied};
ghost use Rattle.std.specs.Prelude.{◌≡◌, true, IfErr, IfOk, IfSome, OnErr, is_some};
ghost use Rattle.datagram.specs.Spellings.{FrameFits, frame_text};
ghost use Rattle.perfect_queues.specs.Outcomes.{null_status};
ghost use Rattle.perfect_queues.specs.Refusals.{is_tag_above, is_source_beyond};
ghost use Rattle.point_to_point_calls.specs.Frames.{addressed};
ghost use Rattle.point_to_point_calls.specs.ReceiveMatches.{answer_by, answer_on_post, collection_on_match};
ghost use Rattle.point_to_point_calls.specs.ReceiveMatches.{collection_on_post, posted_by, progress_on_post, status_of};

use crate::call::RoutedReceive;
use crate::refusal::Refusal;
use communicator_members::status_in;
use datagram::{ClearToSend, Clearance, Frame, Outgoing};
use match_queues::{Body, Message};
use rendezvous::Collection;
use requests::{Posted, Region, RequestProgress, match_body};
use std::alloc::Global;
use vocabulary::{HIGHEST_TAG, MessageLimit, Source, Status};

/// Whether the tag is above the greatest one.
pub fn is_tag_above(tag: Option<u32>) -> bool
    ensures { result ≡ is_tag_above tag }
{
    match tag {
        None => false,
        Some(tag) => tag > HIGHEST_TAG,
    }
}

/// Whether the source is a rank that is not among `size` ranks.
pub fn is_source_beyond(size: u16, source: Source) -> bool
    ensures { result ≡ is_source_beyond size source }
{
    match source {
        Source::Rank(rank) => rank >= size,
        Source::Any | Source::Null => false,
    }
}

/// What is posted for a receive, under the key of its request.
pub fn posted_by(key: usize, routed: &RoutedReceive) -> match_queues::PostedReceive
    ensures { result ≡ posted_by key routed.now }
{
    match_queues::PostedReceive {
        request: key,
        context: routed.route.context,
        source: routed.route.named,
        tag: routed.receive.tag,
    }
}

/// The status that a message gives, whose source is a rank of world.
pub fn status_of(message: &Message) -> Status
    ensures { result ≡ status_of message.now }
{
    Status {
        source: Source::Rank(message.sender.rank),
        tag: Some(message.tag),
        count: message.count() as u64,
    }
}

/// The status of a receive from the null process (MPI 3.1, 3.11).
pub fn null_status() -> Status
    ensures { result ≡ null_status }
{
    Status {
        source: Source::Null,
        tag: None,
        count: 0,
    }
}

/// How far a receive is, once it was posted and found this message or none.
pub fn progress_on_post(posted: Posted, found: Option<Message>) -> RequestProgress
    ensures { result ≡ progress_on_post posted found }
{
    let Some(message) = found else {
        return RequestProgress::Receiving(posted);
    };
    let status = status_in(&posted.group, status_of(&message));
    match_body(posted.into, status, message.body)
}

/// What a receive would collect under this key with the message that it found: the place for the data of one that was
/// announced and is wanted, or want of memory for it.
pub fn collection_on_post(
    alloc: Global,
    limit: MessageLimit,
    into: &Region,
    key: usize,
    found: Option<&Message>,
) -> Result<Option<Collection>, Refusal>
    ensures ok { IfOk result
        (λ collection. collection ≡ collection_on_post limit into.now key (option_copied found.entry)) }
    ensures err { IfErr result (λ e. e ≡ Refusal.OutOfMemory) }
    ensures need { OnErr result (is_some (collection_on_post limit into.now key (option_copied found.entry)) ≡ true) }
{
    match found {
        Some(message) => {
            let wanted = into.has_room(message.basic(), message.count() as u64);
            collection_on_match(alloc, limit, wanted, message, key)
        }
        None => Ok(None),
    }
}

/// What is collected under this key from then on, where a match is with an announced message that is wanted; or want of
/// memory for it.
pub(crate) fn collection_on_match(
    alloc: Global,
    limit: MessageLimit,
    wanted: bool,
    message: &Message,
    key: usize,
) -> Result<Option<Collection>, Refusal>
    ensures ok { IfOk result
        (λ collection. collection ≡ collection_on_match limit wanted message.now message.now.body key) }
    ensures err { IfErr result (λ e. e ≡ Refusal.OutOfMemory) }
    ensures need { OnErr result (is_some (collection_on_match limit wanted message.now message.now.body key) ≡ true) }
{
    let Body::Announced(announcement) = &message.body else {
        return Ok(None);
    };
    if !wanted {
        return Ok(None);
    }
    if announcement.count == 0 {
        return Ok(None);
    }
    match Collection::new(
        alloc,
        limit,
        message.sender.rank,
        announcement.transfer,
        key,
        announcement.basic,
        announcement.count as usize,
    ) {
        Ok(collection) => Ok(Some(collection)),
        Err(_) => Err(Refusal::OutOfMemory),
    }
}

/// The frame that answers a message that was matched, where it was announced: its data are to come, or it is used up
/// without them.
pub(crate) fn answer_to(wanted: bool, message: &Message) -> Option<Outgoing<'static>>
    ensures exact { addressed result ≡ answer_by wanted message.now message.now.body }
    ensures fits { IfSome result (λ a. FrameFits (frame_text a.frame)) }
{
    let Body::Announced(announcement) = &message.body else {
        return None;
    };
    let clearance = if wanted {
        Clearance::Send
    } else {
        Clearance::Drop
    };
    Some(Outgoing {
        target: message.sender.rank,
        frame: Frame::ClearToSend(ClearToSend {
            transfer: announcement.transfer,
            clearance,
        }),
    })
}

/// The frame that answers the message that a receive finds, if it finds one that was announced.
pub fn answer_on_post(into: &Region, found: Option<&Message>) -> Option<Outgoing<'static>>
    ensures exact { addressed result ≡ answer_on_post into.now (option_copied found.entry) }
    ensures fits { IfSome result (λ a. FrameFits (frame_text a.frame)) }
{
    match found {
        Some(message) => {
            let wanted = into.has_room(message.basic(), message.count() as u64);
            answer_to(wanted, message)
        }
        None => None,
    }
}

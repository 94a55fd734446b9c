//! What is heard from another rank, and what is ready for it.

ghost use Rattle.std.specs.Prelude.{◌≡◌, true, IfOk, IfErr, OnErr, is_some};
ghost use Rattle.datagram.specs.Spellings.{eager_text, EagerFits, request_text};
ghost use Rattle.point_to_point_calls.specs.Frames.{addressed};
ghost use Rattle.point_to_point_calls.specs.FrameNews.{HeardFits, announced_of, answer_by_match, bad_unless};
ghost use Rattle.point_to_point_calls.specs.FrameNews.{collection_by_match, first_of, frame_option, message_from};
ghost use Rattle.point_to_point_calls.specs.FrameNews.{message_of, plane_fault};

use crate::receives::{answer_to, collection_on_match};
use crate::refusal::Refusal;
use datagram::{Eager, Frame, Outgoing, Plane, RequestToSend};
use datatypes::Buffer;
use match_queues::{Announcement, Body, Message};
use rendezvous::Collection;
use std::alloc::Global;
use vocabulary::{Endpoint, MessageLimit};

/// What is heard from another rank, as far as it concerns a core.
#[derive(Clone, Copy)]
pub struct News<'a> {
    /// Who spoke.
    pub source: Endpoint,
    /// Whether its incarnation is new here: the rank was started anew.
    pub lesson: bool,
    /// The frame that it sent, if it is to be handed up.
    pub frame: Option<Frame<'a>>,
}

/// What is ready for news, so that they can be taken without memory.
#[derive(Drop)]
pub struct PreparedNews {
    /// With a lesson the keys of the requests that it ends.
    pub keys: Option<Vec<usize>>,
    /// The message whose data came with the frame, if it brought one.
    pub message: Option<Message>,
    /// The place for the data of a message that was announced, if a receive finds it and wants them.
    pub collection: Option<Collection>,
}

/// The receive that a message finds.
#[derive(Clone, Copy)]
pub struct Match {
    /// The key of its request in the table of requests.
    pub key: usize,
    /// Whether it wants the data of the message: its buffer has their type, and places for them.
    pub wanted: bool,
}

/// The message of an eager frame.
#[tactic(auto, unfolding(crate::specs::FrameNews::message_of))]
fn message_of(alloc: Global, source: Endpoint, eager: &Eager) -> Result<Message, Refusal>
    requires { EagerFits (eager_text eager.now) }
    ensures ok { IfOk result (λ m. m ≡ message_of source (eager_text eager.now)) }
    ensures err { IfErr result (λ e. e ≡ Refusal.OutOfMemory) }
{
    let bytes = Vec::from_slice(alloc, eager.elements).map_err(|_| Refusal::OutOfMemory)?;
    Ok(Message {
        sender: source,
        context: eager.context,
        tag: eager.tag,
        body: Body::Whole(Buffer::from_bytes(eager.basic, bytes)),
    })
}

/// The message that a request to send announces.
#[tactic(auto, unfolding(crate::specs::FrameNews::announced_of))]
pub fn announced_of(source: Endpoint, request: &RequestToSend) -> Message
    ensures { result ≡ announced_of source (request_text request.now) }
{
    Message {
        sender: source,
        context: request.context,
        tag: request.tag,
        body: Body::Announced(Announcement {
            transfer: request.transfer,
            basic: request.basic,
            count: request.count,
        }),
    }
}

/// The message that a frame brings with it, if one came and brings one; or want of memory, where one does.
pub fn message_from(
    alloc: Global,
    source: Endpoint,
    frame: Option<Frame<'_>>,
) -> Result<Option<Message>, Refusal>
    requires { HeardFits (frame_option frame) }
    ensures ok { IfOk result (λ m. m ≡ message_from source (frame_option frame.entry)) }
    ensures err { IfErr result (λ e. e ≡ Refusal.OutOfMemory) }
    ensures need { OnErr result (is_some (message_from source (frame_option frame.entry)) ≡ true) }
{
    match frame {
        None => Ok(None),
        Some(Frame::Eager(eager)) => Ok(Some(message_of(alloc, source, &eager)?)),
        Some(Frame::RequestToSend(_) | Frame::ClearToSend(_) | Frame::Data(_)) => Ok(None),
    }
}

/// For now no message of a collective operation is taken.
pub fn fault_of_plane(plane: Plane) -> Option<Refusal>
    ensures { result ≡ plane_fault plane }
{
    match plane {
        Plane::Collective => Some(Refusal::BadFrame),
        Plane::PointToPoint => None,
    }
}

/// A bad frame, unless what it says is due.
pub fn bad_unless(is_due: bool) -> Option<Refusal>
    ensures { result ≡ bad_unless is_due }
{
    if is_due {
        None
    } else {
        Some(Refusal::BadFrame)
    }
}

/// The first of two rules that are broken, if one is.
pub fn first_of(fault: Option<Refusal>, other: Option<Refusal>) -> Option<Refusal>
    ensures { result ≡ first_of fault other }
{
    match fault {
        Some(fault) => Some(fault),
        None => other,
    }
}

/// What is collected of an announced message that found this receive, if it found one and its data are wanted; or want
/// of memory, where something is collected.
pub fn collection_of_match(
    alloc: Global,
    limit: MessageLimit,
    found: Option<Match>,
    message: &Message,
) -> Result<Option<Collection>, Refusal>
    ensures ok { IfOk result (λ collection. collection ≡ collection_by_match limit found message.now) }
    ensures err { IfErr result (λ e. e ≡ Refusal.OutOfMemory) }
    ensures need { OnErr result (is_some (collection_by_match limit found message.now) ≡ true) }
{
    match found {
        Some(found) => collection_on_match(alloc, limit, found.wanted, message, found.key),
        None => Ok(None),
    }
}

/// The answer to an announced message that found this receive, if it found one.
pub fn answer_to_match(found: Option<Match>, message: &Message) -> Option<Outgoing<'static>>
    ensures { addressed result ≡ answer_by_match found message.now }
{
    match found {
        Some(found) => answer_to(found.wanted, message),
        None => None,
    }
}

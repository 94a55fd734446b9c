//! What a send is: the first rule that it breaks, its frame, and its message to the own rank.

ghost use Rattle.std.specs.Prelude.{◌≡◌, ◌<◌, ◌≤◌, ◌*◌, Some, None, IfErr, IfOk, IfSome, false, length};
ghost use Rattle.datagram.specs.Spellings.{frame_text, FrameFits};
ghost use Rattle.perfect_queues.specs.Buffers.{differs_in_type, is_too_short};
ghost use Rattle.perfect_queues.specs.Refusals.{is_no_tag, is_no_target};
ghost use Rattle.requests.specs.Regions.{handed_of, sent_from};
ghost use Rattle.vocabulary.specs.BasicTypes.{size_of};
ghost use Rattle.vocabulary.specs.Limits.{greatest_frame};
ghost use Rattle.point_to_point_calls.specs.Calls.{IsPacked, IsWithin};
ghost use Rattle.point_to_point_calls.specs.CoreCalls as calls;
ghost use Rattle.point_to_point_calls.specs.Frames.{addressed};
ghost use Rattle.point_to_point_calls.specs.SendRules.{IsAddressed, IsSendable, announced_by, destination, eager_frame};
ghost use Rattle.point_to_point_calls.specs.SendRules.{frame_to};
ghost use Rattle.point_to_point_calls.specs.SendRules.{frame_with, is_announced, is_large, is_own, own_message, rank_to};
ghost use Rattle.point_to_point_calls.specs.SendRules.{request_frame, send_fault};

use crate::call::{RoutedSend, Send};
use crate::receives::is_tag_above;
use crate::refusal::Refusal;
use datagram::{Eager, Frame, Outgoing, Plane, RequestToSend};
use datatypes::Buffer;
use incarnation::Place;
use match_queues::{Body, Message, OwnSend};
use rendezvous::Transfers;
use requests::Request;
use std::alloc::Global;
use vocabulary::{MessageLimit, Mode, Source};

/// A send with its route, and where its message goes.
#[derive(Drop)]
pub struct AddressedSend {
    /// The send.
    pub routed: RoutedSend,
    /// Where its message goes; none where that is the null process (MPI 3.1, 3.11), or no place at all.
    pub destination: Option<Destination>,
    /// The other rank to which its message is announced, if it is.
    pub announced: Option<u16>,
}

/// The rank that a message goes to, its tag and its context.
#[derive(Clone, Copy)]
pub struct Destination {
    /// The rank of world.
    pub rank: u16,
    /// The tag.
    pub tag: u32,
    /// The context of its communicator.
    pub context: u64,
}

fn is_no_tag(tag: Option<u32>) -> bool
    ensures { result ≡ is_no_tag tag }
{
    match tag {
        None => true,
        Some(_) => is_tag_above(tag),
    }
}

fn is_no_target(size: u16, target: Source) -> bool
    ensures { result ≡ is_no_target size target }
{
    match target {
        Source::Rank(rank) => rank >= size,
        Source::Any => true,
        Source::Null => false,
    }
}

/// The first rule that a send breaks.
#[tactic(auto, unfolding(crate::specs::SendRules::send_fault))]
pub fn fault_of(place: Place, routed: &RoutedSend) -> Option<Refusal>
    ensures { result ≡ send_fault place routed.now }
{
    let send = &routed.send;
    if send.from.differs_in_type() {
        return Some(Refusal::WrongType);
    }
    if send.from.is_above(place.message_limit.bytes() as usize) {
        return Some(Refusal::Count);
    }
    if send.from.is_too_short() {
        return Some(Refusal::Count);
    }
    if is_no_tag(send.tag) {
        return Some(Refusal::Tag);
    }
    if is_no_target(place.size, routed.route.named) {
        return Some(Refusal::Rank);
    }
    None
}

/// The rank that a send goes to, with its tag and context: none where it goes to the null process (MPI 3.1, 3.11).
fn destination_of(target: Source, tag: Option<u32>, context: u64) -> Option<Destination>
    ensures { result ≡ destination target tag context }
{
    match (target, tag) {
        (Source::Rank(rank), Some(tag)) => Some(Destination { rank, tag, context }),
        _ => None,
    }
}

/// Whether this is the own rank: what goes there goes into its own queues without a frame (MPI 3.1, 3.2.4).
pub fn is_own(place: Place, destination: Option<Destination>) -> bool
    ensures { result ≡ is_own place destination }
{
    match destination {
        Some(destination) => destination.rank == place.endpoint.rank,
        None => false,
    }
}

/// To which other rank a frame goes.
pub fn rank_to(place: Place, destination: Option<Destination>) -> Option<u16>
    ensures { result ≡ rank_to place destination }
{
    match destination {
        Some(destination) => {
            if destination.rank == place.endpoint.rank {
                None
            } else {
                Some(destination.rank)
            }
        }
        None => None,
    }
}

/// Whether these elements do not go in one frame of a job with this limit.
fn is_large(limit: MessageLimit, elements: &Buffer) -> bool
    ensures exact { result ≡ is_large limit elements.now }
    ensures small { result ≡ false → length elements.now.values * size_of elements.now.basic ≤ greatest_frame }
{
    elements.byte_len() > limit.frame_bytes() as usize
}

/// To which other rank the message of a send to this destination is announced, if it is: that of a synchronous send, or
/// one that does not go in one frame.
fn announced_to(place: Place, send: &Send, destination: Option<Destination>) -> Option<u16>
    ensures { result ≡ announced_by place send.now destination }
{
    if let Mode::Standard = send.mode
        && !send
            .from
            .is_above(place.message_limit.frame_bytes() as usize)
    {
        return None;
    }
    rank_to(place, destination)
}

/// Where the message of a send goes, and whether it is announced: that is decided once.
pub fn address(place: Place, routed: RoutedSend) -> AddressedSend
    ensures routed { result.routed ≡ routed }
    ensures addressed { IsAddressed place result }
{
    let destination = destination_of(routed.route.named, routed.send.tag, routed.route.context);
    let announced = announced_to(place, &routed.send, destination);
    AddressedSend {
        routed,
        destination,
        announced,
    }
}

/// Whether the message of these elements is announced.
fn is_announced(limit: MessageLimit, mode: Mode, elements: &Buffer) -> bool
    ensures exact { result ≡ is_announced limit mode elements.now }
    ensures small { result ≡ false → length elements.now.values * size_of elements.now.basic ≤ greatest_frame }
{
    match mode {
        Mode::Standard => is_large(limit, elements),
        Mode::Synchronous => true,
    }
}

/// The frame of these elements in a context and under a tag, lent from them.
fn eager_frame(context: u64, tag: u32, elements: &Buffer) -> Frame<'_>
    requires sendable { IsSendable tag elements.now }
    requires small { length elements.now.values * size_of elements.now.basic ≤ greatest_frame }
    ensures exact { frame_text result ≡ eager_frame context tag elements.now }
    ensures fits { FrameFits (frame_text result) }
{
    Frame::Eager(Eager {
        plane: Plane::PointToPoint,
        basic: elements.basic(),
        tag,
        context,
        count: elements.len() as u32,
        elements: elements.short_bytes(),
    })
}

/// The frame that announces these elements in a context and under a tag, as the transfer with this number.
fn request_frame(
    mode: Mode,
    transfer: u32,
    context: u64,
    tag: u32,
    elements: &Buffer,
) -> Frame<'static>
    requires { IsSendable tag elements.now }
    ensures exact { frame_text result ≡ request_frame mode transfer context tag elements.now }
    ensures fits { FrameFits (frame_text result) }
{
    Frame::RequestToSend(RequestToSend {
        mode,
        plane: Plane::PointToPoint,
        basic: elements.basic(),
        tag,
        context,
        count: elements.len() as u32,
        transfer,
    })
}

/// The frame of these elements for a rank: they go in it, or it announces them as the next transfer there.
fn frame_with<'a>(
    limit: MessageLimit,
    transfers: &Transfers,
    mode: Mode,
    destination: Destination,
    elements: &'a Buffer,
) -> Frame<'a>
    requires { IsSendable destination.tag elements.now }
    ensures exact { frame_text result ≡ frame_with limit transfers.now.state mode destination elements.now }
    ensures fits { FrameFits (frame_text result) }
{
    if is_announced(limit, mode, elements) {
        return request_frame(
            mode,
            transfers.next_to(destination.rank),
            destination.context,
            destination.tag,
            elements,
        );
    }
    eager_frame(destination.context, destination.tag, elements)
}

/// The frame with which these elements go to another rank; none goes to the own one.
pub fn frame_to<'a>(
    place: Place,
    transfers: &Transfers,
    mode: Mode,
    destination: Option<Destination>,
    elements: &'a Buffer,
) -> Option<Outgoing<'a>>
    requires sendable { IfSome destination (λ d. IsSendable d.tag elements.now) }
    requires there { IfSome destination (λ d. d.rank < place.size) }
    ensures exact { addressed result ≡ frame_to place transfers.now.state mode destination elements.now }
    ensures fits { IfSome result (λ a. FrameFits (frame_text a.frame)) }
    ensures there { IfSome result (λ a. a.target < place.size) }
{
    match destination {
        Some(destination) => {
            if destination.rank == place.endpoint.rank {
                return None;
            }
            Some(Outgoing {
                target: destination.rank,
                frame: frame_with(place.message_limit, transfers, mode, destination, elements),
            })
        }
        None => None,
    }
}

/// The data of a send, taken out of the places of a layout where they do not stand in its buffer in order.
pub fn pack(alloc: Global, routed: &RoutedSend) -> Result<Option<Buffer>, Refusal>
    requires types { differs_in_type (handed_of routed.now.send.from) ≡ false }
    requires room { is_too_short (handed_of routed.now.send.from) ≡ false }
    ensures packed { IfOk result (λ packed. IsPacked routed.now packed) }
    ensures err { IfErr result (λ e. e ≡ Refusal.OutOfMemory) }
{
    match routed.send.from.pack(alloc) {
        Ok(packed) => Ok(packed),
        Err(_) => Err(Refusal::OutOfMemory),
    }
}

/// The elements of a send: those that were packed, or all of its buffer.
#[tactic(auto, using(crate::proofs::Packs::stand_ready))]
pub fn elements_of<'a>(routed: &'a RoutedSend, packed: &'a Option<Buffer>) -> &'a Buffer
    requires { IsPacked routed.now packed.now }
    ensures { result.now ≡ sent_from routed.now.send.from }
{
    match packed {
        Some(elements) => elements,
        None => &routed.send.from.buffer,
    }
}

/// The elements of a send, taken out.
#[tactic(auto, using(crate::proofs::Packs::stand_ready))]
pub fn into_elements(routed: RoutedSend, packed: Option<Buffer>) -> Buffer
    requires { IsPacked routed packed }
    ensures { result ≡ sent_from routed.send.from }
{
    match packed {
        Some(elements) => elements,
        None => routed.send.from.buffer,
    }
}

/// The message of these elements to the own rank, in a context and under a tag; and of this send, if one waits for its
/// match.
pub fn own_message(
    place: Place,
    context: u64,
    tag: u32,
    waiting: Option<Request>,
    elements: Buffer,
) -> Message
    ensures { result ≡ own_message place context tag waiting elements }
{
    let body = match waiting {
        None => Body::Whole(elements),
        Some(request) => Body::Own(OwnSend {
            key: request.key,
            serial: request.serial,
            elements,
        }),
    };
    Message {
        sender: place.endpoint,
        context,
        tag,
        body,
    }
}

/// What a send shows of itself: by the bytes of its buffer each element has the width of its type, and its context has
/// 64 bits.
pub fn show_widths(routed: &RoutedSend)
    ensures { IsWithin (calls.Isend routed.now) }
{
    routed.send.from.buffer.show_widths();
    let _context = routed.route.context;
}

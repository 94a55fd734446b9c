//! The frames of a step of a collective.

ghost use Rattle.std.specs.Prelude.{◌≡◌, ◌≤◌, ◌++◌, ◌==◌, [], ◌∷◌, true, All, IfErr, IfOk, IfSome, None, Some, OnErr};
ghost use Rattle.std.specs.Prelude.{OnOk, filter, length, map};
ghost use Rattle.collective_messages.specs.Messages.{IsFitting, says};
ghost use Rattle.datagram.specs.Spellings.{outgoing_text};
ghost use Rattle.payload.specs.Spellings.{spelling};
ghost use Rattle.sessions.specs.Events.{CanSend, after_event, event_limit, sendings};
ghost use Rattle.sessions.specs.HeardBytes.{CanHear, heard_option};
ghost use Rattle.sessions.specs.Windows.{StaysWithin};
ghost use Rattle.vocabulary.specs.Limits.{greatest_frame, greatest_limit};
ghost use Rattle.engine_calls.specs.Frames.{AreWhole, IsWhole, all_can_go, by_rank, can_go, lesson_in, numbers_heard};
ghost use Rattle.engine_calls.specs.Frames.{payload_frame, payload_kept, step_limit, step_numbers, step_payloads};
ghost use Rattle.engine_calls.specs.Frames.{step_sendings, transfer_of};
ghost use Rattle.engine_calls.specs.Refusals.{fault_of_sessions};
ghost use Rattle.rendezvous.specs.PayloadNumbers.{AreLeft, counted, with_lesson};
ghost use Rattle.engine_calls.specs.Steps.{AreReady, IsAdded, IsLeftOut, StepStops, part_frame, written};

use crate::refusal::of_sessions;
use collective_messages::CollectiveMessage;
use datagram::{Eager, Frame, Outgoing, Plane, RequestToSend};
use incarnation::Place;
use payload::write_payload;
use point_to_point::{Core, Refusal};
use rendezvous::{AnnouncedPayload, Transfers};
use sessions::{Heard, Sessions};
use std::alloc::Global;
use vocabulary::{BasicType, GREATEST_LIMIT, HIGHEST_TAG, Mode};

/// What goes in the frame of a message.
#[derive(Drop)]
pub enum FrameContent {
    /// The bytes that spell what it says.
    Whole(Vec<u8>),
    /// The number of the transfer under which these bytes are announced.
    Announced(u32),
}

/// A message of a collective, written out.
#[derive(Drop)]
pub struct Written {
    /// The rank that it goes to.
    pub target: u16,
    /// The context of the communicator.
    pub context: u64,
    /// The number of the collective on the communicator.
    pub number: u32,
    /// How many bytes spell what it says.
    pub count: u32,
    /// What goes in its frame.
    pub part: FrameContent,
}

/// The context of the communicator that a message is of.
fn context_of(message: &CollectiveMessage) -> u64
    ensures { result ≡ message.now.context }
{
    message.context
}

/// Writes what a message of a collective says.
fn write(alloc: Global, message: &CollectiveMessage) -> Result<Vec<u8>, Refusal>
    requires { IsFitting message.now }
    ensures ok { IfOk result (λ bytes. bytes.items ≡ spelling (says message.now)) }
    ensures whole { OnOk result (IsWhole message.now) }
    ensures err { IfErr result (λ e. e ≡ Refusal.OutOfMemory) }
{
    let _context = context_of(message);
    let mut bytes = Vec::new(alloc);
    match write_payload(&message.payload(), &mut bytes) {
        Ok(()) => Ok(bytes),
        Err(_) => Err(Refusal::OutOfMemory),
    }
}

/// Under which number a message is announced that is spelled in so many bytes, behind these payloads; none where it goes
/// in a frame. It fails where it can't go: to no rank of the job, under a number that no tag can be, with more bytes than
/// a message may have, or without a number that is left for its transfer.
fn transfer_of(
    place: Place,
    transfers: &Transfers,
    lesson: Option<u16>,
    announced: &[AnnouncedPayload],
    message: &CollectiveMessage,
    count: usize,
) -> Result<Option<u32>, Refusal>
    requires count { count ≡ length (spelling (says message.now)) }
    requires left { AreLeft (with_lesson lesson transfers.now.state.numbers) announced.now }
    ensures ok { IfOk result (λ transfer. transfer
        ≡ transfer_of place.message_limit (counted (with_lesson lesson transfers.now.state.numbers) announced.now)
        message.now) }
    ensures goes { OnOk result
        (can_go place (counted (with_lesson lesson transfers.now.state.numbers) announced.now) message.now ≡ true) }
    ensures err { IfErr result (IsLeftOut
        (can_go place (counted (with_lesson lesson transfers.now.state.numbers) announced.now) message.now)) }
{
    if message.target.rank >= place.size || message.number > HIGHEST_TAG {
        return Err(Refusal::Limit);
    }
    if count <= place.message_limit.frame_bytes() as usize {
        return Ok(None);
    }
    if count > GREATEST_LIMIT {
        return Err(Refusal::Limit);
    }
    match transfers.number_behind(lesson, announced, message.target.rank) {
        Some(transfer) => Ok(Some(transfer)),
        None => Err(Refusal::Limit),
    }
}

/// Puts a frame behind those of a step.
fn add_frame(
    frames: &mut Vec<Written>,
    message: &CollectiveMessage,
    count: u32,
    part: FrameContent,
) -> Result<(), Refusal>
    ensures ok { OnOk result (map written frames.new.items ≡ map written frames.old.items
        ++ (record {
          target = message.now.target.rank;
          frame =
              part_frame message.now.context message.now.number count part;
        }) ∷ []) }
    ensures err { IfErr result (λ e. e ≡ Refusal.OutOfMemory) }
{
    let one = Written {
        target: message.target.rank,
        context: message.context,
        number: message.number,
        count,
        part,
    };
    match frames.push(one) {
        Ok(()) => Ok(()),
        Err(_) => Err(Refusal::OutOfMemory),
    }
}

/// Adds the frame of a message whose bytes go in it.
fn add_whole(
    message: &CollectiveMessage,
    bytes: Vec<u8>,
    frames: &mut Vec<Written>,
) -> Result<(), Refusal>
    requires says { bytes.items ≡ spelling (says message.now) }
    requires small { length bytes.items ≤ greatest_frame }
    ensures ok { OnOk result (map written frames.new.items ≡ map written frames.old.items
        ++ (record {
          target = message.now.target.rank;
          frame =
              payload_frame None message.now.context message.now.number (spelling (says message.now));
        }) ∷ []) }
    ensures err { IfErr result (λ e. e ≡ Refusal.OutOfMemory) }
{
    let count = bytes.len() as u32;
    add_frame(frames, message, count, FrameContent::Whole(bytes))
}

/// Adds the announcement of a message under the number of its transfer, and keeps its bytes.
fn add_announced(
    message: &CollectiveMessage,
    bytes: Vec<u8>,
    transfer: u32,
    frames: &mut Vec<Written>,
    announced: &mut Vec<AnnouncedPayload>,
) -> Result<(), Refusal>
    requires says { bytes.items ≡ spelling (says message.now) }
    requires limit { length bytes.items ≤ greatest_limit }
    ensures frames { OnOk result (map written frames.new.items ≡ map written frames.old.items
        ++ (record {
          target = message.now.target.rank;
          frame =
              payload_frame (Some transfer) message.now.context message.now.number (spelling (says message.now));
        }) ∷ []) }
    ensures announced { OnOk result (announced.new.items ≡ announced.old.items
        ++ payload_kept (Some transfer) message.now.target.rank (spelling (says message.now))) }
    ensures err { IfErr result (λ e. e ≡ Refusal.OutOfMemory) }
{
    let rank = message.target.rank;
    let count = bytes.len() as u32;
    let payload = AnnouncedPayload::new(rank, transfer, bytes);
    if announced.push(payload).is_err() {
        return Err(Refusal::OutOfMemory);
    }
    add_frame(frames, message, count, FrameContent::Announced(transfer))
}

/// Adds one more message to those of a step that are written out: its bytes, or their announcement, which is counted
/// behind those before it. It fails where the message can't go, and for want of memory.
fn add_message(
    alloc: Global,
    place: Place,
    transfers: &Transfers,
    lesson: Option<u16>,
    message: &CollectiveMessage,
    frames: &mut Vec<Written>,
    announced: &mut Vec<AnnouncedPayload>,
) -> Result<(), Refusal>
    requires fits { IsFitting message.now }
    requires left { AreLeft (with_lesson lesson transfers.now.state.numbers) announced.old.items }
    ensures ok { OnOk result
        (IsAdded place (counted (with_lesson lesson transfers.now.state.numbers) announced.old.items) message.now
        (map written frames.old.items) (map written frames.new.items) announced.old.items announced.new.items
        (counted (with_lesson lesson transfers.now.state.numbers) announced.new.items)) }
    ensures err { IfErr result (IsLeftOut
        (can_go place (counted (with_lesson lesson transfers.now.state.numbers) announced.old.items) message.now)) }
{
    let bytes = write(alloc, message)?;
    match transfer_of(place, transfers, lesson, announced, message, bytes.len()) {
        Ok(None) => add_whole(message, bytes, frames),
        Ok(Some(transfer)) => add_announced(message, bytes, transfer, frames, announced),
        Err(refused) => Err(refused),
    }
}

/// The messages of a step, written out, and the payloads that are announced.
#[derive(Drop)]
pub struct WrittenStep {
    /// The messages, in order.
    pub frames: Vec<Written>,
    /// The payloads of those that are announced.
    pub announced: Vec<AnnouncedPayload>,
}

/// Writes each message of a step; those that are announced are counted behind the transfers that began before. With a
/// lesson of a rank its session starts anew before them.
fn write_each(
    alloc: Global,
    place: Place,
    transfers: &Transfers,
    lesson: Option<u16>,
    messages: &[CollectiveMessage],
) -> Result<WrittenStep, Refusal>
    requires { All IsFitting messages.now }
    ensures ok { IfOk result
        (λ step. AreReady place (with_lesson lesson transfers.now.state.numbers) messages.now
        (map written step.frames.items) step.announced.items
        (counted (with_lesson lesson transfers.now.state.numbers) step.announced.items)) }
    ensures err { IfErr result
        (IsLeftOut (all_can_go place (with_lesson lesson transfers.now.state.numbers) messages.now)) }
{
    let mut frames = Vec::new(alloc);
    let mut announced = Vec::new(alloc);
    for message in messages {
        add_message(
            alloc,
            place,
            transfers,
            lesson,
            message,
            &mut frames,
            &mut announced,
        )?;
    }
    Ok(WrittenStep { frames, announced })
}

/// The rank that is known at a new incarnation by what is heard, if there is one.
fn lesson_in(heard: &Option<Heard<'_>>) -> Option<u16>
    ensures { result ≡ lesson_in (heard_option heard.now) }
{
    match heard {
        Some(heard) if heard.lesson => Some(heard.source.rank),
        _ => None,
    }
}

/// Writes each message of a step behind the transfers of a core, once what was heard is learnt.
fn write_step(
    alloc: Global,
    place: Place,
    core: &Core,
    heard: &Option<Heard<'_>>,
    messages: &[CollectiveMessage],
) -> Result<WrittenStep, Refusal>
    requires { All IsFitting messages.now }
    ensures ok { IfOk result (λ step.
        AreReady place (numbers_heard core.now.state.transfers.numbers (heard_option heard.now)) messages.now
        (map written step.frames.items) step.announced.items
        (counted (numbers_heard core.now.state.transfers.numbers (heard_option heard.now)) step.announced.items)) }
    ensures err { IfErr result (IsLeftOut (all_can_go place
        (numbers_heard core.now.state.transfers.numbers (heard_option heard.now)) messages.now)) }
{
    write_each(alloc, place, core.transfers(), lesson_in(heard), messages)
}

/// The frame of a message that was written out.
fn frame_of(message: &Written) -> Outgoing<'_>
    ensures { outgoing_text result ≡ written message.now }
{
    let frame = match &message.part {
        FrameContent::Whole(bytes) => Frame::Eager(Eager {
            plane: Plane::Collective,
            basic: BasicType::Byte,
            tag: message.number,
            context: message.context,
            count: message.count,
            elements: bytes,
        }),
        FrameContent::Announced(transfer) => Frame::RequestToSend(RequestToSend {
            mode: Mode::Standard,
            plane: Plane::Collective,
            basic: BasicType::Byte,
            tag: message.number,
            context: message.context,
            count: message.count,
            transfer: *transfer,
        }),
    };
    Outgoing {
        target: message.target,
        frame,
    }
}

/// Puts the frame of a message behind these.
fn put_frame<'a>(message: &'a Written, frames: &mut Vec<Outgoing<'a>>) -> Result<(), Refusal>
    ensures ok { OnOk result (sendings frames.new.items ≡ sendings frames.old.items ++ written message.now ∷ []) }
    ensures err { IfErr result (λ e. e ≡ Refusal.OutOfMemory) }
{
    match frames.push(frame_of(message)) {
        Ok(()) => Ok(()),
        Err(_) => Err(Refusal::OutOfMemory),
    }
}

/// The frames of messages that stand in the order of the ranks that they go to, each of these so many; nothing where
/// they don't.
fn frames_in_order<'a>(
    alloc: Global,
    size: u16,
    messages: &'a [Written],
) -> Result<Option<Vec<Outgoing<'a>>>, Refusal>
    ensures ok { IfOk result
        (λ ordered. IfSome ordered (λ frames. sendings frames.items ≡ by_rank size (map written messages.now))) }
    ensures err { IfErr result (λ e. e ≡ Refusal.OutOfMemory) }
{
    let mut frames = Vec::new(alloc);
    let mut last = 0;
    for message in messages {
        if message.target < last || message.target >= size {
            return Ok(None);
        }
        last = message.target;
        put_frame(message, &mut frames)?;
    }
    Ok(Some(frames))
}

/// Puts the frame of a message behind these, if it goes to this rank.
fn add_if_for<'a>(
    rank: u16,
    message: &'a Written,
    frames: &mut Vec<Outgoing<'a>>,
) -> Result<(), Refusal>
    ensures ok { OnOk result (sendings frames.new.items ≡ sendings frames.old.items ++
        filter (λ f. f.target == rank) (written message.now ∷ [])) }
    ensures err { IfErr result (λ e. e ≡ Refusal.OutOfMemory) }
{
    if message.target != rank {
        return Ok(());
    }
    put_frame(message, frames)
}

/// Puts the frames of those messages behind these that go to this rank.
fn add_for<'a>(
    rank: u16,
    messages: &'a [Written],
    frames: &mut Vec<Outgoing<'a>>,
) -> Result<(), Refusal>
    ensures ok { OnOk result (sendings frames.new.items ≡ sendings frames.old.items ++
        filter (λ f. f.target == rank) (map written messages.now)) }
    ensures err { IfErr result (λ e. e ≡ Refusal.OutOfMemory) }
{
    for message in messages {
        add_if_for(rank, message, frames)?;
    }
    Ok(())
}

/// The frames of messages that go to the first rank, then those that go to the second, and so on.
#[tactic(auto, using(crate::proofs::StepFrames::by_rank_more))]
fn frames_rank_for_rank<'a>(
    alloc: Global,
    size: u16,
    messages: &'a [Written],
) -> Result<Vec<Outgoing<'a>>, Refusal>
    ensures ok { IfOk result (λ frames. sendings frames.items ≡ by_rank size (map written messages.now)) }
    ensures err { IfErr result (λ e. e ≡ Refusal.OutOfMemory) }
{
    let mut frames = Vec::new(alloc);
    for rank in 0..size {
        add_for(rank, messages, &mut frames)?;
    }
    Ok(frames)
}

/// The frames of messages, in the order of the ranks that they go to. Mostly they stand in it.
fn frames_by_rank<'a>(
    alloc: Global,
    size: u16,
    messages: &'a [Written],
) -> Result<Vec<Outgoing<'a>>, Refusal>
    ensures ok { IfOk result (λ frames. sendings frames.items ≡ by_rank size (map written messages.now)) }
    ensures err { IfErr result (λ e. e ≡ Refusal.OutOfMemory) }
{
    match frames_in_order(alloc, size, messages) {
        Ok(Some(frames)) => Ok(frames),
        Ok(None) => frames_rank_for_rank(alloc, size, messages),
        Err(refused) => Err(refused),
    }
}

/// The sessions take in what was heard, if anything was, and send messages that were written out, in the order of the
/// ranks.
/// Refused is 13 where the sessions meet their limit, and 14; then nothing changes.
fn send_written(
    alloc: Global,
    sessions: &mut Sessions,
    heard: Option<Heard<'_>>,
    messages: &[Written],
) -> Result<(), Refusal>
    requires can { CanHear sessions.old (heard_option heard) }
    requires go { All (CanSend sessions.old.place) (map written messages.now) }
    ensures limit { OnOk result
        (event_limit sessions.old (heard_option heard.entry)
        (by_rank sessions.old.place.size (map written messages.now)) ≡ None) }
    ensures sent { OnOk result
        (sessions.new ≡
        after_event sessions.old (heard_option heard.entry)
        (by_rank sessions.old.place.size (map written messages.now))) }
    ensures why { IfErr result
        (StepStops
        (fault_of_sessions
        (event_limit sessions.old (heard_option heard.entry)
        (by_rank sessions.old.place.size (map written messages.now))))) }
    ensures unchanged { OnErr result (sessions.new ≡ sessions.old) }
    ensures within { OnOk result (StaysWithin (heard_option heard.entry) sessions.old sessions.new) }
    ensures placed { sessions.new.place ≡ sessions.old.place }
{
    let place = sessions.place();
    let frames = frames_by_rank(alloc, place.size, messages)?;
    match sessions.carry_out(heard, &frames) {
        Ok(()) => Ok(()),
        Err(refused) => Err(of_sessions(refused)),
    }
}

/// The sessions take in what was heard, if anything was, and send a step of a collective in the order of the ranks; the
/// payloads that are announced by it are answered, and there is room for them. They are counted behind the transfers that
/// began before; where what is heard is a lesson, its session starts anew before that.
///
/// Refused is 13 where one of its messages can't go, or the sessions meet their limit, and 14; then nothing changes.
pub fn send_step(
    alloc: Global,
    core: &mut Core,
    sessions: &mut Sessions,
    heard: Option<Heard<'_>>,
    messages: &[CollectiveMessage],
) -> Result<Vec<AnnouncedPayload>, Refusal>
    requires can { CanHear sessions.old (heard_option heard) }
    requires fits { All IsFitting messages.now }
    ensures whole { OnOk result (AreWhole messages.now) }
    ensures goes { OnOk result
        (step_limit sessions.old (numbers_heard core.old.state.transfers.numbers (heard_option heard.entry))
        (heard_option heard.entry) messages.now ≡ None) }
    ensures sent { OnOk result
        (sessions.new ≡
        after_event sessions.old (heard_option heard.entry)
        (step_sendings sessions.old.place
        (numbers_heard core.old.state.transfers.numbers (heard_option heard.entry)) messages.now)) }
    ensures announced { IfOk result (λ announced. announced.items ≡
        step_payloads sessions.old.place.message_limit
        (numbers_heard core.old.state.transfers.numbers (heard_option heard.entry)) messages.now) }
    ensures counted { IfOk result (λ announced.
        counted (numbers_heard core.old.state.transfers.numbers (heard_option heard.entry)) announced.items ≡
        step_numbers sessions.old.place.message_limit
        (numbers_heard core.old.state.transfers.numbers (heard_option heard.entry)) messages.now) }
    ensures left { IfOk result (λ announced.
        AreLeft (numbers_heard core.old.state.transfers.numbers (heard_option heard.entry)) announced.items) }
    ensures room { IfOk result (λ announced. length announced.items ≤ core.new.payloads.more_announced) }
    ensures kept { core.new ≡ record core.old {
      payloads = record core.old.payloads { more_announced = core.new.payloads.more_announced };
    } }
    ensures why { IfErr result (StepStops
        (step_limit sessions.old (numbers_heard core.old.state.transfers.numbers (heard_option heard.entry))
        (heard_option heard.entry) messages.now)) }
    ensures unchanged { OnErr result (sessions.new ≡ sessions.old) }
    ensures within { OnOk result (StaysWithin (heard_option heard.entry) sessions.old sessions.new) }
    ensures placed { sessions.new.place ≡ sessions.old.place }
{
    let place = sessions.place();
    let step = write_step(alloc, place, core, &heard, messages)?;
    core.reserve_announced(step.announced.len())?;
    send_written(alloc, sessions, heard, &step.frames)?;
    Ok(step.announced)
}

//! With what a frame whose turn comes would be refused, were there no memory at all: a rule that it breaks, or a limit
//! that it meets, comes before want of memory.

ghost use Rattle.std.specs.Prelude.{◌≡◌, ◌<◌, Option, Some, Err, false, is_some, option_map, true};
ghost use Rattle.collective_steps.specs.declared.step.Ending.{Ending};
ghost use Rattle.datagram.specs.Spellings.{clear_text, data_text, request_text};
ghost use Rattle.point_to_point.specs.CoreState.{CoreState};
ghost use Rattle.point_to_point_calls.specs.Refusals.{IsRefusal};
ghost use Rattle.rendezvous.specs.PayloadState.{announced_to};
ghost use Rattle.sessions.specs.Events.{event_limit};
ghost use Rattle.sessions.specs.HeldFrames.{ready_from, turn_of};
ghost use Rattle.sessions.specs.HeardBytes.{heard_text, word_text, CanHear};
ghost use Rattle.engine.specs.Datagrams.{HeardGives, WhyNoPiece, announcement_fault, answer_fault, data_sent};
ghost use Rattle.engine.specs.Datagrams.{says_nothing};
ghost use Rattle.engine.specs.HeldFrameEnds.{NextIsRefused, WhyUnread, news_met};
ghost use Rattle.engine.specs.Parts.{engine_by};
ghost use Rattle.engine_calls.specs.EngineState.{GroupsState};
ghost use Rattle.engine_calls.specs.Refusals.{fault_of_sessions};

use crate::datagrams::{hold_fault, limit_of_news, news_of};
use crate::incoming_payloads::is_due;
use crate::notice_kinds::{Notice, notice_in};
use crate::notices::read;
use crate::outgoing_payloads::{announced_for, fault_of_announcement, limit_of};
use datagram::{ClearToSend, Clearance, Data, RequestToSend};
use point_to_point::{Core, Refusal};
use rendezvous::count_of;
use sessions::{Heard, Sessions, turn_in};
use vocabulary::Endpoint;

/// A rule or limit that is met, or else want of memory.
fn or_memory(fault: Option<Refusal>) -> Refusal
    ensures { IsRefusal fault result }
{
    match fault {
        Some(fault) => fault,
        None => Refusal::OutOfMemory,
    }
}

/// The refusal of what concerns no collective.
fn refusal_of_news(core: &Core, sessions: &Sessions, heard: Heard<'_>) -> Refusal
    requires { CanHear sessions.now (Some (heard_text heard)) }
    ensures { IsRefusal (news_met core.now.state sessions.now (heard_text heard.entry)) result }
{
    if let Some(fault) = hold_fault(heard.word) {
        return fault;
    }
    if let Some(fault) = core.fault_of_news(news_of(heard)) {
        return fault;
    }
    or_memory(limit_of_news(core, sessions, heard))
}

/// The refusal of a message of a collective in a job of so many ranks.
fn refusal_of_message(bytes: &[u8], size: u16) -> Refusal
    ensures { WhyUnread size bytes.now result }
{
    match read(bytes, size) {
        Ok(payload) => {
            if payload.fits() {
                Refusal::OutOfMemory
            } else {
                Refusal::BadFrame
            }
        }
        Err(_) => Refusal::BadFrame,
    }
}

/// The refusal of the announcement of a payload.
fn refusal_of_announcement(
    core: &Core,
    sessions: &Sessions,
    heard: Heard<'_>,
    request: RequestToSend,
) -> Refusal
    requires { CanHear sessions.now (Some (heard_text heard)) }
    ensures { IsRefusal
        (announcement_fault core.now.state sessions.now (heard_text heard.entry) (request_text request)) result }
{
    or_memory(fault_of_announcement(core, sessions, heard, request))
}

/// The limit that the answer to a payload meets by all its data.
fn limit_of_data(
    sessions: &Sessions,
    heard: Heard<'_>,
    transfer: u32,
    bytes: &[u8],
) -> Option<Refusal>
    requires { CanHear sessions.now (Some (heard_text heard)) }
    ensures { result ≡ fault_of_sessions
        (event_limit sessions.now (Some (heard_text heard.entry))
        (data_sent sessions.now.place.message_limit heard.entry.source.rank transfer bytes.now)) }
{
    limit_of(
        sessions,
        heard,
        count_of(sessions.place().message_limit, bytes),
    )
}

/// The refusal of the answer to a payload that this rank announced.
fn refusal_of_answer(
    core: &Core,
    sessions: &Sessions,
    heard: Heard<'_>,
    answer: ClearToSend,
) -> Refusal
    requires can { CanHear sessions.now (Some (heard_text heard)) }
    requires announced { is_some (announced_to core.now.payloads.state heard.source.rank answer.transfer) ≡ true }
    ensures { IsRefusal
        (answer_fault core.now.payloads.state sessions.now (heard_text heard.entry) (clear_text answer)) result }
{
    if let Clearance::Drop = answer.clearance {
        return Refusal::BadFrame;
    }
    let Some(payload) = announced_for(core, heard, answer) else {
        return Refusal::BadFrame;
    };
    or_memory(limit_of_data(sessions, heard, answer.transfer, payload.bytes()))
}

/// The refusal of data of a payload that comes. With the last of them the payload is put together, read, and taken
/// apart again.
fn refusal_of_piece(
    core: &mut Core,
    sessions: &Sessions,
    heard: Heard<'_>,
    piece: Data<'_>,
) -> Refusal
    requires { CanHear sessions.now (Some (heard_text heard)) }
    ensures exact { (c : CoreState) (groups : GroupsState) (ended : Option Ending) →
        WhyNoPiece (engine_by c core.old.payloads.state sessions.now groups ended) (heard_text heard.entry)
        (data_text piece.entry) result }
    ensures state { core.new.state ≡ core.old.state }
    ensures payloads { core.new.payloads.state ≡ core.old.payloads.state }
{
    let rank = heard.source.rank;
    if !is_due(core, rank, piece) {
        return Refusal::BadFrame;
    }
    let Some(whole) = core.take_whole(rank, piece.transfer, piece.bytes) else {
        return or_memory(limit_of(sessions, heard, 0));
    };
    let refusal = refusal_of_message(whole.bytes(), sessions.place().size);
    core.put_back(whole);
    refusal
}

/// The refusal of what is heard and says something.
fn refusal_of(core: &mut Core, sessions: &Sessions, heard: Heard<'_>) -> Refusal
    requires can { CanHear sessions.now (Some (heard_text heard)) }
    requires something { says_nothing heard.lesson (word_text heard.word) ≡ false }
    ensures exact { (groups : GroupsState) (ended : Option Ending) →
        HeardGives (engine_by core.old.state core.old.payloads.state sessions.now groups ended) (heard_text heard.entry)
        (Err result) (engine_by core.old.state core.old.payloads.state sessions.now groups ended) }
    ensures state { core.new.state ≡ core.old.state }
    ensures payloads { core.new.payloads.state ≡ core.old.payloads.state }
{
    match notice_in(core, heard) {
        Some(Notice::Message(message)) => {
            refusal_of_message(message.elements, sessions.place().size)
        }
        Some(Notice::Announcement(request)) => {
            refusal_of_announcement(core, sessions, heard, request)
        }
        Some(Notice::Answer(answer)) => refusal_of_answer(core, sessions, heard, answer),
        Some(Notice::Piece(piece)) => refusal_of_piece(core, sessions, heard, piece),
        None => refusal_of_news(core, sessions, heard),
    }
}

/// The refusal of the next frame of an endpoint, where it is held: 30 where what is held spells no frame.
pub(crate) fn refusal_of_next(
    core: &mut Core,
    sessions: &Sessions,
    source: Endpoint,
) -> Option<Refusal>
    requires { source.rank < sessions.now.place.size }
    ensures exact { (groups : GroupsState) (ended : Option Ending) →
        NextIsRefused (option_map (turn_of source) (ready_from sessions.now source.rank)) result
        (engine_by core.old.state core.old.payloads.state sessions.now groups ended) }
    ensures state { core.new.state ≡ core.old.state }
    ensures payloads { core.new.payloads.state ≡ core.old.payloads.state }
{
    // The place shows that there is a session for each rank.
    let _place = sessions.place();
    let Some(bytes) = sessions.next_held(source.rank) else {
        return None;
    };
    match turn_in(source, bytes) {
        Some(heard) => Some(refusal_of(core, sessions, heard)),
        None => Some(Refusal::BadFrame),
    }
}

//! How payloads of collectives go in pieces: announcements and answers of them.

ghost use Rattle.std.specs.Prelude.{◌≡◌, ◌≤◌, ◌<◌, [], ◌∷◌, All, List, true, length, is_some, IfErr, IfOk, None};
ghost use Rattle.std.specs.Prelude.{OnErr, OnOk, Option, Some};
ghost use Rattle.std.specs.Option.{option_copied};
ghost use Rattle.collective_steps.specs.declared.step.Ending.{Ending};
ghost use Rattle.datagram.specs.Spellings.{clear_text, request_text, OutgoingText};
ghost use Rattle.point_to_point_calls.specs.Refusals.{IsRefusal};
ghost use Rattle.rendezvous.specs.PayloadState.{announced_to};
ghost use Rattle.sessions.specs.Windows.{StaysWithin};
ghost use Rattle.sessions.specs.HeardBytes.{heard_text, CanHear};
ghost use Rattle.sessions.specs.Events.{AreFor, CanSend, after_event, event_limit, sendings};
ghost use Rattle.vocabulary.specs.Limits.{greatest_limit};
ghost use Rattle.engine_calls.specs.Refusals.{fault_of_sessions};
ghost use Rattle.engine.specs.Datagrams.{AnnouncementGives, AnswerGives, announcement_fault, answer_to, coming_by};
ghost use Rattle.engine.specs.Datagrams.{data_sent};
ghost use Rattle.engine.specs.Parts.{IsCounted, PartsGive, engine_with, state_of};

use crate::notices::{learn, lesson_in};
use crate::parts::Parts;
use collectives::Ending;
use datagram::{ClearToSend, Clearance, Frame, Outgoing, RequestToSend};
use engine_calls::of_sessions;
use point_to_point::{Core, News, Refusal};
use point_to_point_calls::frames_of;
use rendezvous::{AnnouncedPayload, ComingPayload, count_of, pieces_of};
use sessions::{Heard, Sessions};
use std::alloc::Global;
use vocabulary::{MessageLimit, Mode};

/// The limit that what is heard meets, which so many frames answer: see `Sessions::limit_of_replies`.
pub(crate) fn limit_of(sessions: &Sessions, heard: Heard<'_>, count: usize) -> Option<Refusal>
    requires { CanHear sessions.now (Some (heard_text heard)) }
    ensures { (frames : List OutgoingText) → AreFor heard.entry.source.rank count frames →
        result ≡ fault_of_sessions (event_limit sessions.now (Some (heard_text heard.entry)) frames) }
{
    match sessions.limit_of_replies(heard, count) {
        Some(limit) => Some(of_sessions(limit)),
        None => None,
    }
}

/// The sessions take in what is heard, which meets no limit with these frames; or there is no memory (14), and nothing
/// changes.
pub(crate) fn carry_out(
    sessions: &mut Sessions,
    heard: Heard<'_>,
    frames: &[Outgoing<'_>],
) -> Result<(), Refusal>
    requires can { CanHear sessions.old (Some (heard_text heard)) }
    requires go { All (CanSend sessions.old.place) (sendings frames.now) }
    requires limit { fault_of_sessions (event_limit sessions.old (Some (heard_text heard)) (sendings frames.now)) ≡
        None }
    ensures ok { OnOk result (sessions.new ≡ after_event sessions.old (Some (heard_text heard.entry)) (sendings frames.now)) }
    ensures unchanged { OnErr result (sessions.new ≡ sessions.old) }
    ensures err { IfErr result (λ e. e ≡ Refusal.OutOfMemory) }
    ensures within { OnOk result (StaysWithin (Some (heard_text heard.entry)) sessions.old sessions.new) }
    ensures placed { sessions.new.place ≡ sessions.old.place }
{
    match sessions.carry_out_judged(Some(heard), frames) {
        Ok(()) => Ok(()),
        Err(_) => Err(Refusal::OutOfMemory),
    }
}

/// The sessions take in the announcement of a payload, which breaks no rule and meets no limit, and send the answer to
/// it; or there is no memory (14), and nothing changes.
fn send_answer(
    sessions: &mut Sessions,
    heard: Heard<'_>,
    request: RequestToSend,
) -> Result<(), Refusal>
    requires can { CanHear sessions.old (Some (heard_text heard)) }
    requires there { heard.source.rank < sessions.old.place.size }
    requires limit { fault_of_sessions
        (event_limit sessions.old (Some (heard_text heard)) (answer_to (heard_text heard) (request_text request) ∷ []))
        ≡ None }
    ensures ok { OnOk result
        (sessions.new ≡
        after_event sessions.old (Some (heard_text heard.entry))
        (answer_to (heard_text heard.entry) (request_text request) ∷ [])) }
    ensures unchanged { OnErr result (sessions.new ≡ sessions.old) }
    ensures err { IfErr result (λ e. e ≡ Refusal.OutOfMemory) }
    ensures within { OnOk result (StaysWithin (Some (heard_text heard.entry)) sessions.old sessions.new) }
    ensures placed { sessions.new.place ≡ sessions.old.place }
{
    let answer = Outgoing {
        target: heard.source.rank,
        frame: Frame::ClearToSend(ClearToSend {
            clearance: Clearance::Send,
            transfer: request.transfer,
        }),
    };
    carry_out(sessions, heard, &[answer])
}

/// The place for a payload that is announced, for which there is room; or want of memory (14), and nothing changes.
fn make_place(
    alloc: Global,
    core: &mut Core,
    heard: Heard<'_>,
    request: RequestToSend,
) -> Result<ComingPayload, Refusal>
    ensures ok { IfOk result (λ payload.
        payload ≡ coming_by core.old.state.place.message_limit (heard_text heard.entry) (request_text request)) }
    ensures room { OnOk result (0 < core.new.payloads.more_coming) }
    ensures kept { core.new ≡ record core.old {
      payloads = record core.old.payloads { more_coming = core.new.payloads.more_coming };
    } }
    ensures err { IfErr result (λ e. e ≡ Refusal.OutOfMemory) }
{
    let Ok(payload) = ComingPayload::new(
        alloc,
        core.place().message_limit,
        heard.source.rank,
        request.transfer,
        request.context,
        request.tag,
        request.count as usize,
    ) else {
        return Err(Refusal::OutOfMemory);
    };
    match core.reserve_coming() {
        Ok(()) => Ok(payload),
        Err(refused) => Err(refused),
    }
}

/// The payload that an answer asks for, where it was announced.
pub(crate) fn announced_for<'a>(
    core: &'a Core,
    heard: Heard<'_>,
    answer: ClearToSend,
) -> Option<&'a AnnouncedPayload>
    ensures { option_copied result ≡ announced_to core.now.payloads.state heard.entry.source.rank answer.transfer }
{
    core.transfers()
        .announced_to(heard.source.rank, answer.transfer)
}

/// The frames of all data of a payload for a rank, lent from it; or want of memory (14).
fn data_frames<'a>(
    alloc: Global,
    limit: MessageLimit,
    rank: u16,
    transfer: u32,
    bytes: &'a [u8],
) -> Result<Vec<Outgoing<'a>>, Refusal>
    ensures ok { IfOk result (λ frames. sendings frames.items ≡ data_sent limit rank transfer bytes.now) }
    ensures err { IfErr result (λ e. e ≡ Refusal.OutOfMemory) }
{
    let Ok(pieces) = pieces_of(alloc, limit, bytes) else {
        return Err(Refusal::OutOfMemory);
    };
    frames_of(alloc, rank, transfer, &pieces)
}

/// The sessions take in the answer to a payload of so many bytes, and send all its data. Refused is 13 where the
/// sessions meet their limit, and 14; then nothing changes.
fn send_data(
    alloc: Global,
    sessions: &mut Sessions,
    heard: Heard<'_>,
    transfer: u32,
    bytes: &[u8],
) -> Result<(), Refusal>
    requires can { CanHear sessions.old (Some (heard_text heard)) }
    requires there { heard.source.rank < sessions.old.place.size }
    requires limit { length bytes.now ≤ greatest_limit }
    ensures none { OnOk result
        (fault_of_sessions
        (event_limit sessions.old (Some (heard_text heard.entry))
        (data_sent sessions.old.place.message_limit heard.entry.source.rank transfer bytes.now)) ≡ None) }
    ensures sent { OnOk result
        (sessions.new ≡
        after_event sessions.old (Some (heard_text heard.entry))
        (data_sent sessions.old.place.message_limit heard.entry.source.rank transfer bytes.now)) }
    ensures err { IfErr result
        (IsRefusal
        (fault_of_sessions
        (event_limit sessions.old (Some (heard_text heard.entry))
        (data_sent sessions.old.place.message_limit heard.entry.source.rank transfer bytes.now)))) }
    ensures unchanged { OnErr result (sessions.new ≡ sessions.old) }
    ensures within { OnOk result (StaysWithin (Some (heard_text heard.entry)) sessions.old sessions.new) }
    ensures placed { sessions.new.place ≡ sessions.old.place }
{
    let limit = sessions.place().message_limit;
    if let Some(met) = limit_of(sessions, heard, count_of(limit, bytes)) {
        return Err(met);
    }
    let frames = data_frames(alloc, limit, heard.source.rank, transfer, bytes)?;
    carry_out(sessions, heard, &frames)
}

/// The first rule or limit that the announcement of a payload meets: it is of a synchronous send, which no payload is
/// (30), its number isn't the next one of its session (30), or the sessions meet their limit (13). It takes no memory.
pub(crate) fn fault_of_announcement(
    core: &Core,
    sessions: &Sessions,
    heard: Heard<'_>,
    request: RequestToSend,
) -> Option<Refusal>
    requires { CanHear sessions.now (Some (heard_text heard)) }
    ensures { result ≡
        announcement_fault core.now.state sessions.now (heard_text heard.entry) (request_text request) }
{
    if let Mode::Synchronous = request.mode {
        return Some(Refusal::BadFrame);
    }
    if !core.is_next(heard.source.rank, heard.lesson, request.transfer) {
        return Some(Refusal::BadFrame);
    }
    limit_of(sessions, heard, 1)
}

impl Parts {
    /// The announcement of a payload, which breaks no rule and meets no limit, is answered, and the payload begins to
    /// come, for which there is room: it is counted; or there is no memory (14), and nothing changes.
    fn begin_payload(
        &mut self,
        heard: Heard<'_>,
        request: RequestToSend,
        coming: ComingPayload,
    ) -> Result<(), Refusal>
        requires can { CanHear self.old.sessions (Some (heard_text heard)) }
        requires there { heard.source.rank < self.old.sessions.place.size }
        requires allowed { announcement_fault self.old.core.state self.old.sessions (heard_text heard)
            (request_text request) ≡ None }
        requires coming { coming ≡
            coming_by self.old.core.state.place.message_limit (heard_text heard) (request_text request) }
        requires room { 0 < self.old.core.payloads.more_coming }
        ensures exact { OnOk result
            (IsCounted self.old (heard_text heard.entry) (request_text request) self.new) }
        ensures err { IfErr result (λ e. e ≡ Refusal.OutOfMemory) }
        ensures unchanged { OnErr result (state_of self.new ≡ state_of self.old) }
        ensures communicators { self.new.communicators ≡ self.old.communicators }
        ensures within { OnOk result (StaysWithin (Some (heard_text heard.entry)) self.old.sessions self.new.sessions) }
    {
        let news = News {
            source: heard.source,
            lesson: heard.lesson,
            frame: None,
        };
        let prepared = self.core.prepare_news(news)?;
        send_answer(&mut self.sessions, heard, request)?;
        self.core.take_news(news, prepared);
        self.core.begin_payload(coming);
        Ok(())
    }

    /// Takes in the announcement of a payload: it is counted, it is answered, and its payload begins to come. Answered
    /// is with what a collective ends by its lesson. Refused is 30, 13 and 14; then nothing changes.
    pub(crate) fn take_announcement(
        &mut self,
        alloc: Global,
        heard: Heard<'_>,
        request: RequestToSend,
    ) -> Result<Option<Ending>, Refusal>
        requires can { CanHear self.old.sessions (Some (heard_text heard)) }
        requires there { heard.source.rank < self.old.sessions.place.size }
        ensures exact { PartsGive
            (λ e r f. AnnouncementGives e (heard_text heard.entry) (request_text request) r f) self.old result
            self.new }
        ensures within { OnOk result (StaysWithin (Some (heard_text heard.entry)) self.old.sessions self.new.sessions) }
    {
        if let Some(fault) = fault_of_announcement(&self.core, &self.sessions, heard, request) {
            return Err(fault);
        }
        let coming = make_place(alloc, &mut self.core, heard, request)?;
        match self.begin_payload(heard, request, coming) {
            Ok(()) => Ok(learn(&mut self.communicators, lesson_in(heard))),
            Err(refused) => Err(refused),
        }
    }

    /// Takes in the answer to a payload that this rank announced: all its data go out, and it isn't kept any more.
    /// Refused is 30 where the answer doesn't ask for the data, 13 and 14; then nothing changes.
    pub(crate) fn take_answer(
        &mut self,
        alloc: Global,
        heard: Heard<'_>,
        answer: ClearToSend,
    ) -> Result<(), Refusal>
        requires can { CanHear self.old.sessions (Some (heard_text heard)) }
        requires there { heard.source.rank < self.old.sessions.place.size }
        requires announced { is_some (announced_to self.old.core.payloads.state heard.source.rank answer.transfer) ≡ true }
        ensures exact { (before : Option Ending) →
            AnswerGives (engine_with self.old before) (heard_text heard.entry) (clear_text answer) result
            (engine_with self.new before) }
        ensures within { OnOk result (StaysWithin (Some (heard_text heard.entry)) self.old.sessions self.new.sessions) }
    {
        if let Clearance::Drop = answer.clearance {
            return Err(Refusal::BadFrame);
        }
        let Some(payload) = announced_for(&self.core, heard, answer) else {
            return Err(Refusal::BadFrame);
        };
        send_data(
            alloc,
            &mut self.sessions,
            heard,
            answer.transfer,
            payload.bytes(),
        )?;
        self.core.on_payload_cts(heard.source.rank, answer.transfer);
        Ok(())
    }
}

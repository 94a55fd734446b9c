//! One rank: its engine, the data of its last answer, and what it sends.

ghost use Rattle.std.specs.Prelude.{◌≡◌, ◌≤◌, ◌<◌, ◌⊎◌, ◌↔◌, ◌/◌, [], All, IfErr, IfNone, IfOk, IfSome, IsTrue, None, Result, length, slice_get, true};
ghost use Rattle.engine.specs.Looks.{type_probed};
ghost use Rattle.engine.specs.Datagrams.{DatagramGives};
ghost use Rattle.engine_calls.specs.declared.call.Call.TheVariants as calls;
ghost use Rattle.engine_calls.specs.declared.reply.Reply.{Reply};
ghost use Rattle.point_to_point_calls.specs.declared.refusal.Refusal.{Refusal};
ghost use Rattle.requests.specs.Table.{finished_at};
ghost use Rattle.sessions.specs.Peers.{IsIdlePeer};
ghost use Rattle.std.specs.Option.{option_map};
ghost use Rattle.c_rank.specs.Clocks.{after_all, going, told_waits, trips_behind, wait_told, waits_in};
ghost use Rattle.c_rank.specs.Calls.{Answers, AnswersMeant, AnswersOrLacks, Tells, TellsReply, look_told, type_out};
ghost use Rattle.c_rank.specs.Meanings.{receive_meant, send_meant};
ghost use Rattle.c_rank.specs.OutgoingDatagrams.{AsksEngine, HandsFirst, HandsNext, KeepsBack, KeepsRest, MayAsk, Releases};
ghost use Rattle.c_rank.specs.OutgoingDatagrams.{StaysSo, after_taking, pending};
ghost use Rattle.c_rank.specs.State.{AreLimits, HasNoLimits, IsNoLimit, IsNoPlace, IsOpening, IsSameTime, TellsTime, Ticks};
ghost use Rattle.c_rank.specs.State.{Learns, LearnsAll, learned, number_of_result, place_said, trips_of};
ghost use Rattle.c_rank.specs.Windows.{sifted, windows_behind, windows_sifted};
ghost use Rattle.c_rank.specs.AnswerCopies.{Takes, TakesOf};
ghost use Rattle.vocabulary.specs.MessageLimits.{limit_of};
ghost use Rattle.c_rank.specs.declared.meaning.Meant.TheVariants as meant;

use crate::answers::{
    Told, answer_of_kind, fact_answer, refusal, reply_told, started_answer, told_by_answer,
    told_by_completion,
};
use crate::call_kind::CallKind;
use crate::elements::turn_elements;
use crate::meaning::{
    Meant, elements_handed, meaning_of, receive_of, request_named, room_asked, send_of,
};
use crate::records::{AnswerRecord, CallRecord, PlaceRecord};
use crate::windows;
use congestion_windows::CongestionWindows;
use datagram::{Bytes, GREATEST_DATAGRAM};
use datatypes::WholeBuffer;
use engine::{Call, Engine, Mode, Place, Probe, Refusal, Reply, Request};
use outgoing_datagrams::{OutgoingRecord, Sending};
use round_trips::{Estimate, RoundTrips};
use std::alloc::{AllocError, Global};
use std::marker::Model;
use vocabulary::{BasicType, Endpoint, MessageLimit};

/// The greatest message limit, in bytes.
const GREATEST_LIMIT: u64 = 2_147_483_647;

/// The number of a message limit that no job has.
const NO_LIMIT: u8 = 84;

/// The number of a look at a request that there isn't.
const NO_SUCH_REQUEST: u8 = 6;

/// The kind of the answer that nothing is finished.
const PENDING: u32 = 3;

/// So many nanoseconds are a millisecond.
const MILLISECOND: u64 = 1_000_000;

/// The data of an answer: the first elements of a buffer.
#[derive(Drop)]
pub struct ReceivedData {
    /// These elements, as many as there are in the buffer.
    pub buffer: WholeBuffer,
    /// How many they are.
    pub count: u64,
}

/// One rank of a job.
#[derive(Drop)]
pub struct Rank {
    alloc: Global,
    engine: Engine,
    received: Option<ReceivedData>,
    sending: Sending,
    /// What is known of round trips.
    trips: RoundTrips,
    /// What is on its way to each rank, where that is bounded.
    windows: Option<CongestionWindows>,
    /// The millisecond that the engine was told last.
    told: u64,
}

impl Model for Rank {
    ghost use Rattle.c_rank.specs.State.{RankState};

    ghost Value = { RankState };

    ghost view = { λ r. record {
      engine = r.engine;
      received = r.received;
      sending = r.sending;
      trips = r.trips;
      windows = r.windows;
      told = r.told;
    } };
}

impl ReceivedData {
    /// Copies elements out, from one on, in the byte order of the machine: as many whole ones as are there and fit.
    /// Answers how many bytes it put.
    pub fn take(&self, first: u64, into: &mut [u8]) -> usize
        ensures { Takes self.now first into.old into.new result }
    {
        let basic = self.buffer.basic();
        let size = u64::from(basic.size());
        let bytes = self.buffer.as_bytes();
        let total = bytes.len().min(self.count.saturating_mul(size) as usize);
        let from = total.min(first.saturating_mul(size) as usize);
        let most = (total - from).min(into.len());
        turn_elements(basic, &bytes[from..from + most], into)
    }
}

/// The message limit of so many bytes, if a job may have it.
fn limit_of(bytes: u64) -> Option<MessageLimit>
    ensures some { IfSome result (λ limit. limit_of limit ≡ bytes) }
    ensures none { IfNone result (IsNoLimit bytes) }
{
    if bytes > GREATEST_LIMIT {
        return None;
    }
    MessageLimit::of_bytes(bytes as u32)
}

/// The limits that the numbers say, if a job may have them.
fn limits_of(told: &PlaceRecord) -> Option<MessageLimit>
    ensures some { IfSome result (AreLimits told.now) }
    ensures none { IfNone result (HasNoLimits told.now) }
{
    limit_of(told.message_limit)?.with_frame(told.frame_limit)
}

/// The place that the numbers say; 84 for limits that no job has.
fn place_of(told: &PlaceRecord) -> Result<Place, u8>
    ensures ok { IfOk result (λ p. (p ≡ place_said told.now p.message_limit) × AreLimits told.now p.message_limit) }
    ensures err { IfErr result (λ n. (n ≡ 84) × HasNoLimits told.now) }
{
    let Some(message_limit) = limits_of(told) else {
        return Err(NO_LIMIT);
    };
    Ok(Place {
        endpoint: Endpoint {
            rank: told.rank,
            incarnation: told.incarnation,
        },
        size: told.size,
        job: told.job,
        message_limit,
    })
}

/// What is known of round trips at the start of the rank at this place.
fn trips_of(alloc: Global, place: &PlaceRecord) -> Result<RoundTrips, AllocError>
    ensures { IfOk result (λ trips. trips ≡ trips_of place.now) }
{
    if place.is_near {
        RoundTrips::late(alloc, place.size)
    } else {
        RoundTrips::near(alloc, place.size)
    }
}

/// The number of how an event went: 0, or that of the refusal.
fn number_of(gone: Result<(), Refusal>) -> u8
    ensures { result ≡ number_of_result gone }
{
    match gone {
        Ok(()) => 0,
        Err(refused) => refused.number(),
    }
}

/// How many milliseconds frames to a rank of the job wait for their acknowledgements: without end where nothing may go
/// again.
fn wait_told(trips: &RoundTrips, rank: u16, may_repeat: bool) -> Option<u64>
    ensures { result ≡ option_map (wait_told may_repeat) (slice_get trips.now rank) }
{
    let wait = trips.wait_of(rank)?;
    if may_repeat {
        Some(wait)
    } else {
        Some(u64::MAX)
    }
}

/// The engine is told how long frames to the ranks of its job wait for their acknowledgements.
fn tell_waits(engine: &mut Engine, trips: &RoundTrips, may_repeat: bool)
    ensures { engine.new ≡ told_waits engine.old (waits_in may_repeat trips.now) }
{
    for rank in 0..engine.place().size {
        let Some(wait) = wait_told(trips, rank, may_repeat) else {
            return;
        };
        engine.set_wait(rank, wait);
    }
}

/// Drops the frames that may not go again now.
fn hold_back(trips: &RoundTrips, emitted: &mut Vec<(u16, Bytes)>)
    ensures { emitted.new.items ≡ going trips.now emitted.old.items }
{
    emitted.retain(|datagram| trips.may_go(datagram.1.as_slice()));
}

/// Drops what isn't to go of what the engine emitted: by itself, or since it was asked for what is deferred.
#[inline(always)]
fn sift(
    trips: &RoundTrips,
    windows: &mut Option<CongestionWindows>,
    is_asked: bool,
    emitted: &mut Vec<(u16, Bytes)>,
)
    ensures windows { windows.new ≡ windows_sifted is_asked trips.now windows.old emitted.old.items }
    ensures emitted { emitted.new.items ≡ sifted is_asked trips.now windows.old emitted.old.items }
{
    if is_asked {
        windows::admit_released(windows, emitted);
    } else {
        hold_back(trips, emitted);
        windows::admit(windows, emitted);
    }
}

/// These datagrams go out, at this time in microseconds.
fn note_all(trips: &mut RoundTrips, list: &[(u16, Bytes)], now: u64)
    ensures { trips.new ≡ after_all trips.old list.now now }
{
    for datagram in list {
        trips.on_sent(datagram.1.as_slice(), now);
    }
}

impl Rank {
    /// The rank at this place, at its start. Refused with 84 for a message limit that isn't from 1,048,576 to
    /// 2,147,483,647, and for a frame limit that isn't a multiple of 8 from 1,024 to 61,440, with 5 where the rank isn't below the size, with 13 where the size is above 1,024, and with 14.
    pub fn new(alloc: Global, place: &PlaceRecord) -> Result<Rank, u8>
        ensures opening { IfOk result (IsOpening place.now) }
        ensures refused { IfErr result (IsNoPlace place.now) }
    {
        let own = match place_of(place) {
            Ok(own) => own,
            Err(number) => return Err(number),
        };
        let engine = match Engine::new(alloc, own) {
            Ok(engine) => engine,
            Err(refused) => return Err(refused.number()),
        };
        let Ok(trips) = trips_of(alloc, place) else {
            return Err(Refusal::OutOfMemory.number());
        };
        match windows::opened(alloc, place) {
            Ok(windows) => Ok(Rank {
                alloc,
                engine,
                received: None,
                sending: Sending::new(alloc),
                trips,
                windows,
                told: 0,
            }),
            Err(_) => Err(Refusal::OutOfMemory.number()),
        }
    }

    /// What is told, whose data take the place of what was there.
    #[inline(always)]
    fn tell(&mut self, told: Told) -> AnswerRecord
        ensures tells { Tells self.old told result self.new }
        ensures engine { self.new.engine ≡ self.old.engine }
        ensures times { IsSameTime self.old self.new }
    {
        let Told { answer, received } = told;
        if let Some(received) = received {
            drop(self.received.replace(received));
        }
        answer
    }

    /// What is told of a reply, and of a message that a probe found by this type.
    // It stands apart from what most calls are answered with, since a function pays at its entry for the locals of all
    // its cases.
    #[inline(never)]
    fn tell_reply(&mut self, reply: Reply, basic: Option<BasicType>) -> AnswerRecord
        ensures tells { TellsReply self.old reply basic result self.new }
        ensures engine { self.new.engine ≡ self.old.engine }
        ensures times { IsSameTime self.old self.new }
    {
        match reply_told(self.alloc, reply, basic) {
            Ok(told) => self.tell(told),
            Err(number) => refusal(number),
        }
    }

    /// What is told of the reply to a call that finds no message by its type.
    #[inline(always)]
    fn tell_plain(&mut self, reply: Reply) -> AnswerRecord
        ensures tells { TellsReply self.old reply (type_out self.old.engine reply) result self.new }
        ensures engine { self.new.engine ≡ self.old.engine }
        ensures times { IsSameTime self.old self.new }
    {
        match reply {
            Reply::Started(request) => started_answer(request),
            Reply::Pending => answer_of_kind(PENDING),
            Reply::Done(answer) => self.tell(told_by_answer(answer)),
            other => {
                let basic = self.type_taken_out(&other);
                self.tell_reply(other, basic)
            }
        }
    }

    /// The basic type of the message that a matching probe took out, if it did.
    fn type_taken_out(&self, reply: &Reply) -> Option<BasicType>
        ensures { result ≡ type_out self.now.engine reply.now }
    {
        match reply {
            Reply::Matched(Some((Some(message), _))) => self.engine.type_of_message(*message),
            _ => None,
        }
    }

    /// The basic type of the message that such a probe finds, if it finds one.
    fn type_found(&self, probe: Probe) -> Option<BasicType>
        ensures { result ≡ type_probed self.now.engine probe }
    {
        self.engine.type_of_probed(probe)
    }

    /// The engine's answer to a call.
    #[inline(always)]
    fn answer(&mut self, call: Call) -> AnswerRecord
        ensures answers { AnswersMeant (meant.Call call) self.old result self.new }
        ensures times { IsSameTime self.old self.new }
    {
        let reply = self.engine.call(call);
        self.tell_plain(reply)
    }

    /// The engine's answer to a send.
    #[inline(never)]
    fn send(&mut self, mode: Mode, asked: &CallRecord, bytes: &[u8]) -> AnswerRecord
        ensures answers { AnswersOrLacks (send_meant mode asked.now bytes.now) self.old result self.new }
        ensures times { IsSameTime self.old self.new }
    {
        match elements_handed(self.alloc, asked.basic, bytes) {
            Ok(elements) => self.answer(send_of(mode, asked, elements)),
            Err(number) => refusal(number),
        }
    }

    /// The engine's answer to a receive.
    #[inline(never)]
    fn receive(&mut self, asked: &CallRecord) -> AnswerRecord
        ensures answers { AnswersOrLacks (receive_meant asked.now) self.old result self.new }
        ensures times { IsSameTime self.old self.new }
    {
        match room_asked(self.alloc, asked.basic, asked.count) {
            Ok(room) => self.answer(receive_of(asked, room)),
            Err(number) => refusal(number),
        }
    }

    /// The engine's answer to a test.
    #[inline(never)]
    fn test(&mut self, request: Option<Request>) -> AnswerRecord
        ensures answers { AnswersMeant (meant.Call (calls.Test request)) self.old result self.new }
        ensures times { IsSameTime self.old self.new }
    {
        self.answer(Call::Test(request))
    }

    /// The engine's answer to a probe.
    fn answer_probe(&mut self, probe: Probe) -> AnswerRecord
        ensures answers { AnswersMeant (meant.Probe probe) self.old result self.new }
        ensures times { IsSameTime self.old self.new }
    {
        let reply = self.engine.call(Call::Iprobe(probe));
        let basic = self.type_found(probe);
        self.tell_reply(reply, basic)
    }

    /// Whether a request is finished (1) or not (0).
    fn look(&self, request: Request) -> AnswerRecord
        ensures { result ≡ look_told (finished_at self.now.engine.core.slots request) }
    {
        match self.engine.is_finished(request) {
            Some(true) => fact_answer(1),
            Some(false) => fact_answer(0),
            None => refusal(NO_SUCH_REQUEST),
        }
    }

    /// The answer of the call that was blocked, if it is there.
    fn finish(&mut self) -> AnswerRecord
        ensures answers { AnswersMeant meant.Finish self.old result self.new }
        ensures times { IsSameTime self.old self.new }
    {
        match self.engine.take_completion() {
            Some(completion) => self.tell(told_by_completion(completion)),
            None => answer_of_kind(PENDING),
        }
    }

    /// The same of any call.
    // It stands apart, since a function pays at its entry for the locals of all its cases.
    #[inline(never)]
    fn call_meant(&mut self, asked: &CallRecord, bytes: &[u8]) -> AnswerRecord
        ensures answers { Answers self.old asked.now bytes.now result self.new }
        ensures times { IsSameTime self.old self.new }
    {
        match meaning_of(self.alloc, asked, bytes) {
            Ok(Meant::Call(call)) => self.answer(call),
            Ok(Meant::Probe(probe)) => self.answer_probe(probe),
            Ok(Meant::Look(request)) => self.look(request),
            Ok(Meant::Finish) => self.finish(),
            Err(number) => refusal(number),
        }
    }

    /// Answers the call that the numbers mean, and the data.
    pub fn call(&mut self, asked: &CallRecord, bytes: &[u8]) -> AnswerRecord
        ensures answers { Answers self.old asked.now bytes.now result self.new }
        ensures times { IsSameTime self.old self.new }
    {
        match CallKind::from_number(asked.kind) {
            Some(CallKind::Isend) => self.send(Mode::Standard, asked, bytes),
            Some(CallKind::Irecv) => self.receive(asked),
            Some(CallKind::Test) => self.test(request_named(asked.request)),
            _ => self.call_meant(asked, bytes),
        }
    }

    /// Copies data of the last answer out that brought any.
    pub fn take(&self, first: u64, into: &mut [u8]) -> usize
        ensures { TakesOf self.now.received first into.old into.new result }
    {
        match &self.received {
            Some(received) => received.take(first, into),
            None => 0,
        }
    }

    /// Takes a datagram in: 0, or the number of the refusal. One that the engine takes tells of round trips, and of what
    /// is on its way.
    pub fn on_datagram(&mut self, bytes: &[u8]) -> u8
        ensures takes { (gone : Result (Unit {0}) Refusal) ×
            (DatagramGives self.old.engine bytes.now gone self.new.engine × (result ≡ number_of_result gone)
            × (self.new.trips ≡ trips_behind gone self.old.trips bytes.now (self.old.sending.time / 1000))
            × (self.new.windows ≡ windows_behind gone self.old.windows bytes.now)) }
        ensures received { self.new.received ≡ self.old.received }
        ensures sending { self.new.sending ≡ self.old.sending }
        ensures told { self.new.told ≡ self.old.told }
    {
        let gone = self.engine.on_datagram(bytes);
        if gone.is_ok() {
            self.trips.on_came(bytes, self.sending.micros());
            windows::note_came(&mut self.windows, bytes);
        }
        number_of(gone)
    }

    /// Frames to a rank take as long as others learned that do with the same process.
    pub fn learn(&mut self, rank: u16, estimate: Estimate)
        ensures { Learns self.old rank estimate self.new }
    {
        self.trips.learn(rank, estimate);
    }

    /// The same of all ranks.
    pub fn learn_all(&mut self, estimate: Estimate)
        ensures { LearnsAll self.old estimate self.new }
    {
        self.trips.learn_all(estimate);
    }

    /// What was learned of the round trips to a rank, if there is one and something was.
    pub fn learned(&self, rank: u16) -> Option<Estimate>
        ensures { result ≡ learned self.now rank }
    {
        self.trips.estimate_of(rank)
    }

    /// Tells the engine how long frames wait, and the time.
    fn tell_time(&mut self, millisecond: u64, may_repeat: bool) -> u8
        ensures tells { TellsTime self.old millisecond may_repeat result self.new }
        ensures received { self.new.received ≡ self.old.received }
        ensures sending { self.new.sending ≡ self.old.sending }
        ensures trips { self.new.trips ≡ self.old.trips }
        ensures windows { self.new.windows ≡ self.old.windows }
    {
        tell_waits(&mut self.engine, &self.trips, may_repeat);
        match self.engine.tick(millisecond) {
            Ok(()) => {
                self.told = millisecond;
                0
            }
            Err(refused) => refused.number(),
        }
    }

    /// The clock says `now`, in nanoseconds. The engine is told it in milliseconds, each once, unless frames may go again
    /// by this tick: 0, or the number of its refusal (41 where the time is below what it was told, 14).
    pub fn tick(&mut self, now: u64, may_repeat: bool) -> u8
        ensures { Ticks self.old now may_repeat result self.new }
    {
        self.sending.tick(now);
        let millisecond = now / MILLISECOND;
        if millisecond == self.told && !may_repeat {
            return 0;
        }
        self.tell_time(millisecond, may_repeat)
    }

    /// What is to go of what the engine emitted waits from now on, in place of what waited. Round trips begin with it.
    fn take_emitted(&mut self, is_asked: bool)
        ensures { self.new ≡ after_taking is_asked self.old }
    {
        let mut emitted = self.engine.take_out();
        sift(&self.trips, &mut self.windows, is_asked, &mut emitted);
        note_all(&mut self.trips, &emitted, self.sending.micros());
        let former = self.sending.refill(emitted);
        self.engine.give_back(former);
    }

    /// Where all was handed out, what the engine emitted since waits from now on, but for frames that may not go again
    /// now, and for those that have no room in their windows.
    fn refill(&mut self)
        ensures pending { pending self.new ≡ pending self.old }
        ensures kept { self.new.sending.kept ≡ self.old.sending.kept }
        ensures sending { self.new.sending ≡ record self.old.sending { waiting = self.new.sending.waiting } }
        ensures empty { self.old.sending.waiting ≡ [] → self.new.engine.sessions.out ≡ [] }
        ensures rest { KeepsRest self.old self.new }
    {
        if self.sending.is_through() && !self.engine.is_through() {
            self.take_emitted(false);
        }
    }

    /// Hands out what goes next, but for what is kept back, where something may go.
    fn hand_pending(&mut self, most: u32, outgoing: &mut OutgoingRecord, into: &mut [u8]) -> usize
        requires { 40 ≤ length into.old }
        ensures went { HandsFirst self.old most result outgoing.new into.old into.new self.new }
        ensures stays { StaysSo self.old outgoing.new self.new }
    {
        self.refill();
        let len = self.sending.hand_out(most, outgoing, into);
        if outgoing.count > 0 || !self.sending.is_through() {
            return len;
        }
        self.refill();
        self.sending.hand_out(most, outgoing, into)
    }

    /// Hands out what goes next, but for what is kept back.
    fn hand_out(&mut self, most: u32, outgoing: &mut OutgoingRecord, into: &mut [u8]) -> usize
        requires { 40 ≤ length into.old }
        ensures went { HandsFirst self.old most result outgoing.new into.old into.new self.new }
        ensures stays { StaysSo self.old outgoing.new self.new }
    {
        // Mostly there is nothing, and to look is cheaper than to hand nothing out.
        if self.sending.is_through() && self.engine.is_through() {
            outgoing.count = 0;
            outgoing.each = 0;
            return 0;
        }
        self.hand_pending(most, outgoing, into)
    }

    /// Hands out what goes next, and what is kept back where nothing else goes.
    fn hand_out_all(
        &mut self,
        most: u32,
        kept_too: bool,
        outgoing: &mut OutgoingRecord,
        into: &mut [u8],
    ) -> usize
        requires { 40 ≤ length into.old }
        ensures went { HandsFirst self.old most result outgoing.new into.old into.new self.new }
        ensures all { outgoing.new.count ≡ 0 → kept_too ≡ true → self.new.sending.kept ≡ None }
        ensures back { KeepsBack self.old kept_too outgoing.new self.new }
    {
        let len = self.hand_out(most, outgoing, into);
        if outgoing.count > 0 {
            return len;
        }
        self.sending.hand_out_kept(kept_too, outgoing, into)
    }

    /// Whether acknowledgements made room for frames that are deferred, and all is handed out that was emitted.
    fn may_ask(&self) -> bool
        ensures { IsTrue result ↔ MayAsk self.now }
    {
        windows::asks(&self.windows) && self.sending.is_through() && self.engine.is_through()
    }

    /// The engine, which keeps each frame until it is acknowledged, emits those again for which there may be room.
    fn ask_engine(&mut self) -> Result<(), Refusal>
        ensures { AsksEngine self.old result self.new }
    {
        windows::ask(&mut self.engine, &self.windows);
        self.engine.tick(self.told)
    }

    /// Where acknowledgements made room for frames that are deferred, those wait from now on that have room.
    fn release(&mut self)
        ensures { Releases self.old self.new }
    {
        if !self.may_ask() {
            return;
        }
        match self.ask_engine() {
            Ok(()) => self.take_emitted(true),
            Err(_) => {}
        }
    }

    /// Hands out what goes next: at most `most` datagrams, or one, which stand one behind the other in the slice. Answers
    /// how many bytes they are. Nothing goes where the slice may be too short for a datagram of some job.
    pub fn next(
        &mut self,
        most: u32,
        kept_too: bool,
        outgoing: &mut OutgoingRecord,
        into: &mut [u8],
    ) -> usize
        ensures { HandsNext self.old most kept_too result outgoing.new into.old into.new self.new }
    {
        outgoing.count = 0;
        if into.len() < GREATEST_DATAGRAM {
            return 0;
        }
        self.release();
        let len = self.hand_out_all(most, kept_too, outgoing, into);
        outgoing.kept_until = self.sending.kept_until();
        len
    }

    /// Whether no frame of any session waits or is unacknowledged.
    pub fn is_idle(&self) -> bool
        ensures { IsTrue result ↔ All IsIdlePeer self.now.engine.sessions.peers }
    {
        self.engine.is_idle()
    }
}

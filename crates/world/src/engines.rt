//! What one event does to the engines of a world.

ghost use Rattle.std.specs.Prelude.{◌≡◌, ◌≤◌, ◌<◌, ◌*◌, length, option_map, Option, Some, None, IfOk, IfErr, OnErr};
ghost use Rattle.std.specs.Prelude.{IsTrue, map, slice_get, vec_len};
ghost use Rattle.point_to_point_calls.specs.declared.refusal.Refusal.TheVariants as lowers;
ghost use Rattle.engine_calls.specs.EngineState.{opening, trimmed};
ghost use Rattle.proof_network_bridge.specs.WorldViews.{limit_in, opening_engines};
ghost use Rattle.link_truth.specs.Wire.{at, in_job, place_of};
ghost use Rattle.vocabulary.specs.Limits.{most_ranks};
ghost use Rattle.world.specs.Faults.{target_of, bytes_fault, event_fault};
ghost use Rattle.world.specs.WorldState.{IsWorld, ArePlaced};
ghost use Rattle.world.specs.Steps.{RanAt, emitted, fault_by};
ghost use Rattle.world.specs.Strays.{stray_fault};
ghost use Rattle.world.specs.Views.{gave_of};

use crate::event::Event;
use crate::one_engine::{EngineEvent, EngineOutput, Rejected, ask, happen};
use crate::refusal::WorldRefusal;
use alike::Alike;
use byteorder::{BigEndian, ByteOrder};
use datagram::Bytes;
use engine::{Engine, Place};
use std::alloc::Global;
use vocabulary::{Endpoint, MessageLimit};

/// The job of a world.
const JOB: u64 = 1;

/// A datagram that was emitted, by its number.
pub fn datagram_at(datagrams: &[(u16, Bytes)], number: usize) -> Option<(u16, &[u8])>
    ensures { slice_get datagrams.now number ≡ option_map (λ d. (d.0, d.1.now)) result }
{
    let datagram = datagrams.get(number)?;
    Some((datagram.0, datagram.1.as_slice()))
}

/// The rank that an event comes to; none where no datagram has its number.
fn target_of(datagrams: &[(u16, Bytes)], event: &Event) -> Option<u16>
    ensures { result ≡ target_of datagrams.now event.now }
{
    match event {
        Event::Call(rank, _) => Some(*rank),
        Event::Deliver(number) => match datagrams.get(*number) {
            Some(datagram) => Some(datagram.0),
            None => None,
        },
        Event::Stray(rank, _) => Some(*rank),
        Event::Tick(rank, _) => Some(*rank),
        Event::Restart(rank) => Some(*rank),
    }
}

/// The limit of messages of the engines of a world, which all have one.
fn limit_in(engines: &[Engine]) -> MessageLimit
    ensures { result ≡ limit_in engines.now }
{
    match engines.first() {
        Some(engine) => engine.place().message_limit,
        None => MessageLimit::least(),
    }
}

/// Why stray bytes are refused.
fn fault_of_stray(bytes: &[u8], limit: MessageLimit) -> WorldRefusal
    ensures { result ≡ stray_fault limit bytes.now }
{
    if bytes.len() >= 24 && BigEndian::read_u64(&bytes[16..]) == JOB {
        return WorldRefusal::CarriesJob;
    }
    match datagram::read_within(bytes, limit) {
        Ok(_) => WorldRefusal::Engine(engine::Refusal::ForeignJob),
        Err(refused) => WorldRefusal::Engine(engine::Refusal::of_datagram(refused)),
    }
}

/// Why an event is refused at whatever rank it comes to: if it is one of stray bytes.
fn fault_of_bytes(event: &Event, limit: MessageLimit) -> Option<WorldRefusal>
    ensures { result ≡ bytes_fault limit event.now }
{
    match event {
        Event::Stray(_, bytes) => Some(fault_of_stray(bytes.as_slice(), limit)),
        Event::Call(_, _) => None,
        Event::Deliver(_) => None,
        Event::Tick(_, _) => None,
        Event::Restart(_) => None,
    }
}

/// The rank that an event comes to, or the first rule of a world of these ranks that it breaks. It takes no memory.
pub fn judge(
    engines: &[Engine],
    datagrams: &[(u16, Bytes)],
    event: &Event,
) -> Result<u16, WorldRefusal>
    ensures allowed { IfOk result (λ rank.
        event_fault (length engines.now) (limit_in engines.now) datagrams.now event.now ≡ None) }
    ensures target { IfOk result (λ rank. target_of datagrams.now event.now ≡ Some rank) }
    ensures there { IfOk result (λ rank. rank < length engines.now) }
    ensures fault { IfErr result (λ fault.
        event_fault (length engines.now) (limit_in engines.now) datagrams.now event.now ≡ Some fault) }
{
    let Some(rank) = target_of(datagrams, event) else {
        return Err(WorldRefusal::NoSuchDatagram);
    };
    if rank as usize >= engines.len() {
        return Err(WorldRefusal::NoSuchRank);
    }
    match fault_of_bytes(event, limit_in(engines)) {
        Some(fault) => Err(fault),
        None => Ok(rank),
    }
}

/// The rule or limit by which the engine of a rank refuses a call or a restart, whatever memory there is; of other
/// events it isn't asked. The event comes back as it was. It takes no memory.
pub fn ask_at(engines: &[Engine], rank: u16, event: Event) -> EngineEvent
    ensures fault { result.fault ≡ fault_by (slice_get engines.now rank) event }
    ensures event { result.event ≡ event }
{
    match engines.get(rank as usize) {
        Some(engine) => ask(engine, event),
        None => EngineEvent { fault: None, event },
    }
}

/// One event at the rank that it comes to, whose engine alone goes on.
pub fn run_event(
    alloc: Global,
    engines: &mut Vec<Engine>,
    datagrams: &[(u16, Bytes)],
    rank: u16,
    event: Event,
) -> Result<EngineOutput, Rejected>
    requires there { rank < vec_len engines.old }
    requires target { target_of datagrams.now event ≡ Some rank }
    requires world { IsWorld engines.old.items }
    requires placed { ArePlaced engines.old.items }
    ensures exact { RanAt datagrams.now event engines.old.items (gave_of result) engines.new.items }
    ensures few { length (emitted (gave_of result)) ≤ 65 * vec_len engines.old }
    ensures world { IsWorld engines.new.items }
    ensures unchanged { OnErr result (engines.new.items ≡ engines.old.items) }
{
    let engine = &mut engines[rank as usize];
    happen(alloc, engine, datagrams, event)
}

/// The engine of a rank among so many, at its first incarnation.
fn new_engine(
    alloc: Global,
    rank: u16,
    size: u16,
    limit: MessageLimit,
) -> Result<Engine, WorldRefusal>
    requires there { rank < size }
    requires few { size ≤ most_ranks }
    ensures ok { IfOk result (λ engine. engine ≡ opening (in_job limit (place_of size (at rank 0)))) }
    ensures err { IfErr result (λ e. e ≡ WorldRefusal.Engine lowers.OutOfMemory) }
{
    let endpoint = Endpoint {
        rank,
        incarnation: 0,
    };
    let place = Place {
        endpoint,
        size,
        job: JOB,
        message_limit: limit,
    };
    match Engine::new(alloc, place) {
        Ok(engine) => Ok(engine),
        Err(refused) => Err(WorldRefusal::Engine(refused)),
    }
}

/// The engines of a world of `size` ranks with this limit of messages.
#[tactic(auto, using(crate::proofs::Openings::opening_more))]
pub fn new_engines(
    alloc: Global,
    size: u16,
    limit: MessageLimit,
) -> Result<Vec<Engine>, WorldRefusal>
    requires { size ≤ most_ranks }
    ensures ok { IfOk result (λ engines. engines.items ≡ opening_engines limit size 0 size) }
    ensures err { IfErr result (λ e. e ≡ WorldRefusal.Engine lowers.OutOfMemory) }
{
    let mut engines = Vec::new(alloc);
    for rank in 0..size {
        engines.push(new_engine(alloc, rank, size, limit)?)?;
    }
    Ok(engines)
}

/// Whether there are as many engines here as there, which stand alike one by one.
pub fn engines_are_alike(these: &[Engine], those: &[Engine]) -> bool
    ensures { IsTrue result → map trimmed these.now ≡ map trimmed those.now }
{
    let [this, rest @ ..] = these else {
        return those.is_empty();
    };
    let [that, others @ ..] = those else {
        return false;
    };
    this.stands_as(that) && engines_are_alike(rest, others)
}

/// Whether the datagram of a number here goes to the same rank, with the same bytes, as that of the other number does
/// there; or neither is there.
pub fn datagrams_are_alike(
    these: &[(u16, Bytes)],
    number: usize,
    those: &[(u16, Bytes)],
    other_number: usize,
) -> bool
    ensures { IsTrue result → slice_get these.now number ≡ slice_get those.now other_number }
{
    match (these.get(number), those.get(other_number)) {
        (Some(this), Some(that)) => this.stands_as(that),
        (None, None) => true,
        _ => false,
    }
}

//! What one event does to one engine.

ghost use Rattle.std.specs.Prelude.{◌≡◌, ◌≤◌, ◌+◌, ◌*◌, [], length, is_some, IsTrue};
ghost use Rattle.engine_calls.specs.EngineState.{completion_of, emptied};
ghost use Rattle.engine_calls.specs.Faults.{fault_of};
ghost use Rattle.world.specs.Faults.{target_of};
ghost use Rattle.world.specs.WorldState.{IsReady};
ghost use Rattle.world.specs.Steps.{CallRuns, DatagramRuns, TickRuns, RestartRuns, EventRuns, asked_fault, emitted};
ghost use Rattle.world.specs.Steps.{restart_fault};
ghost use Rattle.world.specs.Views.{gave_of, refusal_of};

use crate::event::Event;
use datagram::Bytes;
use engine::{Call, Completion, Engine, Place, Reply};
use incarnation::next_incarnation;
use std::alloc::Global;
use vocabulary::{Endpoint, replace};

/// What the engine of an endpoint gave in an event.
#[derive(Drop)]
pub struct EngineOutput {
    /// The endpoint that the engine was before the event.
    pub endpoint: Endpoint,
    /// The datagrams that it emitted, with the rank that each goes to.
    pub out: Vec<(u16, Bytes)>,
    /// What the call answered, if the event was one.
    pub reply: Option<Reply>,
    /// The answer of a blocked call that was ready now, if one was.
    pub completion: Option<Completion>,
}

/// An event that an engine was asked for.
#[derive(Drop)]
pub struct EngineEvent {
    /// The rule or limit by which the engine refuses it, if there is one.
    pub fault: Option<engine::Refusal>,
    /// The event, as it was handed in.
    pub event: Event,
}

/// Why an engine refused an event, and what it gave all the same.
#[derive(Drop)]
pub struct Rejected {
    /// Why it refused.
    pub refused: engine::Refusal,
    /// The datagrams that it emitted: none, or a reset.
    pub out: Vec<(u16, Bytes)>,
}

/// That there is no incarnation after this one, if there is none.
fn fault_of_restart(place: Place) -> Option<engine::Refusal>
    ensures { result ≡ restart_fault place }
{
    match next_incarnation(place.endpoint.incarnation) {
        Ok(_) => None,
        Err(_) => Some(engine::Refusal::Limit),
    }
}

/// A call that its engine was asked for.
fn ask_call(engine: &Engine, rank: u16, call: Call) -> EngineEvent
    ensures fault { result.fault ≡ fault_of engine.now call }
    ensures event { result.event ≡ Event.Call rank call }
{
    let judged = engine.judge(call);
    EngineEvent {
        fault: judged.fault,
        event: Event::Call(rank, judged.call),
    }
}

/// The rule or limit by which an engine refuses a call or a restart, whatever memory there is; of other events it isn't
/// asked.
/// The event comes back as it was. It takes no memory.
pub fn ask(engine: &Engine, event: Event) -> EngineEvent
    ensures fault { result.fault ≡ asked_fault engine.now event }
    ensures event { result.event ≡ event }
{
    match event {
        Event::Call(rank, call) => ask_call(engine, rank, call),
        Event::Restart(rank) => EngineEvent {
            fault: fault_of_restart(engine.place()),
            event: Event::Restart(rank),
        },
        event => EngineEvent { fault: None, event },
    }
}

/// A refusal with which nothing goes out.
fn plain(alloc: Global, refused: engine::Refusal) -> Rejected
    ensures refused { result.refused ≡ refused }
    ensures out { result.out.items ≡ [] }
{
    Rejected {
        refused,
        out: Vec::new(alloc),
    }
}

/// Takes out of an engine what it gave.
fn take_given(engine: &mut Engine, reply: Option<Reply>) -> EngineOutput
    ensures endpoint { result.endpoint ≡ engine.old.sessions.place.endpoint }
    ensures out { result.out.items ≡ engine.old.sessions.out }
    ensures reply { result.reply ≡ reply }
    ensures completion { result.completion ≡ completion_of engine.old }
    ensures state { engine.new ≡ emptied engine.old }
{
    let endpoint = engine.place().endpoint;
    let out = engine.take_out();
    let completion = engine.take_completion();
    EngineOutput {
        endpoint,
        out,
        reply,
        completion,
    }
}

/// Why a call was refused, if it was.
fn refusal_of(reply: &Reply) -> Option<engine::Refusal>
    ensures { result ≡ refusal_of reply.now }
{
    match reply {
        Reply::Refused(refused, _) => Some(*refused),
        Reply::Started(_) => None,
        Reply::Done(_) => None,
        Reply::Pending => None,
        Reply::Accepted => None,
        Reply::Blocked => None,
        Reply::Left(_) => None,
        Reply::Fact(_) => None,
        Reply::Probed(_) => None,
        Reply::Matched(_) => None,
    }
}

/// The engine is called.
pub fn call(alloc: Global, engine: &mut Engine, call: Call) -> Result<EngineOutput, Rejected>
    requires { IsReady engine.old }
    ensures exact { CallRuns engine.old call (gave_of result) engine.new }
    ensures few { length (emitted (gave_of result)) ≤ 65 * engine.old.sessions.place.size }
    ensures ready { IsReady engine.new }
    ensures size { engine.new.sessions.place.size ≡ engine.old.sessions.place.size }
{
    let reply = engine.call(call);
    match refusal_of(&reply) {
        Some(refused) => {
            drop(reply);
            Err(plain(alloc, refused))
        }
        None => Ok(take_given(engine, Some(reply))),
    }
}

/// Bytes come to the engine. What it emits goes out, though it refuses them.
pub fn deliver(engine: &mut Engine, bytes: &[u8]) -> Result<EngineOutput, Rejected>
    requires { IsReady engine.old }
    ensures exact { DatagramRuns engine.old bytes.now (gave_of result) engine.new }
    ensures few { length (emitted (gave_of result)) ≤ 65 * engine.old.sessions.place.size }
    ensures ready { IsReady engine.new }
    ensures size { engine.new.sessions.place.size ≡ engine.old.sessions.place.size }
{
    match engine.on_datagram(bytes) {
        Ok(()) => Ok(take_given(engine, None)),
        Err(refused) => Err(Rejected {
            refused,
            out: engine.take_out(),
        }),
    }
}

/// The engine's clock ticks.
fn tick(alloc: Global, engine: &mut Engine, now: u64) -> Result<EngineOutput, Rejected>
    requires { IsReady engine.old }
    ensures exact { TickRuns engine.old now (gave_of result) engine.new }
    ensures few { length (emitted (gave_of result)) ≤ 65 * engine.old.sessions.place.size }
    ensures ready { IsReady engine.new }
    ensures size { engine.new.sessions.place.size ≡ engine.old.sessions.place.size }
{
    match engine.tick(now) {
        Ok(()) => Ok(take_given(engine, None)),
        Err(refused) => Err(plain(alloc, refused)),
    }
}

/// The engine gives way to a new one, at the next incarnation.
fn restart(alloc: Global, engine: &mut Engine) -> Result<EngineOutput, Rejected>
    requires { IsReady engine.old }
    ensures exact { RestartRuns engine.old (gave_of result) engine.new }
    ensures few { length (emitted (gave_of result)) ≤ 65 * engine.old.sessions.place.size }
    ensures ready { IsReady engine.new }
    ensures size { engine.new.sessions.place.size ≡ engine.old.sessions.place.size }
{
    let former = engine.place();
    let Ok(incarnation) = next_incarnation(former.endpoint.incarnation) else {
        return Err(plain(alloc, engine::Refusal::Limit));
    };
    let place = Place {
        endpoint: Endpoint {
            rank: former.endpoint.rank,
            incarnation,
        },
        size: former.size,
        job: former.job,
        message_limit: former.message_limit,
    };
    match Engine::new(alloc, place) {
        Ok(next) => {
            replace(engine, next);
            Ok(EngineOutput {
                endpoint: former.endpoint,
                out: Vec::new(alloc),
                reply: None,
                completion: None,
            })
        }
        Err(refused) => Err(plain(alloc, refused)),
    }
}

/// One event at the engine of the rank that it comes to.
pub fn happen(
    alloc: Global,
    engine: &mut Engine,
    datagrams: &[(u16, Bytes)],
    event: Event,
) -> Result<EngineOutput, Rejected>
    requires ready { IsReady engine.old }
    requires target { IsTrue (is_some (target_of datagrams.now event)) }
    ensures exact { EventRuns datagrams.now event engine.old (gave_of result) engine.new }
    ensures few { length (emitted (gave_of result)) ≤ 65 * engine.old.sessions.place.size }
    ensures ready { IsReady engine.new }
    ensures size { engine.new.sessions.place.size ≡ engine.old.sessions.place.size }
{
    match event {
        Event::Call(_, asked) => call(alloc, engine, asked),
        Event::Deliver(number) => deliver(engine, datagrams[number].1.as_slice()),
        Event::Stray(_, bytes) => deliver(engine, bytes.as_slice()),
        Event::Tick(_, now) => tick(alloc, engine, now),
        Event::Restart(_) => restart(alloc, engine),
    }
}

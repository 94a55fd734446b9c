//! A world as it runs, of which nothing past is kept.

ghost use Rattle.std.specs.Prelude.{◌≡◌, ◌≤◌, ◌<◌, ◌+◌, ◌*◌, ◌∷◌, ◌++◌, ◌⊎◌, ◌↔◌, [], Err, IfErr, IfOk, IsFalse, IsTrue, OnErr};
ghost use Rattle.std.specs.Prelude.{length, None, option_map, slice_get, vec_len};
ghost use Rattle.std.specs.VecDeque.{deque_capacity, deque_len};
ghost use Rattle.link_truth.specs.Quiet.{AreQuiet};
ghost use Rattle.observation.specs.Sessions.{sessions_in};
ghost use Rattle.point_to_point_calls.specs.declared.refusal.Refusal.TheVariants as lowers;
ghost use Rattle.world.specs.RunningSteps.{CallGoesOn, CallRunsOn, GoesOnByCall, GoesOnByNext, HasComeBy, NextComes};
ghost use Rattle.world.specs.RunningSteps.{NextGoesOn, opening_running};
ghost use Rattle.world.specs.Steps.{RanAt, emitted};
ghost use Rattle.world.specs.Views.{gave_of};
ghost use Rattle.world.specs.WorldState.{ArePlaced, IsWorld, is_outside};

use crate::answered::{Answered, Came};
use crate::engines::new_engines;
use crate::event::Event;
use crate::one_engine::{EngineOutput, Rejected, call, deliver};
use crate::quiet::are_quiet;
use crate::refusal::{OUT_OF_MEMORY, WorldRefusal};
use datagram::Bytes;
use engine::{Call, Engine, MOST_RANKS};
use std::alloc::Global;
use std::collections::VecDeque;
use std::marker::Model;
use vocabulary::MessageLimit;

/// Ranks that share nothing but datagrams, of which each comes once, in the order in which they were sent.
///
/// What is past is kept by nobody: such a world takes the memory of its engines and of what is on its way, however much
/// was sent. It does what a [`World`](crate::World) does, whose history it would be.
pub struct RunningWorld {
    alloc: Global,
    engines: Vec<Engine>,
    /// What is on its way, the oldest first.
    waiting: VecDeque<(u16, Bytes)>,
}

/// A drop of its own is proved here alone, and not in each crate that owns such a world.
impl Drop for RunningWorld {
    fn drop(self) {
        let RunningWorld {
            alloc: _,
            engines: _engines,
            waiting: _waiting,
        } = self;
    }
}

impl Model for RunningWorld {
    ghost use Rattle.world.specs.RunningSteps.{HasPast, RunningState};

    ghost Value = { RunningState };

    ghost view = { λ w. record { engines = w.engines.items; waiting = w.waiting.items } };

    ghost invariant = { λ w. HasPast (record { engines = w.engines.items; waiting = w.waiting.items }) };
}

/// Makes the room that an event may take, 65 datagrams for each rank, and tells whether it could.
fn make_room(waiting: &mut VecDeque<(u16, Bytes)>, size: usize) -> bool
    requires { size ≤ 1024 }
    ensures items { waiting.new.items ≡ waiting.old.items }
    ensures len { deque_len waiting.new ≡ deque_len waiting.old }
    ensures room { IsTrue result → deque_len waiting.new + 65 * size ≤ deque_capacity waiting.new }
{
    waiting.reserve(65 * size).is_ok()
}

/// What an engine emitted is on its way behind all else.
fn send(waiting: &mut VecDeque<(u16, Bytes)>, out: Vec<(u16, Bytes)>)
    requires { deque_len waiting.old + vec_len out ≤ deque_capacity waiting.old }
    ensures { waiting.new.items ≡ waiting.old.items ++ out.items }
{
    waiting.append(&mut VecDeque::from_vec(out)).unwrap();
}

/// A call at the engine of a rank.
fn call_at(
    alloc: Global,
    engines: &mut Vec<Engine>,
    rank: u16,
    asked: Call,
) -> Result<EngineOutput, Rejected>
    requires there { rank < vec_len engines.old }
    requires world { IsWorld engines.old.items }
    requires placed { ArePlaced engines.old.items }
    ensures exact { RanAt [] (Event.Call rank asked) engines.old.items (gave_of result) engines.new.items }
    ensures few { length (emitted (gave_of result)) ≤ 65 * vec_len engines.old }
    ensures world { IsWorld engines.new.items }
    ensures unchanged { OnErr result (engines.new.items ≡ engines.old.items) }
{
    let engine = &mut engines[rank as usize];
    call(alloc, engine, asked)
}

/// These bytes come to the engine of a rank.
fn hear_at(engines: &mut Vec<Engine>, rank: u16, bytes: &[u8]) -> Result<EngineOutput, Rejected>
    requires there { rank < vec_len engines.old }
    requires world { IsWorld engines.old.items }
    requires placed { ArePlaced engines.old.items }
    ensures exact { RanAt ((rank, bytes.now) ∷ []) (Event.Deliver 0) engines.old.items (gave_of result) engines.new.items }
    ensures few { length (emitted (gave_of result)) ≤ 65 * vec_len engines.old }
    ensures world { IsWorld engines.new.items }
    ensures unchanged { OnErr result (engines.new.items ≡ engines.old.items) }
{
    let engine = &mut engines[rank as usize];
    deliver(engine, bytes)
}

/// A call at the engine of a rank, if there is such a rank and room for what that emits, which then is on its way.
fn call_on(
    alloc: Global,
    engines: &mut Vec<Engine>,
    waiting: &mut VecDeque<(u16, Bytes)>,
    rank: u16,
    asked: Call,
) -> Result<Answered, WorldRefusal>
    requires world { IsWorld engines.old.items }
    requires placed { ArePlaced engines.old.items }
    ensures exact { CallRunsOn (record { engines = engines.old.items; waiting = waiting.old.items }) rank asked result
        (record { engines = engines.new.items; waiting = waiting.new.items }) }
    ensures world { IsWorld engines.new.items }
{
    if rank as usize >= engines.len() {
        return Err(WorldRefusal::NoSuchRank);
    }
    if !make_room(waiting, engines.len()) {
        return Err(OUT_OF_MEMORY);
    }
    match call_at(alloc, engines, rank, asked) {
        Ok(given) => {
            let EngineOutput {
                endpoint: _,
                out,
                reply,
                completion,
            } = given;
            send(waiting, out);
            Ok(Answered { reply, completion })
        }
        Err(rejected) => Err(WorldRefusal::Engine(rejected.refused)),
    }
}

/// A datagram that an engine took. What it emitted is on its way.
fn taken(waiting: &mut VecDeque<(u16, Bytes)>, rank: u16, given: EngineOutput) -> Came
    requires { deque_len waiting.old + vec_len given.out ≤ deque_capacity waiting.old }
    ensures rank { result.rank ≡ rank }
    ensures completion { result.completion ≡ given.completion }
    ensures waiting { waiting.new.items ≡ waiting.old.items ++ given.out.items }
{
    let EngineOutput {
        endpoint: _,
        out,
        reply: _reply,
        completion,
    } = given;
    send(waiting, out);
    Came { rank, completion }
}

/// A datagram that an engine refused. What it emitted is on its way.
fn turned_away(waiting: &mut VecDeque<(u16, Bytes)>, rank: u16, rejected: Rejected) -> Came
    requires { deque_len waiting.old + vec_len rejected.out ≤ deque_capacity waiting.old }
    ensures rank { result.rank ≡ rank }
    ensures completion { result.completion ≡ None }
    ensures waiting { waiting.new.items ≡ waiting.old.items ++ rejected.out.items }
{
    let Rejected { refused: _, out } = rejected;
    send(waiting, out);
    Came {
        rank,
        completion: None,
    }
}

/// Whether memory was wanting.
fn was_memory_wanting(rejected: &Rejected) -> bool
    ensures { IsFalse result → rejected.now.refused ≡ lowers.OutOfMemory → ⊥ }
{
    matches!(rejected.refused, engine::Refusal::OutOfMemory)
}

/// The oldest datagram comes to its rank, if there is one, such a rank, and room for what its engine emits.
fn next_comes(
    engines: &mut Vec<Engine>,
    waiting: &mut VecDeque<(u16, Bytes)>,
) -> Result<Option<Came>, WorldRefusal>
    requires world { IsWorld engines.old.items }
    requires placed { ArePlaced engines.old.items }
    ensures exact { NextComes (record { engines = engines.old.items; waiting = waiting.old.items }) result
        (record { engines = engines.new.items; waiting = waiting.new.items }) }
    ensures world { IsWorld engines.new.items }
{
    if waiting.is_empty() {
        return Ok(None);
    }
    if !make_room(waiting, engines.len()) {
        return Err(OUT_OF_MEMORY);
    }
    let Some((rank, bytes)) = waiting.pop_front() else {
        return Ok(None);
    };
    if rank as usize >= engines.len() {
        // There is room.
        waiting.push_front((rank, bytes)).unwrap();
        return Err(WorldRefusal::NoSuchRank);
    }
    match hear_at(engines, rank, bytes.as_slice()) {
        Ok(given) => Ok(Some(taken(waiting, rank, given))),
        Err(rejected) => {
            if was_memory_wanting(&rejected) {
                // There is room.
                waiting.push_front((rank, bytes)).unwrap();
                return Err(OUT_OF_MEMORY);
            }
            Ok(Some(turned_away(waiting, rank, rejected)))
        }
    }
}

impl RunningWorld {
    /// So many ranks, 1 to 1,024, to which nothing happened yet, and whose messages have this limit.
    ///
    /// Refused with 13 for another number, and with 14. The run of the machine that they have come by is that of no
    /// event.
    pub fn with_limit(
        alloc: Global,
        size: u16,
        limit: MessageLimit,
    ) -> Result<RunningWorld, WorldRefusal>
        ensures opening { IfOk result (λ w. w ≡ opening_running limit size) }
        ensures run { IfOk result (λ w. HasComeBy w []) }
        ensures limit { (result ≡ Err (WorldRefusal.Engine lowers.Limit)) ↔ IsTrue (is_outside size) }
        ensures refused { IfErr result (λ e. (e ≡ WorldRefusal.Engine lowers.Limit) ⊎
            (e ≡ WorldRefusal.Engine lowers.OutOfMemory)) }
    {
        if size == 0 || size > MOST_RANKS {
            return Err(WorldRefusal::Engine(engine::Refusal::Limit));
        }
        let engines = new_engines(alloc, size, limit)?;
        Ok(RunningWorld {
            alloc,
            engines,
            waiting: VecDeque::new(alloc),
        })
    }

    /// How many ranks there are.
    pub fn size(&self) -> usize
        ensures { result ≡ length self.now.engines }
    {
        self.engines.len()
    }

    /// The engine of a rank, to be looked at; none where there is no such rank. It takes no memory.
    pub fn engine(&self, rank: u16) -> Option<&Engine>
        ensures { slice_get self.now.engines rank ≡ option_map (λ e. e.now) result }
    {
        self.engines.get(rank as usize)
    }

    /// Whether, of any two ranks that know each other at their present incarnations, no session with the other holds a
    /// frame that waits or is unacknowledged: see [`World::is_quiet`](crate::World::is_quiet). It takes no memory.
    pub fn is_quiet(&self) -> bool
        ensures { IsTrue result ↔ AreQuiet (sessions_in self.now.engines) }
    {
        are_quiet(&self.engines)
    }

    /// A rank is called. What its engine emits is on its way behind all else.
    ///
    /// Refused with 61 (no such rank), by the rule or limit by which the rank's engine refuses the call, or with 14
    /// (want of memory, also for room for what the engine may emit); a refusal changes nothing. Whatever past the world
    /// had, a call that is taken is one step of it, this call at this rank, and goes on from its run of the machine of
    /// queues and groups by one event of this call (`past`, `event_by_event`).
    pub fn call(&mut self, rank: u16, call: Call) -> Result<Answered, WorldRefusal>
        ensures exact { CallRunsOn self.old rank call result self.new }
        ensures past { CallGoesOn self.old rank call result self.new }
        ensures event_by_event { GoesOnByCall self.old call result self.new }
    {
        call_on(self.alloc, &mut self.engines, &mut self.waiting, rank, call)
    }

    /// The oldest datagram that is on its way comes to its rank, whose engine takes it or refuses it; none where nothing
    /// is on its way.
    ///
    /// Refused with 14 for want of memory, and with 61 where it is for a rank that there isn't; then it is on its way
    /// still, and nothing changes. Whatever past the world had, this is one step of it, the first delivery of this
    /// datagram, in which nobody calls (`past`, `event_by_event`).
    pub fn deliver_next(&mut self) -> Result<Option<Came>, WorldRefusal>
        ensures exact { NextComes self.old result self.new }
        ensures past { NextGoesOn self.old result self.new }
        ensures event_by_event { GoesOnByNext self.old result self.new }
    {
        next_comes(&mut self.engines, &mut self.waiting)
    }
}

//! The world.

ghost use Rattle.std.specs.Prelude.{◌≡◌, ◌≤◌, ◌+◌, ◌*◌, [], ◌∷◌, ◌++◌, length, Option, option_map, IfOk, IfErr, IsTrue};
ghost use Rattle.std.specs.Prelude.{slice_get, Err, vec_len, vec_capacity, ◌↔◌, ◌⊎◌};
ghost use Rattle.std.specs.Prelude.{map};
ghost use Rattle.engine_calls.specs.EngineState.{trimmed};
ghost use Rattle.point_to_point_calls.specs.declared.refusal.Refusal.TheVariants as lowers;
ghost use Rattle.link_truth.specs.Quiet.{AreQuiet};
ghost use Rattle.observation.specs.Sessions.{sessions_in};
ghost use Rattle.vocabulary.specs.Limits.{most_ranks};
ghost use Rattle.world.specs.WorldState.{is_outside, opening_world, opening_world_of};
ghost use Rattle.world.specs.Headline.{IsRunOfMachine, IsSound, NothingIsHeld, SessionsAreInOrder, SessionsAreTrue};
ghost use Rattle.world.specs.EventByEvent.{GoesAllTheWay, GoesOn, GoesOnFrom, HasRun, HasSomeRun, SharesGroupsOnwards};
ghost use Rattle.world.specs.Steps.{StepGives, RunGives, IsNotRun, entry_of, first_of};
ghost use Rattle.world.specs.Views.{gave_in};

use crate::engines::{
    ask_at, datagram_at, datagrams_are_alike, engines_are_alike, judge, new_engines, run_event,
};
use crate::event::{Event, Failed, FailedRun, HistoryEntry, StepResult, Stepped};
use crate::one_engine::{EngineEvent, EngineOutput, Rejected};
use crate::quiet::are_quiet;
use crate::refusal::{OUT_OF_MEMORY, WorldRefusal};
use datagram::Bytes;
use engine::{Engine, MOST_RANKS};
use std::alloc::Global;
use std::marker::Model;
use vocabulary::{Endpoint, MessageLimit};

/// Ranks that share nothing but datagrams, and everything that happened to them.
///
/// ```text
///  Call, Deliver, Stray, Tick, Restart ── step ─► Ok: one entry more in the history, what went out with its numbers
///                                             └─► Err: the world as it was, but for a reset that goes out
///  every datagram stays for ever: it may be delivered late, twice, or never
/// ```
pub struct World {
    alloc: Global,
    engines: Vec<Engine>,
    datagrams: Vec<(u16, Bytes)>,
    history: Vec<HistoryEntry>,
}

/// A drop of its own is proved here alone, and not in each crate that owns a world.
impl Drop for World {
    fn drop(self) {
        let World {
            alloc: _,
            engines: _engines,
            datagrams: _datagrams,
            history: _history,
        } = self;
    }
}

impl Model for World {
    ghost use Rattle.std.specs.Prelude.{vec_capacity};
    ghost use Rattle.world.specs.WorldState.{WorldState};
    ghost use Rattle.world.specs.Headline.{IsSound};

    ghost Value = { WorldState };

    ghost view = { λ w. record {
      engines = w.engines.items;
      datagrams = w.datagrams.items;
      history =
          w.history.items;
      datagram_room = vec_capacity w.datagrams;
      entry_room = vec_capacity w.history;
    } };

    ghost invariant = { λ w. IsSound w.engines.items w.datagrams.items w.history.items };
}

/// Makes the room that an event may take, 65 datagrams for each rank and an entry, and tells whether it could.
fn make_room(
    datagrams: &mut Vec<(u16, Bytes)>,
    history: &mut Vec<HistoryEntry>,
    size: usize,
) -> bool
    requires { size ≤ most_ranks }
    ensures datagrams { datagrams.new.items ≡ datagrams.old.items }
    ensures history { history.new.items ≡ history.old.items }
    ensures room { IsTrue result → vec_len datagrams.new + 65 * size ≤ vec_capacity datagrams.new }
    ensures place { IsTrue result → vec_len history.new + 1 ≤ vec_capacity history.new }
    ensures enough { vec_len datagrams.old + 65 * size ≤ vec_capacity datagrams.old →
        vec_len history.old + 1 ≤ vec_capacity history.old → IsTrue result }
{
    datagrams.reserve(65 * size).is_ok() && history.reserve(1).is_ok()
}

/// What was refused stands for nothing but the datagrams that went out with it, which are numbered.
fn refuse(datagrams: &mut Vec<(u16, Bytes)>, mut rejected: Rejected, event: Event) -> Failed
    requires { vec_len datagrams.old + vec_len rejected.out ≤ vec_capacity datagrams.old }
    ensures numbered { datagrams.new.items ≡ datagrams.old.items ++ rejected.out.items }
    ensures refused { result.refused ≡ WorldRefusal.Engine rejected.refused }
    ensures event { result.event ≡ event }
    ensures reset { result.reset ≡ first_of (vec_len datagrams.old) rejected.out.items }
{
    let reset = if rejected.out.is_empty() {
        None
    } else {
        Some(datagrams.len())
    };
    // There is room.
    datagrams.append(&mut rejected.out).unwrap();
    Failed {
        refused: WorldRefusal::Engine(rejected.refused),
        event,
        reset,
    }
}

/// What an engine gave is numbered, and what it answered stands in the history.
fn note(
    datagrams: &mut Vec<(u16, Bytes)>,
    history: &mut Vec<HistoryEntry>,
    event: Event,
    mut given: EngineOutput,
) -> Stepped
    requires datagrams { vec_len datagrams.old + vec_len given.out ≤ vec_capacity datagrams.old }
    requires history { vec_len history.old + 1 ≤ vec_capacity history.old }
    ensures numbered { datagrams.new.items ≡ datagrams.old.items ++ given.out.items }
    ensures entered { history.new.items ≡ history.old.items ++ entry_of event (gave_in given) ∷ [] }
    ensures answered { result ≡ record {
      first = vec_len datagrams.old;
      count = vec_len given.out;
      place = vec_len history.old;
    } }
{
    let first = datagrams.len();
    let count = given.out.len();
    let place = history.len();
    // There is room for both.
    datagrams.append(&mut given.out).unwrap();
    let entry = HistoryEntry {
        endpoint: given.endpoint,
        event,
        reply: given.reply,
        completion: given.completion,
    };
    history.push(entry).unwrap();
    Stepped {
        first,
        count,
        place,
    }
}

/// A refusal with which nothing goes out.
fn plain(refused: WorldRefusal, event: Event) -> Failed
    ensures refused { result.refused ≡ refused }
    ensures event { result.event ≡ event }
    ensures reset { result.reset ≡ None }
{
    Failed {
        refused,
        event,
        reset: None,
    }
}

/// One event at the rank that it comes to, whose engine alone changes: the rules of the world first, then those of the
/// engine for a call or a restart, then the room that it may take, then the engine.
fn advance(
    alloc: Global,
    engines: &mut Vec<Engine>,
    datagrams: &mut Vec<(u16, Bytes)>,
    history: &mut Vec<HistoryEntry>,
    event: Event,
) -> StepResult
    requires { IsSound engines.old.items datagrams.old.items history.old.items }
    ensures exact { StepGives
        (record {
          engines = engines.old.items;
          datagrams = datagrams.old.items;
          history =
              history.old.items;
          datagram_room = vec_capacity datagrams.old;
          entry_room = vec_capacity history.old;
        })
        event result
        (record {
          engines = engines.new.items;
          datagrams = datagrams.new.items;
          history =
              history.new.items;
          datagram_room = vec_capacity datagrams.new;
          entry_room = vec_capacity history.new;
        }) }
    ensures sound { IsSound engines.new.items datagrams.new.items history.new.items }
{
    let rank = match judge(engines, datagrams, &event) {
        Ok(rank) => rank,
        Err(refused) => return Err(plain(refused, event)),
    };
    let EngineEvent { fault, event } = ask_at(engines, rank, event);
    if let Some(refused) = fault {
        return Err(plain(WorldRefusal::Engine(refused), event));
    }
    if !make_room(datagrams, history, engines.len()) {
        return Err(plain(OUT_OF_MEMORY, event));
    }
    // The history keeps the event, and the engine takes a copy of it.
    let Ok(copy) = event.try_clone(alloc) else {
        return Err(plain(OUT_OF_MEMORY, event));
    };
    match run_event(alloc, engines, datagrams, rank, copy) {
        Ok(given) => Ok(note(datagrams, history, event, given)),
        Err(rejected) => Err(refuse(datagrams, rejected, event)),
    }
}

impl World {
    /// A world of so many ranks, 1 to 1,024, in which nothing happened yet, and whose messages have the limit of
    /// scripts, 1,048,576 bytes.
    ///
    /// Refused with 13 for another number, and with 14. The run of the machine that it has come by is that of no event.
    pub fn new(alloc: Global, size: u16) -> Result<World, WorldRefusal>
        ensures opening { IfOk result (λ w. w ≡ opening_world size) }
        ensures run { IfOk result (λ w. HasRun w []) }
        ensures limit { (result ≡ Err (WorldRefusal.Engine lowers.Limit)) ↔ IsTrue (is_outside size) }
        ensures refused { IfErr result (λ e. (e ≡ WorldRefusal.Engine lowers.Limit) ⊎
            (e ≡ WorldRefusal.Engine lowers.OutOfMemory)) }
    {
        World::with_limit(alloc, size, MessageLimit::least())
    }

    /// The same with this limit of messages, which stays: a send of more bytes is refused with 1.
    pub fn with_limit(alloc: Global, size: u16, limit: MessageLimit) -> Result<World, WorldRefusal>
        ensures opening { IfOk result (λ w. w ≡ opening_world_of limit size) }
        ensures run { IfOk result (λ w. HasRun w []) }
        ensures limit { (result ≡ Err (WorldRefusal.Engine lowers.Limit)) ↔ IsTrue (is_outside size) }
        ensures refused { IfErr result (λ e. (e ≡ WorldRefusal.Engine lowers.Limit) ⊎
            (e ≡ WorldRefusal.Engine lowers.OutOfMemory)) }
    {
        if size == 0 || size > MOST_RANKS {
            return Err(WorldRefusal::Engine(engine::Refusal::Limit));
        }
        let engines = new_engines(alloc, size, limit)?;
        Ok(World {
            alloc,
            engines,
            datagrams: Vec::new(alloc),
            history: Vec::new(alloc),
        })
    }

    /// How many ranks there are.
    pub fn size(&self) -> usize
        ensures { result ≡ length self.now.engines }
    {
        self.engines.len()
    }

    /// The engine of a rank, to be looked at; none where the world has no such rank. It takes no memory.
    pub fn engine(&self, rank: u16) -> Option<&Engine>
        ensures { slice_get self.now.engines rank ≡ option_map (λ e. e.now) result }
    {
        self.engines.get(rank as usize)
    }

    /// A datagram that was emitted, by its number: the rank that it goes to, and its bytes. It takes no memory.
    pub fn datagram(&self, number: usize) -> Option<(u16, &[u8])>
        ensures { slice_get self.now.datagrams number ≡ option_map (λ d. (d.0, d.1.now)) result }
    {
        datagram_at(&self.datagrams, number)
    }

    /// Whether both have as many ranks, whose engines stand alike, rank by rank.
    pub fn engines_stand_as(&self, other: &World) -> bool
        ensures { IsTrue result → map trimmed self.now.engines ≡ map trimmed other.now.engines }
    {
        engines_are_alike(&self.engines, &other.engines)
    }

    /// Whether the datagram of this number goes to the same rank, with the same bytes, as that of the other number does
    /// in the other world; or neither world has it.
    pub fn datagram_stands_as(&self, number: usize, other: &World, other_number: usize) -> bool
        ensures { IsTrue result →
            slice_get self.now.datagrams number ≡ slice_get other.now.datagrams other_number }
    {
        datagrams_are_alike(&self.datagrams, number, &other.datagrams, other_number)
    }

    /// The events that were not refused, with what they answered, in order. It takes no memory.
    ///
    /// What is seen in it, calls with their replies, completions and restarts, is a run of the machine of queues and
    /// groups, which has come to rest where the world is quiet (MPI 3.1, 3.4, 3.5, 3.7, 3.8, 3.11, 5.3 and 6.4;
    /// restarts are this project's own). Calls are on any communicator of their rank, point to point, collective or
    /// questions, and each rank holds there the communicators that it holds here, one group for each context. A message
    /// is one message there, however it went: whole, or announced and in pieces; of a collective the machine knows who
    /// entered it and who left it, and no message. With a call that a rank would take now the machine finds no fault.
    /// With one that it would refuse the machine finds the same fault first; or it finds none, and the number is 13 or
    /// 14. A request of another engine is there one that was never given; one that the rank itself was given is named
    /// there by its serial. Where the world is quiet, a probe answers none only where no message is pending that such a
    /// receive would accept, of a rank that its rank knows as it is; and a collective whose members are all there as
    /// they were, know each other so and have all entered it alike was left by all. In each session that ever was, what
    /// was handed up is a beginning of what was accepted, and every frame below the lowest unacknowledged number was
    /// handed up (`law`, which the datagrams pin for former incarnations too; `sessions` says it in numbers of ranks
    /// that know each other, and that a frame which is held before its turn is one that its sender still keeps).
    ///
    /// Every world has come by some such run (`run`), from which the next event goes on: see `step`. Ranks of this
    /// world and of any later one whose run goes on from this one's share one group for each context, also where a rank
    /// was started anew between them (`groups`).
    pub fn history(&self) -> &[HistoryEntry]
        ensures entries { result.now ≡ self.now.history }
        ensures headline { IsRunOfMachine self.now }
        ensures law { SessionsAreTrue self.now }
        ensures sessions { SessionsAreInOrder self.now.engines }
        ensures run { HasSomeRun self.now }
        ensures groups { SharesGroupsOnwards self.now }
    {
        &self.history
    }

    /// Whether, of any two ranks that know each other at their present incarnations, no session with the other holds a
    /// frame that waits or is unacknowledged. Left out of account is a session of which one side does not know the
    /// other as it is: with a former incarnation, or with one that was not yet heard of. Between ranks that know each
    /// other, then, no receive that waits accepts a pending message, what was matched is finished on both sides, and no
    /// probe misses a message that is there: see `history`; and no rank holds a frame of the other before its turn. It
    /// takes no memory.
    pub fn is_quiet(&self) -> bool
        ensures quiet { IsTrue result ↔ AreQuiet (sessions_in self.now.engines) }
        ensures held { IsTrue result → NothingIsHeld self.now.engines }
    {
        are_quiet(&self.engines)
    }

    /// One event: a call, a delivery, stray bytes, a tick or a restart at one rank, whose engine alone changes.
    ///
    /// Answers the numbers of the datagrams that were emitted, and where the history has what the event answered. A
    /// restart puts an engine at its start in the place of the rank's engine, at the next incarnation, and emits
    /// nothing; datagrams that were emitted before may still be delivered. MPI 3.1 has no restarts of a rank: they are
    /// this project's own.
    ///
    /// Refused is the first that holds of: 62 (no such datagram), 61 (no such rank), 63 (stray bytes that carry job 1)
    /// or the number of what else is wrong with stray bytes, the rule or limit by which the rank's engine refuses a
    /// call (`Engine::judge`), 13 (a restart of a rank at incarnation 65,535, the last one), 14 (want of memory for
    /// what the event may add to the world, where it has no room for that, or for a copy of a call), what the rank's
    /// engine refuses with: a datagram or a tick by its rules, a collective that is entered where what the rank then
    /// does of itself meets a limit (13), and any event for want of memory (14). So a call or a restart is refused with
    /// 14 only where no rule and no limit refuses it. A refusal hands the event back, and changes nothing but this:
    /// with 29, the refusal of a datagram for a former incarnation of its target, a reset goes out to the datagram's
    /// source, unless the datagram was a reset; it is numbered, and the refusal tells its number.
    ///
    /// Whatever run of the machine the world had come by, it has now come by that run and one event of the machine at
    /// most, at the event's own endpoint, which is that of the rank's engine before the event: a call is one, of the
    /// same call; a restart is one; a delivery is one without a call, or none; a tick is none. So what is answered in
    /// an event is answered in one event of the machine. Where the event is refused, the run is the very same
    /// (`event_by_event`).
    pub fn step(&mut self, event: Event) -> StepResult
        ensures exact { StepGives self.old event result self.new }
        ensures headline { IsRunOfMachine self.new }
        ensures event_by_event { GoesOn self.old event result self.new }
    {
        advance(
            self.alloc,
            &mut self.engines,
            &mut self.datagrams,
            &mut self.history,
            event,
        )
    }

    /// The events in order, and what the step of each answers; one that is refused does not stop the others, and the
    /// reset that goes out with it is numbered.
    ///
    /// Room for all answers is made first. Where memory for that is wanting, which is 14, nothing happens, and the
    /// events are handed back. For every list of events, what is seen of the world after each of them is a run of the
    /// machine of queues and groups, which has come to rest where the world is quiet: see `history`. Each of these runs
    /// goes on from the one before by its event's own, or by none: see `step`. And of any two worlds on the way, be it that a
    /// rank was started anew between them, ranks share one group for each context (`event_by_event`).
    pub fn run(&mut self, events: Vec<Event>) -> Result<Vec<StepResult>, FailedRun>
        ensures exact { IfOk result (λ answers. RunGives self.old events.items answers.items self.new) }
        ensures refused { IfErr result (λ failed. IsNotRun self.old events.items failed self.new) }
        ensures event_by_event { IfOk result (λ answers. GoesAllTheWay self.old events.items answers.items self.new) }
        ensures headline { IsRunOfMachine self.new }
        ensures law { SessionsAreTrue self.new }
        ensures sessions { SessionsAreInOrder self.new.engines }
    {
        let mut answers = Vec::new(self.alloc);
        if answers.reserve(events.len()).is_err() {
            return Err(FailedRun {
                refused: OUT_OF_MEMORY,
                events,
            });
        }
        self.run_into(events, &mut answers);
        let _engines = &self.engines;
        Ok(answers)
    }

    /// Runs the events, and appends the answer of each, for which there is room.
    fn run_into(&mut self, events: Vec<Event>, answers: &mut Vec<StepResult>)
        requires empty { vec_len answers.old ≡ 0 }
        requires room { vec_len events ≤ vec_capacity answers.old }
        ensures exact { RunGives self.old events.items answers.new.items self.new }
        ensures event_by_event { GoesOnFrom self.old events.items answers.new.items self.new }
    {
        let _engines = &self.engines;
        for event in events {
            let answer = self.step(event);
            answers.push(answer).unwrap();
        }
    }
}

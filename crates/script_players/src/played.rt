//! A rank that plays in a world.

ghost use Rattle.std.specs.Prelude.{◌≡◌, ◌<◌, ℕ, [], List, length, IfOk, IsTrue, OnOk, Result, Some, None};
ghost use Rattle.script_players.specs.Players.{AreAlike, CallGoes, IsHandedBack, PlayerGoes, StepGoes, TakesTold};
ghost use Rattle.script_players.specs.Players.{is_over, standing_of, state_by, told_at, told_completion};
ghost use Rattle.script_runner.specs.ScriptSteps.{ScriptState, opening};
ghost use Rattle.world.specs.declared.event.Stepped.{Stepped};

use alike::{Alike, are_alike};
use datagram::Bytes;
use engine::{Call, Completion, Reply};
use event_loop::{Runner, RunnerState, RunnerStep};
use replies::{completion_as_reply, reply_copied};
use script_files::Script;
use script_runner::ScriptRunner;
use std::alloc::{AllocError, Global};
use std::marker::Model;
use std::mem;
use vocabulary::replace;
use world::{Event, Failed, HistoryEntry, World, WorldRefusal};

/// A rank that plays in a world: its runner, what that waits for, what it printed, and the numbers of its refused
/// calls.
pub struct Played {
    runner: ScriptRunner,
    state: RunnerState<Call>,
    lines: Vec<Bytes>,
    refused: Vec<u8>,
}

/// A drop of its own is proved here alone, and not in each crate above.
impl Drop for Played {
    fn drop(self) {
        let Played {
            runner,
            state,
            lines,
            refused,
        } = self;
        drop(runner);
        drop(state);
        drop(lines);
        drop(refused);
    }
}

impl Model for Played {
    ghost use Rattle.script_players.specs.Players.{PlayerState};

    ghost Value = { PlayerState };

    ghost view = { λ p. record { runner = p.runner; state = p.state; lines = p.lines.items; refused = p.refused.items } };
}

/// Takes what a rank that may go on was told last. None where it may not.
fn take_told(state: &mut RunnerState<Call>) -> Option<Option<Reply>>
    ensures { TakesTold state.old result state.new }
{
    match mem::replace(state, RunnerState::Ready(None)) {
        RunnerState::Ready(told) => Some(told),
        other => {
            replace(state, other);
            None
        }
    }
}

/// The same reply once more, if there is one.
fn told_again(alloc: Global, reply: &Option<Reply>) -> Result<Option<Reply>, AllocError>
    ensures { IfOk result (λ copy. AreAlike reply.now copy) }
{
    match reply {
        Some(reply) => Ok(Some(reply_copied(alloc, reply)?)),
        None => Ok(None),
    }
}

/// What a rank waits for whose call was taken, and that is told this of it.
fn state_by(
    alloc: Global,
    call: &Call,
    told: Option<Reply>,
    completion: &Option<Completion>,
) -> Result<RunnerState<Call>, AllocError>
    ensures { IfOk result (λ state. state ≡ state_by call.now told completion.now) }
{
    if let Some(completion) = completion {
        drop(told);
        let told = completion_as_reply(alloc, completion)?;
        return Ok(RunnerState::Ready(Some(told)));
    }
    if matches!(&told, Some(Reply::Blocked)) {
        drop(told);
        return Ok(RunnerState::Blocked(call.try_clone(alloc)?));
    }
    Ok(RunnerState::Ready(told))
}

/// What a rank waits for once the call of this entry was taken, and it is told this of it.
fn state_behind(
    alloc: Global,
    entry: &HistoryEntry,
    told: Option<Reply>,
) -> Result<RunnerState<Call>, AllocError>
    ensures { (rank : ℕ) (call : Call) → entry.now.event ≡ Event.Call rank call →
        IfOk result (λ state. state ≡ state_by call told entry.now.completion) }
{
    match &entry.event {
        Event::Call(_, call) => state_by(alloc, call, told, &entry.completion),
        _ => {
            drop(told);
            Ok(RunnerState::Ready(None))
        }
    }
}

/// A refused call's number is noted, and the call goes back to its runner.
fn hand_back(
    failed: Failed,
    state: &mut RunnerState<Call>,
    refused: &mut Vec<u8>,
) -> Result<(), AllocError>
    ensures { OnOk result (IsHandedBack failed state.new refused.old.items refused.new.items) }
{
    let Failed {
        refused: why,
        event,
        reset: _,
    } = failed;
    match (why, event) {
        (WorldRefusal::Engine(why), Event::Call(_, call)) => {
            let noted = refused.push(why.number());
            match noted {
                Ok(()) => {
                    replace(state, RunnerState::Ready(Some(Reply::Refused(why, call))));
                    Ok(())
                }
                Err(_) => {
                    drop(call);
                    Err(AllocError)
                }
            }
        }
        (_, event) => {
            drop(event);
            Ok(())
        }
    }
}

/// A runner's call, at its rank.
fn call(
    alloc: Global,
    world: &mut World,
    rank: u16,
    call: Call,
    state: &mut RunnerState<Call>,
    refused: &mut Vec<u8>,
) -> Result<(), AllocError>
    requires { rank < length world.old.engines }
    ensures exact { OnOk result ((answer : Result Stepped Failed) × ((s : ScriptState) (lines : List (List ℕ)) →
        CallGoes world.old rank call answer
        (record { runner = s; state = state.old; lines = lines; refused = refused.old.items })
        world.new (record { runner = s; state = state.new; lines = lines; refused = refused.new.items }))) }
{
    match world.step(Event::Call(rank, call)) {
        Ok(stepped) => {
            let entry = &world.history()[stepped.place];
            let told = told_again(alloc, &entry.reply)?;
            let next = state_behind(alloc, entry, told)?;
            replace(state, next);
            Ok(())
        }
        Err(failed) => hand_back(failed, state, refused),
    }
}

/// What a runner does next, for a rank that has nothing to tell it.
fn follow(
    alloc: Global,
    world: &mut World,
    rank: u16,
    step: RunnerStep,
    state: &mut RunnerState<Call>,
    lines: &mut Vec<Bytes>,
    refused: &mut Vec<u8>,
) -> Result<(), AllocError>
    requires { rank < length world.old.engines }
    ensures exact { OnOk result ((s : ScriptState) →
        StepGoes world.old rank step
        (record { runner = s; state = state.old; lines = lines.old.items; refused = refused.old.items })
        world.new (record { runner = s; state = state.new; lines = lines.new.items; refused = refused.new.items })) }
{
    match step {
        RunnerStep::Print(line) => {
            lines.push(line)?;
            Ok(())
        }
        RunnerStep::End(status, line) => {
            replace(state, RunnerState::Over(status, line));
            Ok(())
        }
        RunnerStep::Call(asked) => call(alloc, world, rank, asked, state, refused),
    }
}

/// A rank's runner goes on, where it may.
fn go_on(
    alloc: Global,
    world: &mut World,
    rank: u16,
    runner: &mut ScriptRunner,
    state: &mut RunnerState<Call>,
    lines: &mut Vec<Bytes>,
    refused: &mut Vec<u8>,
) -> Result<(), AllocError>
    requires { rank < length world.old.engines }
    ensures { OnOk result (
        PlayerGoes world.old rank (record {
          runner = runner.old;
          state = state.old;
          lines = lines.old.items;
          refused =
              refused.old.items;
        })
        world.new (record {
          runner = runner.new;
          state = state.new;
          lines = lines.new.items;
          refused =
              refused.new.items;
        })) }
{
    match take_told(state) {
        Some(told) => {
            let step = runner.next(told);
            follow(alloc, world, rank, step, state, lines, refused)
        }
        None => Ok(()),
    }
}

/// A blocked call is answered, if it is so.
fn hear(
    alloc: Global,
    state: &mut RunnerState<Call>,
    completion: &Option<Completion>,
) -> Result<(), AllocError>
    ensures { OnOk result (state.new ≡ told_at completion.now state.old) }
{
    if let (RunnerState::Blocked(_), Some(completion)) = (&*state, completion) {
        let told = completion_as_reply(alloc, completion)?;
        replace(state, RunnerState::Ready(Some(told)));
    }
    Ok(())
}

impl Played {
    /// The script as this rank runs it, at its start. The only error is want of memory.
    pub fn new(alloc: Global, script: Script, rank: u16) -> Result<Played, AllocError>
        ensures { IfOk result
            (λ player. player ≡ record {
              runner = opening script rank 0;
              state = RunnerState.Ready None;
              lines = [];
              refused =
                  [];
            }) }
    {
        Ok(Played {
            runner: ScriptRunner::new(alloc, script, rank, 0)?,
            state: RunnerState::Ready(None),
            lines: Vec::new(alloc),
            refused: Vec::new(alloc),
        })
    }

    /// The runner goes on, where it may. The only error is want of memory.
    pub fn go_on(&mut self, alloc: Global, world: &mut World, rank: u16) -> Result<(), AllocError>
        requires { rank < length world.old.engines }
        ensures { OnOk result (PlayerGoes world.old rank self.old world.new self.new) }
    {
        go_on(
            alloc,
            world,
            rank,
            &mut self.runner,
            &mut self.state,
            &mut self.lines,
            &mut self.refused,
        )
    }

    /// A blocked call is answered, if it is so. The only error is want of memory.
    pub fn hear(&mut self, alloc: Global, completion: &Option<Completion>) -> Result<(), AllocError>
        ensures { OnOk result (self.new ≡ told_completion completion.now self.old) }
    {
        hear(alloc, &mut self.state, completion)
    }

    /// Whether both have as many lines of their scripts left, and stand alike in all else: what their names stand for,
    /// what they wait for, what they printed and which of their calls were refused.
    pub fn stands_as(&self, other: &Played) -> bool
        ensures { IsTrue result → standing_of self.now ≡ standing_of other.now }
    {
        self.runner.stands_as(&other.runner)
            && self.state.stands_as(&other.state)
            && are_alike(&self.lines, &other.lines)
            && self.refused.as_slice() == other.refused.as_slice()
    }

    /// The runner of its script: how many lines are left to it, and whether it awaits an answer.
    pub fn runner(&self) -> &ScriptRunner
        ensures { result.now ≡ self.now.runner }
    {
        &self.runner
    }

    /// What its runner waits for.
    pub fn state(&self) -> &RunnerState<Call>
        ensures { result.now ≡ self.now.state }
    {
        &self.state
    }

    /// The lines that it printed, in order.
    pub fn lines(&self) -> &[Bytes]
        ensures { result.now ≡ self.now.lines }
    {
        &self.lines
    }

    /// The numbers of its refused calls, in order.
    pub fn refused(&self) -> &[u8]
        ensures { result.now ≡ self.now.refused }
    {
        &self.refused
    }

    /// Whether its script has ended.
    pub fn has_ended(&self) -> bool
        ensures { result ≡ is_over self.now.state }
    {
        matches!(self.state, RunnerState::Over(_, _))
    }
}

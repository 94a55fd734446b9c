//! One turn of a rank.

ghost use Rattle.std.specs.Prelude.{◌≡◌, ◌+◌, ◌<◌, ◌^◌, Option, None};
ghost use Rattle.event_loop.specs.Exchanges.{FailsWith};
ghost use Rattle.event_loop.specs.RunnerLines.{IsNoLine};
ghost use Rattle.event_loop.specs.Turns.{TakesStep, GoesOnTo, TurnGives, is_ready, state_after, state_with, told_waits};
ghost use Rattle.event_loop.specs.Turns.{IsSameTime};

use crate::input::listen;
use crate::loop_state::{RunnerState, TurnResult};
use crate::output::send_all;
use crate::rank::Rank;
use crate::runner::{Runner, RunnerStep};
use crate::runner_turn::speak;
use crate::transport::{Transport, TransportFault};
use engine::{Completion, Engine, Reply};
use replies::reply_of;
use std::sync::Wait;
use vocabulary::replace;

/// This answer of a blocked call, or none, has come.
fn hear_answer(state: &mut RunnerState<()>, completion: Option<Completion>)
    ensures { state.new ≡ state_with state.old completion }
{
    if let Some(completion) = completion {
        replace(state, RunnerState::Ready(Some(reply_of(completion))));
    }
}

/// Whether the runner goes on at the next turn.
pub(crate) fn is_ready(state: &RunnerState<()>) -> bool
    ensures { result ≡ is_ready state.now }
{
    matches!(state, RunnerState::Ready(_))
}

/// What the runner waits for after a reply.
fn state_after(reply: Reply) -> RunnerState<()>
    ensures { result ≡ state_after tt reply }
{
    match reply {
        Reply::Blocked => RunnerState::Blocked(()),
        reply => RunnerState::Ready(Some(reply)),
    }
}

/// The runner's call goes to its engine; its end is the end.
fn take_step(engine: &mut Engine, step: RunnerStep) -> RunnerState<()>
    requires { IsNoLine step }
    ensures { TakesStep engine.old step result engine.new }
{
    match step {
        RunnerStep::Call(call) => state_after(engine.call(call)),
        RunnerStep::Print(_) => unreachable!(),
        RunnerStep::End(status, line) => RunnerState::Over(status, line),
    }
}

/// The runner, which had something else to do before and now has this line to print, prints it and goes on behind it.
// It stands apart, so that calls of the runner don't pay for what its lines need.
#[inline(never)]
fn go_on_behind<R: Wait, P: Runner, T: Transport>(
    rt: &R,
    rank: &mut Rank<P>,
    transport: &mut T,
    line: &[u8],
) -> Result<(), TransportFault>
    requires room { T.failed transport.old + 1 < 2 ^ 64 }
    requires ready { rank.old.state.runner ≡ RunnerState.Ready None }
    ensures exact { (before : P) (reply : Option Reply) →
        P.does before reply (RunnerStep.Print line.now) rank.old.runner →
        GoesOnTo P.does T.passed rank.old.engine before (RunnerState.Ready reply) transport.old result rank.new.engine
        rank.new.runner rank.new.state.runner transport.new }
    ensures times { IsSameTime rank.old.state rank.new.state }
    ensures failures { FailsWith result (T.failed transport.old) (T.failed transport.new) }
{
    let Ok(_) = transport.print(line) else {
        return Err(TransportFault);
    };
    let Ok(step) = speak(rt, &mut rank.runner, None, transport) else {
        return Err(TransportFault);
    };
    replace(&mut rank.state.runner, take_step(&mut rank.engine, step));
    Ok(())
}

/// The runner goes on, unless its call is blocked or it has ended.
fn go_on<R: Wait, P: Runner, T: Transport>(
    rt: &R,
    rank: &mut Rank<P>,
    transport: &mut T,
) -> Result<(), TransportFault>
    requires { T.failed transport.old + 1 < 2 ^ 64 }
    ensures exact { GoesOnTo P.does T.passed rank.old.engine rank.old.runner rank.old.state.runner transport.old
        result rank.new.engine rank.new.runner rank.new.state.runner transport.new }
    ensures times { IsSameTime rank.old.state rank.new.state }
    ensures failures { FailsWith result (T.failed transport.old) (T.failed transport.new) }
{
    let reply = match &mut rank.state.runner {
        RunnerState::Ready(reply) => reply.take(),
        RunnerState::Blocked(_) | RunnerState::Over(_, _) => return Ok(()),
    };
    match rank.runner.next(reply) {
        RunnerStep::Call(call) => {
            replace(&mut rank.state.runner, state_after(rank.engine.call(call)));
        }
        RunnerStep::Print(line) => return go_on_behind(rt, rank, transport, line.as_slice()),
        RunnerStep::End(status, line) => {
            replace(&mut rank.state.runner, RunnerState::Over(status, line));
        }
    }
    Ok(())
}

/// The engine is told how long frames to the ranks of its job wait, as far as the transport measures it.
fn tell_waits<T: Transport>(engine: &mut Engine, transport: &T)
    ensures { engine.new ≡ told_waits engine.old (T.waits transport.now) }
{
    for rank in 0..engine.place().size {
        let Some(wait) = transport.wait_of(rank) else {
            return;
        };
        engine.set_wait(rank, wait);
    }
}

/// One turn: the engine is told how long frames wait, the clock ticks, all datagrams that are there are taken in, the
/// runner's lines are written and its next call goes to the engine, unless one is blocked, and what the engine emitted
/// is sent.
pub(crate) fn turn<R: Wait, P: Runner, T: Transport>(
    rt: &R,
    rank: &mut Rank<P>,
    transport: &mut T,
    buffer: &mut [u8],
    now: u64,
) -> Result<TurnResult, TransportFault>
    requires { T.failed transport.old + 1 < 2 ^ 64 }
    ensures exact { TurnGives P.does T.passed T.waits rank.old.engine rank.old.runner rank.old.state.runner
        transport.old now result rank.new.engine rank.new.runner rank.new.state.runner transport.new }
    ensures times { IsSameTime rank.old.state rank.new.state }
    ensures failures { FailsWith result (T.failed transport.old) (T.failed transport.new) }
{
    tell_waits(&mut rank.engine, transport);
    let _ = rank.engine.tick(now);
    let Ok(heard) = listen(rt, &mut rank.engine, transport, buffer) else {
        return Err(TransportFault);
    };
    let completion = rank.engine.take_completion();
    let answered = completion.is_some();
    hear_answer(&mut rank.state.runner, completion);
    let Ok(_) = go_on(rt, rank, transport) else {
        return Err(TransportFault);
    };
    let out = rank.engine.take_out();
    let Ok(_) = send_all(transport, &out) else {
        return Err(TransportFault);
    };
    rank.engine.give_back(out);
    Ok(TurnResult {
        came: heard.any,
        moved: heard.accepted || answered || is_ready(&rank.state.runner),
    })
}

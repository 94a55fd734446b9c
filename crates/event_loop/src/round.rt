//! One turn, and what follows it.

ghost use Rattle.std.specs.Prelude.{◌≡◌, ◌≤◌, ◌+◌, ◌-◌, ◌<◌, ◌^◌, true, false, IsOk, if◌then◌else◌};
ghost use Rattle.event_loop.specs.Exchanges.{FailsWith, rested};
ghost use Rattle.event_loop.specs.Drives.{RoundGives, ending_of, patience_ends, status_of, wait_of};

use crate::loop_state::RunnerState;
use crate::rank::Rank;
use crate::runner::Runner;
use crate::transport::{Transport, TransportFault};
use crate::turn::{is_ready, turn};
use std::sync::Wait;

/// How many milliseconds a rank stays after its script's end, from the last datagram that came.
const LINGER: u64 = 100;

/// How many milliseconds a rank waits at most while frames are unacknowledged, so that they are sent again in time.
const SHORT_WAIT: u64 = 5;

/// How a rank ended.
#[derive(Clone, Copy, Debug, PartialEq, Eq)]
pub enum Ended {
    /// By its runner, with this status; the line of the script where that is a faulty one.
    Runner(u8, Option<usize>),
    /// Nothing moved for as long as its patience lasts.
    Patience,
}

impl Ended {
    /// The status of the rank's program: its runner's, or 4 where its patience ended.
    pub fn status(self) -> u8
        ensures { result ≡ status_of self }
    {
        match self {
            Ended::Runner(status, _) => status,
            Ended::Patience => 4,
        }
    }
}

/// When a round begins, and how long the rank's patience is, both in milliseconds.
#[derive(Clone, Copy)]
pub(crate) struct RoundTime {
    /// The time of the rank's clock.
    pub(crate) now: u64,
    /// For how long nothing has to move until the rank ends.
    pub(crate) patience: u64,
}

fn patience_ends(patience: u64, still: u64) -> Option<Ended>
    ensures { result ≡ patience_ends patience still }
{
    if patience <= still {
        Some(Ended::Patience)
    } else {
        None
    }
}

/// Whether a rank ends, where no datagram came for `quiet` milliseconds, and nothing moved for `still`.
fn ending_of(
    state: &RunnerState<()>,
    idle: bool,
    patience: u64,
    quiet: u64,
    still: u64,
) -> Option<Ended>
    ensures { result ≡ ending_of state.now idle patience quiet still }
{
    match state {
        RunnerState::Over(status, line) => {
            if *status == 0 {
                if idle && LINGER <= quiet {
                    Some(Ended::Runner(*status, *line))
                } else {
                    patience_ends(patience, still)
                }
            } else {
                Some(Ended::Runner(*status, *line))
            }
        }
        _ => patience_ends(patience, still),
    }
}

/// The later time where this happened.
fn time_of(happened: bool, now: u64, before: u64) -> u64
    ensures { result ≡ (if happened then now else before) }
{
    if happened { now } else { before }
}

/// For how many milliseconds a rank waits at most for a datagram: until something is due of itself.
fn wait_of(state: &RunnerState<()>, idle: bool, patience: u64, quiet: u64, still: u64) -> u64
    ensures exact { result ≡ wait_of state.now idle patience quiet still }
    ensures some { 0 < result }
    ensures soon { idle ≡ false → result ≤ 5 }
    ensures within { still < patience → result ≤ patience - still }
{
    let over = patience.saturating_sub(still).max(1);
    if !idle {
        return SHORT_WAIT.min(over);
    }
    match state {
        RunnerState::Over(_, _) => LINGER.saturating_sub(quiet).max(1).min(over),
        _ => over,
    }
}

/// Waits for a datagram, for so many milliseconds at most, unless the runner may go on at once.
fn rest<T: Transport>(transport: &mut T, ready: bool, most: u64) -> Result<(), TransportFault>
    requires { T.failed transport.old + 1 < 2 ^ 64 }
    ensures passed { T.passed transport.old (rested ready most result) transport.new }
    ensures at_once { ready ≡ true → (transport.new ≡ transport.old) × IsOk result }
    ensures failures { FailsWith result (T.failed transport.old) (T.failed transport.new) }
{
    if ready {
        return Ok(());
    }
    transport.wait(most)
}

/// One turn at this time, and a wait for a datagram behind it where the rank goes on and has nothing to do. Answers how
/// the rank ended, if it has.
pub(crate) fn make_round<R: Wait, P: Runner, T: Transport>(
    rt: &R,
    rank: &mut Rank<P>,
    time: RoundTime,
    transport: &mut T,
    buffer: &mut [u8],
) -> Result<Option<Ended>, TransportFault>
    requires { T.failed transport.old + 1 < 2 ^ 64 }
    ensures exact { RoundGives P.does T.passed T.waits time.patience
        (record {
          engine = rank.old.engine;
          runner = rank.old.runner;
          state = rank.old.state;
          transport = transport.old;
        })
        time.now result rank.new.engine rank.new.runner rank.new.state transport.new }
    ensures failures { FailsWith result (T.failed transport.old) (T.failed transport.new) }
{
    let RoundTime { now, patience } = time;
    let Ok(turned) = turn(rt, rank, transport, buffer, now) else {
        return Err(TransportFault);
    };
    rank.state.heard = time_of(turned.came, now, rank.state.heard);
    rank.state.moved = time_of(turned.moved, now, rank.state.moved);
    let idle = rank.engine.is_idle();
    let quiet = now.saturating_sub(rank.state.heard);
    let still = now.saturating_sub(rank.state.moved);
    let state = &rank.state.runner;
    if let Some(ended) = ending_of(state, idle, patience, quiet, still) {
        return Ok(Some(ended));
    }
    let most = wait_of(state, idle, patience, quiet, still);
    let Ok(_) = rest(transport, is_ready(state), most) else {
        return Err(TransportFault);
    };
    Ok(None)
}

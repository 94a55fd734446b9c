//! Driving a rank, turn after turn, until it ends.

ghost use Rattle.std.specs.Prelude.{◌≡◌, ◌+◌, ◌<◌, ◌^◌};
ghost use Rattle.event_loop.specs.Exchanges.{FailsWith};
ghost use Rattle.event_loop.specs.Drives.{Drives, DrivesOn};

use crate::clock::Clock;
use crate::input::RECEIVE_ROOM;
use crate::loop_state::{LoopState, RunnerState};
use crate::rank::Rank;
use crate::round::{Ended, RoundTime, make_round};
use crate::runner::Runner;
use crate::transport::{Transport, TransportFault};
use std::sync::Wait;
use vocabulary::replace;

/// Makes rounds, one after the other, until the rank ends. A fault of the transport ends it at once.
fn make_rounds<R: Wait, P: Runner, T: Transport, C: Clock>(
    rt: &R,
    rank: &mut Rank<P>,
    patience: u64,
    transport: &mut T,
    clock: &mut C,
) -> Result<Ended, TransportFault>
    requires { T.failed transport.old + 1 < 2 ^ 64 }
    ensures exact { DrivesOn P.does T.passed T.waits C.told patience
        (record {
          engine = rank.old.engine;
          runner = rank.old.runner;
          state = rank.old.state;
          transport = transport.old;
        })
        clock.old result rank.new.engine rank.new.runner rank.new.state transport.new clock.new }
    ensures failures { FailsWith result (T.failed transport.old) (T.failed transport.new) }
{
    let mut buffer = [0u8; RECEIVE_ROOM];
    for _ in rt.forever() {
        let now = clock.now();
        let time = RoundTime { now, patience };
        match make_round(rt, rank, time, transport, &mut buffer) {
            Ok(None) => {}
            Ok(Some(ended)) => return Ok(ended),
            Err(_) => return Err(TransportFault),
        }
    }
    unreachable!()
}

/// Drives a rank, turn after turn, until its runner has ended and nothing more is wanted of it, or its patience is
/// over. A fault of the transport ends it at once.
///
/// A turn ticks (a tick that is refused is dropped), takes in all datagrams that are there (refused ones are dropped),
/// writes the runner's lines, hands its next call to the engine unless one is blocked, and sends what the engine
/// emitted. Behind a turn that leaves nothing to do the rank waits for a datagram, up to the time when something of its
/// own is due.
///
/// A runner that ends with status 0 is done once no frame is unacknowledged and no datagram came for 100 ms; one that
/// ends with another status is done at once. The patience, in milliseconds, is over where for so long no call was
/// answered and no datagram was accepted.
pub fn drive<R: Wait, P: Runner, T: Transport, C: Clock>(
    rt: &R,
    rank: &mut Rank<P>,
    patience: u64,
    transport: &mut T,
    clock: &mut C,
) -> Result<Ended, TransportFault>
    requires { T.failed transport.old + 1 < 2 ^ 64 }
    ensures exact { Drives P.does T.passed T.waits C.told patience rank.old.engine rank.old.runner transport.old
        clock.old result rank.new.engine rank.new.runner transport.new clock.new }
    ensures failures { FailsWith result (T.failed transport.old) (T.failed transport.new) }
{
    let start = clock.now();
    let state = LoopState {
        runner: RunnerState::Ready(None),
        heard: start,
        moved: start,
    };
    replace(&mut rank.state, state);
    make_rounds(rt, rank, patience, transport, clock)
}

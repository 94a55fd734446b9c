//! Taking in the datagrams that are there.

ghost use Rattle.std.specs.Prelude.{◌≡◌, ◌+◌, ◌<◌, ◌^◌, Result};
ghost use Rattle.point_to_point_calls.specs.declared.refusal.Refusal.{Refusal};
ghost use Rattle.engine.specs.Datagrams.{DatagramGives};
ghost use Rattle.event_loop.specs.Exchanges.{FailsWith};
ghost use Rattle.event_loop.specs.Input.{ListensTo, after_one};

use crate::transport::{Transport, TransportFault};
use datagram::LONGEST_DATAGRAM;
use engine::Engine;
use std::sync::Wait;

/// The room that a receive is given, in bytes: the longest datagram, and one byte more, so that a longer one is seen to
/// be too long.
pub const RECEIVE_ROOM: usize = LONGEST_DATAGRAM + 1;

/// What came in a turn so far.
#[derive(Clone, Copy)]
pub struct Input {
    /// Whether a datagram came.
    pub any: bool,
    /// Whether the engine took one in.
    pub accepted: bool,
}

/// Takes in all datagrams that are there, each through the buffer. One that the engine refuses is dropped.
pub(crate) fn listen<R: Wait, T: Transport>(
    rt: &R,
    engine: &mut Engine,
    transport: &mut T,
    buffer: &mut [u8],
) -> Result<Input, TransportFault>
    requires { T.failed transport.old + 1 < 2 ^ 64 }
    ensures exact { ListensTo T.passed engine.old transport.old result engine.new transport.new }
    ensures failures { FailsWith result (T.failed transport.old) (T.failed transport.new) }
{
    let mut heard = Input {
        any: false,
        accepted: false,
    };
    for _ in rt.forever() {
        let Ok(found) = transport.receive(buffer) else {
            return Err(TransportFault);
        };
        let Some(len) = found else {
            return Ok(heard);
        };
        heard = on_datagram(engine, heard, &buffer[..len]);
    }
    unreachable!()
}

/// The engine takes a datagram in, or refuses it.
fn on_datagram(engine: &mut Engine, heard: Input, bytes: &[u8]) -> Input
    ensures { (r : Result (Unit {0}) Refusal) × DatagramGives engine.old bytes.now r engine.new ×
        (result ≡ after_one heard r) }
{
    let accepted = engine.on_datagram(bytes).is_ok();
    Input {
        any: true,
        accepted: heard.accepted || accepted,
    }
}

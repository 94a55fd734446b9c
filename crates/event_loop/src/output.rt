//! Sending what the engine emitted.

ghost use Rattle.std.specs.Prelude.{◌≡◌, ◌+◌, ◌<◌, ◌^◌};
ghost use Rattle.event_loop.specs.Exchanges.{FailsWith};
ghost use Rattle.event_loop.specs.Output.{SendsAll};

use crate::transport::{Transport, TransportFault};
use datagram::Bytes;

/// Sends the datagrams, each to its rank, in order.
pub(crate) fn send_all<T: Transport>(
    transport: &mut T,
    out: &[(u16, Bytes)],
) -> Result<(), TransportFault>
    requires { T.failed transport.old + 1 < 2 ^ 64 }
    ensures exact { SendsAll T.passed transport.old out.now result transport.new }
    ensures failures { FailsWith result (T.failed transport.old) (T.failed transport.new) }
{
    for (target, bytes) in out {
        let Ok(_) = transport.send(*target, bytes.as_slice()) else {
            return Err(TransportFault);
        };
    }
    Ok(())
}

//! What a runner does up to its next call.

ghost use Rattle.std.specs.Prelude.{◌≡◌, ◌+◌, ◌<◌, ◌^◌};
ghost use Rattle.event_loop.specs.Exchanges.{FailsWith};
ghost use Rattle.event_loop.specs.RunnerLines.{SpeaksTo};

use crate::runner::{Runner, RunnerStep};
use crate::transport::{Transport, TransportFault};
use engine::Reply;
use std::sync::Wait;

/// The runner goes on, told a reply or none: its lines are printed, up to its next call or its end.
pub(crate) fn speak<R: Wait, P: Runner, T: Transport>(
    rt: &R,
    runner: &mut P,
    reply: Option<Reply>,
    transport: &mut T,
) -> Result<RunnerStep, TransportFault>
    requires { T.failed transport.old + 1 < 2 ^ 64 }
    ensures exact { SpeaksTo P.does T.passed runner.old transport.old reply result runner.new transport.new }
    ensures failures { FailsWith result (T.failed transport.old) (T.failed transport.new) }
{
    let mut step = runner.next(reply);
    for _ in rt.forever() {
        match step {
            RunnerStep::Print(line) => {
                let Ok(_) = transport.print(line.as_slice()) else {
                    return Err(TransportFault);
                };
                step = runner.next(None);
            }
            last => return Ok(last),
        }
    }
    unreachable!()
}

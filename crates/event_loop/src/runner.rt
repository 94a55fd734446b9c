//! What a rank runs.

use datagram::Bytes;
use engine::{Call, Reply};

/// What a runner does next.
#[derive(Drop)]
pub enum RunnerStep {
    /// It calls its rank.
    Call(Call),
    /// It prints this line.
    Print(Bytes),
    /// It has ended with this status; the line of the script where that is a faulty one.
    End(u8, Option<usize>),
}

/// What a rank runs: it makes calls and prints lines, one after the other.
pub trait Runner {
    ghost use Rattle.std.specs.Prelude.{Option};
    ghost use Rattle.engine_calls.specs.declared.reply.Reply.{Reply};
    ghost use Rattle.event_loop.specs.declared.runner.RunnerStep.{RunnerStep};

    /// Between these states it was told this reply, or none, and did this.
    ghost does: { Self → Option Reply → RunnerStep → Self → Type 0 };

    /// What it does next, told the reply to the call that it made last; none at the start and after a line.
    fn next(&mut self, reply: Option<Reply>) -> RunnerStep
        ensures { does self.old reply result self.new };
}

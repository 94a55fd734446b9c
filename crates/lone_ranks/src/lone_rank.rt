//! A rank by itself.

ghost use Rattle.std.specs.Prelude.{◌≡◌, [], IfOk, IsTrue, length};
ghost use Rattle.event_loop.specs.Turns.{is_ready};
ghost use Rattle.lone_ranks.specs.LoneStates.{OpensAs, standing_of};

use crate::frames::{SentFrame, acknowledgement_of, header_of_frame};
use alike::{Alike, are_alike};
use datagram::{Bytes, Header};
use engine::{Call, Engine, Place, Refusal, Reply};
use event_loop::{Runner, RunnerState, RunnerStep};
use replies::reply_of;
use script_files::parse;
use script_runner::ScriptRunner;
use std::alloc::{AllocError, Global};
use std::marker::Model;
use std::mem;
use stepped_plays::PlayError;
use vocabulary::{Endpoint, MessageLimit, replace};

/// The number of the job in which ranks play.
const JOB: u64 = 1;

/// A rank of a script by itself.
pub struct LoneRank {
    alloc: Global,
    engine: Engine,
    runner: ScriptRunner,
    state: RunnerState<()>,
    /// The lines that it printed, in order.
    lines: Vec<Bytes>,
    /// The numbers of its refused calls, in order.
    refused: Vec<u8>,
    /// The frames that it sent and that weren't taken out yet, in order.
    sent: Vec<SentFrame>,
}

/// A drop of its own is proved here alone, and not in each crate that owns such ranks.
impl Drop for LoneRank {
    fn drop(self) {
        let LoneRank {
            alloc: _,
            engine: _engine,
            runner: _runner,
            state: _state,
            lines: _lines,
            refused: _refused,
            sent: _sent,
        } = self;
    }
}

impl Model for LoneRank {
    ghost use Rattle.lone_ranks.specs.LoneStates.{LoneState};

    ghost Value = { LoneState };

    ghost view = { λ r. record {
      engine = r.engine;
      runner = r.runner;
      state = r.state;
      lines = r.lines.items;
      refused = r.refused.items;
      sent = r.sent.items;
    } };
}

/// Whether both wait for the same: for nothing, told the same last; for an answer; or they have ended alike.
fn wait_alike(one: &RunnerState<()>, other: &RunnerState<()>) -> bool
    ensures { IsTrue result → one.now ≡ other.now }
{
    match (one, other) {
        (RunnerState::Ready(told), RunnerState::Ready(other_told)) => told.stands_as(other_told),
        (RunnerState::Blocked(()), RunnerState::Blocked(())) => true,
        (RunnerState::Over(status, line), RunnerState::Over(other_status, other_line)) => {
            status == other_status && line == other_line
        }
        _ => false,
    }
}

/// Takes what a rank that may go on was told last. None where it may not.
fn take_told(state: &mut RunnerState<()>) -> Option<Option<Reply>> {
    match mem::replace(state, RunnerState::Ready(None)) {
        RunnerState::Ready(told) => Some(told),
        other => {
            replace(state, other);
            None
        }
    }
}

/// The answer of its blocked call, if it is there.
fn hear(engine: &mut Engine, state: &mut RunnerState<()>) {
    let Some(completion) = engine.take_completion() else {
        return;
    };
    let told = reply_of(completion);
    replace(state, RunnerState::Ready(Some(told)));
}

/// A runner's call, at its rank.
fn call(
    engine: &mut Engine,
    asked: Call,
    state: &mut RunnerState<()>,
    refused: &mut Vec<u8>,
) -> Result<(), AllocError> {
    match engine.call(asked) {
        Reply::Blocked => {
            replace(state, RunnerState::Blocked(()));
            hear(engine, state);
            Ok(())
        }
        Reply::Refused(why, call) => {
            refused.push(why.number())?;
            replace(state, RunnerState::Ready(Some(Reply::Refused(why, call))));
            Ok(())
        }
        reply => {
            replace(state, RunnerState::Ready(Some(reply)));
            Ok(())
        }
    }
}

/// What a runner does next. Answers whether it is more than a line.
fn follow(
    engine: &mut Engine,
    step: RunnerStep,
    state: &mut RunnerState<()>,
    lines: &mut Vec<Bytes>,
    refused: &mut Vec<u8>,
) -> Result<bool, AllocError> {
    match step {
        RunnerStep::Print(line) => {
            lines.push(line)?;
            Ok(false)
        }
        RunnerStep::End(status, line) => {
            replace(state, RunnerState::Over(status, line));
            Ok(true)
        }
        RunnerStep::Call(asked) => {
            call(engine, asked, state, refused)?;
            Ok(true)
        }
    }
}

/// The runner goes on to its next call or its end, where it may.
fn go_on(
    engine: &mut Engine,
    runner: &mut ScriptRunner,
    state: &mut RunnerState<()>,
    lines: &mut Vec<Bytes>,
    refused: &mut Vec<u8>,
) -> Result<(), AllocError> {
    for _ in 0..u64::MAX {
        let Some(told) = take_told(state) else {
            return Ok(());
        };
        let step = runner.next(told);
        if follow(engine, step, state, lines, refused)? {
            return Ok(());
        }
    }
    Ok(())
}

/// A datagram comes to a rank. Answers whether it was taken.
fn hear_datagram(
    engine: &mut Engine,
    bytes: &[u8],
    state: &mut RunnerState<()>,
) -> Result<bool, AllocError> {
    match engine.on_datagram(bytes) {
        Ok(()) => {
            hear(engine, state);
            Ok(true)
        }
        Err(Refusal::OutOfMemory) => Err(AllocError),
        Err(_) => Ok(false),
    }
}

/// A datagram that leaves a rank: where it carries a frame this is kept, and acknowledged at once.
fn take_datagram(
    alloc: Global,
    engine: &mut Engine,
    frame: SentFrame,
    state: &mut RunnerState<()>,
    sent: &mut Vec<SentFrame>,
) -> Result<(), AllocError> {
    let Some(header) = header_of_frame(frame.bytes.as_slice()) else {
        drop(frame);
        return Ok(());
    };
    sent.push(frame)?;
    let answer = acknowledgement_of(alloc, &header)?;
    let _ = hear_datagram(engine, answer.as_slice(), state)?;
    Ok(())
}

/// What the engine sends is taken out, to where it sends no more.
fn take_sent(
    alloc: Global,
    engine: &mut Engine,
    state: &mut RunnerState<()>,
    sent: &mut Vec<SentFrame>,
) -> Result<(), AllocError> {
    for _ in 0..u64::MAX {
        if engine.is_through() {
            return Ok(());
        }
        for (target, bytes) in engine.take_out() {
            take_datagram(alloc, engine, SentFrame { target, bytes }, state, sent)?;
        }
    }
    Ok(())
}

fn error_of(refused: Refusal) -> PlayError {
    match refused {
        Refusal::OutOfMemory => PlayError::OutOfMemory,
        _ => PlayError::Size,
    }
}

impl LoneRank {
    /// This rank of so many of the script of this text, at its start.
    pub fn new(alloc: Global, text: &[u8], rank: u16, size: u16) -> Result<LoneRank, PlayError>
        ensures { IfOk result (λ lone. OpensAs text.now rank size lone) }
    {
        let script = parse(alloc, text)?;
        let runner = ScriptRunner::new(alloc, script, rank, 0)?;
        let endpoint = Endpoint {
            rank,
            incarnation: 0,
        };
        let place = Place {
            endpoint,
            size,
            job: JOB,
            message_limit: MessageLimit::least(),
        };
        match Engine::new(alloc, place) {
            Ok(engine) => Ok(LoneRank {
                alloc,
                engine,
                runner,
                state: RunnerState::Ready(None),
                lines: Vec::new(alloc),
                refused: Vec::new(alloc),
                sent: Vec::new(alloc),
            }),
            Err(refused) => {
                drop(runner);
                Err(error_of(refused))
            }
        }
    }

    /// Whether it may go on: it has not ended, and no call of it waits for its answer.
    pub fn may_go(&self) -> bool
        ensures { result ≡ is_ready self.now.state }
    {
        matches!(self.state, RunnerState::Ready(_))
    }

    /// It goes on, where it may: it makes its next call, with the lines before that which print; or it ends. The only
    /// error is want of memory, and the rank is not to be used then.
    pub fn go_on(&mut self) -> Result<(), AllocError> {
        go_on(
            &mut self.engine,
            &mut self.runner,
            &mut self.state,
            &mut self.lines,
            &mut self.refused,
        )?;
        self.take_sent()
    }

    /// A frame comes to it, as a datagram. Answers whether it was taken. The only error is want of memory, and the
    /// rank is not to be used then.
    pub fn come(&mut self, bytes: &[u8]) -> Result<bool, AllocError> {
        let taken = hear_datagram(&mut self.engine, bytes, &mut self.state)?;
        self.take_sent()?;
        Ok(taken)
    }

    fn take_sent(&mut self) -> Result<(), AllocError> {
        take_sent(
            self.alloc,
            &mut self.engine,
            &mut self.state,
            &mut self.sent,
        )
    }

    /// The frames that it has sent since they were taken out last, in order.
    pub fn take_frames(&mut self) -> Vec<SentFrame>
        ensures all { result.items ≡ self.old.sent }
        ensures rest { self.new ≡ record self.old { sent = [] } }
    {
        mem::replace(&mut self.sent, Vec::new(self.alloc))
    }

    /// How many lines of its script are left to it.
    pub fn lines_left(&self) -> usize
        ensures { result ≡ length self.now.runner.lines }
    {
        self.runner.lines_left()
    }

    /// The lines that it printed, in order.
    pub fn lines(&self) -> &[Bytes]
        ensures { result.now ≡ self.now.lines }
    {
        self.lines.as_slice()
    }

    /// Whether both stand alike, but for what wasn't taken out: their engines, what their scripts do next and what
    /// their names stand for, what they wait for, what they have printed, and which of their calls were refused.
    pub fn stands_as(&self, other: &LoneRank) -> bool
        ensures { IsTrue result → standing_of self.now ≡ standing_of other.now }
    {
        self.engine.stands_as(&other.engine)
            && self.runner.stands_as(&other.runner)
            && wait_alike(&self.state, &other.state)
            && are_alike(self.lines.as_slice(), other.lines.as_slice())
            && self.refused.as_slice() == other.refused.as_slice()
    }
}

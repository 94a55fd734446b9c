//! Events, and what they answer.

ghost use Rattle.std.specs.Prelude.{◌≡◌, IfOk, OnErr};
ghost use Rattle.world.specs.Steps.{HasOwnBytes};

use crate::refusal::WorldRefusal;
use datagram::Bytes;
use engine::{Call, Completion, Reply};
use std::alloc::{AllocError, Global};
use vocabulary::Endpoint;

/// What may happen in a world.
#[derive(Drop)]
pub enum Event {
    /// A rank is called.
    Call(u16, Call),
    /// The datagram of this number is delivered to the rank that it was emitted to. That may happen any number of
    /// times and at any later time; a lost datagram is one that is never delivered.
    Deliver(usize),
    /// Bytes that no engine of the job made come to a rank. They are always refused.
    Stray(u16, Bytes),
    /// A rank's clock says this many milliseconds.
    Tick(u16, u64),
    /// A rank is started anew, at the next incarnation. What it had is gone, and what its former incarnation emitted is
    /// still on its way.
    Restart(u16),
}

/// What the history holds of an event.
#[derive(Drop)]
pub struct HistoryEntry {
    /// The endpoint at which it happened: the rank, at the incarnation that it had. Of a restart that is the former
    /// one.
    pub endpoint: Endpoint,
    /// What happened.
    pub event: Event,
    /// What the call answered, if it was one.
    pub reply: Option<Reply>,
    /// The answer of a blocked call that was ready now, if one was.
    pub completion: Option<Completion>,
}

/// What a step added to the world.
#[derive(Clone, Copy, Debug, PartialEq, Eq)]
pub struct Stepped {
    /// The number of the first datagram that was emitted.
    pub first: usize,
    /// How many datagrams were emitted. Their numbers follow one another.
    pub count: usize,
    /// The place in the history of what happened.
    pub place: usize,
}

/// A refusal, with the event that was handed in.
#[derive(Drop)]
pub struct Failed {
    /// Why the event was refused.
    pub refused: WorldRefusal,
    /// The event, as it was handed in.
    pub event: Event,
    /// The number of the reset that went out, where the datagram was meant for a former incarnation of its target.
    pub reset: Option<usize>,
}

/// The events of a run that did not begin.
#[derive(Drop)]
pub struct FailedRun {
    /// Why it did not begin: room for the answers was wanting.
    pub refused: WorldRefusal,
    /// The events, as they were handed in.
    pub events: Vec<Event>,
}

/// What a step answers: what it added, or why the event was refused.
pub type StepResult = Result<Stepped, Failed>;

impl Event {
    /// The same event once more. The only error is want of memory, for the data of a call and for stray bytes.
    pub fn try_clone(&self, alloc: Global) -> Result<Event, AllocError>
        ensures copy { IfOk result (λ copy. copy ≡ self.now) }
        ensures bytes { OnErr result (HasOwnBytes self.now) }
    {
        match self {
            Event::Call(rank, call) => Ok(Event::Call(*rank, call.try_clone(alloc)?)),
            Event::Deliver(number) => Ok(Event::Deliver(*number)),
            Event::Stray(rank, bytes) => { Ok(Event::Stray(*rank, bytes.share()?)) }
            Event::Tick(rank, now) => Ok(Event::Tick(*rank, *now)),
            Event::Restart(rank) => Ok(Event::Restart(*rank)),
        }
    }
}

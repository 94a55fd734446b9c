//! The engine that mutated datagrams come to, beside one like it that gets only those that were taken.

use crate::shown::standing;
use datagram::{Bytes, Content};
use engine::{Call, Engine, Place, Refusal};
use seen_sums::Sum;
use std::alloc::Global;
use std::mem;
use vocabulary::{Endpoint, MessageLimit};

/// What became of a mutated datagram.
#[derive(Clone, Copy, Debug, PartialEq, Eq)]
pub enum Struck {
    /// Both engines took it.
    Taken,
    /// It was refused by this number, and nothing that can be seen changed.
    Refused(u8),
    /// A refusal changed something, or only one of the two took it.
    Unlike,
}

/// A rank of three, in job 1.
pub fn rank_of_three(alloc: Global, rank: u16, incarnation: u16) -> Option<Engine> {
    let place = Place {
        endpoint: Endpoint { rank, incarnation },
        size: 3,
        job: 1,
        message_limit: MessageLimit::least(),
    };
    Engine::new(alloc, place).ok()
}

/// The number of a refusal.
fn number_of(answer: Result<(), Refusal>) -> Option<u8> {
    answer.err().map(Refusal::number)
}

/// What an engine has emitted, and the sum of all that it shows.
fn taken(engine: &mut Engine) -> (Vec<(u16, Bytes)>, Sum) {
    let completion = engine.take_completion();
    let emitted = engine.take_out();
    let sum = standing(engine)
        .with_completion(&completion)
        .with_emitted(emitted.as_slice());
    drop(completion);
    (emitted, sum)
}

/// Whether bytes are a reset for the one who sent a datagram.
fn is_reset_for(reset: &[u8], struck: &[u8]) -> bool {
    match (datagram::read(reset), datagram::read(struck)) {
        (Ok(reset), Ok(struck)) => {
            matches!(reset.content, Content::Reset) && reset.header.target == struck.header.source
        }
        _ => false,
    }
}

/// Whether this may go out behind a refusal: a reset behind 29, but for one that was meant for a former incarnation,
/// else nothing.
fn may_go_out(number: u8, struck: &[u8], emitted: &[(u16, Bytes)]) -> bool {
    match emitted {
        [] => number != 29 || struck.get(5) == Some(&3),
        [(_target, reset)] => number == 29 && is_reset_for(reset.as_slice(), struck),
        _ => false,
    }
}

/// Both engines, of rank 0.
#[derive(Drop)]
pub struct Watched {
    engine: Engine,
    twin: Engine,
}

/// Both, if both are here.
// In code for every type a drop is one step of a proof; that of an engine takes each of its types in turn.
fn both<A: Drop>(one: Option<A>, other: Option<A>) -> Option<(A, A)> {
    match (one, other) {
        (Some(one), Some(other)) => Some((one, other)),
        _ => None,
    }
}

/// Both at their start, at an incarnation.
pub fn new_watched(alloc: Global, incarnation: u16) -> Option<Watched> {
    let one = rank_of_three(alloc, 0, incarnation);
    let other = rank_of_three(alloc, 0, incarnation);
    match both(one, other) {
        Some((engine, twin)) => Some(Watched { engine, twin }),
        None => None,
    }
}

impl Watched {
    /// Both are called. Answers whether they answer alike.
    pub fn call(&mut self, call: Call, copy: Call) -> bool {
        let one = self.engine.call(call);
        let other = self.twin.call(copy);
        let alike = Sum::new().with_reply(&one) == Sum::new().with_reply(&other);
        drop(one);
        drop(other);
        alike
    }

    /// A datagram comes to both. Answers whether both take it, or refuse it alike.
    pub fn deliver(&mut self, bytes: &[u8]) -> bool {
        let one = number_of(self.engine.on_datagram(bytes));
        one == number_of(self.twin.on_datagram(bytes))
    }

    /// The clock of both says so many milliseconds. Answers whether both take it.
    pub fn tick(&mut self, now: u64) -> bool {
        self.engine.tick(now).is_ok() && self.twin.tick(now).is_ok()
    }

    /// Both are started anew.
    pub fn restart(&mut self, fresh: Watched) {
        drop(mem::replace(self, fresh));
    }

    /// What both have emitted, if all that they show is alike.
    pub fn take(&mut self) -> Option<Vec<(u16, Bytes)>> {
        let (emitted, one) = taken(&mut self.engine);
        let (copy, other) = taken(&mut self.twin);
        drop(copy);
        if one == other {
            Some(emitted)
        } else {
            drop(emitted);
            None
        }
    }

    /// What became of a datagram that was refused by this number, by an engine that stood so before.
    fn refused(&mut self, number: u8, bytes: &[u8], before: Sum) -> Struck {
        let completion = self.engine.take_completion();
        let emitted = self.engine.take_out();
        let is_same = completion.is_none()
            && standing(&self.engine) == before
            && may_go_out(number, bytes, emitted.as_slice());
        drop(completion);
        drop(emitted);
        if is_same {
            Struck::Refused(number)
        } else {
            Struck::Unlike
        }
    }

    /// A mutated datagram comes to the one, and to the other where it was taken.
    pub fn strike(&mut self, bytes: &[u8]) -> Struck {
        let before = standing(&self.engine);
        match number_of(self.engine.on_datagram(bytes)) {
            Some(number) => self.refused(number, bytes, before),
            None if self.twin.on_datagram(bytes).is_ok() => Struck::Taken,
            None => Struck::Unlike,
        }
    }
}

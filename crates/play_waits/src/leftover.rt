//! Messages that nobody received, and requests that aren't finished: a world is asked for them.

use engine::{Call, Probe, Reply, Request};
use std::alloc::{AllocError, Global};
use vocabulary::{Source, Status};
use world::{Event, World};

/// A message that its rank never received.
#[derive(Clone, Copy, Debug)]
pub struct Leftover {
    /// The communicator, by its place among those that the rank holds.
    pub comm: usize,
    /// Its source, tag and length.
    pub status: Status,
}

impl Leftover {
    /// Whether both are of one source, with one tag, on one communicator.
    pub fn is_like(&self, other: &Leftover) -> bool {
        self.comm == other.comm
            && self.status.source == other.status.source
            && self.status.tag == other.status.tag
    }
}

/// What a call of this rank answers; none where it is refused.
pub fn answer_of(world: &mut World, rank: u16, call: Call) -> Option<&Reply> {
    match world.step(Event::Call(rank, call)) {
        Ok(stepped) => match world.history().get(stepped.place) {
            Some(entry) => entry.reply.as_ref(),
            None => None,
        },
        Err(failed) => {
            drop(failed);
            None
        }
    }
}

/// Whether the request of a rank that isn't blocked is unfinished.
fn is_left(world: &mut World, rank: u16, request: Request) -> bool {
    matches!(
        answer_of(world, rank, Call::Test(Some(request))),
        Some(Reply::Pending)
    )
}

/// Those of the requests that are unfinished.
pub fn left_of(
    alloc: Global,
    world: &mut World,
    rank: u16,
    requests: &[Option<Request>],
) -> Result<Vec<Option<Request>>, AllocError> {
    let mut left = Vec::new(alloc);
    for one in requests {
        if let Some(request) = one {
            if is_left(world, rank, *request) {
                left.push(Some(*request))?;
            }
        }
    }
    Ok(left)
}

/// Takes a message out that a rank holds and that no receive has taken.
fn take_one(world: &mut World, rank: u16, comm: usize) -> Option<Status> {
    let probe = Probe {
        comm: Some(comm),
        source: Source::Any,
        tag: None,
    };
    match answer_of(world, rank, Call::Improbe(probe)) {
        Some(Reply::Matched(Some((_, status)))) => Some(*status),
        _ => None,
    }
}

/// The messages of a rank that isn't blocked which it never received, on so many communicators that it holds.
pub fn leftovers_of(
    alloc: Global,
    world: &mut World,
    rank: u16,
    count: usize,
) -> Result<Vec<Leftover>, AllocError> {
    let mut leftovers = Vec::new(alloc);
    for comm in 0..count {
        for _ in 0..u64::MAX {
            match take_one(world, rank, comm) {
                Some(status) => leftovers.push(Leftover { comm, status })?,
                None => break,
            }
        }
    }
    Ok(leftovers)
}

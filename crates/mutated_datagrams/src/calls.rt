//! What ranks call, by chance.

use crate::chance::Chance;
use datatypes::Buffer;
use engine::{Block, Call, Entry, Mode, Operation, Probe, Receive, Region, Request, Send, Source};
use std::alloc::Global;
use vocabulary::BasicType;

/// So many bytes of one value.
fn copies(alloc: Global, value: u8, count: usize) -> Option<Buffer> {
    let mut elements = Buffer::new(alloc, BasicType::Uint8);
    elements.push_copies(u64::from(value), count).ok()?;
    Some(elements)
}

/// How many bytes a message has: mostly few, and sometimes more than a frame holds.
fn length(chance: &mut Chance) -> usize {
    match chance.small(10) {
        0 => 0,
        1 => 1_024,
        2 => 1_025,
        3 => 2_500,
        _ => 3,
    }
}

/// Whom a receive names.
fn source(chance: &mut Chance) -> Source {
    match chance.small(4) {
        0 => Source::Any,
        1 => Source::Null,
        _ => Source::Rank(u16::from(chance.small(3))),
    }
}

/// A tag, mostly.
fn tag(chance: &mut Chance) -> Option<u32> {
    if chance.one_in(3) {
        None
    } else {
        Some(u32::from(chance.small(3)))
    }
}

/// The place of a communicator that a rank may hold: mostly world.
fn communicator(chance: &mut Chance) -> Option<usize> {
    match chance.small(12) {
        0 => Some(2),
        1 => Some(1),
        2 => None,
        _ => Some(0),
    }
}

/// A request that may be there.
fn request(chance: &mut Chance) -> Option<Request> {
    if chance.one_in(8) {
        return None;
    }
    Some(Request {
        key: chance.place(8),
        serial: chance.below(30),
    })
}

fn send(alloc: Global, chance: &mut Chance) -> Option<Call> {
    let value = chance.byte();
    let count = length(chance);
    Some(Call::Isend(Send {
        mode: if chance.one_in(3) {
            Mode::Synchronous
        } else {
            Mode::Standard
        },
        comm: communicator(chance),
        target: Source::Rank(u16::from(chance.small(3))),
        tag: Some(u32::from(chance.small(3))),
        from: Region::whole(copies(alloc, value, count)?),
    }))
}

fn receive(alloc: Global, chance: &mut Chance) -> Option<Call> {
    let count = length(chance);
    Some(Call::Irecv(Receive {
        comm: communicator(chance),
        source: source(chance),
        tag: tag(chance),
        into: Region::whole(copies(alloc, 0, count)?),
    }))
}

fn probe(chance: &mut Chance) -> Probe {
    Probe {
        comm: communicator(chance),
        source: source(chance),
        tag: tag(chance),
    }
}

/// A block of a collective: some are more than a frame holds.
fn block(alloc: Global, chance: &mut Chance) -> Option<Block> {
    let value = chance.byte();
    let count = if chance.one_in(3) { 1_500 } else { 4 };
    Block::new(copies(alloc, value, count)?).ok()
}

fn collective(alloc: Global, chance: &mut Chance) -> Option<Entry> {
    Some(match chance.small(6) {
        0 => Entry::Dup,
        1 => Entry::Bcast(0, block(alloc, chance)?),
        2 => Entry::Allreduce(Operation::Sum, block(alloc, chance)?),
        3 => Entry::Gather(1, block(alloc, chance)?),
        _ => Entry::Barrier,
    })
}

/// A call.
pub fn call(alloc: Global, chance: &mut Chance) -> Option<Call> {
    Some(match chance.small(20) {
        0..=6 => send(alloc, chance)?,
        7..=11 => receive(alloc, chance)?,
        12 => Call::Wait(request(chance)),
        13 => Call::Test(request(chance)),
        14 => Call::Cancel(request(chance)),
        15 => Call::Iprobe(probe(chance)),
        16 => Call::Improbe(probe(chance)),
        17 => {
            let message = request(chance);
            Call::Mrecv(message, Region::whole(copies(alloc, 0, 2_500)?))
        }
        _ => Call::Enter(communicator(chance), collective(alloc, chance)?),
    })
}

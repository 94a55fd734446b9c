//! What happens in a row, and the events that it is.

use datatypes::Buffer;
use engine::{
    Block, Call, Entry, Mode, Operation, Question, Receive, Region, Reply, Request, Send, Source,
};
use std::alloc::Global;
use vocabulary::BasicType;
use world::{Event, World};

/// The elements of a buffer.
#[derive(Clone, Copy)]
pub enum Elements {
    /// So many UINT8 of one value.
    Bytes(u8, usize),
    /// One INT32.
    One(u8),
    /// The INT32 1, 2 and 3.
    OneTwoThree,
    /// Three INT32 that are 0.
    Zeros,
}

/// What happens. Ranks are those of world, and communicators and requests are named by their places and serials.
#[derive(Clone, Copy)]
pub enum Step {
    /// A rank starts a send on a communicator, to a rank of it, with a tag.
    Send(u16, usize, u16, u32, Elements),
    /// A rank starts a receive on a communicator, from a rank of it or from any, with a tag or with any.
    Receive(u16, usize, Source, Option<u32>, Elements),
    /// A rank waits for its request of this serial.
    Wait(u16, u64),
    /// A rank tests it.
    Test(u16, u64),
    /// A rank enters a barrier of world.
    Barrier(u16),
    /// A rank copies world.
    Dup(u16),
    /// A rank enters a reduction of world by AFFINE to all.
    Allreduce(u16, u64),
    /// A rank enters one to rank 3.
    Reduce(u16, u64),
    /// A rank asks for the members of a communicator.
    Members(u16, usize),
    /// A rank compares a communicator with world.
    Compare(u16, usize),
    /// A datagram is delivered.
    Deliver(usize),
    /// A rank's clock says this.
    Tick(u16, u64),
    /// A rank is started anew.
    Restart(u16),
    /// Clocks go on and all datagrams come, until the world is quiet.
    Settle,
}

/// So many elements of one value.
fn copies(alloc: Global, basic: BasicType, value: u8, count: usize) -> Option<Buffer> {
    let mut buffer = Buffer::new(alloc, basic);
    buffer.push_copies(u64::from(value), count).ok()?;
    Some(buffer)
}

/// The INT32 1, 2 and 3.
fn one_two_three(alloc: Global) -> Option<Buffer> {
    let mut buffer = Buffer::new(alloc, BasicType::Int32);
    for value in [1u8, 2, 3] {
        buffer.push_copies(u64::from(value), 1).ok()?;
    }
    Some(buffer)
}

fn buffer_of(alloc: Global, elements: Elements) -> Option<Region> {
    let buffer = match elements {
        Elements::Bytes(value, count) => copies(alloc, BasicType::Uint8, value, count)?,
        Elements::One(value) => copies(alloc, BasicType::Int32, value, 1)?,
        Elements::OneTwoThree => one_two_three(alloc)?,
        Elements::Zeros => copies(alloc, BasicType::Int32, 0, 3)?,
    };
    Some(Region::whole(buffer))
}

/// A block of one UINT64.
fn block_of(alloc: Global, value: u64) -> Option<Block> {
    let mut buffer = Buffer::new(alloc, BasicType::Uint64);
    buffer.push_number(value).ok()?;
    Block::new(buffer).ok()
}

/// The request of this serial that a rank started last.
fn request_of(world: &World, rank: u16, serial: u64) -> Option<Request> {
    let mut found = None;
    for entry in world.history() {
        if let (true, Some(Reply::Started(request))) = (entry.endpoint.rank == rank, &entry.reply) {
            if request.serial == serial {
                found = Some(*request);
            }
        }
    }
    found
}

fn send(alloc: Global, comm: usize, to: u16, tag: u32, elements: Elements) -> Option<Call> {
    Some(Call::Isend(Send {
        mode: Mode::Standard,
        comm: Some(comm),
        target: Source::Rank(to),
        tag: Some(tag),
        from: buffer_of(alloc, elements)?,
    }))
}

fn receive(
    alloc: Global,
    comm: usize,
    source: Source,
    tag: Option<u32>,
    elements: Elements,
) -> Option<Call> {
    Some(Call::Irecv(Receive {
        comm: Some(comm),
        source,
        tag,
        into: buffer_of(alloc, elements)?,
    }))
}

/// A rank enters a collective of world.
fn enter(rank: u16, entry: Entry) -> Event {
    Event::Call(rank, Call::Enter(Some(0), entry))
}

/// The event of a step; none for want of memory, where a request isn't there, or where the step is no single event.
pub fn event_of(alloc: Global, world: &World, step: Step) -> Option<Event> {
    Some(match step {
        Step::Send(rank, comm, to, tag, elements) => {
            Event::Call(rank, send(alloc, comm, to, tag, elements)?)
        }
        Step::Receive(rank, comm, source, tag, elements) => {
            Event::Call(rank, receive(alloc, comm, source, tag, elements)?)
        }
        Step::Wait(rank, serial) => {
            Event::Call(rank, Call::Wait(Some(request_of(world, rank, serial)?)))
        }
        Step::Test(rank, serial) => {
            Event::Call(rank, Call::Test(Some(request_of(world, rank, serial)?)))
        }
        Step::Barrier(rank) => enter(rank, Entry::Barrier),
        Step::Dup(rank) => enter(rank, Entry::Dup),
        Step::Allreduce(rank, value) => {
            let block = block_of(alloc, value)?;
            enter(rank, Entry::Allreduce(Operation::Affine, block))
        }
        Step::Reduce(rank, value) => {
            let block = block_of(alloc, value)?;
            enter(rank, Entry::Reduce(Operation::Affine, 3, block))
        }
        Step::Members(rank, comm) => Event::Call(rank, Call::Ask(Some(comm), Question::Group)),
        Step::Compare(rank, comm) => {
            Event::Call(rank, Call::Ask(Some(comm), Question::Compare(Some(0))))
        }
        Step::Deliver(number) => Event::Deliver(number),
        Step::Tick(rank, now) => Event::Tick(rank, now),
        Step::Restart(rank) => Event::Restart(rank),
        Step::Settle => return None,
    })
}

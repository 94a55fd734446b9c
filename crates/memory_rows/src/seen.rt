//! What can be seen of a world.

use seen_sums::Sum;
use world::{Event, HistoryEntry, World};

/// What can be seen of a world: its history, its datagrams, and whether it is quiet. It takes no memory.
#[derive(Clone, Copy, Debug, PartialEq, Eq)]
pub struct Seen {
    events: usize,
    datagrams: usize,
    sum: Sum,
    quiet: bool,
}

/// The sum with which event it was.
fn with_event(sum: Sum, event: &Event) -> Sum {
    match event {
        Event::Call(rank, _) => sum.with(1).with(u64::from(*rank)),
        Event::Deliver(number) => sum.with(2).with(*number as u64),
        Event::Stray(rank, bytes) => sum
            .with(3)
            .with(u64::from(*rank))
            .with_bytes(bytes.as_slice()),
        Event::Tick(rank, now) => sum.with(4).with(u64::from(*rank)).with(*now),
        Event::Restart(rank) => sum.with(5).with(u64::from(*rank)),
    }
}

/// The sum with an entry of the history.
fn with_entry(sum: Sum, entry: &HistoryEntry) -> Sum {
    let placed = sum
        .with(u64::from(entry.endpoint.rank))
        .with(u64::from(entry.endpoint.incarnation));
    let happened = with_event(placed, &entry.event);
    let replied = match &entry.reply {
        Some(reply) => happened.with(1).with_reply(reply),
        None => happened.with(0),
    };
    replied.with_completion(&entry.completion)
}

/// How many datagrams there are.
pub fn datagram_count(world: &World) -> usize {
    let mut count = 0usize;
    for number in 0..usize::MAX {
        if world.datagram(number).is_none() {
            break;
        }
        count = number.saturating_add(1);
    }
    count
}

/// The sum with all datagrams.
fn with_datagrams(sum: Sum, world: &World, count: usize) -> Sum {
    let mut all = sum;
    for number in 0..count {
        if let Some((rank, bytes)) = world.datagram(number) {
            all = all.with(u64::from(rank)).with_bytes(bytes);
        }
    }
    all
}

/// What can be seen of a world.
pub fn look_at(world: &World) -> Seen {
    let datagrams = datagram_count(world);
    let mut sum = with_datagrams(Sum::new(), world, datagrams);
    for entry in world.history() {
        sum = with_entry(sum, entry);
    }
    Seen {
        events: world.history().len(),
        datagrams,
        sum,
        quiet: world.is_quiet(),
    }
}

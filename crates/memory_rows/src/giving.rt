//! Gives the steps of a row to a world. An event that is refused with 14 is given again, once it was seen that nothing
//! changed.

ghost use Rattle.std.specs.Prelude.{◌≡◌};
ghost use Rattle.memory_rows.specs.declared.giving.Fault.TheVariants.{Output};

use crate::rows::Row;
use crate::seen::{Seen, datagram_count, look_at};
use crate::steps::{Step, event_of};
use simulation::{
    SimulateError, print_completion, print_datagram, print_refusal, print_reply, print_taken,
};
use std::alloc::Global;
use std::io;
use std::io::Write;
use world::{Event, Failed, HistoryEntry, Stepped, World};

/// How often a thing is tried for which memory was wanting.
const TRIES: u8 = 3;

/// Until when clocks go on at most, in milliseconds.
const LAST: u64 = 2_000;

/// Why a row ended before its end.
#[derive(Clone, Copy, Debug, PartialEq, Eq)]
pub enum Fault {
    /// A refusal changed something.
    Changed,
    /// Memory was wanting, again and again, or a request isn't there.
    OutOfMemory,
    /// The output failed.
    Output,
}

impl From<io::Error> for Fault {
    ghost from_gives = { λ _ e. e ≡ Output };

    fn from(_e: io::Error) -> Fault {
        Fault::Output
    }
}

/// Why something wasn't printed.
fn unprinted(e: SimulateError) -> Fault {
    match e {
        SimulateError::OutOfMemory => Fault::OutOfMemory,
        SimulateError::Line(_) | SimulateError::Output => Fault::Output,
    }
}

/// What became of an event.
#[derive(Drop)]
enum Tried {
    /// It ran, or was refused otherwise than for want of memory.
    Done,
    /// It was refused for want of memory, and came back.
    Again(Event),
}

/// So many datagrams from this number on.
fn print_emitted<W: Write>(
    world: &World,
    first: usize,
    count: usize,
    out: &mut W,
) -> Result<(), Fault> {
    for place in 0..count {
        let number = first.saturating_add(place);
        if let Some((_rank, bytes)) = world.datagram(number) {
            print_datagram(number, bytes, out)?;
        }
    }
    Ok(())
}

/// What an event answered.
fn print_answer<W: Write>(alloc: Global, entry: &HistoryEntry, out: &mut W) -> Result<(), Fault> {
    match &entry.reply {
        Some(reply) => print_reply(alloc, reply, out).map_err(unprinted),
        None => Ok(print_taken(out)?),
    }
}

/// What an event answered, emitted and completed.
fn print_stepped<W: Write>(
    alloc: Global,
    world: &World,
    stepped: Stepped,
    out: &mut W,
) -> Result<(), Fault> {
    let Some(entry) = world.history().get(stepped.place) else {
        return Ok(());
    };
    print_answer(alloc, entry, out)?;
    print_emitted(world, stepped.first, stepped.count, out)?;
    match &entry.completion {
        Some(completion) => {
            let rank = entry.endpoint.rank;
            print_completion(alloc, rank, completion, out).map_err(unprinted)
        }
        None => Ok(()),
    }
}

/// What became of an event that was refused in a world of which this was seen before.
fn after_refusal<W: Write>(
    world: &World,
    before: Seen,
    failed: Failed,
    out: &mut W,
) -> Result<Tried, Fault> {
    let number = failed.refused.number();
    let reset = failed.reset;
    if number != 29 && (look_at(world) != before || reset.is_some()) {
        drop(failed);
        return Err(Fault::Changed);
    }
    if number == 14 {
        writeln!(out, "# refused 14")?;
        return Ok(Tried::Again(failed.event));
    }
    drop(failed);
    print_refusal(number, out)?;
    if let Some(reset) = reset {
        print_emitted(world, reset, 1, out)?;
    }
    Ok(Tried::Done)
}

/// An event, with what it prints.
fn try_once<W: Write>(
    alloc: Global,
    world: &mut World,
    event: Event,
    out: &mut W,
) -> Result<Tried, Fault> {
    let before = look_at(world);
    match world.step(event) {
        Ok(stepped) => {
            print_stepped(alloc, world, stepped, out)?;
            Ok(Tried::Done)
        }
        Err(failed) => after_refusal(world, before, failed, out),
    }
}

/// An event, given until it isn't refused for want of memory.
fn give_event<W: Write>(
    alloc: Global,
    world: &mut World,
    event: Event,
    out: &mut W,
) -> Result<(), Fault> {
    let mut next = event;
    for _try in 0..TRIES {
        match try_once(alloc, world, next, out)? {
            Tried::Done => return Ok(()),
            Tried::Again(event) => next = event,
        }
    }
    drop(next);
    Err(Fault::OutOfMemory)
}

/// The event of a step.
fn made(alloc: Global, world: &World, step: Step) -> Result<Event, Fault> {
    for _try in 0..TRIES {
        if let Some(event) = event_of(alloc, world, step) {
            return Ok(event);
        }
    }
    Err(Fault::OutOfMemory)
}

/// What a world settles with isn't printed.
#[derive(Drop)]
struct Nowhere;

impl Write for Nowhere {
    fn write(&mut self, bytes: &[u8]) -> io::Result<usize> {
        Ok(bytes.len())
    }

    fn flush(&mut self) -> io::Result<()> {
        Ok(())
    }
}

/// All datagrams from this number on come, each once; how many there were then.
fn deliver_from(alloc: Global, world: &mut World, first: usize) -> Result<usize, Fault> {
    let count = datagram_count(world);
    for number in first..count {
        give_event(alloc, world, Event::Deliver(number), &mut Nowhere)?;
    }
    Ok(count)
}

/// Clocks go on and all datagrams come, until the world is quiet.
fn settle<W: Write>(alloc: Global, world: &mut World, out: &mut W) -> Result<(), Fault> {
    let mut first = 0;
    for round in 1..LAST / 20 {
        if world.is_quiet() {
            break;
        }
        let now = round.saturating_mul(20);
        give_event(alloc, world, Event::Tick(0, now), &mut Nowhere)?;
        give_event(alloc, world, Event::Tick(1, now), &mut Nowhere)?;
        first = deliver_from(alloc, world, first)?;
    }
    writeln!(out, "quiet: {}", world.is_quiet())?;
    Ok(())
}

/// A step, with what it prints.
fn give<W: Write>(alloc: Global, world: &mut World, step: Step, out: &mut W) -> Result<(), Fault> {
    match step {
        Step::Settle => settle(alloc, world, out),
        step => {
            let event = made(alloc, world, step)?;
            give_event(alloc, world, event, out)
        }
    }
}

/// Of no row more steps are looked for.
const MOST: usize = 100;

/// The steps of a row.
fn give_all<W: Write>(
    alloc: Global,
    world: &mut World,
    row: Row,
    out: &mut W,
) -> Result<(), Fault> {
    for _time in 1..row.times() {
        if let Some(step) = row.step(0) {
            give(alloc, world, step, out)?;
        }
    }
    for place in 0..MOST {
        match row.step(place) {
            Some(step) => give(alloc, world, step, out)?,
            None => break,
        }
    }
    Ok(())
}

/// A world of so many ranks.
fn world_of(alloc: Global, size: u16) -> Result<World, Fault> {
    for _try in 0..TRIES {
        if let Ok(world) = World::new(alloc, size) {
            return Ok(world);
        }
    }
    Err(Fault::OutOfMemory)
}

/// Runs a row in a world of its own, and prints its name and what each step prints.
pub fn run<W: Write>(alloc: Global, row: Row, out: &mut W) -> Result<(), Fault> {
    writeln!(out, "== {}", row.name())?;
    let mut world = world_of(alloc, row.size())?;
    let given = give_all(alloc, &mut world, row, out);
    drop(world);
    given
}

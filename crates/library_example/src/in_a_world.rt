//! Two ranks in a world, which numbers each datagram and keeps it.

use crate::calls::{print_received, receive, send};
use anyhow::bail;
use engine::{Call, Reply, Request};
use world::{Event, Stepped, World, WorldRefusal};

/// One event: the datagrams that it emitted, and its place in the history.
fn step(world: &mut World, event: Event) -> Result<Stepped, WorldRefusal> {
    match world.step(event) {
        Ok(stepped) => Ok(stepped),
        Err(failed) => Err(failed.refused),
    }
}

/// What the call of an event answered.
fn reply_of(world: &World, stepped: Stepped) -> Option<&Reply> {
    world.history().get(stepped.place)?.reply.as_ref()
}

/// Calls a rank for an operation, and answers its request.
fn start(world: &mut World, rank: u16, call: Call) -> Result<Request, anyhow::Error> {
    let started = step(world, Event::Call(rank, call))?;
    match reply_of(world, started) {
        Some(Reply::Started(request)) => Ok(*request),
        _ => bail!("no request was answered"),
    }
}

/// Rank 0 sends, its datagram is lost, and its clock sends it again. Rank 1 receives it once, though it comes twice.
fn lose_the_first(rt: &(impl Print + AllocGlobal), world: &mut World) -> Result<(), anyhow::Error> {
    let request = start(world, 1, receive(rt.alloc(), 0)?)?;
    let sent = step(world, Event::Call(0, send(rt.alloc(), 1)?))?;
    println!(rt; "  datagram {} is lost", sent.first)?;
    let again = step(world, Event::Tick(0, 20))?;
    println!(rt;
        "  datagram {} goes out at 20 ms, and comes twice",
        again.first
    )?;
    let taken = step(world, Event::Deliver(again.first))?;
    let _repeated = step(world, Event::Deliver(again.first))?;

    let waited = step(world, Event::Call(1, Call::Wait(Some(request))))?;
    if let Some(Reply::Done(answer)) = reply_of(world, waited) {
        print_received(rt, answer)?;
    }
    println!(rt; "  quiet: {}", world.is_quiet())?;
    let _acknowledged = step(world, Event::Deliver(taken.first))?;
    println!(rt; "  quiet: {}", world.is_quiet())?;
    Ok(())
}

/// A world and what happens in it.
pub fn run(rt: &(impl Print + AllocGlobal)) -> Result<(), anyhow::Error> {
    let mut world = World::new(rt.alloc(), 2)?;
    lose_the_first(rt, &mut world)
}

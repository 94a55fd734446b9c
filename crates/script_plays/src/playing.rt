//! Scripts that play in a world.

ghost use Rattle.std.specs.Prelude.{◌≡◌, ◌≤◌, ◌↔◌, ◌⊎◌, length, IfOk, IfErr, OnOk, IsTrue, Err, Result, slice_get};
ghost use Rattle.point_to_point_calls.specs.declared.refusal.Refusal.TheVariants as lowers;
ghost use Rattle.script_plays.specs.Events.{AreEventsOf};
ghost use Rattle.script_plays.specs.MeaningViews.{PlaysTheOneMeaning};
ghost use Rattle.script_plays.specs.Plays.{EventGives, MoveGives, PlayGives, ScheduleGives, players_of, with_told};
ghost use Rattle.vocabulary.specs.Limits.{most_ranks};
ghost use Rattle.world.specs.Headline.{IsRunOfMachine};
ghost use Rattle.world.specs.WorldState.{is_outside};
ghost use Rattle.world.specs.declared.event.Event.TheVariants as events;
ghost use Rattle.world.specs.declared.event.Failed.{Failed};
ghost use Rattle.world.specs.declared.event.Stepped.{Stepped};

use crate::moves::Move;
use engine::MOST_RANKS;
use script_files::Script;
use script_players::Played;
use std::alloc::{AllocError, Global};
use world::{Event, HistoryEntry, World, WorldRefusal};

/// The answer to a blocked call that an event brought, if it brought one, is told to the rank at which the event
/// happened.
fn tell(alloc: Global, players: &mut Vec<Played>, entry: &HistoryEntry) -> Result<(), AllocError>
    ensures { OnOk result (players.new.items ≡
        with_told players.old.items entry.now.endpoint.rank entry.now.completion
        (slice_get players.old.items entry.now.endpoint.rank)) }
{
    let rank = entry.endpoint.rank as usize;
    if rank >= players.len() {
        return Ok(());
    }
    let player = &mut players[rank];
    player.hear(alloc, &entry.completion)
}

/// An event that is no call: refused, it changes nothing of the players.
fn happen(
    alloc: Global,
    world: &mut World,
    players: &mut Vec<Played>,
    event: Event,
) -> Result<(), AllocError>
    ensures exact { OnOk result ((answer : Result Stepped Failed) ×
        EventGives (record { world = world.old; players = players.old.items }) event answer
        (record { world = world.new; players = players.new.items })) }
    ensures headline { IsRunOfMachine world.new }
{
    match world.step(event) {
        Ok(stepped) => tell(alloc, players, &world.history()[stepped.place]),
        Err(failed) => {
            drop(failed);
            Ok(())
        }
    }
}

/// The runner of a rank goes on, where it may; at an unknown rank nothing happens.
fn go(
    alloc: Global,
    world: &mut World,
    players: &mut Vec<Played>,
    rank: u16,
) -> Result<(), AllocError>
    requires { length players.old.items ≡ length world.old.engines }
    ensures { OnOk result (MoveGives (record { world = world.old; players = players.old.items }) (Move.Go rank)
        (record { world = world.new; players = players.new.items })) }
{
    if rank as usize >= players.len() {
        return Ok(());
    }
    let player = &mut players[rank as usize];
    player.go_on(alloc, world, rank)
}

/// One move. The only error is want of memory, and then the world and the players are left as they came to be so far.
pub fn make_move(
    alloc: Global,
    world: &mut World,
    players: &mut Vec<Played>,
    next: Move,
) -> Result<(), AllocError>
    requires { length players.old.items ≡ length world.old.engines }
    ensures { OnOk result (MoveGives (record { world = world.old; players = players.old.items }) next
        (record { world = world.new; players = players.new.items })) }
{
    match next {
        Move::Go(rank) => go(alloc, world, players, rank),
        Move::Deliver(number) => happen(alloc, world, players, Event::Deliver(number)),
        Move::Tick(rank, now) => happen(alloc, world, players, Event::Tick(rank, now)),
    }
}

/// All moves.
fn make_moves(
    alloc: Global,
    world: &mut World,
    players: &mut Vec<Played>,
    schedule: &[Move],
) -> Result<(), AllocError>
    requires { length players.old.items ≡ length world.old.engines }
    ensures { OnOk result (ScheduleGives (record { world = world.old; players = players.old.items }) schedule.now
        (record { world = world.new; players = players.new.items })) }
{
    for next in schedule {
        let _seen = world.history();
        make_move(alloc, world, players, *next)?;
    }
    let _seen = world.history();
    Ok(())
}

/// The players of scripts, each at its start, by rank. The only error is want of memory.
pub fn all_begin(alloc: Global, scripts: Vec<Script>) -> Result<Vec<Played>, AllocError>
    requires { length scripts.items ≤ most_ranks }
    ensures { IfOk result (λ players. players.items ≡ players_of 0 scripts.items) }
{
    let mut players = Vec::new(alloc);
    for script in scripts {
        let rank = players.len() as u16;
        players.push(Played::new(alloc, script, rank)?)?;
    }
    Ok(players)
}

/// Scripts, one for each rank of a world, 1 to 1,024 of them, play by a schedule: move by move, a runner goes on, a
/// datagram is delivered, or a clock goes on.
///
/// `Move::Go` takes one step of its rank's runner: a line, an end, or a call, which the world takes or refuses. What it
/// replies is told to the runner as it goes on next; of a refused call the number is noted, and told too. At a rank
/// that is blocked, has ended or isn't there nothing happens. A delivery or a tick that the world refuses changes
/// nothing; else it tells the rank at which it happened the answer to its blocked call, if it brought that.
///
/// Refused with 13 for another number of scripts, else with 14: the world so far is lost with it.
pub fn play(
    alloc: Global,
    scripts: Vec<Script>,
    schedule: &[Move],
) -> Result<(World, Vec<Played>), WorldRefusal>
    ensures limit { (result ≡ Err (WorldRefusal.Engine lowers.Limit)) ↔ IsTrue (is_outside (length scripts.items)) }
    ensures refused { IfErr result (λ e. (e ≡ WorldRefusal.Engine lowers.Limit) ⊎ (e ≡ WorldRefusal.Engine lowers.OutOfMemory)) }
    ensures exact { IfOk result (λ out. PlayGives scripts.items schedule.now (record { world = out.0; players = out.1.items })) }
    ensures history { IfOk result (λ out. AreEventsOf schedule.now out.0.history) }
    ensures one_meaning { IfOk result (λ out. PlaysTheOneMeaning scripts.items (record { world = out.0; players = out.1.items })) }
{
    if scripts.is_empty() || scripts.len() > MOST_RANKS as usize {
        drop(scripts);
        return Err(WorldRefusal::Engine(engine::Refusal::Limit));
    }
    let mut world = World::new(alloc, scripts.len() as u16)?;
    let Ok(mut players) = all_begin(alloc, scripts) else {
        drop(world);
        return Err(WorldRefusal::Engine(engine::Refusal::OutOfMemory));
    };
    match make_moves(alloc, &mut world, &mut players, schedule) {
        Ok(()) => Ok((world, players)),
        Err(_) => {
            drop(world);
            drop(players);
            Err(WorldRefusal::Engine(engine::Refusal::OutOfMemory))
        }
    }
}

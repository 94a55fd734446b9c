//! What a world is asked behind the end of a play.

use crate::operations::Operations;
use engine::Request;
use play_waits::{
    Communicators, Leftover, blocked_in, left_of, leftovers_of, requests_in, waits_alone,
};
use script_plays::{Move, Played, play};
use std::alloc::{AllocError, Global};
use stepped_plays::{PlayError, scripts_of};
use world::World;

/// What the ranks of a play answered behind its end.
#[derive(Drop)]
pub struct Asked {
    /// The messages that each rank never received.
    pub leftovers: Vec<Vec<Leftover>>,
    /// Of each rank whose call waits for all of several requests those that are unfinished.
    pub left: Vec<Vec<Option<Request>>>,
}

/// Whether a rank can be asked: its call isn't blocked, or waits without changing anything by itself.
fn can_be_asked(player: &Played) -> bool {
    match blocked_in(player) {
        Some(call) => waits_alone(call),
        None => true,
    }
}

/// Whose last step is left out, so that they can be asked.
fn are_held(alloc: Global, players: &[Played]) -> Result<Vec<bool>, AllocError> {
    let mut held = Vec::new(alloc);
    for player in players {
        held.push(blocked_in(player).is_some() && can_be_asked(player))?;
    }
    Ok(held)
}

/// Whether this is the last step of a rank that is held, seen from the end.
fn is_last_of_held(held: &mut [bool], one: Move) -> bool {
    if let Move::Go(rank) = one {
        if let Some(is_held) = held.get_mut(rank as usize) {
            let is_last = *is_held;
            *is_held = false;
            return is_last;
        }
    }
    false
}

/// The schedule without the last step of each rank whose call is blocked and waits alone. Such a call changes nothing,
/// so the others go on as they do.
fn without_waits(
    alloc: Global,
    schedule: &[Move],
    players: &[Played],
) -> Result<Vec<Move>, AllocError> {
    let mut held = are_held(alloc, players)?;
    let mut shorter = Vec::new(alloc);
    for one in schedule.iter().rev() {
        if !is_last_of_held(&mut held, *one) {
            shorter.push(*one)?;
        }
    }
    shorter.reverse();
    Ok(shorter)
}

/// The world behind a play of this schedule.
fn world_behind(
    alloc: Global,
    text: &[u8],
    size: u16,
    schedule: &[Move],
) -> Result<World, PlayError> {
    let scripts = scripts_of(alloc, text, size)?;
    let (world, players) = play(alloc, scripts, schedule)?;
    drop(players);
    Ok(world)
}

impl Asked {
    /// A rank that can't be asked answers nothing.
    fn pass(&mut self, alloc: Global) -> Result<(), AllocError> {
        self.left.push(Vec::new(alloc))?;
        self.leftovers.push(Vec::new(alloc))?;
        Ok(())
    }

    /// A rank of so many communicators answers.
    fn ask(
        &mut self,
        alloc: Global,
        world: &mut World,
        rank: u16,
        player: &Played,
        count: usize,
    ) -> Result<(), AllocError> {
        let requests = match blocked_in(player) {
            Some(call) => requests_in(call),
            None => &[],
        };
        self.left.push(left_of(alloc, world, rank, requests)?)?;
        self.leftovers
            .push(leftovers_of(alloc, world, rank, count)?)?;
        Ok(())
    }
}

/// What the ranks answer behind the end of the play of this schedule, which left them so: how their requests stand, and
/// which messages they never received. A rank in a collective, or whose message is under way to it, can't be asked.
pub fn asked_of(
    alloc: Global,
    text: &[u8],
    schedule: &[Move],
    players: &[Played],
    communicators: &Communicators,
    operations: &mut Operations,
) -> Result<Asked, PlayError> {
    let size = u16::try_from(players.len()).unwrap_or(u16::MAX);
    let shorter = without_waits(alloc, schedule, players)?;
    let mut world = world_behind(alloc, text, size, &shorter)?;
    let mut asked = Asked {
        leftovers: Vec::new(alloc),
        left: Vec::new(alloc),
    };
    for (place, player) in players.iter().enumerate() {
        let rank = u16::try_from(place).unwrap_or(u16::MAX);
        if !can_be_asked(player) {
            asked.pass(alloc)?;
            continue;
        }
        operations.ask(&mut world, rank);
        asked.ask(alloc, &mut world, rank, player, communicators.count(rank))?;
    }
    drop(world);
    Ok(asked)
}

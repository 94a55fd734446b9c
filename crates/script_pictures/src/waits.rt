//! The ranks that wait for ever.

use engine::{Call, Request};
use play_waits::{
    CycleArrow, Wait, Waiter, Waiting, blocked_in, communicators_of, cycle_in, left_of,
    requests_in, waiting_of, waits_alone,
};
use run_drawings::CycleWait;
use script_plays::{Move, Played, RunnerState, play};
use std::alloc::{AllocError, Global};
use stepped_plays::{PlayError, SteppedPlay, scripts_of};
use world::World;

/// For what a rank waits for ever, in words.
#[derive(Drop)]
pub(crate) struct StuckRank {
    /// The rank.
    pub rank: u16,
    /// The words.
    pub words: Vec<u8>,
    /// Whom it waits for.
    pub wait: Wait,
}

/// A rank that waits so for ever.
fn stuck_rank(rank: u16, waiting: Waiting) -> StuckRank {
    let Waiting {
        words,
        whom,
        any_of,
    } = waiting;
    StuckRank {
        rank,
        words: words.into_text(),
        wait: Wait { whom, any_of },
    }
}

/// Whether no rank can go on, and nothing is on its way.
fn is_over(play: &SteppedPlay) -> bool {
    play.world().is_quiet()
        && !play
            .players()
            .iter()
            .any(|player| matches!(player.state(), RunnerState::Ready(_)))
}

/// Whether this rank is blocked in a call that changes nothing by itself.
fn stands_alone(players: &[Played], rank: u16) -> bool {
    match players.get(rank as usize) {
        Some(player) => match blocked_in(player) {
            Some(call) => waits_alone(call),
            None => false,
        },
        None => false,
    }
}

/// The schedule without the last step of each rank that is blocked in a call that changes nothing by itself.
fn without_waits(
    alloc: Global,
    schedule: &[Move],
    players: &[Played],
) -> Result<Vec<Move>, AllocError> {
    let mut waits = vec![in alloc; false; players.len()]?;
    for rank in 0..u16::try_from(players.len()).unwrap_or(u16::MAX) {
        if let Some(cell) = waits.get_mut(rank as usize) {
            *cell = stands_alone(players, rank);
        }
    }
    let mut shorter = Vec::new(alloc);
    for next in schedule.iter().rev() {
        if !is_last_wait(&mut waits, *next) {
            shorter.push(*next)?;
        }
    }
    shorter.reverse();
    Ok(shorter)
}

/// Whether this is the last step of a rank in a call that waits, seen from the end of the schedule.
fn is_last_wait(waits: &mut Vec<bool>, next: Move) -> bool {
    if let Move::Go(rank) = next {
        if let Some(cell) = waits.get_mut(rank as usize) {
            let is_last = *cell;
            *cell = false;
            return is_last;
        }
    }
    false
}

/// The world in front of the calls in which ranks wait.
fn world_before(
    alloc: Global,
    text: &[u8],
    schedule: &[Move],
    players: &[Played],
) -> Result<World, PlayError> {
    let shorter = without_waits(alloc, schedule, players)?;
    let size = u16::try_from(players.len()).unwrap_or(u16::MAX);
    let (world, ended) = play(alloc, scripts_of(alloc, text, size)?, &shorter)?;
    drop(ended);
    Ok(world)
}

/// Whether a rank waits for all of several requests.
fn waits_for_several(player: &Played) -> bool {
    matches!(blocked_in(player), Some(Call::Waitall(_)))
}

/// Those requests of a rank's call that are unfinished, of one that waits for all of several.
fn left(
    alloc: Global,
    before: &mut Option<World>,
    rank: u16,
    call: &Call,
) -> Result<Vec<Option<Request>>, AllocError> {
    match before {
        Some(world) => left_of(alloc, world, rank, requests_in(call)),
        None => Ok(Vec::new(alloc)),
    }
}

/// A play that is at its end.
#[derive(Clone, Copy)]
pub(crate) struct EndedPlay<'a> {
    /// The allocator.
    pub alloc: Global,
    /// The script.
    pub text: &'a [u8],
    /// The schedule.
    pub schedule: &'a [Move],
    /// The play.
    pub play: &'a SteppedPlay,
}

impl EndedPlay<'_> {
    /// The world in front of the calls in which ranks wait, where one of these waits for all of several requests.
    fn before(&self) -> Result<Option<World>, PlayError> {
        let players = self.play.players();
        if players.iter().any(|player| waits_for_several(player)) {
            Ok(Some(world_before(self.alloc, self.text, self.schedule, players)?))
        } else {
            Ok(None)
        }
    }

    /// The ranks that wait for ever, rising.
    pub(crate) fn stuck_ranks(&self) -> Result<Vec<StuckRank>, PlayError> {
        let mut stuck = Vec::new(self.alloc);
        let players = self.play.players();
        if !is_over(self.play) || !players.iter().any(|player| blocked_in(player).is_some()) {
            return Ok(stuck);
        }
        let history = self.play.world().history();
        let size = u16::try_from(players.len()).unwrap_or(u16::MAX);
        let communicators = communicators_of(self.alloc, size, history, &[])?;
        let mut before = self.before()?;
        for rank in 0..size {
            let Some(player) = players.get(rank as usize) else {
                continue;
            };
            if let Some(call) = blocked_in(player) {
                let left = left(self.alloc, &mut before, rank, call)?;
                let waiter = Waiter {
                    alloc: self.alloc,
                    rank,
                    history,
                    communicators: &communicators,
                };
                stuck.push(stuck_rank(rank, waiting_of(waiter, call, &left)?))?;
            }
        }
        Ok(stuck)
    }
}

/// What is known of this rank, if it waits for ever.
fn stuck_at(stuck: &[StuckRank], rank: u16) -> Option<&StuckRank> {
    for one in stuck {
        if one.rank == rank {
            return Some(one);
        }
    }
    None
}

/// Whom each of so many ranks waits for.
fn waits_of(alloc: Global, size: u16, stuck: &[StuckRank]) -> Result<Vec<Wait>, AllocError> {
    let mut waits = Vec::new(alloc);
    for rank in 0..size {
        let mut wait = Wait {
            whom: Vec::new(alloc),
            any_of: Vec::new(alloc),
        };
        if let Some(one) = stuck_at(stuck, rank) {
            wait.whom.extend_from_slice(&one.wait.whom)?;
            wait.any_of.extend_from_slice(&one.wait.any_of)?;
        }
        waits.push(wait)?;
    }
    Ok(waits)
}

/// For what this rank waits, in words.
fn words_of(alloc: Global, stuck: &[StuckRank], rank: u16) -> Result<Vec<u8>, AllocError> {
    match stuck_at(stuck, rank) {
        Some(one) => Vec::from_slice(alloc, &one.words),
        None => Ok(Vec::new(alloc)),
    }
}

/// The waits of the cycle in which these of so many ranks are; none where they are in none.
pub(crate) fn cycle_waits(
    alloc: Global,
    size: u16,
    stuck: &[StuckRank],
) -> Result<Vec<CycleWait>, AllocError> {
    let mut told = Vec::new(alloc);
    let waits = waits_of(alloc, size, stuck)?;
    let Some(cycle) = cycle_in(alloc, &waits)? else {
        return Ok(told);
    };
    for arrow in cycle.arrows(alloc, &waits)? {
        let CycleArrow { rank, whom } = arrow;
        let words = words_of(alloc, stuck, rank)?;
        told.push(CycleWait { rank, whom, words })?;
    }
    Ok(told)
}

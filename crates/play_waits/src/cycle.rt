//! Ranks that wait for one another, so that none of them can go on.

use crate::knot::{Knot, Wait, add_knot, knot_in};
use crate::page::Page;
use std::alloc::{AllocError, Global};

/// Ranks that wait for one another, so that none of them can go on.
#[derive(Drop)]
pub enum Cycle {
    /// Each of them waits for the next one, and the first of them is the last one again.
    Round(Vec<u16>),
    /// One of them waits for any of several.
    Knot(Knot),
}

/// A rank of a cycle, and those of the cycle for which it waits.
#[derive(Drop)]
pub struct CycleArrow {
    /// The rank.
    pub rank: u16,
    /// For whom it waits.
    pub whom: Vec<u16>,
}

/// The first rank that this one waits for and that waits itself.
fn next_of(waits: &[Wait], rank: u16) -> Option<u16> {
    for other in &waits.get(rank as usize)?.whom {
        if let Some(theirs) = waits.get(*other as usize) {
            if !theirs.whom.is_empty() {
                return Some(*other);
            }
        }
    }
    None
}

/// The ranks on the way from this one, up to where it comes to a rank for the second time, which is the last of them;
/// none where it ends before.
fn way_from(alloc: Global, waits: &[Wait], start: u16) -> Result<Option<Vec<u16>>, AllocError> {
    let mut way = Vec::new(alloc);
    let mut rank = start;
    for _ in 0..waits.len() + 1 {
        let is_there = way.contains(&rank);
        way.push(rank)?;
        if is_there {
            return Ok(Some(way));
        }
        match next_of(waits, rank) {
            Some(next) => rank = next,
            None => return Ok(None),
        }
    }
    Ok(None)
}

/// The part of a way that goes round: from where its last rank stands for the first time.
fn round_of(alloc: Global, way: &[u16]) -> Result<Vec<u16>, AllocError> {
    let mut round = Vec::new(alloc);
    if let Some(last) = way.last() {
        for rank in way {
            if !round.is_empty() || rank == last {
                round.push(*rank)?;
            }
        }
    }
    Ok(round)
}

/// Ranks each of which waits for the next one, the first of which is the last one again; none where there are no such
/// ranks.
fn round_in(alloc: Global, waits: &[Wait]) -> Result<Option<Vec<u16>>, AllocError> {
    for rank in 0..u16::try_from(waits.len()).unwrap_or(u16::MAX) {
        if let Some(way) = way_from(alloc, waits, rank)? {
            return Ok(Some(round_of(alloc, &way)?));
        }
    }
    Ok(None)
}

/// A cycle of ranks, if there is one: one in which each waits for one rank, or else one in which a rank waits for any of
/// several. Of each rank it is said whom it waits for.
pub fn cycle_in(alloc: Global, waits: &[Wait]) -> Result<Option<Cycle>, AllocError> {
    if let Some(round) = round_in(alloc, waits)? {
        return Ok(Some(Cycle::Round(round)));
    }
    Ok(knot_in(alloc, waits)?.map(|knot| Cycle::Knot(knot)))
}

/// Who waits for whom in a cycle each rank of which waits for the next one.
fn arrows_of_round(alloc: Global, round: &[u16]) -> Result<Vec<CycleArrow>, AllocError> {
    let mut arrows = Vec::new(alloc);
    for (rank, next) in round.iter().zip(round.iter().skip(1)) {
        let whom = vec![in alloc; *next; 1]?;
        arrows.push(CycleArrow { rank: *rank, whom })?;
    }
    Ok(arrows)
}

/// Those of the ranks for which one waits that belong to a cycle.
fn awaited_of(alloc: Global, wait: &Wait, ranks: &[u16]) -> Result<Vec<u16>, AllocError> {
    let mut awaited = Vec::new(alloc);
    for other in wait.whom.iter().chain(wait.any_of.iter()) {
        if ranks.contains(other) && !awaited.contains(other) {
            awaited.push(*other)?;
        }
    }
    Ok(awaited)
}

/// Who waits for whom in a cycle in which a rank waits for any of several.
fn arrows_of_knot(
    alloc: Global,
    waits: &[Wait],
    knot: &Knot,
) -> Result<Vec<CycleArrow>, AllocError> {
    let mut arrows = Vec::new(alloc);
    for rank in &knot.ranks {
        if let Some(wait) = waits.get(*rank as usize) {
            let whom = awaited_of(alloc, wait, &knot.ranks)?;
            if !whom.is_empty() {
                arrows.push(CycleArrow { rank: *rank, whom })?;
            }
        }
    }
    Ok(arrows)
}

impl Cycle {
    /// Who waits for whom in it, where of each rank it is said whom it waits for.
    pub fn arrows(&self, alloc: Global, waits: &[Wait]) -> Result<Vec<CycleArrow>, AllocError> {
        match self {
            Cycle::Round(round) => arrows_of_round(alloc, round),
            Cycle::Knot(knot) => arrows_of_knot(alloc, waits, knot),
        }
    }
}

/// Adds `rank R waits for rank S, which waits for rank R`.
fn add_round(page: &mut Page, round: &[u16]) -> Result<(), AllocError> {
    page.add("a cycle: ")?;
    for (place, rank) in round.iter().enumerate() {
        page.add(match place {
            0 => "",
            1 => " waits for ",
            _ => ", which waits for ",
        })?;
        page.add_rank(*rank)?;
    }
    page.add("\n")
}

/// Adds who waits for whom in a cycle.
pub fn add_cycle(page: &mut Page, waits: &[Wait], cycle: &Cycle) -> Result<(), AllocError> {
    match cycle {
        Cycle::Round(round) => add_round(page, round),
        Cycle::Knot(knot) => add_knot(page, waits, knot),
    }
}

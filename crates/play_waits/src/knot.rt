//! Ranks that wait for one another where one of them waits for any of several.

use crate::page::Page;
use std::alloc::{AllocError, Global};

/// Whom a rank waits for; nobody, where it doesn't wait.
#[derive(Drop)]
pub struct Wait {
    /// The ranks without any of which it can't go on.
    pub whom: Vec<u16>,
    /// The ranks of which one is enough, whichever it is.
    pub any_of: Vec<u16>,
}

/// A rank that waits for any of several ranks, each of which waits for it in the end.
#[derive(Drop)]
pub struct Knot {
    /// The rank, and behind it all for which it and they wait, each once.
    pub ranks: Vec<u16>,
    /// Those of the several that wait themselves.
    pub any_of: Vec<u16>,
    /// Whether each of them waits for the rank itself.
    pub is_plain: bool,
}

impl Wait {
    fn is_empty(&self) -> bool {
        self.whom.is_empty() && self.any_of.is_empty()
    }

    /// Whether it waits for this rank.
    fn names(&self, rank: u16) -> bool {
        self.whom.contains(&rank) || self.any_of.contains(&rank)
    }

    /// Whether it waits for this rank and for nobody else.
    fn names_alone(&self, rank: u16) -> bool {
        self.names(rank)
            && self.whom.iter().all(|one| *one == rank)
            && self.any_of.iter().all(|one| *one == rank)
    }
}

/// Whom this rank waits for, if it does.
fn wait_of(waits: &[Wait], rank: u16) -> Option<&Wait> {
    match waits.get(rank as usize) {
        Some(wait) => { if wait.is_empty() { None } else { Some(wait) } }
        None => None,
    }
}

/// Adds those of these ranks that wait themselves and aren't there yet.
fn add_waiting(all: &mut Vec<u16>, waits: &[Wait], ranks: &[u16]) -> Result<(), AllocError> {
    for rank in ranks {
        if wait_of(waits, *rank).is_some() && !all.contains(rank) {
            all.push(*rank)?;
        }
    }
    Ok(())
}

/// This rank, and all that wait and for which it waits, or one that is there.
fn all_awaited(alloc: Global, waits: &[Wait], start: u16) -> Result<Vec<u16>, AllocError> {
    let mut all = Vec::new(alloc);
    all.push(start)?;
    for place in 0..waits.len() {
        let Some(rank) = all.get(place).copied() else {
            return Ok(all);
        };
        if let Some(wait) = wait_of(waits, rank) {
            add_waiting(&mut all, waits, &wait.whom)?;
            add_waiting(&mut all, waits, &wait.any_of)?;
        }
    }
    Ok(all)
}

/// Whether the first rank is waited for, in the end, by the second.
fn leads_to(alloc: Global, waits: &[Wait], rank: u16, from: u16) -> Result<bool, AllocError> {
    if let Some(wait) = wait_of(waits, from) {
        if wait.names(rank) {
            return Ok(true);
        }
    }
    for one in all_awaited(alloc, waits, from)?.as_slice() {
        if let Some(wait) = wait_of(waits, *one) {
            if wait.names(rank) {
                return Ok(true);
            }
        }
    }
    Ok(false)
}

fn all_lead_to(
    alloc: Global,
    waits: &[Wait],
    rank: u16,
    several: &[u16],
) -> Result<bool, AllocError> {
    for other in several {
        if !leads_to(alloc, waits, rank, *other)? {
            return Ok(false);
        }
    }
    Ok(true)
}

fn are_plain(waits: &[Wait], rank: u16, several: &[u16]) -> bool {
    several.iter().all(|other| match wait_of(waits, *other) {
        Some(wait) => wait.names_alone(rank),
        None => false,
    })
}

/// The knot at a rank that waits for any of several, if all of them that wait themselves wait for it in the end.
fn knot_at(alloc: Global, waits: &[Wait], rank: u16) -> Result<Option<Knot>, AllocError> {
    let Some(wait) = wait_of(waits, rank) else {
        return Ok(None);
    };
    let mut any_of = Vec::new(alloc);
    add_waiting(&mut any_of, waits, &wait.any_of)?;
    if any_of.is_empty() || !all_lead_to(alloc, waits, rank, &any_of)? {
        return Ok(None);
    }
    let is_plain = are_plain(waits, rank, &any_of);
    Ok(Some(Knot {
        ranks: all_awaited(alloc, waits, rank)?,
        any_of,
        is_plain,
    }))
}

/// The knot of the lowest rank that waits for any of several, each of which waits for it in the end; none where there
/// is no such rank. Of each rank it is said whom it waits for.
pub(crate) fn knot_in(alloc: Global, waits: &[Wait]) -> Result<Option<Knot>, AllocError> {
    for rank in 0..u16::try_from(waits.len()).unwrap_or(u16::MAX) {
        if let Some(knot) = knot_at(alloc, waits, rank)? {
            return Ok(Some(knot));
        }
    }
    Ok(None)
}

/// Adds ranks as numbers, a comma between two.
fn add_numbers(page: &mut Page, ranks: &[u16]) -> Result<(), AllocError> {
    for (place, rank) in ranks.iter().enumerate() {
        if place > 0 {
            page.add(", ")?;
        }
        page.add_number(*rank as usize)?;
    }
    Ok(())
}

/// Adds `rank R waits for rank S`, or `rank R waits for any of S, T`.
fn add_wait(page: &mut Page, waits: &[Wait], rank: u16) -> Result<(), AllocError> {
    page.add_rank(rank)?;
    page.add(" waits for ")?;
    if let Some(wait) = wait_of(waits, rank) {
        for (place, other) in wait.whom.iter().enumerate() {
            if place > 0 {
                page.add(" and ")?;
            }
            page.add_rank(*other)?;
        }
        if !wait.any_of.is_empty() {
            page.add(if wait.whom.is_empty() {
                "any of "
            } else {
                " and any of "
            })?;
            add_numbers(page, &wait.any_of)?;
        }
    }
    Ok(())
}

/// Adds who waits for whom, from the rank on that waits for any of several.
pub(crate) fn add_knot(page: &mut Page, waits: &[Wait], knot: &Knot) -> Result<(), AllocError> {
    let Some(first) = knot.ranks.first() else {
        return Ok(());
    };
    page.add("a cycle: ")?;
    if knot.is_plain {
        page.add_rank(*first)?;
        page.add(" waits for any of ")?;
        add_numbers(page, &knot.any_of)?;
        page.add(match knot.any_of.len() {
            1 => ", which waits for ",
            2 => ", which both wait for ",
            _ => ", which all wait for ",
        })?;
        page.add_rank(*first)?;
        return page.add("\n");
    }
    for (place, rank) in knot.ranks.iter().enumerate() {
        if place > 0 {
            page.add("; ")?;
        }
        add_wait(page, waits, *rank)?;
    }
    page.add("\n")
}

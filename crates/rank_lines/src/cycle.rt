//! Ranks that wait for one another.

ghost use Rattle.std.specs.Prelude.{◌≡◌, IfOk, IfSome, Contains};
ghost use Rattle.rank_lines.specs.Cycles.{IsCycle};

use std::alloc::{AllocError, Global};

/// That a rank waits for another one.
#[derive(Clone, Copy, Debug, PartialEq, Eq)]
pub struct Wait {
    /// The rank that waits.
    pub rank: u16,
    /// The rank without which it can't go on.
    pub other: u16,
}

/// The first of these waits that is one of this rank.
fn wait_of(waits: &[Wait], rank: u16) -> Option<Wait>
    ensures { IfSome result (λ wait. Contains waits.now wait × (wait.rank ≡ rank)) }
{
    for place in 0..waits.len() {
        let wait = waits[place];
        if wait.rank == rank {
            return Some(wait);
        }
    }
    None
}

/// The cycle to which the first wait of each rank leads from this rank on, where it leads back to it. Only want of memory
/// is an error.
#[tactic(auto, using(crate::proofs::CycleLaws::waiting_more, crate::proofs::CycleLaws::first_more, crate::proofs::CycleLaws::closed))]
fn cycle_through(alloc: Global, waits: &[Wait], start: u16) -> Result<Option<Vec<u16>>, AllocError>
    ensures { IfOk result (λ found. IfSome found (λ cycle. IsCycle waits.now cycle.items)) }
{
    let mut way = Vec::new(alloc);
    let mut last = start;
    for _ in 0..waits.len() {
        let Some(wait) = wait_of(waits, last) else {
            return Ok(None);
        };
        way.push(last)?;
        if wait.other == start {
            return Ok(Some(way));
        }
        last = wait.other;
    }
    Ok(None)
}

/// Ranks of which each waits for the next, and the last for the first: the first such cycle that is found where of each
/// rank the first of these waits counts. Only want of memory is an error.
pub fn cycle_of(alloc: Global, waits: &[Wait]) -> Result<Option<Vec<u16>>, AllocError>
    // What is told is a cycle. That there is none where none is told isn't claimed.
    ensures { IfOk result (λ found. IfSome found (λ cycle. IsCycle waits.now cycle.items)) }
{
    for wait in waits {
        let found = cycle_through(alloc, waits, wait.rank)?;
        if found.is_some() {
            return Ok(found);
        }
    }
    Ok(None)
}

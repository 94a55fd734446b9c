//! The plan of a split.

ghost use Rattle.std.specs.Prelude.{◌≡◌, ◌<◌, length, map, IfOk, IsOkUnless, IsPermutation, IsSorted};
ghost use Rattle.std.specs.List.Sorted.{IsNonDecreasingBy};
ghost use Rattle.context_agreement.specs.Splits.{IsSplitPlan, IsCut, IsRun, colour_number, full_order};

use crate::refusal::ContextRefusal;
use crate::split_part::SplitPart;
use std::alloc::{AllocError, Global};

/// What a member of a communicator that is split gives (MPI 3.1, 6.4.2). The fields stand in the
/// order in which rows are sorted.
#[derive(Clone, Copy, PartialEq, Eq, PartialOrd, Ord)]
pub struct SplitRow {
    /// The communicator that it asks for; `None` for none.
    pub colour: Option<u32>,
    /// Where it wants to stand among those of its colour.
    pub key: i32,
    /// Its rank in the old communicator.
    pub rank: u16,
}

/// The communicators into which the members of a communicator are split: one for each colour, in
/// rising order, its members in the order of their keys, and of their old ranks where keys are
/// equal. A member without a colour is in none (MPI 3.1, 6.4.2).
pub fn split_plan(alloc: Global, rows: &[SplitRow]) -> Result<Vec<SplitPart>, ContextRefusal>
    ensures ok { IfOk result (λ plan. IsSplitPlan rows.now plan.items) }
    ensures err { IsOkUnless result ContextRefusal.OutOfMemory }
{
    let Ok(mut sorted) = Vec::from_slice(alloc, rows) else {
        return Err(ContextRefusal::OutOfMemory);
    };
    sort_rows(&mut sorted);
    match split_at_colours(alloc, &sorted) {
        Ok(plan) => Ok(plan),
        Err(_) => Err(ContextRefusal::OutOfMemory),
    }
}

/// Sorts rows by colour, key and old rank; those without a colour come first.
fn sort_rows(rows: &mut Vec<SplitRow>)
    ensures permutation { IsPermutation rows.old.items rows.new.items }
    ensures sorted { IsSorted full_order rows.new.items }
{
    rows.sort_unstable();
}

/// Cuts rows that are sorted into the parts of their colours.
fn split_at_colours(alloc: Global, sorted: &[SplitRow]) -> Result<Vec<SplitPart>, AllocError>
    requires { IsNonDecreasingBy (λ row. colour_number row.colour) sorted.now }
    ensures { IfOk result (λ plan. IsCut sorted.now plan.items) }
{
    let mut plan = Vec::new(alloc);
    let mut start = 0;
    while start < sorted.len() {
        let end = end_of_colour(sorted, start);
        if let Some(colour) = sorted[start].colour {
            let ranks = ranks_of(alloc, &sorted[start..end])?;
            plan.push(SplitPart { colour, ranks })?;
        }
        start = end;
    }
    Ok(plan)
}

/// Where the rows end that have the colour of the one at this index.
fn end_of_colour(sorted: &[SplitRow], start: usize) -> usize
    requires { start < length sorted.now }
    ensures { IsRun sorted.now start result }
{
    let mut end = start + 1;
    while end < sorted.len() && sorted[end].colour == sorted[start].colour {
        end += 1;
    }
    end
}

/// The old ranks of the rows, in their order.
fn ranks_of(alloc: Global, rows: &[SplitRow]) -> Result<Vec<u16>, AllocError>
    ensures { IfOk result (λ ranks. ranks.items ≡ map (λ row. row.rank) rows.now) }
{
    rows.iter().map(|row| row.rank).collect(alloc)
}

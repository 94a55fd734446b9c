//! Plans in which each member exchanges blocks with each other one, pair by pair.

ghost use Rattle.std.specs.Prelude.{◌≡◌, ◌<◌, ◌≤◌, ◌-◌, ◌++◌, [], IfOk, OnOk};
ghost use Rattle.collective_plans.specs.Exchanges.{all_receives, all_sends, allgather, alltoall, exchange, falling};
ghost use Rattle.collective_plans.specs.Exchanges.{folds, reduce_scatter_block, rising, source_of, target_of};

use crate::plan::{Slot, Step};
use std::alloc::{AllocError, Global};

/// What is sent to a member: its own block, or the one block for each.
fn source(each: bool, to: u32) -> Slot
    ensures { result ≡ source_of each to }
{
    if each {
        Slot::Given(to)
    } else {
        Slot::Given(0)
    }
}

/// Where the block of a member comes.
fn target(kept: bool, from: u32) -> Slot
    ensures { result ≡ target_of kept from }
{
    if kept {
        Slot::Kept(from)
    } else {
        Slot::Got(from)
    }
}

/// Adds sends to the members from the first one on, below the end.
pub fn push_sends(plan: &mut Vec<Step>, each: bool, first: u32, end: u32) -> Result<(), AllocError>
    requires { first ≤ end }
    ensures { OnOk result (plan.new.items ≡ plan.old.items ++ all_sends (source_of each) (rising first (end - first))) }
{
    for to in first..end {
        plan.push(Step::Send(to, source(each, to)))?;
    }
    Ok(())
}

/// Adds receives from the members from the first one on, so many, the last one first.
pub fn push_receives(
    plan: &mut Vec<Step>,
    kept: bool,
    first: u32,
    count: u32,
) -> Result<(), AllocError>
    requires { (first ≤ 65536) × (count ≤ 65536) }
    ensures { OnOk result (plan.new.items ≡ plan.old.items ++ all_receives (target_of kept) (falling first count)) }
{
    for step in 0..count {
        let from = first + (count - 1 - step);
        plan.push(Step::Receive(from, target(kept, from)))?;
    }
    Ok(())
}

/// Adds an exchange, in which each block goes to its member or one to all, and blocks are kept or are the result.
fn push_exchange(
    plan: &mut Vec<Step>,
    each: bool,
    kept: bool,
    size: u32,
    rank: u32,
) -> Result<(), AllocError>
    requires size { size ≤ 65536 }
    requires rank { rank < size }
    ensures { OnOk result (plan.new.items ≡ plan.old.items ++ exchange size rank (source_of each) (target_of kept) []) }
{
    plan.push(Step::Copy(source(each, rank), target(kept, rank)))?;
    push_sends(plan, each, rank + 1, size)?;
    push_sends(plan, each, 0, rank)?;
    push_receives(plan, kept, 0, rank)?;
    push_receives(plan, kept, rank + 1, size - (rank + 1))?;
    Ok(())
}

/// Block j of what a member gets is what member j hands in for it (MPI 3.1, 5.8).
pub fn alltoall(alloc: Global, size: u32, rank: u32) -> Result<Vec<Step>, AllocError>
    requires size { size ≤ 65536 }
    requires rank { rank < size }
    ensures { IfOk result (λ plan. plan.items ≡ alltoall size rank) }
{
    let mut plan = Vec::new(alloc);
    push_exchange(&mut plan, true, false, size, rank)?;
    Ok(plan)
}

/// Block j of what a member gets is what member j hands in (MPI 3.1, 5.7).
pub fn allgather(alloc: Global, size: u32, rank: u32) -> Result<Vec<Step>, AllocError>
    requires size { size ≤ 65536 }
    requires rank { rank < size }
    ensures { IfOk result (λ plan. plan.items ≡ allgather size rank) }
{
    let mut plan = Vec::new(alloc);
    push_exchange(&mut plan, false, false, size, rank)?;
    Ok(plan)
}

/// Adds the folds of what is kept of members 0 to `last`: each goes into the block of the higher rank.
pub fn push_folds(plan: &mut Vec<Step>, last: u32) -> Result<(), AllocError>
    requires { last < 65536 }
    ensures { OnOk result (plan.new.items ≡ plan.old.items ++ folds 0 last) }
{
    for step in 0..last {
        let high = Slot::Kept(step + 1);
        plan.push(Step::Fold(Slot::Kept(step), high, high))?;
    }
    plan.push(Step::Copy(Slot::Kept(last), Slot::Got(0)))?;
    Ok(())
}

/// What a member gets is the fold of what all hand in for it, in the order of ranks (MPI 3.1, 5.10.1).
pub fn reduce_scatter_block(alloc: Global, size: u32, rank: u32) -> Result<Vec<Step>, AllocError>
    requires size { size ≤ 65536 }
    requires rank { rank < size }
    ensures { IfOk result (λ plan. plan.items ≡ reduce_scatter_block size rank) }
{
    let mut plan = Vec::new(alloc);
    push_exchange(&mut plan, true, true, size, rank)?;
    push_folds(&mut plan, size - 1)?;
    Ok(plan)
}

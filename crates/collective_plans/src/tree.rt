//! Plans by trees: a range of ranks is cut into halves, each with a member that holds its block.

ghost use Rattle.std.specs.Prelude.{◌≡◌, ◌<◌, ◌≤◌, ◌+◌, ◌-◌, ◌/◌, ◌∷◌, [], ◌++◌, ◌==◌, false, IfOk, OnOk};
ghost use Rattle.collective_plans.specs.Scripts.{Hands, part};
ghost use Rattle.collective_plans.specs.Trees.{collect, first_holder, joins, middle, other_holder, second_holder};
ghost use Rattle.collective_plans.specs.Trees.{spread, tree_allreduce, tree_barrier, tree_broadcast, tree_reduce};

use crate::plan::{Slot, Step};
use std::alloc::{AllocError, Global};

/// Who holds the block of the half in which the holder of the whole isn't.
fn other_holder(middle: u32, low: u32, holder: u32) -> u32
    ensures { result ≡ other_holder middle low holder }
{
    if holder < middle { middle } else { low }
}

/// Who holds the block of the first half.
fn first_holder(middle: u32, low: u32, holder: u32) -> u32
    ensures { result ≡ first_holder middle low holder }
{
    if holder < middle { holder } else { low }
}

/// Who holds the block of the second half.
fn second_holder(middle: u32, holder: u32) -> u32
    ensures { result ≡ second_holder middle holder }
{
    if holder < middle { middle } else { holder }
}

/// Adds a member's part of handing a block of the holder to another one, into the same slot.
fn push_handing(
    plan: &mut Vec<Step>,
    block: Slot,
    holder: u32,
    other: u32,
    rank: u32,
) -> Result<(), AllocError>
    requires { (holder == other) ≡ false }
    ensures { OnOk result (plan.new.items ≡ plan.old.items ++ part rank (Hands holder block other block ∷ [])) }
{
    if rank == holder {
        plan.push(Step::Send(other, block))?;
    } else if rank == other {
        plan.push(Step::Receive(holder, block))?;
    }
    Ok(())
}

/// Adds the part of `rank`, which is one of `count` members from `low` on, of handing the holder's block to all of
/// them.
pub fn push_spread(
    plan: &mut Vec<Step>,
    block: Slot,
    low: u32,
    count: u32,
    holder: u32,
    rank: u32,
) -> Result<(), AllocError>
    requires range { low + count ≤ 65536 }
    requires rank { (low ≤ rank) × (rank < low + count) }
    requires holder { (low ≤ holder) × (holder < low + count) }
    ensures { OnOk result (plan.new.items ≡ plan.old.items ++ part rank (spread count block low count holder)) }
{
    if count < 2 {
        return Ok(());
    }
    let first = count - count / 2;
    let middle = low + first;
    push_handing(plan, block, holder, other_holder(middle, low, holder), rank)?;
    if rank < middle {
        push_spread(
            plan,
            block,
            low,
            first,
            first_holder(middle, low, holder),
            rank,
        )
    } else {
        push_spread(
            plan,
            block,
            middle,
            count / 2,
            second_holder(middle, holder),
            rank,
        )
    }
}

/// Adds a member's part of folding what another one hands to the holder, the lower rank first.
fn push_joining(plan: &mut Vec<Step>, holder: u32, other: u32, rank: u32) -> Result<(), AllocError>
    requires { (holder == other) ≡ false }
    ensures { OnOk result (plan.new.items ≡ plan.old.items ++ part rank (joins holder other)) }
{
    if rank == other {
        plan.push(Step::Send(holder, Slot::Kept(0)))?;
    } else if rank == holder {
        plan.push(Step::Receive(other, Slot::Kept(1)))?;
        if holder < other {
            plan.push(Step::Fold(Slot::Kept(0), Slot::Kept(1), Slot::Kept(1)))?;
            plan.push(Step::Copy(Slot::Kept(1), Slot::Kept(0)))?;
        } else {
            plan.push(Step::Fold(Slot::Kept(1), Slot::Kept(0), Slot::Kept(0)))?;
        }
    }
    Ok(())
}

/// Adds the part of `rank`, which is one of `count` members from `low` on, of folding all their blocks at the holder.
pub fn push_collect(
    plan: &mut Vec<Step>,
    low: u32,
    count: u32,
    holder: u32,
    rank: u32,
) -> Result<(), AllocError>
    requires range { low + count ≤ 65536 }
    requires rank { (low ≤ rank) × (rank < low + count) }
    requires holder { (low ≤ holder) × (holder < low + count) }
    ensures { OnOk result (plan.new.items ≡ plan.old.items ++ part rank (collect count low count holder)) }
{
    if count < 2 {
        return Ok(());
    }
    let first = count - count / 2;
    let middle = low + first;
    let other = other_holder(middle, low, holder);
    if rank < middle {
        push_collect(plan, low, first, first_holder(middle, low, holder), rank)?;
        push_joining(plan, holder, other, rank)
    } else {
        push_collect(plan, middle, count / 2, second_holder(middle, holder), rank)?;
        push_joining(plan, holder, other, rank)
    }
}

/// What each member gets is what the root hands in (MPI 3.1, 5.4).
pub fn tree_broadcast(
    alloc: Global,
    size: u32,
    root: u32,
    rank: u32,
) -> Result<Vec<Step>, AllocError>
    requires size { size ≤ 65536 }
    requires rank { rank < size }
    requires root { root < size }
    ensures { IfOk result (λ plan. plan.items ≡ tree_broadcast size root rank) }
{
    let mut plan = Vec::new(alloc);
    if rank == root {
        plan.push(Step::Copy(Slot::Given(0), Slot::Got(0)))?;
    }
    push_spread(&mut plan, Slot::Got(0), 0, size, root, rank)?;
    Ok(plan)
}

/// Adds a member's part of a reduction to a root.
fn push_reducing(plan: &mut Vec<Step>, size: u32, root: u32, rank: u32) -> Result<(), AllocError>
    requires size { size ≤ 65536 }
    requires rank { rank < size }
    requires root { root < size }
    ensures { OnOk result (plan.new.items ≡ plan.old.items ++ tree_reduce size root rank) }
{
    plan.push(Step::Copy(Slot::Given(0), Slot::Kept(0)))?;
    push_collect(plan, 0, size, root, rank)?;
    if rank == root {
        plan.push(Step::Copy(Slot::Kept(0), Slot::Got(0)))?;
    }
    Ok(())
}

/// What the root gets is the fold of what all hand in, where the operation is associative (MPI 3.1, 5.9.1).
pub fn tree_reduce(alloc: Global, size: u32, root: u32, rank: u32) -> Result<Vec<Step>, AllocError>
    requires size { size ≤ 65536 }
    requires rank { rank < size }
    requires root { root < size }
    ensures { IfOk result (λ plan. plan.items ≡ tree_reduce size root rank) }
{
    let mut plan = Vec::new(alloc);
    push_reducing(&mut plan, size, root, rank)?;
    Ok(plan)
}

/// What each member gets is the fold of what all hand in, where the operation is associative (MPI 3.1, 5.9.6).
pub fn tree_allreduce(alloc: Global, size: u32, rank: u32) -> Result<Vec<Step>, AllocError>
    requires size { size ≤ 65536 }
    requires rank { rank < size }
    ensures { IfOk result (λ plan. plan.items ≡ tree_allreduce size rank) }
{
    let mut plan = Vec::new(alloc);
    push_reducing(&mut plan, size, 0, rank)?;
    push_spread(&mut plan, Slot::Got(0), 0, size, 0, rank)?;
    Ok(plan)
}

/// No member is past it before all have entered (MPI 3.1, 5.3): an allreduce of nothing.
pub fn tree_barrier(alloc: Global, size: u32, rank: u32) -> Result<Vec<Step>, AllocError>
    requires size { size ≤ 65536 }
    requires rank { rank < size }
    ensures { IfOk result (λ plan. plan.items ≡ tree_barrier size rank) }
{
    tree_allreduce(alloc, size, rank)
}

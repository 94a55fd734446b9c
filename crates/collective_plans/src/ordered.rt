//! Reductions in the order of ranks, for operations that aren't associative.

ghost use Rattle.std.specs.Prelude.{◌≡◌, ◌<◌, ◌≤◌, ◌-◌, ◌∷◌, [], ◌++◌, IfOk, OnOk};
ghost use Rattle.collective_plans.specs.declared.plan.Slot.TheVariants.{Given, Kept};
ghost use Rattle.collective_plans.specs.Ordered.{folds_in, ordered_allreduce, ordered_reduce, takes};
ghost use Rattle.collective_plans.specs.Scripts.{part};

use crate::plan::{Slot, Step};
use crate::tree::push_spread;
use std::alloc::{AllocError, Global};

/// Adds what the root does for the block of a member: its own stands there.
fn push_taking(plan: &mut Vec<Step>, root: u32, member: u32, into: Slot) -> Result<(), AllocError>
    ensures { OnOk result (plan.new.items ≡ plan.old.items ++ part root (takes (λ x. Given 0) root member into ∷ [])) }
{
    if member == root {
        plan.push(Step::Copy(Slot::Given(0), into))?;
    } else {
        plan.push(Step::Receive(member, into))?;
    }
    Ok(())
}

/// Adds what the root does for the blocks of all members but the first: each comes in turn, and is folded in.
fn push_folds_in(plan: &mut Vec<Step>, size: u32, root: u32) -> Result<(), AllocError>
    requires { 0 < size }
    ensures { OnOk result (plan.new.items ≡
        plan.old.items ++ part root (folds_in (λ x. Given 0) root (Kept 0) (Kept 1) 1 (size - 1))) }
{
    let mut low = Slot::Kept(0);
    let mut high = Slot::Kept(1);
    for member in 1..size {
        push_taking(plan, root, member, high)?;
        plan.push(Step::Fold(low, high, high))?;
        let folded = high;
        high = low;
        low = folded;
    }
    plan.push(Step::Copy(low, Slot::Got(0)))?;
    Ok(())
}

/// Adds a member's part of a reduction to a root.
fn push_ordered(plan: &mut Vec<Step>, size: u32, root: u32, rank: u32) -> Result<(), AllocError>
    requires rank { rank < size }
    requires root { root < size }
    ensures { OnOk result (plan.new.items ≡ plan.old.items ++ ordered_reduce size root rank) }
{
    if rank == root {
        push_taking(plan, root, 0, Slot::Kept(0))?;
        push_folds_in(plan, size, root)?;
    } else {
        plan.push(Step::Send(root, Slot::Given(0)))?;
    }
    Ok(())
}

/// What the root gets is the fold of what all hand in, in the order of ranks (MPI 3.1, 5.9.1).
pub fn ordered_reduce(
    alloc: Global,
    size: u32,
    root: u32,
    rank: u32,
) -> Result<Vec<Step>, AllocError>
    requires rank { rank < size }
    requires root { root < size }
    ensures { IfOk result (λ plan. plan.items ≡ ordered_reduce size root rank) }
{
    let mut plan = Vec::new(alloc);
    push_ordered(&mut plan, size, root, rank)?;
    Ok(plan)
}

/// What each member gets is the fold of what all hand in, in the order of ranks (MPI 3.1, 5.9.6).
pub fn ordered_allreduce(alloc: Global, size: u32, rank: u32) -> Result<Vec<Step>, AllocError>
    requires size { size ≤ 65536 }
    requires rank { rank < size }
    ensures { IfOk result (λ plan. plan.items ≡ ordered_allreduce size rank) }
{
    let mut plan = Vec::new(alloc);
    push_ordered(&mut plan, size, 0, rank)?;
    push_spread(&mut plan, Slot::Got(0), 0, size, 0, rank)?;
    Ok(plan)
}

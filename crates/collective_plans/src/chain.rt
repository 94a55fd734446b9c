//! Plans in which each member takes a fold from the one before it, and hands one to the next.

ghost use Rattle.std.specs.Prelude.{◌≡◌, ◌<◌, ◌≤◌, IfOk};
ghost use Rattle.collective_plans.specs.Exchanges.{exscan, scan};

use crate::plan::{Slot, Step};
use std::alloc::{AllocError, Global};

/// What a member gets is the fold of what all up to it hand in, in the order of ranks (MPI 3.1, 5.11.1).
pub fn scan(alloc: Global, size: u32, rank: u32) -> Result<Vec<Step>, AllocError>
    requires size { size ≤ 65536 }
    requires rank { rank < size }
    ensures { IfOk result (λ plan. plan.items ≡ scan size rank) }
{
    let mut plan = Vec::new(alloc);
    if rank == 0 {
        plan.push(Step::Copy(Slot::Given(0), Slot::Got(0)))?;
    } else {
        plan.push(Step::Receive(rank - 1, Slot::Kept(0)))?;
        plan.push(Step::Fold(Slot::Kept(0), Slot::Given(0), Slot::Got(0)))?;
    }
    if rank + 1 < size {
        plan.push(Step::Send(rank + 1, Slot::Got(0)))?;
    }
    Ok(plan)
}

/// What each member but the first gets is the fold of what all before it hand in, in the order of ranks (MPI 3.1,
/// 5.11.2).
pub fn exscan(alloc: Global, size: u32, rank: u32) -> Result<Vec<Step>, AllocError>
    requires size { size ≤ 65536 }
    requires rank { rank < size }
    ensures { IfOk result (λ plan. plan.items ≡ exscan size rank) }
{
    let mut plan = Vec::new(alloc);
    let is_last = rank + 1 == size;
    if rank == 0 {
        if !is_last {
            plan.push(Step::Send(1, Slot::Given(0)))?;
        }
        return Ok(plan);
    }
    plan.push(Step::Receive(rank - 1, Slot::Kept(0)))?;
    if !is_last {
        plan.push(Step::Fold(Slot::Kept(0), Slot::Given(0), Slot::Kept(1)))?;
        plan.push(Step::Send(rank + 1, Slot::Kept(1)))?;
    }
    plan.push(Step::Copy(Slot::Kept(0), Slot::Got(0)))?;
    Ok(plan)
}

//! Plans in which each hands its block to the root, or the root hands a block to each.

ghost use Rattle.std.specs.Prelude.{◌≡◌, ◌<◌, ◌≤◌, ◌∷◌, ◌++◌, true, false, IfOk, OnOk};
ghost use Rattle.collective_plans.specs.declared.plan.Slot.TheVariants.{Given, Got};
ghost use Rattle.collective_plans.specs.declared.plan.Step.TheVariants.{Copy};
ghost use Rattle.collective_plans.specs.Exchanges.{all_receives, all_sends, receivers, senders};
ghost use Rattle.collective_plans.specs.Exchanges.{source_of, target_of};
ghost use Rattle.collective_plans.specs.Stars.{gather, scatter};

use crate::exchange::{push_receives, push_sends};
use crate::plan::{Slot, Step};
use std::alloc::{AllocError, Global};

/// Adds what the root does in a gather.
fn push_gathering(plan: &mut Vec<Step>, size: u32, rank: u32) -> Result<(), AllocError>
    requires size { size ≤ 65536 }
    requires rank { rank < size }
    ensures { OnOk result (plan.new.items ≡
        plan.old.items ++ Copy (Given 0) (Got rank) ∷ all_receives (target_of false) (senders size rank)) }
{
    plan.push(Step::Copy(Slot::Given(0), Slot::Got(rank)))?;
    push_receives(plan, false, 0, rank)?;
    push_receives(plan, false, rank + 1, size - (rank + 1))?;
    Ok(())
}

/// Adds what the root does in a scatter.
fn push_scattering(plan: &mut Vec<Step>, size: u32, rank: u32) -> Result<(), AllocError>
    requires size { size ≤ 65536 }
    requires rank { rank < size }
    ensures { OnOk result (plan.new.items ≡
        plan.old.items ++ Copy (Given rank) (Got 0) ∷ all_sends (source_of true) (receivers size rank)) }
{
    plan.push(Step::Copy(Slot::Given(rank), Slot::Got(0)))?;
    push_sends(plan, true, rank + 1, size)?;
    push_sends(plan, true, 0, rank)?;
    Ok(())
}

/// Block j of what the root gets is what member j hands in (MPI 3.1, 5.5).
pub fn gather(alloc: Global, size: u32, root: u32, rank: u32) -> Result<Vec<Step>, AllocError>
    requires size { size ≤ 65536 }
    requires rank { rank < size }
    ensures { IfOk result (λ plan. plan.items ≡ gather size root rank) }
{
    let mut plan = Vec::new(alloc);
    if rank == root {
        push_gathering(&mut plan, size, rank)?;
    } else {
        plan.push(Step::Send(root, Slot::Given(0)))?;
    }
    Ok(plan)
}

/// What a member gets is what the root hands in for it (MPI 3.1, 5.6).
pub fn scatter(alloc: Global, size: u32, root: u32, rank: u32) -> Result<Vec<Step>, AllocError>
    requires size { size ≤ 65536 }
    requires rank { rank < size }
    ensures { IfOk result (λ plan. plan.items ≡ scatter size root rank) }
{
    let mut plan = Vec::new(alloc);
    if rank == root {
        push_scattering(&mut plan, size, rank)?;
    } else {
        plan.push(Step::Receive(root, Slot::Got(0)))?;
    }
    Ok(plan)
}

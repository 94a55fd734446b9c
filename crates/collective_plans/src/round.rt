//! Plans in rounds, in which all members hand blocks to the member so many ranks on: few messages of many blocks.

ghost use Rattle.std.specs.Prelude.{◌≡◌, ◌<◌, ◌≤◌, ◌+◌, ◌-◌, ◌++◌, ◌∷◌, [], if◌then◌else◌, IfOk, OnOk};
ghost use Rattle.collective_plans.specs.declared.plan.Slot.TheVariants.{Given};
ghost use Rattle.collective_plans.specs.Rounds.{copies_of, doubling, going, in_rounds, more_of, moved_on, on};
ghost use Rattle.collective_plans.specs.Rounds.{passing, put_where, receives_of, round_allgather};
ghost use Rattle.collective_plans.specs.Rounds.{round_alltoall, sends_of};
ghost use Rattle.collective_plans.specs.Rounds.{turned};

use crate::plan::{Slot, Step};
use std::alloc::{AllocError, Global};

/// The rank so many ranks on, round the end.
fn on(size: u32, rank: u32, distance: u32) -> u32
    requires size { size ≤ 65536 }
    requires rank { rank < size }
    requires distance { distance ≤ size }
    ensures { result ≡ on size rank distance }
{
    let sum = rank + distance;
    if sum < size { sum } else { sum - size }
}

/// Adds sends of the first blocks that are kept, so many.
fn push_first_sends(plan: &mut Vec<Step>, to: u32, count: u32) -> Result<(), AllocError>
    ensures { OnOk result (plan.new.items ≡ plan.old.items ++ sends_of to (moved_on 0 count 0) []) }
{
    for place in 0..count {
        plan.push(Step::Send(to, Slot::Kept(place)))?;
    }
    Ok(())
}

/// Adds receives of so many blocks, behind as many as `by` that are kept.
fn push_further_receives(
    plan: &mut Vec<Step>,
    from: u32,
    count: u32,
    by: u32,
) -> Result<(), AllocError>
    requires { (count ≤ 65536) × (by ≤ 65536) }
    ensures { OnOk result (plan.new.items ≡ plan.old.items ++ receives_of from (moved_on 0 count by) []) }
{
    for place in 0..count {
        plan.push(Step::Receive(from, Slot::Kept(place + by)))?;
    }
    Ok(())
}

/// As many more as one has, or as many as are left.
fn more_of(size: u32, have: u32) -> u32
    requires { have ≤ size }
    ensures { result ≡ more_of size have }
{
    let left = size - have;
    if have < left { have } else { left }
}

/// Adds the rounds of an allgather of a member that has the blocks of so many members from itself on.
#[tactic(auto, using(crate::proofs::RoundLoops::doubling_none))]
fn push_doubling(plan: &mut Vec<Step>, size: u32, rank: u32, have: u32) -> Result<(), AllocError>
    requires size { size ≤ 65536 }
    requires rank { rank < size }
    requires have { (0 < have) × (have ≤ size) }
    ensures { OnOk result (plan.new.items ≡ plan.old.items ++ in_rounds size rank (doubling size size have)) }
{
    if have == size {
        return Ok(());
    }
    let more = more_of(size, have);
    push_first_sends(plan, on(size, rank, size - have), more)?;
    push_further_receives(plan, on(size, rank, have), more, have)?;
    push_doubling(plan, size, rank, have + more)
}

/// Adds the copies that put what is kept of the member so many ranks on where it belongs.
fn push_put_on(plan: &mut Vec<Step>, size: u32, rank: u32) -> Result<(), AllocError>
    requires size { size ≤ 65536 }
    requires rank { rank < size }
    ensures { OnOk result (plan.new.items ≡ plan.old.items ++ copies_of (put_where (on size rank) 0 size) []) }
{
    for place in 0..size {
        plan.push(Step::Copy(Slot::Kept(place), Slot::Got(on(size, rank, place))))?;
    }
    Ok(())
}

/// Block j of what a member gets is what member j hands in (MPI 3.1, 5.7).
pub fn round_allgather(alloc: Global, size: u32, rank: u32) -> Result<Vec<Step>, AllocError>
    requires size { size ≤ 65536 }
    requires rank { rank < size }
    ensures { IfOk result (λ plan. plan.items ≡ round_allgather size rank) }
{
    let mut plan = Vec::new(alloc);
    plan.push(Step::Copy(Slot::Given(0), Slot::Kept(0)))?;
    push_doubling(&mut plan, size, rank, 1)?;
    push_put_on(&mut plan, size, rank)?;
    Ok(plan)
}

/// Adds the copies that keep what is for the member so many ranks on.
fn push_turned(plan: &mut Vec<Step>, size: u32, rank: u32) -> Result<(), AllocError>
    requires size { size ≤ 65536 }
    requires rank { rank < size }
    ensures { OnOk result (plan.new.items ≡ plan.old.items ++ copies_of (turned (λ x. Given) size rank 0 size) []) }
{
    for place in 0..size {
        plan.push(Step::Copy(Slot::Given(on(size, rank, place)), Slot::Kept(place)))?;
    }
    Ok(())
}

/// Adds a step where it is wanted.
fn push_if(plan: &mut Vec<Step>, wanted: bool, step: Step) -> Result<(), AllocError>
    ensures { OnOk result (plan.new.items ≡ plan.old.items ++ (if wanted then step ∷ [] else [])) }
{
    if wanted {
        plan.push(step)?;
    }
    Ok(())
}

/// Adds sends of the blocks that go on by this distance.
fn push_going_sends(
    plan: &mut Vec<Step>,
    to: u32,
    distance: u32,
    size: u32,
) -> Result<(), AllocError>
    requires { 0 < distance }
    ensures { OnOk result (plan.new.items ≡ plan.old.items ++ sends_of to (going distance 0 size) []) }
{
    for place in 0..size {
        let goes = place / distance % 2 == 1;
        push_if(plan, goes, Step::Send(to, Slot::Kept(place)))?;
    }
    Ok(())
}

/// Adds receives of the blocks that come on by this distance.
fn push_going_receives(
    plan: &mut Vec<Step>,
    from: u32,
    distance: u32,
    size: u32,
) -> Result<(), AllocError>
    requires { 0 < distance }
    ensures { OnOk result (plan.new.items ≡ plan.old.items ++ receives_of from (going distance 0 size) []) }
{
    for place in 0..size {
        let goes = place / distance % 2 == 1;
        push_if(plan, goes, Step::Receive(from, Slot::Kept(place)))?;
    }
    Ok(())
}

/// Adds the rounds of an alltoall from the one with this distance on.
#[tactic(auto, using(crate::proofs::RoundLoops::passing_none))]
fn push_passing(plan: &mut Vec<Step>, size: u32, rank: u32, distance: u32) -> Result<(), AllocError>
    requires size { size ≤ 65536 }
    requires rank { rank < size }
    requires distance { (0 < distance) × (distance ≤ 131072) }
    ensures { OnOk result (plan.new.items ≡ plan.old.items ++ in_rounds size rank (passing size size distance)) }
{
    if distance >= size {
        return Ok(());
    }
    push_going_sends(plan, on(size, rank, distance), distance, size)?;
    push_going_receives(plan, on(size, rank, size - distance), distance, size)?;
    push_passing(plan, size, rank, distance + distance)
}

/// Adds the copies that put what came from the member so many ranks back where it belongs.
fn push_put_back(plan: &mut Vec<Step>, size: u32, rank: u32) -> Result<(), AllocError>
    requires size { size ≤ 65536 }
    requires rank { rank < size }
    ensures { OnOk result (plan.new.items ≡
        plan.old.items ++ copies_of (put_where (λ i. on size rank (size - i)) 0 size) []) }
{
    for place in 0..size {
        plan.push(Step::Copy(Slot::Kept(place), Slot::Got(on(size, rank, size - place))))?;
    }
    Ok(())
}

/// Block j of what a member gets is what member j hands in for it (MPI 3.1, 5.8).
pub fn round_alltoall(alloc: Global, size: u32, rank: u32) -> Result<Vec<Step>, AllocError>
    requires size { size ≤ 65536 }
    requires rank { rank < size }
    ensures { IfOk result (λ plan. plan.items ≡ round_alltoall size rank) }
{
    let mut plan = Vec::new(alloc);
    push_turned(&mut plan, size, rank)?;
    push_passing(&mut plan, size, rank, 1)?;
    push_put_back(&mut plan, size, rank)?;
    Ok(plan)
}

//! Plans as rows of records.

ghost use Rattle.std.specs.Prelude.{◌≡◌, ◌<◌, ◌≤◌, ◌++◌, length, drop, nat_le, if◌then◌else◌, Ok, IfOk, IfErr, OnOk};
ghost use Rattle.plan_rows.specs.Rows.{IsPut, IsRefused, joins, plan_for, plan_meant, rows_told, slot_told, step_told};
ghost use Rattle.plan_rows.specs.Rows.{told_before, told_last};

use crate::form::{Known, PlanForm, which_plan};
use crate::kind::PlanKind;
use crate::records::{PlanRecord, SlotRecord, StepRecord};
use collective_plans::{
    Slot, Step, allgather, alltoall, exscan, gather, ordered_allreduce, ordered_reduce,
    reduce_scatter_block, round_allgather, round_alltoall, scan, scatter, tree_allreduce,
    tree_barrier, tree_broadcast, tree_reduce,
};
use std::alloc::{AllocError, Global};

/// The most members that a collective has.
const MOST_MEMBERS: u32 = 65_536;

/// The number of a rank that no member has.
const NO_SUCH_RANK: u8 = 5;

/// The number of a root that no member is.
const NO_SUCH_ROOT: u8 = 7;

/// The number of want of memory.
const OUT_OF_MEMORY: u8 = 14;

/// The number of a plan that there isn't.
const NO_SUCH_PLAN: u8 = 83;

/// No block.
const NO_SLOT: SlotRecord = SlotRecord { kind: 0, place: 0 };

/// A block, told.
fn slot_told(slot: Slot) -> SlotRecord
    ensures { result ≡ slot_told slot }
{
    match slot {
        Slot::Given(place) => SlotRecord { kind: 1, place },
        Slot::Got(place) => SlotRecord { kind: 2, place },
        Slot::Kept(place) => SlotRecord { kind: 3, place },
    }
}

/// A step, told, and whether the next one is joined to it.
fn step_told(joined: bool, step: Step) -> StepRecord
    ensures { result ≡ step_told joined step }
{
    let joined = u32::from(joined);
    match step {
        Step::Copy(from, into) => StepRecord {
            kind: 1,
            peer: 0,
            joined,
            from: slot_told(from),
            high: NO_SLOT,
            into: slot_told(into),
        },
        Step::Send(peer, from) => StepRecord {
            kind: 2,
            peer,
            joined,
            from: slot_told(from),
            high: NO_SLOT,
            into: NO_SLOT,
        },
        Step::Receive(peer, into) => StepRecord {
            kind: 3,
            peer,
            joined,
            from: NO_SLOT,
            high: NO_SLOT,
            into: slot_told(into),
        },
        Step::Fold(low, high, into) => StepRecord {
            kind: 4,
            peer: 0,
            joined,
            from: slot_told(low),
            high: slot_told(high),
            into: slot_told(into),
        },
    }
}

/// Whether the blocks of two steps that stand beside one another are in one message: both go to one member, or come
/// from one.
fn joins(step: Step, next: Step) -> bool
    ensures { result ≡ joins step next }
{
    match step {
        Step::Send(to, _) => match next {
            Step::Send(other, _) => to == other,
            _ => false,
        },
        Step::Receive(from, _) => match next {
            Step::Receive(other, _) => from == other,
            _ => false,
        },
        _ => false,
    }
}

/// The plan of a form.
fn plan_for(
    alloc: Global,
    form: PlanForm,
    size: u32,
    root: u32,
    rank: u32,
) -> Result<Vec<Step>, AllocError>
    requires size { size ≤ 65536 }
    requires rank { rank < size }
    requires root { root < size }
    ensures { IfOk result (λ plan. plan.items ≡ plan_for form size root rank) }
{
    match form {
        PlanForm::AlltoallExchange => alltoall(alloc, size, rank),
        PlanForm::AlltoallRounds => round_alltoall(alloc, size, rank),
        PlanForm::AllgatherExchange => allgather(alloc, size, rank),
        PlanForm::AllgatherRounds => round_allgather(alloc, size, rank),
        PlanForm::ReduceScatterExchange => reduce_scatter_block(alloc, size, rank),
        PlanForm::ScanChain => scan(alloc, size, rank),
        PlanForm::ExscanChain => exscan(alloc, size, rank),
        PlanForm::GatherStar => gather(alloc, size, root, rank),
        PlanForm::ScatterStar => scatter(alloc, size, root, rank),
        PlanForm::BroadcastTree => tree_broadcast(alloc, size, root, rank),
        PlanForm::ReduceTree => tree_reduce(alloc, size, root, rank),
        PlanForm::ReduceInOrder => ordered_reduce(alloc, size, root, rank),
        PlanForm::AllreduceTree => tree_allreduce(alloc, size, rank),
        PlanForm::AllreduceInOrder => ordered_allreduce(alloc, size, rank),
        PlanForm::BarrierTree => tree_barrier(alloc, size, rank),
    }
}

/// The plan that is asked for. Refused with 83 where no collective has the kind's number, with 5 where the rank isn't
/// below the size or the size is above 65,536, with 7 where the root isn't below the size, and with 14.
pub fn plan_of(alloc: Global, asked: &PlanRecord) -> Result<Vec<Step>, u8>
    ensures ok { IfOk result (λ plan. plan_meant asked.now ≡ Ok plan.items) }
    ensures err { IfErr result (λ number. IsRefused (plan_meant asked.now) number) }
{
    let Some(kind) = PlanKind::from_number(asked.kind) else {
        return Err(NO_SUCH_PLAN);
    };
    if asked.size > MOST_MEMBERS {
        return Err(NO_SUCH_RANK);
    }
    if asked.rank >= asked.size {
        return Err(NO_SUCH_RANK);
    }
    if asked.root >= asked.size {
        return Err(NO_SUCH_ROOT);
    }
    let known = Known {
        size: asked.size,
        bytes: asked.bytes,
        regroups: asked.regroups == 1,
    };
    let form = which_plan(kind, known);
    match plan_for(alloc, form, asked.size, asked.root, asked.rank) {
        Ok(plan) => Ok(plan),
        Err(_) => Err(OUT_OF_MEMORY),
    }
}

/// Adds the step before this one, told, where there is one.
fn push_before(
    rows: &mut Vec<StepRecord>,
    before: Option<Step>,
    step: Step,
) -> Result<(), AllocError>
    ensures { OnOk result (rows.new.items ≡ rows.old.items ++ told_before before step) }
{
    if let Some(before) = before {
        rows.push(step_told(joins(before, step), before))?;
    }
    Ok(())
}

/// Adds the last step, told, where there is one.
fn push_last(rows: &mut Vec<StepRecord>, last: Option<Step>) -> Result<(), AllocError>
    ensures { OnOk result (rows.new.items ≡ rows.old.items ++ told_last last) }
{
    if let Some(last) = last {
        rows.push(step_told(false, last))?;
    }
    Ok(())
}

/// The steps, told.
#[tactic(auto, using(crate::proofs::RowLoops::before_then, crate::proofs::RowLoops::last_then))]
fn rows_of(alloc: Global, plan: &[Step]) -> Result<Vec<StepRecord>, AllocError>
    ensures { IfOk result (λ rows. rows.items ≡ rows_told plan.now) }
{
    let mut rows = Vec::new(alloc);
    let mut before = None;
    for step in plan.iter() {
        push_before(&mut rows, before, *step)?;
        before = Some(*step);
    }
    push_last(&mut rows, before)?;
    Ok(rows)
}

/// Puts the records over the first ones.
fn put_front(from: &[StepRecord], into: &mut [StepRecord])
    requires { length from.now ≤ length into.old }
    ensures { into.new ≡ from.now ++ drop (length from.now) into.old }
{
    into[..from.len()].copy_from_slice(from);
}

/// Puts the records over the first ones, where there is room for all of them; answers how many they are.
fn put_rows(rows: &[StepRecord], into: &mut [StepRecord]) -> usize
    ensures count { result ≡ length rows.now }
    ensures put { into.new ≡ (if nat_le (length rows.now) (length into.old)
        then rows.now ++ drop (length rows.now) into.old else into.old) }
{
    if rows.len() <= into.len() {
        put_front(rows, into);
    }
    rows.len()
}

/// Puts the plan that is asked for over the first records, where there is room for all of its steps; answers how many
/// steps it has. Refused as `plan_of` is; then the records are as they were.
pub fn put_plan(alloc: Global, asked: &PlanRecord, into: &mut [StepRecord]) -> Result<usize, u8>
    ensures ok { IfOk result (λ count. IsPut (plan_meant asked.now) into.old into.new count) }
    ensures err { IfErr result (λ number. IsRefused (plan_meant asked.now) number × (into.new ≡ into.old)) }
{
    let plan = match plan_of(alloc, asked) {
        Ok(plan) => plan,
        Err(number) => return Err(number),
    };
    let Ok(rows) = rows_of(alloc, plan.as_slice()) else {
        return Err(OUT_OF_MEMORY);
    };
    Ok(put_rows(rows.as_slice(), into))
}

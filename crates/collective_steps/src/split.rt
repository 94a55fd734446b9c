//! The communicators that member 0 makes in a split, made ready: it takes memory, and changes nothing.

ghost use Rattle.std.specs.Prelude.{◌≡◌, ◌+◌, length, IfOk, IfErr, IsOkUnless, All};
ghost use Rattle.collective_steps.specs.Steps.{HoldsPart, IsLacking, group_of_part, made_by, rows_from};
ghost use Rattle.context_agreement.specs.Communicators.{coming_context};
ghost use Rattle.context_agreement.specs.Splits.{IsSplitPlan};

use collective_messages::CollectiveRefusal;
use collective_progress::Seat;
use context_agreement::{Communicator, Contexts, SplitPart, SplitRow, split_plan};
use groups::Group;
use std::alloc::{AllocError, Global};

/// What the members ask for in a split, by their ranks in the communicator.
#[tactic(auto, using(crate::proofs::Rows::rows_more))]
fn rows_of(alloc: Global, seat: &Seat, group: &Group) -> Result<Vec<SplitRow>, AllocError>
    ensures { IfOk result
        (λ rows. rows.items ≡ rows_from seat.now.own seat.now.inside.now seat.now.notes.now 0 group.now) }
{
    let ranks = group.ranks();
    let mut rows = Vec::new(alloc);
    for place in 0..group.len() {
        let asked = seat.choice_known(ranks[place]);
        rows.push(SplitRow {
            colour: asked.colour,
            key: asked.key,
            rank: place as u16,
        })?;
    }
    Ok(rows)
}

/// The plan of a split, by what the members ask for.
pub(crate) fn plan_of(
    alloc: Global,
    seat: &Seat,
    group: &Group,
) -> Result<Vec<SplitPart>, CollectiveRefusal>
    ensures plan { IfOk result
        (λ plan. IsSplitPlan (rows_from seat.now.own seat.now.inside.now seat.now.notes.now 0 group.now) plan.items) }
    ensures parts { IfOk result (λ plan. All (HoldsPart group.now) plan.items) }
    ensures err { IsOkUnless result CollectiveRefusal.OutOfMemory }
{
    let Ok(rows) = rows_of(alloc, seat, group) else {
        return Err(CollectiveRefusal::OutOfMemory);
    };
    match split_plan(alloc, &rows) {
        Ok(plan) => Ok(plan),
        Err(_) => Err(CollectiveRefusal::OutOfMemory),
    }
}

/// The communicator of a part of a plan, with the context that is given once so many others are.
fn one_made(
    contexts: &Contexts,
    group: &Group,
    part: &SplitPart,
    further: u64,
) -> Result<Communicator, CollectiveRefusal>
    requires { HoldsPart group.now part.now }
    ensures ok { IfOk result (λ made. made ≡ record {
      context = coming_context contexts.now.state further;
      group =
          group_of_part group.now part.now;
    }) }
    ensures err { IfErr result (IsLacking contexts.now.state (further + 1)) }
{
    let Some(context) = contexts.context_after(further) else {
        return Err(CollectiveRefusal::Limit);
    };
    match group.incl(part.ranks()) {
        Ok(group) => Ok(Communicator { context, group }),
        Err(_) => Err(CollectiveRefusal::OutOfMemory),
    }
}

/// The communicators of a plan, with the contexts that are given next.
#[tactic(auto, using(crate::proofs::Rows::made_more))]
pub(crate) fn made_by(
    alloc: Global,
    contexts: &Contexts,
    group: &Group,
    plan: &[SplitPart],
) -> Result<Vec<Communicator>, CollectiveRefusal>
    requires { All (HoldsPart group.now) plan.now }
    ensures ok { IfOk result (λ made. made.items ≡ made_by contexts.now.state group.now 0 plan.now) }
    ensures err { IfErr result (IsLacking contexts.now.state (length plan.now)) }
{
    let mut made = Vec::new(alloc);
    for place in 0..plan.len() {
        let communicator = one_made(contexts, group, &plan[place], place as u64)?;
        if made.push(communicator).is_err() {
            return Err(CollectiveRefusal::OutOfMemory);
        }
    }
    Ok(made)
}

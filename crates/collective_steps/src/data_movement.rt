//! What a rank does in the collectives that move elements, made ready: it takes memory, and changes nothing.

ghost use Rattle.std.specs.Prelude.{IsOkUnless, ◌≡◌, ◌<◌, ◌≤◌, ◌+◌, ◌*◌, ◌++◌, ◌∷◌, [], length, map, IfOk, OnOk, Some};
ghost use Rattle.std.specs.Prelude.{None, if◌then◌else◌, slice_index};
ghost use Rattle.std.specs.Option.{option_copied};
ghost use Rattle.collective_messages.specs.Verdicts.{is_at};
ghost use Rattle.collective_messages.specs.declared.message.MessageContent.TheVariants as given;
ghost use Rattle.collective_steps.specs.Steps.{bcast_step, block_of, blocks_to, gather_blocks, handed_in, leaving};
ghost use Rattle.collective_steps.specs.Steps.{leaving_on, leaving_with, message_to, reduce_blocks, scatter_step};
ghost use Rattle.collective_steps.specs.Steps.{telling_all, to_others};
ghost use Rattle.payload.specs.declared.payload.Direction.TheVariants.{FromRoot};
ghost use Rattle.collective_steps.specs.declared.step.StepOutcome.TheVariants.{Leaves};

use crate::contents::{block_content, member, message_to, others};
use crate::member_blocks::MemberBlocks;
use crate::preparation::silent_step;
use crate::step::{Step, StepOutcome};
use collective_messages::{CollectiveMessage, CollectiveRefusal, Inside, is_at, is_same};
use collective_progress::Seat;
use datatypes::Buffer;
use groups::Group;
use payload::{Direction, Rooted};
use std::alloc::{AllocError, Global};
use vocabulary::{Endpoint, Operation};

/// A root leaves with what was made of the blocks, where something was.
fn leaving_with(alloc: Global, made: Option<Buffer>) -> Step
    ensures { result ≡ leaving_with made }
{
    match made {
        Some(block) => silent_step(alloc, StepOutcome::Leaves(Some(block))),
        None => silent_step(alloc, StepOutcome::Stays),
    }
}

/// The same elements to each of these ranks.
fn elements_to_each(
    alloc: Global,
    inside: &Inside,
    ranks: &[u16],
    elements: &Buffer,
) -> Result<Vec<CollectiveMessage>, AllocError>
    ensures { IfOk result (λ messages. messages.items ≡
        map (λ r. message_to inside.now (given.Elements FromRoot elements.now) r) ranks.now) }
{
    let mut messages = Vec::new(alloc);
    for rank in ranks {
        let given = block_content(alloc, Direction::FromRoot, elements)?;
        messages.push(message_to(inside, *rank, given))?;
    }
    Ok(messages)
}

/// The same elements to each of these members but the rank itself.
pub(crate) fn elements_to_others(
    alloc: Global,
    own: Endpoint,
    inside: &Inside,
    ranks: &[u16],
    elements: &Buffer,
) -> Result<Vec<CollectiveMessage>, AllocError>
    ensures { IfOk result (λ messages. messages.items ≡
        to_others own inside.now (λ r. given.Elements FromRoot elements.now) ranks.now) }
{
    let others = others(alloc, own, inside, ranks)?;
    elements_to_each(alloc, inside, &others, elements)
}

/// The root of a bcast tells its elements on, and gets none (MPI 3.1, 5.4).
pub(crate) fn bcast_step(
    alloc: Global,
    own: Endpoint,
    inside: &Inside,
    elements: &Buffer,
) -> Result<Step, CollectiveRefusal>
    ensures ok { IfOk result (λ step. step ≡ bcast_step own inside.now elements.now) }
    ensures err { IsOkUnless result CollectiveRefusal.OutOfMemory }
{
    let Ok(messages) = elements_to_others(alloc, own, inside, inside.role.onward(), elements) else {
        return Err(CollectiveRefusal::OutOfMemory);
    };
    Ok(Step {
        outcome: StepOutcome::Leaves(None),
        drawn: 0,
        messages,
    })
}

/// The blocks of all members one after the other, where each is known.
fn gather_blocks<'a>(
    alloc: Global,
    seat: &Seat<'a>,
    ranks: &[u16],
    block: &'a Buffer,
) -> Result<Option<Buffer>, AllocError>
    ensures { IfOk result
        (λ all. all ≡ gather_blocks seat.now.own seat.now.inside.now seat.now.notes.now ranks.now block.now) }
{
    if !seat.are_known(block, ranks) {
        return Ok(None);
    }
    match seat.concatenation_of(alloc, block, ranks) {
        Ok(all) => Ok(Some(all)),
        Err(refused) => Err(refused),
    }
}

/// The fold of the blocks of all members in rank order, where each is known and the operation is defined on the type.
pub(crate) fn reduce_blocks<'a>(
    alloc: Global,
    seat: &Seat<'a>,
    ranks: &[u16],
    operation: Operation,
    block: &'a Buffer,
) -> Result<Option<Buffer>, AllocError>
    ensures { IfOk result
        (λ all. all ≡ reduce_blocks seat.now.own seat.now.inside.now seat.now.notes.now ranks.now operation block.now) }
{
    if ranks.is_empty() {
        return Ok(None);
    }
    if !seat.are_known(block, ranks) {
        return Ok(None);
    }
    seat.reduction_of(alloc, operation, block, ranks)
}

/// A gather: its root leaves with all blocks (MPI 3.1, 5.5), another member with none.
pub(crate) fn gather_step<'a>(
    alloc: Global,
    seat: &Seat<'a>,
    ranks: &[u16],
    root: u32,
    block: &'a Buffer,
) -> Result<Step, CollectiveRefusal>
    ensures ok { IfOk result (λ step. step ≡
        (if is_at seat.now.own seat.now.inside.now.incarnation ranks.now root then
        leaving_with
        (gather_blocks seat.now.own seat.now.inside.now seat.now.notes.now seat.now.inside.now.role.feeders
        block.now) else leaving None)) }
    ensures err { IsOkUnless result CollectiveRefusal.OutOfMemory }
{
    if !is_at(seat.own, seat.inside.incarnation, ranks, root) {
        return Ok(silent_step(alloc, StepOutcome::Leaves(None)));
    }
    match gather_blocks(alloc, seat, seat.inside.role.feeders(), block) {
        Ok(made) => Ok(leaving_with(alloc, made)),
        Err(_) => Err(CollectiveRefusal::OutOfMemory),
    }
}

/// A reduction to a root: that leaves with the fold (MPI 3.1, 5.9.1), another member with nothing.
pub(crate) fn reduce_step<'a>(
    alloc: Global,
    seat: &Seat<'a>,
    is_root: bool,
    operation: Operation,
    block: &'a Buffer,
) -> Result<Step, CollectiveRefusal>
    ensures ok { IfOk result (λ step. step ≡
        (if is_root then
        leaving_with
        (reduce_blocks seat.now.own seat.now.inside.now seat.now.notes.now seat.now.inside.now.role.feeders
        operation block.now) else
        leaving_on seat.now.own seat.now.inside.now
        (reduce_blocks seat.now.own seat.now.inside.now seat.now.notes.now seat.now.inside.now.role.feeders operation
        block.now))) }
    ensures err { IsOkUnless result CollectiveRefusal.OutOfMemory }
{
    let Ok(made) = reduce_blocks(alloc, seat, seat.inside.role.feeders(), operation, block) else {
        return Err(CollectiveRefusal::OutOfMemory);
    };
    if is_root {
        return Ok(leaving_with(alloc, made));
    }
    leaving_on(alloc, seat.own, seat.inside, made)
}

/// A rank leaves a reduction with nothing; member 0 tells the root what was made.
fn leaving_on(
    alloc: Global,
    own: Endpoint,
    inside: &Inside,
    made: Option<Buffer>,
) -> Result<Step, CollectiveRefusal>
    ensures ok { IfOk result (λ step. step ≡ leaving_on own inside.now made) }
    ensures err { IsOkUnless result CollectiveRefusal.OutOfMemory }
{
    let Some(all) = made else {
        return Ok(silent_step(alloc, StepOutcome::Leaves(None)));
    };
    bcast_step(alloc, own, inside, &all)
}

/// Member 0 leaves with these elements, and tells them these members.
fn telling_all(
    alloc: Global,
    own: Endpoint,
    inside: &Inside,
    ranks: &[u16],
    made: Option<Buffer>,
) -> Result<Step, CollectiveRefusal>
    ensures ok { IfOk result (λ step. step ≡ telling_all own inside.now ranks.now made) }
    ensures err { IsOkUnless result CollectiveRefusal.OutOfMemory }
{
    let Some(all) = made else {
        return Ok(silent_step(alloc, StepOutcome::Stays));
    };
    match elements_to_others(alloc, own, inside, ranks, &all) {
        Ok(messages) => Ok(Step {
            outcome: StepOutcome::Leaves(Some(all)),
            drawn: 0,
            messages,
        }),
        Err(_) => Err(CollectiveRefusal::OutOfMemory),
    }
}

/// A reduction to all, at member 0, which tells those right below it (MPI 3.1, 5.9.6).
pub(crate) fn allreduce_step<'a>(
    alloc: Global,
    seat: &Seat<'a>,
    operation: Operation,
    block: &'a Buffer,
) -> Result<Step, CollectiveRefusal>
    ensures ok { IfOk result
        (λ step. step ≡
        telling_all seat.now.own seat.now.inside.now seat.now.inside.now.role.onward
        (reduce_blocks seat.now.own seat.now.inside.now seat.now.notes.now seat.now.inside.now.role.feeders operation
        block.now)) }
    ensures err { IsOkUnless result CollectiveRefusal.OutOfMemory }
{
    let onward = seat.inside.role.onward();
    match reduce_blocks(alloc, seat, seat.inside.role.feeders(), operation, block) {
        Ok(made) => telling_all(alloc, seat.own, seat.inside, onward, made),
        Err(_) => Err(CollectiveRefusal::OutOfMemory),
    }
}

/// What the member at a place in the communicator is told of a scatter: its block, unless it is the rank itself.
fn tell_block(
    alloc: Global,
    messages: &mut Vec<CollectiveMessage>,
    seat: &Seat,
    blocks: &MemberBlocks,
    place: u16,
) -> Result<(), AllocError>
    requires there { place < length blocks.now.group.now }
    requires fits { place * blocks.now.count + blocks.now.count ≤ length blocks.now.all.now.values }
    ensures { OnOk result (messages.new.items ≡ messages.old.items ++
        blocks_to seat.now.own seat.now.inside.now blocks.now.all.now blocks.now.count place
        (slice_index blocks.now.group.now place ∷ [])) }
{
    let rank = blocks.group.ranks()[place as usize];
    if is_same(member(seat.inside, rank), seat.own) {
        return Ok(());
    }
    let block = collective_progress::block_at(alloc, blocks.all, place, blocks.count)?;
    let given = block_content(alloc, Direction::FromRoot, &block)?;
    messages.push(message_to(seat.inside, rank, given))?;
    Ok(())
}

/// Its block to each of these members but the rank itself.
#[tactic(auto, using(crate::proofs::ScatterLaws::blocks_more, crate::proofs::ScatterLaws::block_fits))]
fn blocks_to_others(
    alloc: Global,
    seat: &Seat,
    blocks: &MemberBlocks,
) -> Result<Vec<CollectiveMessage>, AllocError>
    ensures { IfOk result (λ messages. messages.items ≡
        blocks_to seat.now.own seat.now.inside.now blocks.now.all.now blocks.now.count 0 blocks.now.group.now) }
{
    let mut messages = Vec::new(alloc);
    for place in 0..blocks.group.len() {
        tell_block(alloc, &mut messages, seat, blocks, place as u16)?;
    }
    Ok(messages)
}

/// What the root of a scatter does that has a block for each member: it leaves with its own.
#[tactic(auto, using(crate::proofs::ScatterLaws::block_fits))]
fn scatter_block(
    alloc: Global,
    seat: &Seat,
    blocks: &MemberBlocks,
    root: u16,
) -> Result<Step, CollectiveRefusal>
    requires { root < length blocks.now.group.now }
    ensures ok { IfOk result (λ step. step ≡ record {
      outcome = Leaves (Some (block_of blocks.now.all.now blocks.now.count root));
      drawn =
          0;
      messages = blocks_to seat.now.own seat.now.inside.now blocks.now.all.now blocks.now.count 0 blocks.now.group.now;
    }) }
    ensures err { IsOkUnless result CollectiveRefusal.OutOfMemory }
{
    let Ok(messages) = blocks_to_others(alloc, seat, blocks) else {
        return Err(CollectiveRefusal::OutOfMemory);
    };
    match collective_progress::block_at(alloc, blocks.all, root, blocks.count) {
        Ok(block) => Ok(Step {
            outcome: StepOutcome::Leaves(Some(block)),
            drawn: 0,
            messages,
        }),
        Err(_) => Err(CollectiveRefusal::OutOfMemory),
    }
}

/// The root of a scatter leaves with its own block, and tells each other member its own, where there is one of the type
/// for each (MPI 3.1, 5.6).
fn scatter_step<'a>(
    alloc: Global,
    seat: &Seat,
    group: &'a Group,
    rooted: Rooted,
    all: &'a Buffer,
) -> Result<Step, CollectiveRefusal>
    ensures ok { IfOk result
        (λ step. step ≡
        scatter_step seat.now.own seat.now.inside.now group.now rooted.root rooted.elements all.now) }
    ensures err { IsOkUnless result CollectiveRefusal.OutOfMemory }
{
    let size = group.len();
    let count = rooted.elements.count;
    if all.basic() != rooted.elements.basic {
        return Ok(silent_step(alloc, StepOutcome::Stays));
    }
    if rooted.root as usize >= size || all.len() != size * count as usize {
        return Ok(silent_step(alloc, StepOutcome::Stays));
    }
    let blocks = MemberBlocks { group, all, count };
    scatter_block(alloc, seat, &blocks, rooted.root as u16)
}

/// The same by what the root hands in, if anything: nothing is no elements of the blocks' type.
pub(crate) fn scatter_with(
    alloc: Global,
    seat: &Seat,
    group: &Group,
    rooted: Rooted,
    all: Option<&Buffer>,
) -> Result<Step, CollectiveRefusal>
    ensures ok { IfOk result
        (λ step. step ≡
        scatter_step seat.now.own seat.now.inside.now group.now rooted.root rooted.elements
        (handed_in rooted.elements (option_copied all.entry))) }
    ensures err { IsOkUnless result CollectiveRefusal.OutOfMemory }
{
    match all {
        Some(all) => scatter_step(alloc, seat, group, rooted, all),
        None => {
            let none = Buffer::new(alloc, rooted.elements.basic);
            scatter_step(alloc, seat, group, rooted, &none)
        }
    }
}

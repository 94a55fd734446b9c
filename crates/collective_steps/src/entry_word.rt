//! The word of a rank: that it and those below it have entered, made ready.

ghost use Rattle.std.specs.Prelude.{◌≡◌, IfOk, Some};
ghost use Rattle.std.specs.Option.{option_to_list};
ghost use Rattle.collective_steps.specs.Steps.{reduce_blocks, towards, word_given, word_messages, word_to};

use crate::contents::{block_content, member, message_to};
use crate::data_movement::reduce_blocks;
use collective_messages::{CollectiveMessage, Entry, MessageContent, is_same};
use collective_progress::Seat;
use datatypes::Buffer;
use payload::Direction;
use std::alloc::{AllocError, Global};
use vocabulary::Operation;

/// The fold of a rank's own block and of those below it.
fn fold_given<'a>(
    alloc: Global,
    seat: &Seat<'a>,
    operation: Operation,
    block: &'a Buffer,
) -> Result<Option<MessageContent>, AllocError>
    ensures { IfOk result
        (λ given. given ≡
        towards (reduce_blocks seat.now.own seat.now.inside.now seat.now.notes.now seat.now.inside.now.role.feeders
        operation block.now)) }
{
    match reduce_blocks(alloc, seat, seat.inside.role.feeders(), operation, block) {
        Ok(Some(all)) => Ok(Some(MessageContent::Elements(
            Direction::TowardsRoot,
            all.into_whole(),
        ))),
        Ok(None) => Ok(None),
        Err(refused) => Err(refused),
    }
}

/// A copy of a rank's own block.
fn block_given(alloc: Global, block: &Buffer) -> Result<Option<MessageContent>, AllocError>
    ensures { IfOk result (λ given. given ≡ towards (Some block.now)) }
{
    match block_content(alloc, Direction::TowardsRoot, block) {
        Ok(given) => Ok(Some(given)),
        Err(refused) => Err(refused),
    }
}

/// With what a rank says that it and those below it have entered: in a gather its block, in a reduction the fold of its
/// own and of those below it, in a split what it asks for.
fn word_given(alloc: Global, seat: &Seat) -> Result<Option<MessageContent>, AllocError>
    ensures { IfOk result
        (λ given. given ≡ word_given seat.now.own seat.now.inside.now seat.now.notes.now seat.now.inside.now.entry) }
{
    match &seat.inside.entry {
        Entry::Barrier | Entry::Dup => Ok(Some(MessageContent::Nothing(Direction::TowardsRoot))),
        Entry::Bcast(..) | Entry::Scatter(..) => Ok(None),
        Entry::Gather(_, block) => block_given(alloc, block.buffer()),
        Entry::Reduce(operation, _, block) => fold_given(alloc, seat, *operation, block.buffer()),
        Entry::Allreduce(_, block) => block_given(alloc, block.buffer()),
        Entry::Split(choice) => Ok(Some(MessageContent::Choice(*choice))),
    }
}

/// What a rank tells the one with this rank, unless that is the rank itself.
fn word_above(
    alloc: Global,
    seat: &Seat,
    above: u16,
) -> Result<Option<CollectiveMessage>, AllocError>
    ensures { IfOk result (λ message. option_to_list message ≡
        word_to seat.now.own seat.now.inside.now (Some above)
        (word_given seat.now.own seat.now.inside.now seat.now.notes.now seat.now.inside.now.entry)) }
{
    if is_same(member(seat.inside, above), seat.own) {
        return Ok(None);
    }
    match word_given(alloc, seat) {
        Ok(Some(given)) => Ok(Some(message_to(seat.inside, above, given))),
        Ok(None) => Ok(None),
        Err(refused) => Err(refused),
    }
}

/// A rank's word, to the one right above it, unless it was told before.
pub(crate) fn word(alloc: Global, seat: &Seat) -> Result<Option<CollectiveMessage>, AllocError>
    ensures { IfOk result (λ message. option_to_list message ≡
        word_messages seat.now.own seat.now.inside.now seat.now.notes.now) }
{
    if seat.inside.told {
        return Ok(None);
    }
    match seat.inside.role.above() {
        Some(above) => word_above(alloc, seat, above),
        None => Ok(None),
    }
}

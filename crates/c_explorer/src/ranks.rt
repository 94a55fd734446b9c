//! The ranks of a run in one world, as C calls them.

ghost use Rattle.std.specs.Prelude.{◌≡◌, ◌⊎◌, None};
ghost use Rattle.c_rank.specs.AnswerCopies.{TakesOf};
ghost use Rattle.c_rank.specs.Answers.{refusal};
ghost use Rattle.c_rank.specs.Meanings.{meaning};
ghost use Rattle.joined_ranks.specs.Goings.{IsCallOf, LeavesAs};
ghost use Rattle.joined_ranks.specs.Kept.{received_in};
ghost use Rattle.c_explorer.specs.RanksContents.{AreMade, OnHeldRanks, Settles};

use crate::exports::NOTHING_HELD;
use crate::ranks_handle::RanksHandle;
use c_rank::{AnswerRecord, CallRecord, refusal};
use explored_choices::OUT_OF_MEMORY;
use joined_ranks::JoinedRanks;
use std::alloc::Global;
use vocabulary::MessageLimit;

/// What is told once all that was sent has come: whether all ranks are quiet.
const QUIET: u32 = 0;

const NOT_QUIET: u32 = 1;

/// Makes so many ranks, at their start: 0, or 13 (there are no such jobs) or 14, with which what was held stays.
#[unsafe(no_mangle)]
pub extern "C" fn kombazily_ranks_new(alloc: Global, ranks: &mut RanksHandle, size: u16) -> u32
    ensures { AreMade ranks.old.held.value ranks.new.held.value size result }
{
    let made = match JoinedRanks::new(alloc, size, MessageLimit::greatest()) {
        Ok(made) => made,
        Err(number) => return u32::from(number),
    };
    match Box::new(alloc, made) {
        Ok(boxed) => {
            drop(ranks.take(alloc));
            ranks.put(boxed);
            0
        }
        Err(_) => u32::from(OUT_OF_MEMORY),
    }
}

/// Gives the memory of the ranks back.
#[unsafe(no_mangle)]
pub extern "C" fn kombazily_ranks_free(alloc: Global, ranks: &mut RanksHandle)
    ensures { ranks.new.held.value ≡ None }
{
    drop(ranks.take(alloc));
}

/// Answers a call of a rank.
#[unsafe(no_mangle)]
pub extern "C" fn kombazily_ranks_call(
    alloc: Global,
    ranks: &mut RanksHandle,
    rank: u16,
    call: &CallRecord,
    bytes: &[u8],
    answer: &mut AnswerRecord,
)
    ensures { OnHeldRanks ranks.old.held.value ranks.new.held.value (answer.new ≡ refusal 81) (λ r s.
        IsCallOf rank (meaning call.now bytes.now) r answer.new s ⊎ LeavesAs r answer.new s) }
{
    match ranks.take(alloc) {
        Some(mut held) => {
            *answer = held.call(rank, call, bytes);
            ranks.put(held);
        }
        None => *answer = refusal(NOTHING_HELD),
    }
}

/// All that was sent comes, and what is sent for it: 0, and all ranks are quiet then; 1, they aren't; or 5, 14 or 81.
#[unsafe(no_mangle)]
pub extern "C" fn kombazily_ranks_settle(alloc: Global, ranks: &mut RanksHandle) -> u32
    ensures { OnHeldRanks ranks.old.held.value ranks.new.held.value (result ≡ 81) (λ r s. Settles r result s) }
{
    match ranks.take(alloc) {
        Some(mut held) => {
            let settled = held.settle();
            ranks.put(held);
            match settled {
                Ok(true) => QUIET,
                Ok(false) => NOT_QUIET,
                Err(number) => u32::from(number),
            }
        }
        None => u32::from(NOTHING_HELD),
    }
}

/// Copies data of the last answer of a rank out that brought any, and answers how many bytes.
#[unsafe(no_mangle)]
pub extern "C" fn kombazily_ranks_take(
    alloc: Global,
    ranks: &mut RanksHandle,
    rank: u16,
    into: &mut [u8],
) -> usize
    ensures { OnHeldRanks ranks.old.held.value ranks.new.held.value ((result ≡ 0) × (into.new ≡ into.old))
        (λ r s. (s ≡ r) × TakesOf (received_in r.parts rank) 0 into.old into.new result) }
{
    match ranks.take(alloc) {
        Some(held) => {
            let len = held.take(rank, 0, into);
            ranks.put(held);
            len
        }
        None => 0,
    }
}

//! What the messages of all sources make possible, as C asks for it.

ghost use Rattle.std.specs.Prelude.{◌≡◌};
ghost use Rattle.c_explorer.specs.Asked.{AsksHeld, AsksOfHeld, number_of_asked};
ghost use Rattle.asked_sources.specs.declared.sought.Seeker.TheVariants as seekers;

use crate::exports::NOTHING_HELD;
use crate::handle::Handle;
use crate::ranks_handle::RanksHandle;
use asked_sources::{Seeker, Sought, ask, ask_receives};
use std::alloc::Global;

/// What was asked, in numbers.
fn number_of(asked: Result<(), u32>) -> u32
    ensures { result ≡ number_of_asked asked }
{
    match asked {
        Ok(()) => 0,
        Err(number) => number,
    }
}

/// Each source of each receive of any source that waits in the row of a rank is asked by a probe: a message that is found
/// makes a move, unless a receive that was begun before takes it. The slices tell of each receive of the row, in order,
/// the number of it among its rank's, and how many ranks its communicator has. 0; 5 (no such rank), 14, 81 or 85 (they
/// tell of more or fewer receives).
#[unsafe(no_mangle)]
pub extern "C" fn kombazily_ranks_add_matches(
    alloc: Global,
    ranks: &mut RanksHandle,
    choices: &mut Handle,
    rank: u16,
    ops: &[u32],
    sources: &[u32],
) -> u32
    ensures { AsksOfHeld rank ops.now sources.now ranks.old.held.value choices.old.held.value result
        ranks.new.held.value choices.new.held.value }
{
    let Some(mut joined) = ranks.take(alloc) else {
        return u32::from(NOTHING_HELD);
    };
    let Some(mut held) = choices.take(alloc) else {
        ranks.put(joined);
        return u32::from(NOTHING_HELD);
    };
    let asked = ask_receives(&mut joined, &mut held, rank, ops, sources);
    ranks.put(joined);
    choices.put(held);
    number_of(asked)
}

/// The same for a probe of a rank, the `op`-th of what it looks at, of this source or of any (4,294,967,295) of a
/// communicator of so many ranks. A message that is found makes a move, unless a receive that waits takes it.
#[unsafe(no_mangle)]
pub extern "C" fn kombazily_ranks_add_sights(
    alloc: Global,
    ranks: &mut RanksHandle,
    choices: &mut Handle,
    rank: u16,
    op: u32,
    communicator: u32,
    peer: u32,
    sources: u32,
    tag: u32,
) -> u32
    ensures { AsksHeld (record { rank = rank; communicator = communicator; tag = tag; seeker = seekers.Probe op })
        peer sources ranks.old.held.value choices.old.held.value result ranks.new.held.value choices.new.held.value }
{
    let sought = Sought {
        rank,
        communicator,
        tag,
        seeker: Seeker::Probe(op),
    };
    let Some(mut joined) = ranks.take(alloc) else {
        return u32::from(NOTHING_HELD);
    };
    let Some(mut held) = choices.take(alloc) else {
        ranks.put(joined);
        return u32::from(NOTHING_HELD);
    };
    let asked = ask(&mut joined, &mut held, &sought, peer, sources);
    ranks.put(joined);
    choices.put(held);
    number_of(asked)
}

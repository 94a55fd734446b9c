//! Lists of ranks that are selected from other lists.

ghost use Rattle.std.specs.Prelude.{◌≡◌, ◌<◌, ◌≤◌, ◌^◌, ◌++◌, length, All, filter, MatchOption, IfOk, IfSome};
ghost use Rattle.std.specs.List.{list_all, range_with_len};
ghost use Rattle.groups.specs.Groups.{HasNoRepeats, is_member, members_at, members_elsewhere, position_of};
ghost use Rattle.groups.specs.Makings.{IsFirstFault, passes};

use crate::distinct::has_no_repeats;
use crate::rank_set::RankSet;
use crate::refusal::GroupRefusal;
use smallvec::SmallVec;
use std::alloc::{AllocError, Global};

/// How many members a group keeps without an allocation.
pub(crate) const INLINE: usize = 16;

/// The first thing that is wrong with these positions in a group of this many members.
pub(crate) fn first_fault(positions: &[u16], len: usize) -> Option<GroupRefusal>
    ensures { MatchOption result (All (λ p. p < len) positions.now × HasNoRepeats positions.now)
        (IsFirstFault len positions.now) }
{
    if !positions
        .iter()
        .all(|position| usize::from(*position) < len)
    {
        return Some(GroupRefusal::NoSuchPosition);
    }
    if !has_no_repeats(positions) {
        return Some(GroupRefusal::Repeated);
    }
    None
}

/// The ranks at these positions, in the order of the positions.
pub(crate) fn at_positions(
    alloc: Global,
    ranks: &[u16],
    positions: &[u16],
) -> Result<SmallVec<u16, INLINE>, AllocError>
    requires { All (λ p. p < length ranks.now) positions.now }
    ensures { IfOk result (λ v. v.items ≡ members_at ranks.now positions.now) }
{
    let mut selected = SmallVec::with_capacity(alloc, positions.len())?;
    for position in positions {
        selected.push(ranks[usize::from(*position)])?;
    }
    Ok(selected)
}

/// The ranks at all other positions, in their order.
pub(crate) fn other_positions(
    alloc: Global,
    ranks: &[u16],
    positions: &[u16],
) -> Result<SmallVec<u16, INLINE>, AllocError>
    requires { HasNoRepeats ranks.now }
    ensures { IfOk result (λ v. v.items ≡ members_elsewhere ranks.now positions.now) }
{
    let listed = RankSet::of(positions);
    let mut selected = SmallVec::new(alloc);
    for (position, rank) in ranks.iter().enumerate() {
        if !listed.contains(position as u16) {
            selected.push(*rank)?;
        }
    }
    Ok(selected)
}

/// The first ranks, and then those of the second that are among the given ones, or that aren't, as
/// is wanted.
pub(crate) fn append_selected(
    alloc: Global,
    first: &[u16],
    second: &[u16],
    given: &[u16],
    wanted: bool,
) -> Result<SmallVec<u16, INLINE>, AllocError>
    ensures { IfOk result (λ v. v.items ≡ first.now
        ++ filter (passes given.now wanted) second.now) }
{
    let set = RankSet::of(given);
    let mut selected = SmallVec::from_slice(alloc, first)?;
    for rank in second {
        if set.contains(*rank) == wanted {
            selected.push(*rank)?;
        }
    }
    Ok(selected)
}

/// The ranks from 0 up to this one.
pub(crate) fn first_ranks(alloc: Global, size: u16) -> Result<SmallVec<u16, INLINE>, AllocError>
    ensures { IfOk result (λ v. v.items ≡ range_with_len 0 size) }
{
    let mut ranks = SmallVec::with_capacity(alloc, usize::from(size))?;
    for rank in 0..size {
        ranks.push(rank)?;
    }
    Ok(ranks)
}

/// Whether each of the second ranks is among the first: one pass over both.
pub(crate) fn holds_all(first: &[u16], second: &[u16]) -> bool
    ensures { result ≡ list_all (is_member first.now) second.now }
{
    let set = RankSet::of(first);
    for rank in second {
        if !set.contains(*rank) {
            return false;
        }
    }
    true
}

/// Where a rank stands among the ranks.
pub(crate) fn place_of(ranks: &[u16], rank: u16) -> Option<u16>
    requires { HasNoRepeats ranks.now }
    ensures { result ≡ position_of ranks.now rank }
{
    match first_place(ranks, rank) {
        Some(place) => Some(place as u16),
        None => None,
    }
}

/// The index at which a rank stands first among the ranks.
fn first_place(ranks: &[u16], rank: u16) -> Option<usize>
    ensures place { result ≡ position_of ranks.now rank }
    ensures within { IfSome result (λ place. place < length ranks.now) }
{
    ranks.iter().position(|member| *member == rank)
}

/// Whether a rank is among the ranks.
pub(crate) fn is_among(ranks: &[u16], rank: u16) -> bool
    ensures { result ≡ is_member ranks.now rank }
{
    ranks.iter().any(|member| rank == *member)
}

/// How many ranks there are: at most as many as a `u16` can name.
pub(crate) fn count(ranks: &[u16]) -> usize
    requires { HasNoRepeats ranks.now }
    ensures count { result ≡ length ranks.now }
    ensures few { result ≤ 2 ^ 16 }
{
    ranks.len()
}

//! Groups of ranks, for C (MPI 3.1, 6.3): their members are numbers in slices.

ghost use Rattle.std.specs.Prelude.{◌≡◌, ℕ, List, Result};
ghost use Rattle.groups.specs.declared.refusal.GroupRefusal.{GroupRefusal};
ghost use Rattle.c_exports.specs.GroupAnswers.{Hands, HandsOut, MakesOfPlaces, MakesOfTwo, refusal_number};

use groups::{Group, GroupRefusal};
use std::alloc::Global;

/// The number of a slice that has no room for all members.
const NO_ROOM: u32 = 94;

/// The number of a refusal.
fn refusal_number(refusal: GroupRefusal) -> u32
    ensures { result ≡ refusal_number refusal }
{
    match refusal {
        GroupRefusal::NoSuchPosition => 5,
        GroupRefusal::Repeated => 8,
        GroupRefusal::OutOfMemory => 14,
    }
}

/// The group of two that is asked for: 1 the union, 2 the intersection, else the difference.
fn of_two(alloc: Global, kind: u32, first: &[u16], second: &[u16]) -> Result<Group, GroupRefusal>
    ensures { MakesOfTwo kind first.now second.now result }
{
    let one = Group::from_ranks(alloc, first)?;
    let other = Group::from_ranks(alloc, second)?;
    match kind {
        1 => one.union(&other),
        2 => one.intersection(&other),
        _ => one.difference(&other),
    }
}

/// The group of some members of one: 1 those at these places, else all but them.
fn of_places(alloc: Global, kind: u32, group: &[u16], places: &[u16]) -> Result<Group, GroupRefusal>
    ensures { MakesOfPlaces kind group.now places.now result }
{
    let whole = Group::from_ranks(alloc, group)?;
    match kind {
        1 => whole.incl(places),
        _ => whole.excl(places),
    }
}

/// Writes the members over the first numbers, where there is room for all of them, and how many they are into `count`:
/// 0, or 94.
fn hand(members: &[u16], into: &mut [u16], count: &mut u64) -> u32
    ensures { Hands members.now into.old into.new count.old count.new result }
{
    if into.len() < members.len() {
        return NO_ROOM;
    }
    let (place, _) = into.split_at_mut(members.len());
    place.copy_from_slice(members);
    *count = members.len() as u64;
    0
}

/// The same of what was made, if it was; or the number of a refusal, and nothing changes.
fn hand_out(made: Result<Group, GroupRefusal>, into: &mut [u16], count: &mut u64) -> u32
    ensures { HandsOut made into.old into.new count.old count.new result }
{
    match made {
        Ok(group) => hand(group.ranks(), into, count),
        Err(refusal) => refusal_number(refusal),
    }
}

/// Writes the members of a group of two: 1 their union, 2 their intersection, else their difference. 0, 8 (a list has a
/// member twice), 14, or 94 (`into` has no room for all): then nothing changes.
#[unsafe(no_mangle)]
pub extern "C" fn kombazily_group_of_two(
    alloc: Global,
    kind: u32,
    first: &[u16],
    second: &[u16],
    into: &mut [u16],
    count: &mut u64,
) -> u32
    ensures { (made : Result (List ℕ) GroupRefusal) × MakesOfTwo kind first.now second.now made ×
        HandsOut made into.old into.new count.old count.new result }
{
    hand_out(of_two(alloc, kind, first, second), into, count)
}

/// Writes some members of a group: 1 those at these places, in their order, else all but them. 0, 5 (a place isn't in the
/// group), 8 (one is named twice), 14, or 94: then nothing changes.
#[unsafe(no_mangle)]
pub extern "C" fn kombazily_group_of_places(
    alloc: Global,
    kind: u32,
    group: &[u16],
    places: &[u16],
    into: &mut [u16],
    count: &mut u64,
) -> u32
    ensures { (made : Result (List ℕ) GroupRefusal) × MakesOfPlaces kind group.now places.now made ×
        HandsOut made into.old into.new count.old count.new result }
{
    hand_out(of_places(alloc, kind, group, places), into, count)
}

//! Which rank is on which host.

ghost use Rattle.std.specs.Prelude.{◌≡◌, ◌≤◌, ◌<◌, ◌++◌, true, IfOk, MatchOption, OnOk, length, replicate, take};
ghost use Rattle.host_files.specs.Slots.{all_slots, are_bounded, is_bounded, said_slots, slots_again, slots_of};
ghost use Rattle.host_files.specs.Slots.{takes_no_more};

use crate::host::Host;
use std::alloc::{AllocError, Global};

/// How many ranks a host takes by what is said of it.
fn said_slots(slots: Option<u16>, most: Option<u16>) -> u16
    ensures { result ≡ said_slots slots most }
{
    match slots {
        Some(slots) => slots.min(most.unwrap_or(slots)),
        None => most.unwrap_or(1),
    }
}

/// How many ranks a host takes: so many where each takes so many, else by what is said of it.
pub fn slot_count(host: &Host, per_host: Option<u16>) -> u16
    ensures { result ≡ slots_of per_host host.now }
{
    match per_host {
        Some(count) => count,
        None => said_slots(host.slots, host.most),
    }
}

/// Adds a number so many times.
fn push_copies(places: &mut Vec<usize>, place: usize, count: u16) -> Result<(), AllocError>
    ensures { OnOk result (places.new.items ≡ places.old.items ++ replicate count place) }
{
    for _ in 0..count {
        places.push(place)?;
    }
    Ok(())
}

/// The host of each slot, by its place among these hosts, in order.
fn all_slots(
    alloc: Global,
    hosts: &[Host<'_>],
    per_host: Option<u16>,
) -> Result<Vec<usize>, AllocError>
    ensures { IfOk result (λ places. places.items ≡ all_slots per_host 0 hosts.now) }
{
    let mut places = Vec::new(alloc);
    for (place, host) in hosts.iter().enumerate() {
        push_copies(&mut places, place, slot_count(host, per_host))?;
    }
    Ok(places)
}

/// The host of each of so many ranks, by its place among these hosts: the ranks fill the slots of the hosts in their
/// order, so many on each where that is said. None where there are more ranks than slots. Only want of memory is an
/// error.
pub fn hosts_of_ranks(
    alloc: Global,
    hosts: &[Host<'_>],
    per_host: Option<u16>,
    size: u16,
) -> Result<Option<Vec<usize>>, AllocError>
    ensures { IfOk result (λ found. MatchOption found (length (all_slots per_host 0 hosts.now) < size)
        (λ places. (size ≤ length (all_slots per_host 0 hosts.now)) ×
        (places.items ≡ take size (all_slots per_host 0 hosts.now)))) }
{
    let mut places = all_slots(alloc, hosts, per_host)?;
    if places.len() < usize::from(size) {
        return Ok(None);
    }
    places.truncate(usize::from(size));
    Ok(Some(places))
}

/// Whether it is said how many ranks a host takes at most.
fn is_bounded(host: &Host) -> bool
    ensures { result ≡ is_bounded host.now }
{
    host.most.is_some()
}

/// The same of some of these hosts.
fn are_bounded(hosts: &[Host<'_>]) -> bool
    ensures { result ≡ are_bounded hosts.now }
{
    for host in hosts {
        if is_bounded(host) {
            return true;
        }
    }
    false
}

/// The host of each of so many ranks, where the slots are filled again and again.
#[tactic(auto, using(crate::proofs::SlotLaws::slots_more))]
fn slots_again(alloc: Global, slots: &[usize], size: u16) -> Result<Vec<usize>, AllocError>
    requires { 0 < length slots.now }
    ensures { IfOk result (λ places. places.items ≡ slots_again slots.now size) }
{
    let mut places = Vec::new(alloc);
    for rank in 0..size {
        places.push(slots[usize::from(rank) % slots.len()])?;
    }
    Ok(places)
}

/// The same as `hosts_of_ranks` where hosts take more ranks than their slots: behind the last slot of all the ranks
/// begin again with the first one. None where there is no host, or it is said of one how many ranks it takes at most.
/// Only want of memory is an error.
pub fn hosts_of_more_ranks(
    alloc: Global,
    hosts: &[Host<'_>],
    per_host: Option<u16>,
    size: u16,
) -> Result<Option<Vec<usize>>, AllocError>
    ensures { IfOk result (λ found. MatchOption found (takes_no_more per_host hosts.now ≡ true)
        (λ places. places.items ≡ slots_again (all_slots per_host 0 hosts.now) size)) }
{
    let slots = all_slots(alloc, hosts, per_host)?;
    if slots.is_empty() || are_bounded(hosts) {
        return Ok(None);
    }
    Ok(Some(slots_again(alloc, &slots, size)?))
}

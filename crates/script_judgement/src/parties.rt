//! Ranks that have the same lines.

ghost use Rattle.std.specs.Prelude.{◌≡◌};
ghost use Rattle.std.specs.List.{list_all, list_any};
ghost use Rattle.script_judgement.specs.Parties.{is_first, is_lowest_of, is_meant, is_meant_as, is_not_below};

use crate::known_names::KnownNames;
use script_files::{Audience, AudienceMember, Item, Script};
use std::alloc::{AllocError, Global};

/// The ranks of a job that have the same lines at their first incarnation, and the names that these may have set so
/// far.
#[derive(Drop)]
pub(crate) struct Party {
    /// The lowest of the ranks.
    pub lowest: u16,
    /// How many they are.
    pub count: usize,
    /// The names.
    pub names: KnownNames,
}

/// Whether lines are for a rank's first incarnation that are for this one, or for each where none is named.
fn is_first(incarnation: Option<u32>) -> bool
    ensures { result ≡ is_first incarnation }
{
    match incarnation {
        Some(one) => one == 0,
        None => true,
    }
}

/// Whether it is below the size, at its first incarnation.
pub(crate) fn is_meant(member: &AudienceMember, size: u16) -> bool
    ensures { result ≡ is_meant size member.now }
{
    member.rank < size && is_first(member.incarnation)
}

/// Whether it is this rank, at its first incarnation.
fn is_meant_as(member: &AudienceMember, rank: u16, size: u16) -> bool
    ensures { result ≡ is_meant_as rank size member.now }
{
    is_meant(member, size) && member.rank == rank
}

/// Whether it is no lower rank than this one at its first incarnation.
fn is_not_below(member: &AudienceMember, rank: u16, size: u16) -> bool
    ensures { result ≡ is_not_below rank size member.now }
{
    !is_meant(member, size) || rank <= member.rank
}

fn is_one_of(members: &[AudienceMember], rank: u16, size: u16) -> bool
    ensures { result ≡ list_any (is_meant_as rank size) members.now }
{
    members.iter().any(|member| is_meant_as(member, rank, size))
}

fn has_none_below(members: &[AudienceMember], rank: u16, size: u16) -> bool
    ensures { result ≡ list_all (is_not_below rank size) members.now }
{
    members
        .iter()
        .all(|member| is_not_below(member, rank, size))
}

/// Whether the rank is the lowest that lines with this audience are for, in a job of this size at its first
/// incarnations.
pub(crate) fn is_lowest_of(audience: &Audience, rank: u16, size: u16) -> bool
    ensures { result ≡ is_lowest_of rank size audience.now }
{
    match audience {
        Audience::All => rank == 0,
        Audience::Ranks(members) => {
            let members = members.as_slice();
            is_one_of(members, rank, size) && has_none_below(members, rank, size)
        }
    }
}

/// Parties get new numbers by one `on`: those of its ranks that had the same number have the same new one.
fn part(
    alloc: Global,
    parties: &mut [usize],
    next: &mut usize,
    members: &[AudienceMember],
    size: u16,
) -> Result<(), AllocError> {
    let first_new = *next;
    let mut renamed: Vec<(usize, usize)> = Vec::new(alloc);
    for member in members {
        let Some(number) = parties.get_mut(member.rank as usize) else {
            continue;
        };
        if is_meant(member, size) && *number < first_new {
            match renamed.iter().find(|pair| pair.0 == *number) {
                Some(pair) => *number = pair.1,
                None => {
                    renamed.push((*number, *next))?;
                    *number = *next;
                    *next = next.saturating_add(1);
                }
            }
        }
    }
    Ok(())
}

/// The number of the party of each rank.
fn numbers_of(alloc: Global, script: &Script, size: u16) -> Result<Vec<usize>, AllocError> {
    let mut numbers = vec![in alloc; 0usize; size as usize]?;
    let mut next = 1;
    for line in script.lines() {
        if let Item::On(Audience::Ranks(members)) = &line.item {
            part(alloc, &mut numbers, &mut next, members.as_slice(), size)?;
        }
    }
    Ok(numbers)
}

/// The parties of a job.
#[derive(Drop)]
pub(crate) struct Parties {
    /// The place of each rank's party.
    places: Vec<usize>,
    /// The parties, by their lowest ranks.
    pub items: Vec<Party>,
}

impl Parties {
    /// The parties of a script for so many ranks, at its start.
    pub(crate) fn new(alloc: Global, script: &Script, size: u16) -> Result<Parties, AllocError> {
        let numbers = numbers_of(alloc, script, size)?;
        let mut seen: Vec<usize> = Vec::new(alloc);
        let mut places = Vec::new(alloc);
        let mut items: Vec<Party> = Vec::new(alloc);
        for (rank, number) in numbers.iter().enumerate() {
            match seen.iter().position(|one| one == number) {
                Some(place) => {
                    if let Some(party) = items.get_mut(place) {
                        party.count = party.count.saturating_add(1);
                    }
                    places.push(place)?;
                }
                None => {
                    places.push(items.len())?;
                    seen.push(*number)?;
                    items.push(Party {
                        lowest: u16::try_from(rank).unwrap_or(u16::MAX),
                        count: 1,
                        names: KnownNames::new(alloc),
                    })?;
                }
            }
        }
        Ok(Parties { places, items })
    }

    /// The places of the parties that lines are for with this audience, each once, by their lowest ranks.
    pub(crate) fn meant(
        &self,
        alloc: Global,
        audience: &Audience,
    ) -> Result<Vec<usize>, AllocError> {
        let mut meant = Vec::new(alloc);
        match audience {
            Audience::All => {
                for place in 0..self.items.len() {
                    meant.push(place)?;
                }
            }
            Audience::Ranks(members) => {
                let size = u16::try_from(self.places.len()).unwrap_or(u16::MAX);
                for member in members.as_slice() {
                    if is_meant(member, size) {
                        if let Some(place) = self.places.get(member.rank as usize) {
                            meant.push(*place)?;
                        }
                    }
                }
                meant.sort_unstable();
                meant.dedup();
            }
        }
        Ok(meant)
    }
}

//! What a rank is in a collective: whose word it waits for, and whom it tells what.

ghost use Rattle.std.specs.Prelude.{◌≡◌, ◌<◌, ◌≤◌, true, All, ◌++◌, IfOk, OnOk, IfSome, Some, ◌∷◌, [], length, map};
ghost use Rattle.std.specs.Prelude.{slice_get, if◌then◌else◌};
ghost use Rattle.std.specs.Option.{option_copied, option_to_list};
ghost use Rattle.collective_messages.specs.Roles.{above_place, all_or_none, all_or_own, below_place, both_role};
ghost use Rattle.collective_messages.specs.Roles.{gather_role, onward_place, own_place, ranks_at, reduce_role, role_at};
ghost use Rattle.collective_messages.specs.Roles.{role_of};
ghost use Rattle.payload.specs.declared.record.Record.TheVariants as records;
ghost use Rattle.binomial_trees.specs.Trees.{children, rotate, rotate_back};

use crate::verdict::is_at;
use alike::Alike;
use binomial_trees::{children, parent, rotate, rotate_back};
use groups::Group;
use payload::{Record, Rooted};
use std::alloc::{AllocError, Global};
use std::marker::Model;
use vocabulary::Endpoint;

/// What a rank is in a collective. It is made once, on entering; ranks are those of `world`.
#[derive(Drop)]
pub struct Role {
    decides: bool,
    above: Option<u16>,
    feeders: Vec<u16>,
    onward: Vec<u16>,
}

impl Model for Role {
    ghost use Rattle.collective_messages.specs.Roles.{RoleState};

    ghost Value = { RoleState };

    ghost view = { λ r. record { decides = r.decides; above = r.above; feeders = r.feeders.items; onward = r.onward.items } };
}

impl Alike for Role {
    fn stands_as(&self, other: &Self) -> bool {
        self.decides == other.decides
            && self.above == other.above
            && self.feeders.as_slice() == other.feeders.as_slice()
            && self.onward.as_slice() == other.onward.as_slice()
    }
}

impl Role {
    /// Whether it leaves once those have entered for whom it waits, without being told.
    pub fn decides(&self) -> bool
        ensures { result ≡ self.now.decides }
    {
        self.decides
    }

    /// Whom it tells that it and those below it have entered, if anybody; who is named itself tells nobody.
    pub fn above(&self) -> Option<u16>
        ensures { result ≡ self.now.above }
    {
        self.above
    }

    /// Whose word it waits for, in the order of the communicator, itself among them.
    pub fn feeders(&self) -> &[u16]
        ensures { result.now ≡ self.now.feeders }
    {
        self.feeders.as_slice()
    }

    /// Whom it tells a result.
    pub fn onward(&self) -> &[u16]
        ensures { result.now ≡ self.now.onward }
    {
        self.onward.as_slice()
    }
}

/// The place of an endpoint among these ranks, whose incarnation this is.
fn own_place(own: Endpoint, incarnation: u16, ranks: &[u16]) -> Option<usize>
    ensures { result ≡ own_place own incarnation ranks.now }
{
    ranks
        .iter()
        .position(|rank| *rank == own.rank && incarnation == own.incarnation)
}

/// The rank at a place stands behind the others, if it is there.
fn push_rank(found: &mut Vec<u16>, ranks: &[u16], place: u32) -> Result<(), AllocError>
    ensures { OnOk result (found.new.items ≡ found.old.items ++ option_to_list (slice_get ranks.now place)) }
{
    match ranks.get(place as usize) {
        Some(rank) => {
            found.push(*rank)?;
            Ok(())
        }
        None => Ok(()),
    }
}

/// The ranks at these places.
#[tactic(auto, using(crate::proofs::Places::ranks_more))]
fn ranks_at(alloc: Global, ranks: &[u16], places: &[u32]) -> Result<Vec<u16>, AllocError>
    ensures { IfOk result (λ found. found.items ≡ ranks_at ranks.now places.now) }
{
    let mut found = Vec::new(alloc);
    for place in places {
        push_rank(&mut found, ranks, *place)?;
    }
    Ok(found)
}

/// Those right below a place that is there, in the tree by rank.
fn below_there(alloc: Global, ranks: &[u16], place: u32) -> Result<Vec<u16>, AllocError>
    requires few { length ranks.now ≤ 65536 }
    requires there { place < length ranks.now }
    ensures { IfOk result (λ below. below.items ≡ below_place ranks.now (Some place)) }
{
    let places = children(alloc, ranks.len() as u32, place)?;
    ranks_at(alloc, ranks, &places)
}

/// Those right below a place in the tree by rank.
fn below_place(alloc: Global, ranks: &[u16], place: Option<usize>) -> Result<Vec<u16>, AllocError>
    requires few { length ranks.now ≤ 65536 }
    requires there { IfSome place (λ i. i < length ranks.now) }
    ensures { IfOk result (λ below. below.items ≡ below_place ranks.now place) }
{
    match place {
        Some(place) => below_there(alloc, ranks, place as u32),
        None => Ok(Vec::new(alloc)),
    }
}

/// The rank right above a place in the tree by rank.
fn above_place(ranks: &[u16], place: Option<usize>) -> Option<u16>
    requires few { length ranks.now ≤ 65536 }
    requires there { IfSome place (λ i. i < length ranks.now) }
    ensures { result ≡ above_place ranks.now place }
{
    match place {
        Some(place) => {
            if place == 0 {
                return None;
            }
            match ranks.get(parent(place as u32) as usize) {
                Some(rank) => Some(*rank),
                None => None,
            }
        }
        None => None,
    }
}

/// The places of the members with these positions in the tree with this top.
fn turned_places(
    alloc: Global,
    top: u32,
    size: u32,
    positions: &[u32],
) -> Result<Vec<u32>, AllocError>
    requires size { size ≤ 65536 }
    requires top { top < size }
    requires inside { All (λ p. p < size) positions.now }
    ensures { IfOk result (λ places. places.items ≡ map (rotate_back top size) positions.now) }
{
    let mut places = Vec::new(alloc);
    for position in positions {
        places.push(rotate_back(top, size, *position))?;
    }
    Ok(places)
}

/// Those right below a place that is there, in the tree with a top that is there.
fn onward_there(alloc: Global, top: u32, ranks: &[u16], place: u32) -> Result<Vec<u16>, AllocError>
    requires few { length ranks.now ≤ 65536 }
    requires top { top < length ranks.now }
    requires there { place < length ranks.now }
    ensures { IfOk result (λ onward. onward.items ≡ onward_place top ranks.now (Some place)) }
{
    let size = ranks.len() as u32;
    let positions = children(alloc, size, rotate(top, size, place))?;
    let places = turned_places(alloc, top, size, &positions)?;
    ranks_at(alloc, ranks, &places)
}

/// Those right below a place in the tree with this top.
fn onward_place(
    alloc: Global,
    top: u32,
    ranks: &[u16],
    place: Option<usize>,
) -> Result<Vec<u16>, AllocError>
    requires few { length ranks.now ≤ 65536 }
    requires there { IfSome place (λ i. i < length ranks.now) }
    ensures { IfOk result (λ onward. onward.items ≡ onward_place top ranks.now place) }
{
    match place {
        Some(place) => {
            if top as usize >= ranks.len() {
                return Ok(Vec::new(alloc));
            }
            onward_there(alloc, top, ranks, place as u32)
        }
        None => Ok(Vec::new(alloc)),
    }
}

/// These ranks once more.
fn copy_of(alloc: Global, ranks: &[u16]) -> Result<Vec<u16>, AllocError>
    ensures { IfOk result (λ copy. copy.items ≡ ranks.now) }
{
    Vec::from_slice(alloc, ranks)
}

/// One rank alone.
fn one_rank(alloc: Global, rank: u16) -> Result<Vec<u16>, AllocError>
    ensures { IfOk result (λ ranks. ranks.items ≡ rank ∷ []) }
{
    let mut ranks = Vec::new(alloc);
    ranks.push(rank)?;
    Ok(ranks)
}

/// One rank in front of others.
fn with_first(alloc: Global, rank: u16, others: &[u16]) -> Result<Vec<u16>, AllocError>
    ensures { IfOk result (λ ranks. ranks.items ≡ rank ∷ others.now) }
{
    let mut ranks = one_rank(alloc, rank)?;
    ranks.extend_from_slice(others)?;
    Ok(ranks)
}

/// All, or the rank alone.
fn all_or_own(
    alloc: Global,
    all: bool,
    own: Endpoint,
    ranks: &[u16],
) -> Result<Vec<u16>, AllocError>
    ensures { IfOk result (λ list. list.items ≡ all_or_own all own ranks.now) }
{
    if all {
        copy_of(alloc, ranks)
    } else {
        one_rank(alloc, own.rank)
    }
}

/// All, or nobody.
fn all_or_none(alloc: Global, all: bool, ranks: &[u16]) -> Result<Vec<u16>, AllocError>
    ensures { IfOk result (λ list. list.items ≡ all_or_none all ranks.now) }
{
    if all {
        copy_of(alloc, ranks)
    } else {
        Ok(Vec::new(alloc))
    }
}

/// The rank at a place, if it is there.
fn rank_at(ranks: &[u16], place: u32) -> Option<u16>
    ensures { result ≡ slice_get ranks.now place }
{
    match ranks.get(place as usize) {
        Some(rank) => Some(*rank),
        None => None,
    }
}

/// The rank at a place alone, or nobody.
fn one_or_none(
    alloc: Global,
    there: bool,
    ranks: &[u16],
    place: u32,
) -> Result<Vec<u16>, AllocError>
    ensures { IfOk result (λ list. list.items ≡ (if there then option_to_list (slice_get ranks.now place) else [])) }
{
    match (there, rank_at(ranks, place)) {
        (true, Some(rank)) => one_rank(alloc, rank),
        _ => Ok(Vec::new(alloc)),
    }
}

/// In the middle of a star that tells all what it made, or around it.
fn both_role(alloc: Global, middle: bool, own: Endpoint, ranks: &[u16]) -> Result<Role, AllocError>
    ensures { IfOk result (λ role. role ≡ both_role middle own ranks.now) }
{
    Ok(Role {
        decides: middle,
        above: rank_at(ranks, 0),
        feeders: all_or_own(alloc, middle, own, ranks)?,
        onward: all_or_none(alloc, middle, ranks)?,
    })
}

/// In the tree by rank, in a barrier.
fn barrier_role(
    alloc: Global,
    own: Endpoint,
    incarnation: u16,
    ranks: &[u16],
    place: Option<usize>,
) -> Result<Role, AllocError>
    requires few { length ranks.now ≤ 65536 }
    requires there { IfSome place (λ i. i < length ranks.now) }
    ensures { IfOk result (λ role. role ≡ role_at place own incarnation ranks.now records.Barrier) }
{
    let below = below_place(alloc, ranks, place)?;
    Ok(Role {
        decides: is_at(own, incarnation, ranks, 0),
        above: above_place(ranks, place),
        feeders: with_first(alloc, own.rank, &below)?,
        onward: below,
    })
}

/// In the tree by rank, in a reduction to a root.
fn tree_role(
    alloc: Global,
    own: Endpoint,
    incarnation: u16,
    ranks: &[u16],
    root: u32,
) -> Result<Role, AllocError>
    requires { length ranks.now ≤ 65536 }
    ensures { IfOk result (λ role. role ≡
        reduce_role true (own_place own incarnation ranks.now) own incarnation ranks.now root) }
{
    let place = own_place(own, incarnation, ranks);
    let below = below_place(alloc, ranks, place)?;
    let first = is_at(own, incarnation, ranks, 0);
    Ok(Role {
        decides: first || !is_at(own, incarnation, ranks, root),
        above: above_place(ranks, place),
        feeders: with_first(alloc, own.rank, &below)?,
        onward: one_or_none(alloc, first, ranks, root)?,
    })
}

/// In the tree whose top is the root of a broadcast.
fn bcast_role(
    alloc: Global,
    own: Endpoint,
    incarnation: u16,
    ranks: &[u16],
    rooted: Rooted,
) -> Result<Role, AllocError>
    requires { length ranks.now ≤ 65536 }
    ensures { IfOk result (λ role. role ≡ role_of own incarnation ranks.now (records.Bcast rooted)) }
{
    let place = own_place(own, incarnation, ranks);
    Ok(Role {
        decides: is_at(own, incarnation, ranks, rooted.root),
        above: None,
        feeders: one_rank(alloc, own.rank)?,
        onward: onward_place(alloc, rooted.root, ranks, place)?,
    })
}

/// In the star of a gather.
fn gather_role(
    alloc: Global,
    own: Endpoint,
    incarnation: u16,
    ranks: &[u16],
    root: u32,
) -> Result<Role, AllocError>
    ensures { IfOk result (λ role. role ≡ gather_role own incarnation ranks.now root) }
{
    let middle = is_at(own, incarnation, ranks, root);
    Ok(Role {
        decides: true,
        above: rank_at(ranks, root),
        feeders: all_or_own(alloc, middle, own, ranks)?,
        onward: Vec::new(alloc),
    })
}

/// In the star of a scatter.
fn scatter_role(
    alloc: Global,
    own: Endpoint,
    incarnation: u16,
    ranks: &[u16],
    rooted: Rooted,
) -> Result<Role, AllocError>
    ensures { IfOk result (λ role. role ≡ role_of own incarnation ranks.now (records.Scatter rooted)) }
{
    let middle = is_at(own, incarnation, ranks, rooted.root);
    Ok(Role {
        decides: middle,
        above: None,
        feeders: one_rank(alloc, own.rank)?,
        onward: all_or_none(alloc, middle, ranks)?,
    })
}

/// What the rank at `own` is in a collective with this record, by the ranks of the members, whose incarnation this is.
fn role_in(
    alloc: Global,
    own: Endpoint,
    incarnation: u16,
    ranks: &[u16],
    entered: Record,
) -> Result<Role, AllocError>
    requires { length ranks.now ≤ 65536 }
    ensures { IfOk result (λ role. role ≡ role_of own incarnation ranks.now entered) }
{
    let place = own_place(own, incarnation, ranks);
    match entered {
        Record::Barrier => barrier_role(alloc, own, incarnation, ranks, place),
        Record::Bcast(rooted) => bcast_role(alloc, own, incarnation, ranks, rooted),
        Record::Gather(rooted) => gather_role(alloc, own, incarnation, ranks, rooted.root),
        Record::Scatter(rooted) => scatter_role(alloc, own, incarnation, ranks, rooted),
        Record::Reduce(operation, rooted) => {
            // Where the operation isn't associative, each part goes to the root, as in a gather.
            if operation.is_associative_on(rooted.elements.basic) {
                tree_role(alloc, own, incarnation, ranks, rooted.root)
            } else {
                gather_role(alloc, own, incarnation, ranks, rooted.root)
            }
        }
        Record::Allreduce(..) | Record::Dup | Record::Split => both_role(
            alloc,
            is_at(own, incarnation, ranks, 0),
            own,
            ranks,
        ),
    }
}

/// What the rank at `own` is in a collective with this record, among the members of a group, whose incarnation this is.
pub fn role_of(
    alloc: Global,
    own: Endpoint,
    incarnation: u16,
    group: &Group,
    entered: Record,
) -> Result<Role, AllocError>
    ensures { IfOk result (λ role. role ≡ role_of own incarnation group.now entered) }
{
    let _size = group.len();
    role_in(alloc, own, incarnation, group.ranks(), entered)
}

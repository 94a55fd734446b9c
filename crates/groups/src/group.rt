//! A group of ranks, and the groups that are made of it.

ghost use Rattle.std.specs.Prelude.{◌≡◌, ◌≤◌, ◌^◌, ◌↔◌, ◌∷◌, [], length, slice_get, IsTrue, IfOk, IsOkUnless};
ghost use Rattle.std.specs.List.{range_with_len};
ghost use Rattle.groups.specs.Comparisons.{ComparesAs};
ghost use Rattle.groups.specs.Groups.{HasNoRepeats, is_member, union_of, intersection_of, difference_of, members_at};
ghost use Rattle.groups.specs.Groups.{members_elsewhere, position_of, translation};
ghost use Rattle.groups.specs.Makings.{MakesGroup, SelectsGroup};

use crate::comparison::GroupComparison;
use crate::distinct::has_no_repeats;
use crate::refusal::GroupRefusal;
use crate::selection::{
    INLINE, append_selected, at_positions, count, first_fault, first_ranks, holds_all, is_among,
    other_positions, place_of,
};
use alike::Alike;
use smallvec::SmallVec;
use std::alloc::Global;
use std::marker::Model;

/// A group: an ordered list of world ranks, none of them twice (MPI 3.1, 6.2.1). A member's rank in
/// the group is its position in the list. Up to 16 members need no allocation.
#[derive(Drop)]
pub struct Group {
    members: SmallVec<u16, INLINE>,
}

impl Model for Group {
    ghost use Rattle.std.specs.Prelude.{List, ℕ};
    ghost use Rattle.groups.specs.Groups.{HasNoRepeats};

    ghost Value = { List ℕ };

    ghost view = { λ g. g.members.items };

    ghost invariant = { λ g. HasNoRepeats g.members.items };
}

impl Group {
    /// The group of these world ranks, in this order. A rank that is repeated is
    /// `GroupRefusal::Repeated`.
    pub fn from_ranks(alloc: Global, ranks: &[u16]) -> Result<Self, GroupRefusal>
        ensures exact { MakesGroup ranks.now result }
    {
        if !has_no_repeats(ranks) {
            return Err(GroupRefusal::Repeated);
        }
        match SmallVec::from_slice(alloc, ranks) {
            Ok(members) => Ok(Group { members }),
            Err(_) => Err(GroupRefusal::OutOfMemory),
        }
    }

    /// The group of one rank, as that of its `self` communicator. It takes no memory.
    pub fn of_rank(alloc: Global, rank: u16) -> Self
        ensures { result ≡ rank ∷ [] }
    {
        let mut members = SmallVec::new(alloc);
        members.push_reserved(rank);
        Group { members }
    }

    /// The group of the first `size` world ranks in order, as that of the `world` communicator.
    pub fn of_first_ranks(alloc: Global, size: u16) -> Result<Self, GroupRefusal>
        ensures ok { IfOk result (λ group. group ≡ range_with_len 0 size) }
        ensures err { IsOkUnless result GroupRefusal.OutOfMemory }
    {
        match first_ranks(alloc, size) {
            Ok(members) => Ok(Group { members }),
            Err(_) => Err(GroupRefusal::OutOfMemory),
        }
    }

    /// The same group once more.
    pub fn try_clone(&self) -> Result<Self, GroupRefusal>
        ensures ok { IfOk result (λ group. group ≡ self.now) }
        ensures err { IsOkUnless result GroupRefusal.OutOfMemory }
    {
        match SmallVec::from_slice(*self.members.allocator(), self.ranks()) {
            Ok(members) => Ok(Group { members }),
            Err(_) => Err(GroupRefusal::OutOfMemory),
        }
    }

    /// The world ranks of the members, in the group's order.
    pub fn ranks(&self) -> &[u16]
        ensures ranks { result.now ≡ self.now }
        ensures apart { HasNoRepeats result.now }
    {
        self.members.as_slice()
    }

    /// How many members the group has.
    pub fn len(&self) -> usize
        ensures members { result ≡ length self.now }
        ensures few { result ≤ 2 ^ 16 }
    {
        count(self.ranks())
    }

    /// Whether the group has no member.
    pub fn is_empty(&self) -> bool
        ensures { IsTrue result ↔ (self.now ≡ []) }
    {
        self.members.is_empty()
    }

    /// The world rank of the member at a position, where the group has that position.
    pub fn member(&self, position: u16) -> Option<u16>
        ensures { result ≡ slice_get self.now position }
    {
        self.ranks().get(usize::from(position)).copied()
    }

    /// The position of the member with this world rank: its rank in the group (MPI 3.1, 6.3.1).
    pub fn position_of(&self, rank: u16) -> Option<u16>
        ensures { result ≡ position_of self.now rank }
    {
        place_of(self.ranks(), rank)
    }

    /// Whether a world rank is a member.
    pub fn contains(&self, rank: u16) -> bool
        ensures { result ≡ is_member self.now rank }
    {
        is_among(self.ranks(), rank)
    }

    /// The group of the members at these positions, in the order of the positions (MPI 3.1, 6.3.2).
    ///
    /// A position that isn't there is `GroupRefusal::NoSuchPosition`, and comes first; a position that
    /// is repeated is `GroupRefusal::Repeated`.
    pub fn incl(&self, positions: &[u16]) -> Result<Self, GroupRefusal>
        ensures exact { SelectsGroup self.now positions.now
            (members_at self.now positions.now) result }
    {
        let ranks = self.ranks();
        if let Some(fault) = first_fault(positions, ranks.len()) {
            return Err(fault);
        }
        match at_positions(*self.members.allocator(), ranks, positions) {
            Ok(members) => Ok(Group { members }),
            Err(_) => Err(GroupRefusal::OutOfMemory),
        }
    }

    /// The group of the members at all other positions, in the group's order (MPI 3.1, 6.3.2). It
    /// is refused as `incl` is.
    pub fn excl(&self, positions: &[u16]) -> Result<Self, GroupRefusal>
        ensures exact { SelectsGroup self.now positions.now
            (members_elsewhere self.now positions.now) result }
    {
        let ranks = self.ranks();
        if let Some(fault) = first_fault(positions, ranks.len()) {
            return Err(fault);
        }
        match other_positions(*self.members.allocator(), ranks, positions) {
            Ok(members) => Ok(Group { members }),
            Err(_) => Err(GroupRefusal::OutOfMemory),
        }
    }

    /// This group's members, then those of the other group that aren't in this one (MPI 3.1,
    /// 6.3.2).
    pub fn union(&self, other: &Group) -> Result<Self, GroupRefusal>
        ensures ok { IfOk result (λ group. group ≡ union_of self.now other.now) }
        ensures err { IsOkUnless result GroupRefusal.OutOfMemory }
    {
        let first = self.ranks();
        let second = other.ranks();
        match append_selected(*self.members.allocator(), first, second, first, false) {
            Ok(members) => Ok(Group { members }),
            Err(_) => Err(GroupRefusal::OutOfMemory),
        }
    }

    /// This group's members that are in the other group, in this group's order (MPI 3.1, 6.3.2).
    pub fn intersection(&self, other: &Group) -> Result<Self, GroupRefusal>
        ensures ok { IfOk result (λ group. group ≡ intersection_of self.now other.now) }
        ensures err { IsOkUnless result GroupRefusal.OutOfMemory }
    {
        let first = self.ranks();
        let second = other.ranks();
        match append_selected(*self.members.allocator(), &[], first, second, true) {
            Ok(members) => Ok(Group { members }),
            Err(_) => Err(GroupRefusal::OutOfMemory),
        }
    }

    /// This group's members that aren't in the other group, in this group's order (MPI 3.1, 6.3.2).
    pub fn difference(&self, other: &Group) -> Result<Self, GroupRefusal>
        ensures ok { IfOk result (λ group. group ≡ difference_of self.now other.now) }
        ensures err { IsOkUnless result GroupRefusal.OutOfMemory }
    {
        let first = self.ranks();
        let second = other.ranks();
        match append_selected(*self.members.allocator(), &[], first, second, false) {
            Ok(members) => Ok(Group { members }),
            Err(_) => Err(GroupRefusal::OutOfMemory),
        }
    }

    /// The position in the other group of the member at a position of this one; none where the
    /// other group lacks it, or this one has no such position (MPI 3.1, 6.3.1). It takes no memory.
    pub fn translate(&self, position: u16, other: &Group) -> Option<u16>
        ensures { result ≡ translation self.now other.now position }
    {
        match self.member(position) {
            Some(rank) => other.position_of(rank),
            None => None,
        }
    }

    /// How this group compares with another (MPI 3.1, 6.3.1). It takes no memory, and one pass over
    /// each.
    pub fn compare(&self, other: &Group) -> GroupComparison
        ensures { ComparesAs self.now other.now result }
    {
        let first = self.ranks();
        let second = other.ranks();
        if first == second {
            return GroupComparison::Ident;
        }
        if first.len() == second.len() && holds_all(first, second) {
            GroupComparison::Similar
        } else {
            GroupComparison::Unequal
        }
    }
}

impl Alike for Group {
    fn stands_as(&self, other: &Self) -> bool {
        self.ranks() == other.ranks()
    }
}

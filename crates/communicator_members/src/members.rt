//! Groups of communicators, which their receives share.

ghost use Rattle.std.specs.Prelude.{◌≡◌, ◌≤◌, ◌==◌, length, position, IfOk, IfSome};
ghost use Rattle.std.specs.Option.{option_copied};
ghost use Rattle.perfect_queues.specs.Groups.{rank_in};
ghost use Rattle.communicator_members.specs.Statuses.{status_in};

use alike::{Alike, are_alike};
use std::alloc::{AllocError, Global};
use std::marker::Model;
use std::rc::RcSlice;
use vocabulary::{Source, Status};

/// The members of a communicator, as ranks of world in the order of their ranks in it (MPI 3.1, 6.2.1). They don't
/// change, and one owner has them or several share them. Contracts see them as the list of these ranks, of which there
/// are at most
/// 65,535, as a job has no more.
#[derive(Debug, Drop)]
pub struct Members {
    ranks: RcSlice<u16>,
}

impl Model for Members {
    ghost use Rattle.std.specs.Prelude.{◌≤◌, List, ℕ, length};
    ghost use Rattle.std.specs.Rc.{rc_slice_items};

    ghost Value = { List ℕ };

    ghost view = { λ m. rc_slice_items m.ranks };

    ghost invariant = { λ m. length (rc_slice_items m.ranks) ≤ 65535 };
}

fn place_of(ranks: &[u16], member: u16) -> Option<usize>
    ensures { result ≡ position (λ rank. rank == member) ranks.now }
{
    ranks.iter().position(|rank| *rank == member)
}

/// The place of this rank of world among the ranks; one behind the last where it is none of them.
#[tactic(auto, using(crate::proofs::InGroups::found_is, crate::proofs::InGroups::none_is, crate::proofs::InGroups::rank_within))]
fn rank_among(ranks: &[u16], member: u16) -> usize
    ensures exact { result ≡ rank_in ranks.now member }
    ensures within { result ≤ length ranks.now }
{
    match place_of(ranks, member) {
        Some(place) => place,
        None => ranks.len(),
    }
}

impl Members {
    /// These ranks of world, in this order. It fails for want of memory alone.
    pub fn from_slice(alloc: Global, ranks: &[u16]) -> Result<Members, AllocError>
        requires { length ranks.now ≤ 65535 }
        ensures { IfOk result (λ members. members ≡ ranks.now) }
    {
        let ranks = RcSlice::from_slice(alloc, ranks)?;
        Ok(Members { ranks })
    }

    /// The same members for one more owner, without a copy. The only error is that there are too many owners.
    pub fn share(&self) -> Result<Members, AllocError>
        ensures { IfOk result (λ members. members ≡ self.now) }
    {
        let ranks = self.ranks.clone()?;
        Ok(Members { ranks })
    }

    /// The members, as ranks of world.
    pub fn as_slice(&self) -> &[u16]
        ensures { result.now ≡ self.now }
    {
        self.ranks.as_slice()
    }

    /// The rank in the communicator of the member that is this rank of world; one behind the last where it is no
    /// member.
    pub fn rank_of(&self, member: u16) -> u16
        ensures { result ≡ rank_in self.now member }
    {
        rank_among(self.ranks.as_slice(), member) as u16
    }
}

impl Alike for Members {
    fn stands_as(&self, other: &Self) -> bool {
        are_alike(self.as_slice(), other.as_slice())
    }
}

/// The same group for one more owner, without a copy; none stays none. The only error is that there are too many
/// owners.
pub fn share_group(group: &Option<Members>) -> Result<Option<Members>, AllocError>
    ensures { IfOk result (λ shared. shared ≡ group.now) }
{
    match group {
        Some(members) => Ok(Some(members.share()?)),
        None => Ok(None),
    }
}

/// A status that names its source as a rank of world, as it is told to a receive of a communicator with this group: its
/// source is a rank of the communicator (MPI 3.1, 3.2.5). None is the group of world.
pub fn status_in(group: &Option<Members>, status: Status) -> Status
    ensures { result ≡ status_in group.now status }
{
    let (Some(members), Source::Rank(rank)) = (group, status.source) else {
        return status;
    };
    Status {
        source: Source::Rank(members.rank_of(rank)),
        tag: status.tag,
        count: status.count,
    }
}

/// What becomes of the members of a group that is lent, at most 65,535. It takes no memory.
pub fn status_among(group: Option<&[u16]>, status: Status) -> Status
    requires { IfSome (option_copied group) (λ ranks. length ranks ≤ 65535) }
    ensures { result ≡ status_in (option_copied group.entry) status }
{
    let (Some(ranks), Source::Rank(rank)) = (group, status.source) else {
        return status;
    };
    Status {
        source: Source::Rank(rank_among(ranks, rank) as u16),
        tag: status.tag,
        count: status.count,
    }
}

//! Whom lines are for.

ghost use Rattle.std.specs.Prelude.{◌≡◌, ◌++◌, [], ◌∷◌, OnOk};
ghost use Rattle.script_files.specs.Audiences.{includes, is_one_of, is_member};

use std::alloc::{AllocFailed, Global};
use std::marker::Model;

/// A rank, or one incarnation of it.
#[derive(Clone, Copy, PartialEq, Eq)]
pub struct AudienceMember {
    /// The rank; one that 16 bits don't hold stands as the greatest number that they hold, which is no rank either.
    pub rank: u16,
    /// The one incarnation that is meant; none: each. A number that is no incarnation, since 16 bits don't hold it,
    /// stands as 65,536.
    pub incarnation: Option<u32>,
}

impl AudienceMember {
    /// Whether this rank at this incarnation is meant.
    pub fn is(self, rank: u16, incarnation: u16) -> bool
        ensures { result ≡ is_member rank incarnation self }
    {
        self.rank == rank
            && match self.incarnation {
                None => true,
                Some(one) => one == u32::from(incarnation),
            }
    }
}

/// Ranks that lines are for, in the order in which they were named.
#[derive(Drop)]
pub struct AudienceMembers {
    items: Vec<AudienceMember>,
}

impl Model for AudienceMembers {
    ghost use Rattle.std.specs.Prelude.{List};
    ghost use Rattle.script_files.specs.declared.audience.AudienceMember.{AudienceMember};

    ghost Value = { List AudienceMember };

    ghost view = { λ m. m.items.items };
}

impl AudienceMembers {
    /// No ranks. It takes no memory.
    pub(crate) fn new(alloc: Global) -> AudienceMembers
        ensures { result ≡ [] }
    {
        AudienceMembers {
            items: Vec::new(alloc),
        }
    }

    /// Adds a rank at the end.
    pub(crate) fn push(&mut self, member: AudienceMember) -> Result<(), AllocFailed<AudienceMember>>
        ensures { OnOk result (self.new ≡ self.old ++ member ∷ []) }
    {
        self.items.push(member)
    }

    /// The ranks, in order.
    pub fn as_slice(&self) -> &[AudienceMember]
        ensures { result.now ≡ self.now }
    {
        self.items.as_slice()
    }

    /// Whether this rank at this incarnation is one of them.
    pub fn include(&self, rank: u16, incarnation: u16) -> bool
        ensures { result ≡ is_one_of rank incarnation self.now }
    {
        are_meant(&self.items, rank, incarnation)
    }
}

fn are_meant(members: &[AudienceMember], rank: u16, incarnation: u16) -> bool
    ensures { result ≡ is_one_of rank incarnation members.now }
{
    for member in members {
        if member.is(rank, incarnation) {
            return true;
        }
    }
    false
}

/// Whom lines are for.
#[derive(Drop)]
pub enum Audience {
    /// `on all`: for every rank, as the lines before the first `on` are.
    All,
    /// `on R R.I ..`: for these ranks.
    Ranks(AudienceMembers),
}

impl Audience {
    /// Whether the lines are for this rank at this incarnation.
    pub fn includes(&self, rank: u16, incarnation: u16) -> bool
        ensures { result ≡ includes rank incarnation self.now }
    {
        match self {
            Audience::All => true,
            Audience::Ranks(members) => members.include(rank, incarnation),
        }
    }
}

//! By what C holds ranks.

ghost use Rattle.std.specs.Prelude.{◌≡◌, Some, None, is_some, option_map};

use crate::held_ranks::HeldRanks;
use joined_ranks::JoinedRanks;
use std::alloc::Global;
use std::mem::replace;

/// Ranks, or nothing. C makes it of zeros, and holds it between calls.
#[repr(C)]
pub struct RanksHandle {
    /// What is held.
    pub(crate) held: HeldRanks,
    /// Whether something is.
    pub(crate) is_held: bool,
    ghost is: { is_held ≡ is_some held.value },
}

impl RanksHandle {
    /// Nothing.
    pub(crate) fn none() -> RanksHandle
        ensures { result.held.value ≡ None }
    {
        RanksHandle {
            held: HeldRanks::none(),
            is_held: false,
        }
    }

    /// Ranks.
    fn of(ranks: Box<JoinedRanks>) -> RanksHandle
        ensures { result.held.value ≡ Some ranks.value }
    {
        RanksHandle {
            held: HeldRanks::of(ranks),
            is_held: true,
        }
    }

    /// The ranks, where some are held.
    pub(crate) fn into_box(self, alloc: Global) -> Option<Box<JoinedRanks>>
        ensures { option_map (λ b. b.value) result ≡ self.held.value }
    {
        let RanksHandle { held, is_held } = self;
        if is_held {
            return Some(held.into_box(alloc));
        }
        held.forget();
        None
    }

    /// Takes the ranks out, where some are held.
    pub(crate) fn take(&mut self, alloc: Global) -> Option<Box<JoinedRanks>>
        ensures taken { option_map (λ b. b.value) result ≡ self.old.held.value }
        ensures left { self.new.held.value ≡ None }
    {
        replace(self, RanksHandle::none()).into_box(alloc)
    }

    /// Holds the ranks, where none are held.
    pub(crate) fn put(&mut self, ranks: Box<JoinedRanks>)
        requires { self.old.held.value ≡ None }
        ensures { self.new.held.value ≡ Some ranks.value }
    {
        let RanksHandle { held, is_held: _ } = replace(self, RanksHandle::of(ranks));
        held.forget();
    }
}

//! By what C holds a rank.

ghost use Rattle.std.specs.Prelude.{◌≡◌, Some, None, is_some, option_map};

use crate::held::Held;
use c_rank::Rank;
use std::alloc::Global;
use std::mem::replace;

/// A rank, or nothing. C makes it of zeros, and holds it between calls.
#[repr(C)]
pub struct Handle {
    /// What is held.
    pub(crate) held: Held,
    /// Whether something is.
    pub(crate) is_held: bool,
    ghost is: { is_held ≡ is_some held.value },
}

impl Handle {
    /// Nothing.
    pub(crate) fn none() -> Handle
        ensures { result.held.value ≡ None }
    {
        Handle {
            held: Held::none(),
            is_held: false,
        }
    }

    /// A rank.
    fn of(rank: Box<Rank>) -> Handle
        ensures { result.held.value ≡ Some rank.value }
    {
        Handle {
            held: Held::of(rank),
            is_held: true,
        }
    }

    /// The rank, where one is held.
    pub(crate) fn into_box(self, alloc: Global) -> Option<Box<Rank>>
        ensures { option_map (λ b. b.value) result ≡ self.held.value }
    {
        let Handle { held, is_held } = self;
        if is_held {
            return Some(held.into_box(alloc));
        }
        held.forget();
        None
    }

    /// Takes the rank out, where one is held.
    pub(crate) fn take(&mut self, alloc: Global) -> Option<Box<Rank>>
        ensures taken { option_map (λ b. b.value) result ≡ self.old.held.value }
        ensures left { self.new.held.value ≡ None }
    {
        replace(self, Handle::none()).into_box(alloc)
    }

    /// Holds the rank, where none is held.
    pub(crate) fn put(&mut self, rank: Box<Rank>)
        requires { self.old.held.value ≡ None }
        ensures { self.new.held.value ≡ Some rank.value }
    {
        let Handle { held, is_held: _ } = replace(self, Handle::of(rank));
        held.forget();
    }
}

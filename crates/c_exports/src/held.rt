//! A box of a rank, as C holds it.

ghost use Rattle.std.specs.Prelude.{◌≡◌, Option, Some, None, IsSome};
ghost use Rattle.c_rank.specs.State.{RankState};

use c_rank::Rank;
use loose_box::LooseBox;
use std::alloc::Global;
use std::marker::Model;

/// A box of a rank, or nothing.
#[repr(C)]
pub struct Held {
    at: *mut u8,
    /// The rank.
    pub ghost value: { Option RankState },
}

impl Model for Held {
    ghost use Rattle.std.specs.Prelude.{◌≡◌, Option};
    ghost use Rattle.c_rank.specs.State.{RankState};
    ghost use Rattle.c_exports.specs.HandleContents.{holds};

    ghost also_owns = { λ h. holds h.at h.value };
}

impl Held {
    /// Nothing.
    pub(crate) fn none() -> Held
        ensures { result.value ≡ None }
    {
        Held {
            at: std::ptr::null_mut(),
        }
    }

    /// The parts of a box.
    fn of_loose(rank: LooseBox<Rank, Global>) -> Held
        ensures { result.value ≡ Some rank.value }
    {
        let LooseBox { ptr, alloc: _ } = rank;
        Held { at: ptr as *mut u8 }
    }

    /// The parts of the box again.
    fn into_loose(self, alloc: Global) -> LooseBox<Rank, Global>
        requires { IsSome self.value }
        ensures { self.value ≡ Some result.value }
    {
        let Held { at } = self;
        LooseBox {
            ptr: at as *mut Rank,
            alloc,
        }
    }

    /// A box.
    pub(crate) fn of(rank: Box<Rank>) -> Held
        ensures { result.value ≡ Some rank.value }
    {
        Held::of_loose(LooseBox::of(rank))
    }

    /// The box again.
    pub(crate) fn into_box(self, alloc: Global) -> Box<Rank>
        requires { IsSome self.value }
        ensures { self.value ≡ Some result.value }
    {
        self.into_loose(alloc).into_box()
    }

    /// Nothing is left.
    pub(crate) fn forget(self)
        requires { self.value ≡ None }
    {
        let Held { at: _ } = self;
    }
}

//! A box of joined ranks, as C holds it.

ghost use Rattle.std.specs.Prelude.{◌≡◌, Option, Some, None, IsSome};
ghost use Rattle.joined_ranks.specs.Kept.{JoinedState};

use joined_ranks::JoinedRanks;
use loose_box::LooseBox;
use std::alloc::Global;
use std::marker::Model;

/// A box of joined ranks, or nothing.
#[repr(C)]
pub struct HeldRanks {
    at: *mut u8,
    /// The ranks.
    pub ghost value: { Option JoinedState },
}

impl Model for HeldRanks {
    ghost use Rattle.std.specs.Prelude.{◌≡◌, Option};
    ghost use Rattle.joined_ranks.specs.Kept.{JoinedState};
    ghost use Rattle.c_explorer.specs.RanksContents.{holds};

    ghost also_owns = { λ h. holds h.at h.value };
}

impl HeldRanks {
    /// Nothing.
    pub(crate) fn none() -> HeldRanks
        ensures { result.value ≡ None }
    {
        HeldRanks {
            at: std::ptr::null_mut(),
        }
    }

    /// The parts of a box.
    fn of_loose(ranks: LooseBox<JoinedRanks, Global>) -> HeldRanks
        ensures { result.value ≡ Some ranks.value }
    {
        let LooseBox { ptr, alloc: _ } = ranks;
        HeldRanks { at: ptr as *mut u8 }
    }

    /// The parts of the box again.
    fn into_loose(self, alloc: Global) -> LooseBox<JoinedRanks, Global>
        requires { IsSome self.value }
        ensures { self.value ≡ Some result.value }
    {
        let HeldRanks { at } = self;
        LooseBox {
            ptr: at as *mut JoinedRanks,
            alloc,
        }
    }

    /// A box.
    pub(crate) fn of(ranks: Box<JoinedRanks>) -> HeldRanks
        ensures { result.value ≡ Some ranks.value }
    {
        HeldRanks::of_loose(LooseBox::of(ranks))
    }

    /// The box again.
    pub(crate) fn into_box(self, alloc: Global) -> Box<JoinedRanks>
        requires { IsSome self.value }
        ensures { self.value ≡ Some result.value }
    {
        self.into_loose(alloc).into_box()
    }

    /// Nothing is left.
    pub(crate) fn forget(self)
        requires { self.value ≡ None }
    {
        let HeldRanks { at: _ } = self;
    }
}

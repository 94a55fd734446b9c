//! A box of choices, as C holds it.

ghost use Rattle.std.specs.Prelude.{◌≡◌, Option, Some, None, IsSome};
ghost use Rattle.explored_choices.specs.declared.choices.Choices.{Choices};

use explored_choices::Choices;
use loose_box::LooseBox;
use std::alloc::Global;
use std::marker::Model;

/// A box of choices, or nothing.
#[repr(C)]
pub struct Held {
    at: *mut u8,
    /// The choices.
    pub ghost value: { Option Choices },
}

impl Model for Held {
    ghost use Rattle.std.specs.Prelude.{◌≡◌, Option};
    ghost use Rattle.explored_choices.specs.declared.choices.Choices.{Choices};
    ghost use Rattle.c_explorer.specs.HandleContents.{holds};

    ghost also_owns = { λ h. holds h.at h.value };
}

impl Held {
    /// Nothing.
    pub(crate) fn none() -> Held
        ensures { result.value ≡ None }
    {
        Held {
            at: std::ptr::null_mut(),
        }
    }

    /// The parts of a box.
    fn of_loose(choices: LooseBox<Choices, Global>) -> Held
        ensures { result.value ≡ Some choices.value }
    {
        let LooseBox { ptr, alloc: _ } = choices;
        Held { at: ptr as *mut u8 }
    }

    /// The parts of the box again.
    fn into_loose(self, alloc: Global) -> LooseBox<Choices, Global>
        requires { IsSome self.value }
        ensures { self.value ≡ Some result.value }
    {
        let Held { at } = self;
        LooseBox {
            ptr: at as *mut Choices,
            alloc,
        }
    }

    /// A box.
    pub(crate) fn of(choices: Box<Choices>) -> Held
        ensures { result.value ≡ Some choices.value }
    {
        Held::of_loose(LooseBox::of(choices))
    }

    /// The box again.
    pub(crate) fn into_box(self, alloc: Global) -> Box<Choices>
        requires { IsSome self.value }
        ensures { self.value ≡ Some result.value }
    {
        self.into_loose(alloc).into_box()
    }

    /// Nothing is left.
    pub(crate) fn forget(self)
        requires { self.value ≡ None }
    {
        let Held { at: _ } = self;
    }
}

//! By what C holds choices.

ghost use Rattle.std.specs.Prelude.{◌≡◌, Some, None, is_some, option_map};

use crate::held::Held;
use explored_choices::Choices;
use std::alloc::Global;
use std::mem::replace;

/// Choices, or nothing. C makes it of zeros, and holds it between calls.
#[repr(C)]
pub struct Handle {
    /// What is held.
    pub(crate) held: Held,
    /// Whether something is.
    pub(crate) is_held: bool,
    ghost is: { is_held ≡ is_some held.value },
}

impl Handle {
    /// Nothing.
    pub(crate) fn none() -> Handle
        ensures { result.held.value ≡ None }
    {
        Handle {
            held: Held::none(),
            is_held: false,
        }
    }

    /// Choices.
    fn of(choices: Box<Choices>) -> Handle
        ensures { result.held.value ≡ Some choices.value }
    {
        Handle {
            held: Held::of(choices),
            is_held: true,
        }
    }

    /// The choices, where some are held.
    pub(crate) fn into_box(self, alloc: Global) -> Option<Box<Choices>>
        ensures { option_map (λ b. b.value) result ≡ self.held.value }
    {
        let Handle { held, is_held } = self;
        if is_held {
            return Some(held.into_box(alloc));
        }
        held.forget();
        None
    }

    /// Takes the choices out, where some are held.
    pub(crate) fn take(&mut self, alloc: Global) -> Option<Box<Choices>>
        ensures taken { option_map (λ b. b.value) result ≡ self.old.held.value }
        ensures left { self.new.held.value ≡ None }
    {
        replace(self, Handle::none()).into_box(alloc)
    }

    /// Holds the choices, where none are held.
    pub(crate) fn put(&mut self, choices: Box<Choices>)
        requires { self.old.held.value ≡ None }
        ensures { self.new.held.value ≡ Some choices.value }
    {
        let Handle { held, is_held: _ } = replace(self, Handle::of(choices));
        held.forget();
    }
}

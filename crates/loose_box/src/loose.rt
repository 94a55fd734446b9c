//! A box as its pointer and its allocator.

ghost use Rattle.std.specs.Prelude.{◌≡◌};
ghost use Rattle.std.specs.Box.Ownership.{box_owns};

use std::alloc::Allocator;
use std::marker::Model;

/// A box as its pointer and its allocator. It owns what the box owned: the value, its block of memory, and the right to
/// free that.
pub struct LooseBox<T, A: Allocator> {
    /// Where the value stands.
    pub ptr: *mut T,
    /// By what its memory is freed.
    pub alloc: A,
    /// The value.
    pub ghost value: { T },
}

impl<T, A: Allocator> Model for LooseBox<T, A> {
    ghost also_owns = { λ p. box_owns (A.dealloc_token p.alloc) T.row p.ptr p.value };
}

impl<T, A: Allocator> LooseBox<T, A> {
    /// The parts of a box.
    pub fn of(b: Box<T, A>) -> LooseBox<T, A>
    where
        T: Drop,
        ensures { result.value ≡ b.value }
    {
        let (ptr, alloc) = Box::into_raw_with_allocator(b);
        LooseBox { ptr, alloc }
    }

    /// The box again.
    pub fn into_box(self) -> Box<T, A>
        ensures { result.value ≡ self.value }
    {
        let LooseBox { ptr, alloc } = self;
        unsafe { Box::from_raw(alloc, ptr) }
    }
}

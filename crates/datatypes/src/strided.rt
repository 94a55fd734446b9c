//! Where elements of one size stand: the places that copies of a layout have.

ghost use Rattle.std.specs.Prelude.{◌≡◌, ◌≤◌};
ghost use Rattle.derived_types.specs.Layouts.{extent_of};

/// Elements of one size at the places of copies of a layout.
#[derive(Clone, Copy)]
pub struct Strided<'a> {
    /// How many bytes each element has.
    pub size: usize,
    /// The offsets of one copy, counted in elements.
    pub offsets: &'a [u32],
    /// How far one copy lies from the next, counted in elements.
    pub extent: usize,
    ghost low: { 1 ≤ size },
    ghost high: { size ≤ 8 },
    ghost extent_is: { extent ≡ extent_of offsets.now },
}

/// Elements of one size at offsets from a place on: one copy of a layout, or the first offsets of one.
#[derive(Clone, Copy)]
pub struct LayoutCopy<'a> {
    /// How many bytes each element has.
    pub size: usize,
    /// Its offsets, counted in elements.
    pub offsets: &'a [u32],
    /// The place from which they are counted.
    pub from: usize,
    ghost low: { 1 ≤ size },
    ghost high: { size ≤ 8 },
}

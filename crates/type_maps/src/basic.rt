//! Basic types, as type maps know them.

/// A basic type: what it is told apart by, and how C stores it.
#[derive(Clone, Copy)]
pub struct Basic {
    /// The number of the type: two elements match where their codes are equal.
    pub code: u32,
    /// The bytes of one element.
    pub size: u32,
    /// The bytes whose multiples its addresses are (4.1.6).
    pub alignment: u32,
}

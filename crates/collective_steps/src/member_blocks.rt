//! Elements that a root hands in for all members.

ghost use Rattle.std.specs.Prelude.{◌≡◌, ◌*◌, length};

use datatypes::Buffer;
use groups::Group;

/// A block of elements for each member of a communicator, one after the other.
#[derive(Clone, Copy)]
pub(crate) struct MemberBlocks<'a> {
    /// The members.
    pub(crate) group: &'a Group,
    /// All blocks.
    pub(crate) all: &'a Buffer,
    /// How many elements each block has.
    pub(crate) count: u32,
    ghost total: { length all.now.values ≡ length group.now * count },
}

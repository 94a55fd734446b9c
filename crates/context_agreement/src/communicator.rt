//! A communicator, as a rank holds it.

use crate::context::Context;
use alike::Alike;
use groups::Group;

/// A communicator of a rank: its context, and its members in order (MPI 3.1, 6.2.3).
#[derive(Drop)]
pub struct Communicator {
    /// What tells its messages from those of every other.
    pub context: Context,
    /// Its members.
    pub group: Group,
}

impl Alike for Communicator {
    fn stands_as(&self, other: &Self) -> bool {
        self.context == other.context && self.group.stands_as(&other.group)
    }
}

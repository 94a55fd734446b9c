//! Where a process stands.

use alike::Alike;
use vocabulary::{Endpoint, MessageLimit};

/// Which process of which job this is.
#[derive(Clone, Copy, Debug, PartialEq, Eq)]
pub struct Place {
    /// Its rank in `world`, below the size, and the incarnation at which it runs.
    pub endpoint: Endpoint,
    /// How many ranks the job has.
    pub size: u16,
    /// The job's number.
    pub job: u64,
    /// How many bytes of data a message of the job may have.
    pub message_limit: MessageLimit,
}

impl Alike for Place {
    fn stands_as(&self, other: &Self) -> bool {
        self.endpoint == other.endpoint
            && self.size == other.size
            && self.job == other.job
            && self.message_limit == other.message_limit
    }
}

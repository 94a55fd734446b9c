//! A collective that a rank entered.

use collective_messages::Entry;
use payload::{Choice, Record};

/// A collective that a rank entered.
#[derive(Clone, Copy, Debug)]
pub struct Entered {
    /// The rank in `world`.
    pub rank: u16,
    /// The communicator, by its place among all.
    pub group: usize,
    /// How many collectives the rank had entered on it before.
    pub number: usize,
    /// The line of the script.
    pub line: usize,
    /// What all members have to agree on.
    pub record: Record,
    /// The colour and the key, of a split.
    pub choice: Option<Choice>,
}

/// The colour and the key that a rank enters a split with.
pub fn choice_in(entry: &Entry) -> Option<Choice> {
    match entry {
        Entry::Split(choice) => Some(*choice),
        _ => None,
    }
}

impl Entered {
    /// Whether it is the collective of this number on this communicator.
    pub fn is(&self, group: usize, number: usize) -> bool {
        self.group == group && self.number == number
    }

    /// Its colour, where it is a split.
    pub fn colour(&self) -> Option<u32> {
        self.choice?.colour
    }
}

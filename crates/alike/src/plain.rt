//! Numbers, and the words of all crates, that stand alike where they are the same.

use crate::Alike;
use vocabulary::{BasicType, Endpoint, MessageLimit, Mode, Operation, Source, Status};

impl Alike for bool {
    fn stands_as(&self, other: &Self) -> bool {
        self == other
    }
}

impl Alike for u8 {
    fn stands_as(&self, other: &Self) -> bool {
        self == other
    }
}

impl Alike for u16 {
    fn stands_as(&self, other: &Self) -> bool {
        self == other
    }
}

impl Alike for u32 {
    fn stands_as(&self, other: &Self) -> bool {
        self == other
    }
}

impl Alike for u64 {
    fn stands_as(&self, other: &Self) -> bool {
        self == other
    }
}

impl Alike for usize {
    fn stands_as(&self, other: &Self) -> bool {
        self == other
    }
}

impl Alike for BasicType {
    fn stands_as(&self, other: &Self) -> bool {
        self == other
    }
}

impl Alike for Endpoint {
    fn stands_as(&self, other: &Self) -> bool {
        self == other
    }
}

impl Alike for MessageLimit {
    fn stands_as(&self, other: &Self) -> bool {
        self == other
    }
}

impl Alike for Mode {
    fn stands_as(&self, other: &Self) -> bool {
        self == other
    }
}

impl Alike for Operation {
    fn stands_as(&self, other: &Self) -> bool {
        self == other
    }
}

impl Alike for Source {
    fn stands_as(&self, other: &Self) -> bool {
        self == other
    }
}

impl Alike for Status {
    fn stands_as(&self, other: &Self) -> bool {
        self == other
    }
}

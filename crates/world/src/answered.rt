//! What a world answers of which nothing past is kept.

use engine::{Completion, Reply};

/// What the engine of a rank answered to a call that it took.
#[derive(Drop)]
pub struct Answered {
    /// What it answered at once.
    pub reply: Option<Reply>,
    /// The answer of the call, where it was blocked and is ready by now.
    pub completion: Option<Completion>,
}

/// A datagram that came to a rank.
#[derive(Drop)]
pub struct Came {
    /// The rank.
    pub rank: u16,
    /// The answer of its blocked call, where the datagram made it ready.
    pub completion: Option<Completion>,
}

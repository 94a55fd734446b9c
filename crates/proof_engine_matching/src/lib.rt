//! An engine's queues match as those of a core of the pure network do.
#![tactic(auto)]

mod law;

pub use law::queues_match_alike;

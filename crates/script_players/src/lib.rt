//! A rank that plays in a world: the runner of its script, and how it stands.
#![tactic(auto)]

mod played;

pub use played::Played;

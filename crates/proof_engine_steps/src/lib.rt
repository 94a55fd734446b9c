//! An engine's events are those of a core of the pure network.
#![tactic(auto)]

mod law;
mod numbers;

pub use law::engines_are_cores;
pub use numbers::transfers_are_counted;

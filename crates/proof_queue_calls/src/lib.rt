//! A call of the machine with groups is judged by two halves: by queues, which know contexts and ranks of world, and by
//! groups, which know communicators.
#![tactic(auto)]

mod law;

pub use law::calls_are_of_both_halves;

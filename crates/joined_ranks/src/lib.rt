//! All ranks of a job in one world, told by records of numbers: what one of them is asked is a step of the world, and
//! what they send comes when they are told so, each datagram once and in order. Nothing past is kept.
#![tactic(auto)]

mod part;
mod ranks;

pub use part::RankPart;
pub use ranks::JoinedRanks;

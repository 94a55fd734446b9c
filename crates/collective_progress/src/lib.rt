//! What a rank keeps beside the notes of the collective that it is in, and what the members' blocks give.
//!
//! What is kept grows note by note, and says what the notes themselves would say, with no look at them all. The blocks
//! that members entered are joined or folded in the order of ranks, whatever order they came in.
#![tactic(auto)]

mod contributions;
mod counts;
mod fold;
mod gather;
mod judgement;
mod progress;
mod rules;
mod scatter;
mod seat;

pub use contributions::is_like;
pub use progress::Progress;
pub use rules::{Rule, rule_broken};
pub use scatter::block_at;
pub use seat::Seat;

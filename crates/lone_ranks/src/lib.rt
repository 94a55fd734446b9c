//! One rank of a script by itself: it goes on, frames come to it, and what it sends is handed out. Nobody else is
//! there: each frame that it sends is acknowledged at once.
#![tactic(auto)]

mod frames;
mod lone_rank;

pub use frames::SentFrame;
pub use lone_rank::LoneRank;

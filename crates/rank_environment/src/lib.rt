//! A rank's place in its job, as variables of its environment: what a launcher sets, and what a rank reads of them.
#![tactic(auto)]

mod frame;
mod place;
mod reading;
mod variables;

pub use frame::{GREATEST_FRAME, LEAST_FRAME, frame_in, frame_of};
pub use place::RankPlace;
pub use reading::{EnvironmentTexts, FoundPlace, place_in};
pub use variables::{Variable, variables_of};

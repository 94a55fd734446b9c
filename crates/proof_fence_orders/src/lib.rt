//! Moves at a fence that don't clash may change places, as far as the rows of receives and the messages that came say.
#![tactic(auto)]

mod laws;

pub use laws::{names_stand_for_moves, open_receives_change_places};

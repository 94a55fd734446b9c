//! A play of a script that is made move by move, by whoever chooses the next move as the play goes on.
#![tactic(auto)]

mod error;
mod laws;
mod scripts;
mod stepped;

pub use error::PlayError;
pub use laws::alike_players_are_the_same;
pub use scripts::{rank_lines_of, scripts_of};
pub use stepped::SteppedPlay;

//! Scripts of ranks that play in a world, move by move of a schedule.
#![tactic(auto)]

mod laws;
mod moves;
mod playing;

pub use event_loop::RunnerState;
pub use laws::{histories_are_of_schedules, players_stay_alike, plays_are_the_meaning};
pub use moves::Move;
pub use playing::{all_begin, make_move, play};
pub use script_players::Played;

//! Cartesian grids of ranks (MPI 3.1, 7.5): their places and ranks, moves along a dimension, parts, and balanced sizes.
//!
//! A grid is given by the size of each dimension and by which dimensions are rings. Ranks count its places row by row.
//! `specs/` says what places and ranks are (`Grids`), where a move leads (`Moves`), what parts are (`Parts`), and which
//! sizes are the most balanced (`Balance`).
#![tactic(auto)]

mod balance;
mod laws;
mod moves;
mod parts;
mod places;

pub use balance::balance_sizes;
pub use laws::{ranks_are_places, steps_back_undo_steps_ahead};
pub use moves::{moved, rank_named, rank_shifted};
pub use parts::rank_among;
pub use places::{coordinates, places_within};

//! Which incarnation of each rank is the present one, and for which of them a datagram is meant.
#![tactic(auto)]

mod judgement;
mod laws;
mod next;
mod peers;
mod place;
mod refusal;

pub use judgement::Judgement;
pub use laws::{known_never_falls, stale_sources_stay_stale, what_is_handled_is_known};
pub use next::next_incarnation;
pub use peers::Peers;
pub use place::Place;
pub use refusal::IncarnationRefusal;

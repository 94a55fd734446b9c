//! Events at two ranks of a world may change places.
#![tactic(auto)]

mod law;

pub use law::events_change_places;

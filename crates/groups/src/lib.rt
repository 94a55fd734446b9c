//! Groups of ranks (MPI 3.1, 6.3): what they hold, and the groups that are made of them.
#![tactic(auto)]

mod comparison;
mod distinct;
mod group;
mod rank_set;
mod refusal;
mod selection;

pub use comparison::GroupComparison;
pub use group::Group;
pub use refusal::GroupRefusal;

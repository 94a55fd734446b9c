//! Plans of collectives: which blocks a member hands to whom, what it takes from whom, and what it folds, in which
//! order.
//!
//! `specs/` says what plans mean (`Networks`, `Meanings`, `Ahead`, `Scripts`), which plans there are (`Exchanges`,
//! `Stars`, `Trees`, `Ordered`), what each member ends with (in the same files, `PlanLaws` and `Chains`), and who has
//! entered by then (`Entering`).
#![tactic(auto)]

mod chain;
mod exchange;
mod laws;
mod ordered;
mod plan;
mod round;
mod round_laws;
mod script_laws;
mod star;
mod tree;

pub use chain::{exscan, scan};
pub use exchange::{allgather, alltoall, reduce_scatter_block};
pub use laws::plans_do_what_they_say;
pub use ordered::{ordered_allreduce, ordered_reduce};
pub use plan::{Slot, Step};
pub use round::{round_allgather, round_alltoall};
pub use round_laws::rounds_hand_all_blocks_on;
pub use script_laws::scripts_are_carried_out;
pub use star::{gather, scatter};
pub use tree::{tree_allreduce, tree_barrier, tree_broadcast, tree_reduce};

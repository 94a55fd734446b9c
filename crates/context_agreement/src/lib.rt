//! Contexts that are never given twice, the communicators of a rank, and the plan of a split.
#![tactic(auto)]

mod communicator;
mod context;
mod contexts;
mod laws;
mod refusal;
mod split;
mod split_part;

pub use communicator::Communicator;
pub use context::{Context, contexts_have_their_own_numbers};
pub use contexts::Contexts;
pub use laws::contexts_are_given_once;
pub use refusal::ContextRefusal;
pub use split::{SplitRow, split_plan};
pub use split_part::SplitPart;

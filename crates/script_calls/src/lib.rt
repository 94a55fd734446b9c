//! What the names of a script stand for, and what its calls await.
//!
//! A table finds a name by its hash, so a look-up takes as long among thousands of names as among a few. Contracts see
//! a table as the list of its entries, in the order in which their names were first set. Of a call that was made, it is
//! kept what its answer is awaited for, and what is entered in a collective.
#![tactic(auto)]

mod entries;
mod outcomes;
mod pending;
mod standing;
mod table;

pub use entries::{
    broadcast_of, elements_like, gather_of, reduction_of, reduction_to_all_of, split_by,
};
pub use outcomes::{as_text, empty_status, error_of, status_after};
pub use pending::{NamedCommunicator, NamedMessage, NamedRequest, Pending};
pub use table::Table;

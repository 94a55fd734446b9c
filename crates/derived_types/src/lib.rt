//! Derived datatypes: layouts that are made of basic types (MPI 3.1, 4.1), and why a call over them is
//! refused.
#![tactic(auto)]

mod block;
mod construction;
mod layout;
mod refusal;
mod span;

pub use block::IndexedBlock;
pub use layout::Layout;
pub use refusal::LayoutRefusal;

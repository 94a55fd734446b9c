//! Type maps of derived types (MPI 3.1, 4.1): definitions, laws, and the making of types.
#![tactic(auto)]

mod arithmetic;
mod arrays;
mod basic;
mod blocks;
mod building;
mod datatype;
mod entry;
mod indexed;
mod laws;
mod places;
mod queries;
mod refusal;
mod summary;

pub use arithmetic::{number_of, product, sum};
pub use basic::Basic;
pub use blocks::{Block, Dimension, Distribution};
pub use datatype::Datatype;
pub use entry::{Body, Entry};
pub use indexed::{Member, struct_of};
pub use laws::{maps_hold_together, own_indices_are_blocks};
pub use places::{Places, Span};
pub use refusal::Refusal;
pub use summary::{Content, Summary};

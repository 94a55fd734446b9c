//! Types as C keeps them: the numbers of a type map, and the runs of bytes that its data are (MPI 3.1, 4.1).
//!
//! A run is a row of bytes, or a body, at regular places. A body is the runs of another type, which C keeps under a
//! number: so types that are made of one another share their runs. What C gets is tied to the map of 4.1 that the
//! crate `type_maps` defines: `specs/Runs.antt` says which bytes runs are, `specs/Making.antt` when numbers and runs
//! stand for a map.
#![tactic(auto)]

mod adding;
mod counts;
mod making;
mod records;
mod rows;
mod runs;
mod shares;

pub use adding::{Added, add_block, add_rows};
pub use counts::whole_items;
pub use making::{begin, end, resize};
pub use records::{RunRecord, TypeRecord};
pub use runs::copies_in_a_row;
pub use shares::{Share, share_of};

//! Whether two buffers share a byte of memory (MPI 3.1, 3.7.2, 3.10, 5.12).
//!
//! A buffer is runs: rows of bytes at regular places. The answer is exact for runs of any step, also where the pieces of
//! one lie between those of the other: `specs/Memory.antt` says when a byte is in a run.
#![tactic(auto)]

mod lists;
mod runs;

pub use lists::share_bytes;
pub use runs::ByteRun;

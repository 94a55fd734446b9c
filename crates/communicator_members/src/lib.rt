//! Groups of communicators as their receives share them, and statuses by them (MPI 3.1, 3.2.5 and 6.2.1).
#![tactic(auto)]

mod members;

pub use members::{Members, share_group, status_among, status_in};

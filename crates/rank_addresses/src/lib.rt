//! At which addresses the ranks of a job are, and whose datagram one is.
#![tactic(auto)]

mod addresses;
mod lists;

pub use addresses::{RankAddresses, named_rank};
pub use lists::{host_list, is_host_list, list_text};

//! The hosts of a job, of a file, a list or an allocation of a batch system: on which of them it has how many ranks.
#![tactic(auto)]

mod batch;
mod fault;
mod file;
mod host;
mod line;
mod nodes;
mod own;
mod slots;

pub use batch::{grid_lines, spaced_lines};
pub use fault::{FileFault, HostFault};
pub use file::{hosts_in_list, hosts_of};
pub use host::Host;
pub use nodes::slurm_lines;
pub use own::is_own_machine;
pub use slots::{hosts_of_more_ranks, hosts_of_ranks, slot_count};

//! How a standard send goes (MPI 3.1, 3.4): at once, as long as what its receiver isn't known to have received stays
//! within a bound, or as a synchronous one.
//!
//! `specs/Counts.antt` has what counts, `specs/Pairs.antt` a sender and a receiver with a queue between them. The law
//! says that no more than the bound waits in it.
#![tactic(auto)]

mod bound;
mod counts;
mod laws;

pub use bound::{NO_BOUND, USUAL_BOUND, bound_of};
pub use counts::{Course, MESSAGE_OVERHEAD, SendLimits, SentRecord};
pub use laws::what_waits_stays_within_the_bound;

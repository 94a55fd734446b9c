//! The one meaning of ranks that run by themselves, in definitions, and laws that hold them together.
//!
//! `specs/` says which message each receive gets where every pair is made at once (`Pairs`; MPI 3.1, 3.5); what a rank
//! has called and been answered, and when an answer is ready (`Accounts`); what processes are, how ranks go on, and
//! where they come to (`Courses`); and the one meaning as a function, in turns (`Turns`). `Examples` has small scripts.
//! No network, no order of arrival and no clock is in it, and no limit of memory or of numbers.
#![tactic(auto)]

mod laws;

pub use laws::{examples_come_out, pairs_stay, turns_come_to_the_end, ways_lead_there};

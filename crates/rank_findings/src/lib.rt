//! What is to be told of a run of a program: which findings there are, in which order they are told, how much a run
//! weighs, and with which status the explorer ends.
//!
//! It is decided from plain facts: where ranks stand, how their processes ended, what they left behind. Words and places
//! are those of whoever asks.
#![tactic(auto)]

mod ending;
mod finding;
mod laws;
mod order;
mod told;
mod verdict;

pub use ending::{
    Ending, Exit, ProcessEnd, ending_behind, ending_of_ranks, finding_of_end, is_program, is_stuck,
    with_open_end,
};
pub use finding::{Finding, weight_at};
pub use laws::{faults_count, findings_have_one_order, statuses_tell_of_runs};
pub use order::{Told, is_result_before, is_told_before};
pub use told::{
    Call, Leaks, Wait, finding_of_wait, is_absence_told, is_rest_told, leak_at, sends_told,
};
pub use verdict::{is_cut_told, is_hint_told, status_of, weight_of_pass, weight_of_run};

//! Receives that an engine is told of late: what a program hears is as if each had been posted where it was begun.
#![tactic(auto)]

mod laws;

pub use laws::{late_rows_keep_the_rules, posting_late_changes_nothing};

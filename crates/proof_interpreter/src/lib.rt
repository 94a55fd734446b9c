//! What the names of a rank stand for, by what the machine says of them.
#![tactic(auto)]

mod laws;

pub use laws::{answers_are_kept, refused_statements_change_nothing, statements_ask_the_machine};

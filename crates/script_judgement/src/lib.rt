//! What is wrong with a script before anything runs: the words that don't fit a statement and the form that it has, and
//! the names that are used though no line before sets them.
//!
//! A script has no loops and no conditions. So a name that no earlier line of the same rank can set isn't set when its
//! line is reached, whatever the other ranks do. The words are this project's own.
#![tactic(auto)]

mod forms;
mod hints;
mod known_names;
mod parties;
mod placeholders;
mod slips;
mod unset;

pub use forms::form_of;
pub use hints::hint_of;
pub use known_names::KnownNames;
pub use unset::{UnsetName, unset_line, unset_names, unset_names_of};

//! Which ranks of a job on one machine have begun: a mark of each, one byte, in a file that has no name. The launcher
//! makes it, and tells the ranks where it is (`KOMBAZILY_STANDSTILL`); only processes of the same user can open it.
//!
//! What the marks mean is decided here. Ranks of C programs read and write the same file (bindings/c/src/standstill.c),
//! and say in it, too, whether they wait.
#![tactic(auto)]

mod file;
mod marks;

pub use file::{MarkFile, VARIABLE};
pub use marks::{BEGUN, ENDED, MOST_MARKS, are_there, come_in, do_begin, is_there, mark_at_end};

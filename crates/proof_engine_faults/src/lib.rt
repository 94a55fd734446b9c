//! An engine alone refuses a call exactly where the machine finds a fault with it, by what the engine itself holds.
//!
//! `specs/` says which fault that is, and what is asked of the engine (`Own`), and that an engine stays so, whatever it
//! is handed (`Staying`).
#![tactic(auto)]

mod law;

pub use law::{engines_find_the_machines_faults, engines_stay_orderly};

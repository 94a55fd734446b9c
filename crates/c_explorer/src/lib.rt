//! What the explorer of C programs calls: its search and its rows of receives, the ranks of a run, and what is told of
//! runs, as functions of C.
//!
//! C holds the search and the rows by a handle, which is a pointer and whether it holds something, and the ranks by
//! another one. Each export of these takes what is held out of the handle, calls it, and puts it back
//! (`bindings/explorer/src/choices.h`, `bindings/explorer/src/joined_ranks.h`). What is told
//! is decided from plain numbers (`bindings/explorer/src/verdicts.h`).
#![tactic(auto)]

mod exports;
mod fences;
mod findings;
mod handle;
mod held;
mod held_ranks;
mod ranks;
mod ranks_handle;
mod sources;

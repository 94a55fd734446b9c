//! What C calls: one rank of a job, as functions of C.
//!
//! C holds a rank by a handle, which is a pointer and whether it holds one. Each export takes the rank out of the
//! handle, calls it, and puts it back. What is asked and answered is in records of numbers and slices of bytes
//! (`bindings/c/src/engine.h`). Before it makes a rank C asks by which way the process has its place, and what its
//! launcher says (`bindings/c/src/launching.h`), and before a standard send how that goes (`bindings/c/src/engine_sends.h`);
//! and of buffers that it watches whether they share bytes (`bindings/c/src/engine_buffers.h`).
#![tactic(auto)]

mod buffers;
mod exports;
mod grids;
mod group_members;
mod handle;
mod held;
mod launching;
mod plans;
mod sends;
mod types;

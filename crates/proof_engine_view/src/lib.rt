//! What the machine of perfect queues, and the pure network, see of a rank's core.
//!
//! `specs/` says, from the bottom up: what calls, replies and outcomes are to the machine (`Seen`), what frames are to
//! the network (`Frames`), and when a rank's core holds what a core of the pure network holds (`Rows`, `Shown`).
#![tactic(auto)]

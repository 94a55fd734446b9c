//! Runs of the machine of queues and groups go on event by event, as the happenings of the pure network do.
//!
//! `specs/` says which state of the machine a network stands for, and which runs go with which happenings (`Runs`).
#![tactic(auto)]

mod law;

pub use law::runs_go_on_event_by_event;

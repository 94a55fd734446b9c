//! A world of ranks in one process, with every datagram that they ever emitted and everything that happened to them; and
//! one that does the same and keeps nothing of what is past.
#![tactic(auto)]

mod answered;
mod engines;
mod event;
mod one_engine;
mod quiet;
mod refusal;
mod running;
mod world;

pub use answered::{Answered, Came};
pub use event::{Event, Failed, FailedRun, HistoryEntry, StepResult, Stepped};
pub use refusal::WorldRefusal;
pub use running::RunningWorld;
pub use world::World;

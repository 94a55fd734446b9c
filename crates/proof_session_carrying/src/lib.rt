//! The laws of what one session between two engines carries: texts, which stand for frames of messages and for notices
//! of collectives of the pure network.
//!
//! `specs/` says what a text stands for (`Carrying`), how that goes on (`CarryLaws`), and what an event of a collective
//! does to it (`EventLaws`).
#![tactic(auto)]

mod events;
mod law;
mod messages;

pub use events::collectives_are_carried;
pub use law::sessions_carry;
pub use messages::messages_are_carried;

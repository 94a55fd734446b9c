//! What a rank enters, is told and finds of the collectives on its communicators.
//!
//! Each member tells the one right above it that it and those below it have entered, and a result goes down again: in a
//! barrier, a bcast and a reduction over binomial trees, in all else over a star (our own). A member's role says whom
//! it waits for, and whom it tells what. A message that came is kept as a note until its collective is left, and the
//! notes of a collective say what a member does: it stays, it leaves with 12, or it leaves with a result.
#![tactic(auto)]

mod address;
mod arrival;
mod block;
mod entry;
mod message;
mod note;
mod refusal;
mod role;
mod root;
mod standing;
mod tally;
mod verdict;

pub use address::Address;
pub use arrival::{names_beyond, note_of};
pub use block::Block;
pub use entry::{Entry, Inside};
pub use message::{CollectiveMessage, MessageContent};
pub use note::{Note, NoteContent};
pub use refusal::CollectiveRefusal;
pub use role::{Role, role_of};
pub use root::root_of;
pub use tally::{Tally, count_in, raise};
pub use verdict::{Verdict, differs_in, drop_notes, found_in, is_at, is_same};

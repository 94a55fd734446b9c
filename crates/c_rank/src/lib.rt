//! One rank of a job, as it is told by records of numbers and slices of bytes.
//!
//! A rank is an engine, the data of its last answer, and what is to be sent. Here is all that C programs need of it but
//! the handle by which they hold it: which call of the engine the numbers of a record mean, what its replies are in
//! numbers, and elements in the byte order of the machine. Which datagrams go out together is decided below
//! (`outgoing_datagrams`).
#![tactic(auto)]

mod answers;
mod call_kind;
mod elements;
mod laws;
mod meaning;
mod rank;
mod records;
mod windows;

pub use answers::{Told, refusal, reply_told, told_by_completion};
pub use call_kind::CallKind;
pub use elements::{elements_in, turn_elements};
pub use laws::nothing_is_deferred_without_windows;
pub use meaning::{Meant, meaning_of};
pub use outgoing_datagrams::OutgoingRecord;
pub use rank::{Rank, ReceivedData};
pub use records::{AnswerRecord, CallRecord, PlaceRecord, RequestRecord};
pub use windows::room_told;

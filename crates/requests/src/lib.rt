//! The requests of a rank: each is unfinished, or finished with an outcome, until its outcome is answered.
//!
//! MPI 3.1, 3.7: a nonblocking call starts a request, and a completing call ends it.
#![tactic(auto)]

mod answer;
mod awaited_requests;
mod completion;
mod list;
mod outcome;
mod refusal;
mod region;
mod standing;
mod table;

pub use answer::{Answer, OutcomeRoom, Outcomes};
pub use awaited_requests::{Awaited, AwaitedAll};
pub use list::RequestList;
pub use outcome::{Failure, Outcome, receive_outcome};
pub use refusal::RequestRefusal;
pub use region::{Places, ReceiveRegion, Region};
pub use standing::trimmed_tables_have_the_same_entries;
pub use table::{
    Matched, Posted, Request, RequestProgress, Requests, TableEntry, TakenOut, Tested,
    match_announced, match_body, status_of,
};

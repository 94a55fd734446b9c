//! What happened in a play: as a file of events that `mpisim` runs, and at which line of the script each call was made.
#![tactic(auto)]

mod account;
mod errors;
mod lines;
mod writing;

pub use account::{Account, CallAt, account_of};
pub use errors::ErrorAt;
pub use lines::{ScriptLines, ShownLines};

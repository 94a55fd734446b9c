//! What a rank writes: which of it is handed on when, how it stands on a stream that all ranks write to, and for which
//! ranks it says that it waits.
#![tactic(auto)]

mod buffer;
mod cycle;
mod stream;
mod waits;

pub use buffer::{LineBuffer, MOST_AGE, SILENCE};
pub use cycle::{Wait, cycle_of};
pub use stream::SharedStream;
pub use waits::wait_said;

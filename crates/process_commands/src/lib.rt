//! Commands that start programs, from words and variables; why one can't be started; the streams that programs inherit.
#![tactic(auto)]

mod commands;
mod fault;
mod streams;
mod text;
mod variables;

pub use commands::{add_arguments, command_of};
pub use fault::StartFault;
pub use streams::{ClosedStreams, open_closed_streams};
pub use text::text_of;
pub use variables::{set_text, set_variables};

//! Lines and words: what files of events and scripts of ranks are made of, whatever their lines say.
//!
//! A text is lines of words. What a name, a number and a basic type look like stands here, and so does why a line or a
//! text is faulty; what lines may say, `statements` and the readers of files say. The language is this project's own.
#![tactic(auto)]

mod fault;
mod fields;
mod lines;
mod name;
mod number;
mod token;
mod types;

pub use fault::{LineError, ParseError};
pub use fields::{end_of_line, first, large_of, name_of, rank_of, require};
pub use lines::{lines_of, said_in};
pub use name::Name;
pub use number::{number_or, number_up_to, numeral_of};
pub use token::{Token, Tokens, is};
pub use types::basic_type_of;

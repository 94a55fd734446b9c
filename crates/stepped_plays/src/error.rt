//! Why there is no play.

use script_files::ParseError;
use std::alloc::{AllocError, AllocFailed};
use world::WorldRefusal;

/// Why there is no play of a script, or why it can't go on.
#[derive(Clone, Copy, Debug, PartialEq, Eq)]
pub enum PlayError {
    /// A growth was refused: 14.
    OutOfMemory,
    /// The line of this number is no line of a script: 51.
    Line(usize),
    /// There is no world of so many ranks: 13.
    Size,
}

impl From<AllocError> for PlayError {
    fn from(_error: AllocError) -> PlayError {
        PlayError::OutOfMemory
    }
}

impl<T: Drop> From<AllocFailed<T>> for PlayError {
    fn from(_error: AllocFailed<T>) -> PlayError {
        PlayError::OutOfMemory
    }
}

impl From<ParseError> for PlayError {
    fn from(error: ParseError) -> PlayError {
        match error {
            ParseError::Line(line) => PlayError::Line(line),
            ParseError::OutOfMemory => PlayError::OutOfMemory,
        }
    }
}

impl From<WorldRefusal> for PlayError {
    fn from(error: WorldRefusal) -> PlayError {
        if error.number() == 13 {
            PlayError::Size
        } else {
            PlayError::OutOfMemory
        }
    }
}

//! With which errors operations end.

use crate::met_error::MetError;
use crate::types::type_name;
use collective_steps::Ending;
use requests::{Failure, Outcome};
use std::alloc::{AllocError, Global};

/// Why a receive got none of its message's data. Its buffer has room for so many elements, where that is known.
fn failure_words(
    alloc: Global,
    failure: Failure,
    outcome: &Outcome,
    room: Option<u64>,
) -> Result<String, AllocError> {
    let Outcome::Ended(_, status, buffer) = outcome else {
        return format!(in alloc; "it failed");
    };
    let (count, name) = (status.count, type_name(buffer.basic()));
    match (failure, room) {
        (Failure::WrongType, _) => {
            format!(in alloc; "the message is of another type than the buffer, which is {name}")
        }
        (Failure::Truncated, Some(room)) => {
            format!(in alloc; "the message has {count} {name}, the buffer room for {room}")
        }
        (Failure::Truncated, None) => {
            format!(in alloc; "the message has {count} {name}, more than the buffer has room for")
        }
    }
}

/// The error with which an operation ended, if it is one. A receive has room for so many elements, where that is known.
pub(crate) fn outcome_error(
    alloc: Global,
    outcome: &Outcome,
    room: Option<u64>,
) -> Result<Option<MetError>, AllocError> {
    match outcome {
        Outcome::Ended(failure, status, _) => {
            let why = failure_words(alloc, *failure, outcome, room)?;
            let mut error = MetError::new(failure.number(), why);
            error.status = Some(*status);
            Ok(Some(error))
        }
        Outcome::Replaced(_) => {
            let why = format!(in alloc; "the other rank was started anew meanwhile")?;
            Ok(Some(MetError::new(11, why)))
        }
        Outcome::Sent | Outcome::Received(_, _) | Outcome::Cancelled(_) | Outcome::Empty => {
            Ok(None)
        }
    }
}

/// The error with which a collective ended, if it is one.
pub(crate) fn ending_error(alloc: Global, ending: &Ending) -> Result<Option<MetError>, AllocError> {
    match ending {
        Ending::Left(_) | Ending::Comm(_) => Ok(None),
        Ending::Replaced => {
            let why = format!(in alloc; "a member of the communicator was started anew")?;
            Ok(Some(MetError::new(11, why)))
        }
        Ending::Mismatch => {
            let why = format!(in alloc; "another member entered something different")?;
            Ok(Some(MetError::new(12, why)))
        }
    }
}

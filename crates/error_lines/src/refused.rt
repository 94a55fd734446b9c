//! Why calls are refused.

ghost use Rattle.std.specs.Prelude.{◌≡◌, IfOk};
ghost use Rattle.point_to_point_calls.specs.Refusals.{number_of_refusal};

use crate::collective_words::entry_words;
use crate::message_words::{message_words, taken_words};
use crate::met_error::MetError;
use engine_calls::Call;
use point_to_point_calls::Refusal;
use std::alloc::{AllocError, Global};

/// Why a call on requests is refused.
fn request_words(alloc: Global, call: &Call) -> Result<Option<String>, AllocError> {
    let words = match call {
        Call::Cancel(_) => "only a receive that has not ended can be cancelled",
        Call::Waitany(_) | Call::Waitall(_) => "a request is named twice",
        _ => "there is no such request",
    };
    Ok(Some(format!(in alloc; "{words}")?))
}

/// Why the call is refused by what it names; none where no more is known than the refusal itself says.
fn words_of(alloc: Global, refusal: Refusal, call: &Call) -> Result<Option<String>, AllocError> {
    if refusal == Refusal::Communicator {
        return Ok(Some(format!(in alloc; "the communicator is MPI_COMM_NULL")?));
    }
    match call {
        Call::Isend(send) => {
            message_words(alloc, refusal, send.target, send.tag, Some(&send.from))
        }
        Call::Irecv(receive) => {
            message_words(
                alloc,
                refusal,
                receive.source,
                receive.tag,
                Some(&receive.into),
            )
        }
        Call::Iprobe(probe) | Call::Improbe(probe) => {
            message_words(alloc, refusal, probe.source, probe.tag, None)
        }
        Call::Mrecv(_, region) => taken_words(alloc, refusal, region),
        Call::Enter(_, entry) => entry_words(alloc, refusal, entry),
        Call::Wait(_) | Call::Test(_) | Call::Waitany(_) | Call::Waitall(_) | Call::Cancel(_) => {
            match refusal {
                Refusal::Request => request_words(alloc, call),
                _ => Ok(None),
            }
        }
        Call::Ask(_, _) => Ok(None),
    }
}

/// The error of a call that is refused so.
pub(crate) fn refused_error(
    alloc: Global,
    refusal: Refusal,
    call: &Call,
) -> Result<MetError, AllocError>
    ensures { IfOk result (λ e. e.number ≡ number_of_refusal refusal) }
{
    let words = match words_of(alloc, refusal, call)? {
        Some(words) => words,
        None => format!(in alloc; "{refusal}")?,
    };
    Ok(MetError::new(refusal.number(), words))
}

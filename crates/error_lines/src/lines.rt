//! The lines in which errors are told.

use crate::met_error::MetError;
use shown_words::Shown;
use std::alloc::{AllocError, Global};
use tokens::is;

/// `rank R line L: error N: WHY: STATEMENT`: an error that the statement on the line of this number met at a rank. The
/// only error is want of memory.
pub fn error_line(
    alloc: Global,
    rank: u16,
    line: usize,
    error: &MetError,
    text: &[u8],
) -> Result<String, AllocError> {
    let (number, why, text) = (error.number, error.why.as_str(), Shown { word: text });
    match error.started {
        Some(started) => format!(in alloc;
            "rank {rank} line {line}: error {number}: {why} (line {started} started it): {text}"
        ),
        None => format!(in alloc; "rank {rank} line {line}: error {number}: {why}: {text}"),
    }
}

/// The number behind `error `, where a line of output is of that form.
fn number_in(printed: &[u8]) -> Option<u8> {
    let digits = printed.strip_prefix(b"error ")?;
    Some(numerals::number_between(digits, 1, 255)? as u8)
}

/// The first word of a statement.
fn verb_of(text: &[u8]) -> &[u8] {
    let text = text.trim_ascii();
    match text.iter().position(|byte| *byte == b' ') {
        Some(end) => &text[..end],
        None => text,
    }
}

/// Why a statement met an error without a call that is refused.
fn uncalled_words(verb: &[u8], number: u8) -> &'static str {
    if is(verb, b"type") {
        "the layout has too many places, or a place or an extent above 2147483647"
    } else if is(verb, b"mrecv") {
        "the message was received before"
    } else if number == 1 {
        "a member's block has 2^32 elements or more"
    } else {
        "the statement can't be followed"
    }
}

/// The error that a statement met without a call that is refused, by what it printed: a `type` above a limit, an
/// `mrecv` of a message that was received before, or a block that is too long for any collective. None where what it
/// printed tells no error.
pub fn uncalled_error(
    alloc: Global,
    text: &[u8],
    printed: &[u8],
) -> Result<Option<MetError>, AllocError> {
    let verb = verb_of(text);
    if is(verb, b"say") {
        return Ok(None);
    }
    let Some(number) = number_in(printed) else {
        return Ok(None);
    };
    let words = uncalled_words(verb, number);
    Ok(Some(MetError::new(number, format!(in alloc; "{words}")?)))
}

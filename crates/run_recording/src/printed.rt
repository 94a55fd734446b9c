//! What a line of a file of events printed.

use std::alloc::{AllocError, Global};

/// How many bytes of a text are kept.
const MOST_KEPT: usize = 200;

/// What a line printed beside the datagrams that went out.
#[derive(Clone, Copy)]
pub struct Printed<'a> {
    /// What it answered; nothing where it printed no answer.
    pub answer: &'a [u8],
    /// What a blocked call answered; nothing where none did.
    pub outcome: &'a [u8],
}

/// A line from its first word on.
fn from_word(line: &[u8]) -> &[u8] {
    match line.iter().position(|byte| *byte != b' ') {
        Some(place) => line.get(place..).unwrap_or(b""),
        None => b"",
    }
}

/// A line from its second word on.
pub fn behind_word(line: &[u8]) -> &[u8] {
    let line = from_word(line);
    match line.iter().position(|byte| *byte == b' ') {
        Some(place) => from_word(line.get(place..).unwrap_or(b"")),
        None => b"",
    }
}

/// What a line printed: its answer stands first, and the rank and the outcome of a blocked call last. What begins with
/// `+` tells of a datagram.
pub fn printed_in(printed: &[u8]) -> Printed<'_> {
    let mut found = Printed {
        answer: b"",
        outcome: b"",
    };
    for (place, line) in printed.split(|byte| *byte == b'\n').enumerate() {
        match line.first() {
            None | Some(b'+') => {}
            Some(_) if place == 0 => found.answer = line,
            Some(_) => found.outcome = behind_word(line),
        }
    }
    found
}

/// A copy of the first bytes of a text.
pub fn kept(alloc: Global, text: &[u8]) -> Result<Vec<u8>, AllocError> {
    let (front, _) = text.split_at(text.len().min(MOST_KEPT));
    Vec::from_slice(alloc, front)
}

//! The lines of a script, as text.

use std::alloc::{AllocError, Global};
use tokens::lines_of;

/// The text of a script by lines. Their numbers count from 1.
#[derive(Drop)]
pub struct ScriptLines<'a> {
    lines: Vec<&'a [u8]>,
}

/// The text without the spaces in front.
fn without_spaces(text: &[u8]) -> &[u8] {
    match text.iter().position(|byte| *byte != b' ') {
        Some(place) => {
            let (_, rest) = text.split_at(place);
            rest
        }
        None => text,
    }
}

/// The text behind its first word, which begins with a space.
pub(crate) fn behind_verb(text: &[u8]) -> &[u8] {
    match text.iter().position(|byte| *byte == b' ') {
        Some(place) => {
            let (_, rest) = text.split_at(place);
            rest
        }
        None => b"",
    }
}

impl<'a> ScriptLines<'a> {
    /// The lines of this text. The only error is want of memory.
    pub fn new(alloc: Global, text: &'a [u8]) -> Result<ScriptLines<'a>, AllocError> {
        Ok(ScriptLines {
            lines: lines_of(alloc, text)?,
        })
    }

    /// The line of this number, without the spaces in front; nothing where there is none.
    pub fn line(&self, number: usize) -> &'a [u8] {
        match self.lines.get(number.wrapping_sub(1)) {
            Some(line) => without_spaces(line),
            None => b"",
        }
    }

    /// Whether a line has this text in it.
    pub(crate) fn has(&self, word: &[u8]) -> bool {
        self.lines.iter().any(|line| is_in(line, word))
    }
}

fn is_in(line: &[u8], word: &[u8]) -> bool {
    for place in 0..line.len() {
        let (_, rest) = line.split_at(place);
        if rest.starts_with(word) {
            return true;
        }
    }
    false
}

/// The lines of a script as they are told of, where so many lines of the text that is played stand for each.
#[derive(Drop)]
pub struct ShownLines<'a> {
    lines: ScriptLines<'a>,
    each: usize,
}

impl<'a> ShownLines<'a> {
    /// The lines of this text, each of which is played as so many, at least one. The only error is want of memory.
    pub fn new(alloc: Global, text: &'a [u8], each: usize) -> Result<ShownLines<'a>, AllocError> {
        Ok(ShownLines {
            lines: ScriptLines::new(alloc, text)?,
            each,
        })
    }

    /// The number of the line for which this line of the text that is played stands.
    pub fn number(&self, played: usize) -> usize {
        played.div_ceil(self.each.max(1))
    }

    /// The line for which this line of the text that is played stands, without the spaces in front.
    pub fn line(&self, played: usize) -> &'a [u8] {
        self.lines.line(self.number(played))
    }
}

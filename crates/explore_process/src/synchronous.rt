//! A script whose sends are synchronous.

use play_events::ShownLines;
use std::alloc::{AllocError, Global};

/// The text of a script as it is played.
#[derive(Drop)]
pub struct PlayedText<'t> {
    /// The script.
    written: &'t [u8],
    /// The script with synchronous sends, in which two lines stand for each; none where it is played as it is.
    synchronous: Option<Vec<u8>>,
}

/// Whether a text has this one in it.
fn has(text: &[u8], word: &[u8]) -> bool {
    for place in 0..text.len() {
        if text.split_at(place).1.starts_with(word) {
            return true;
        }
    }
    false
}

/// A name for the requests of sends that the script has nowhere.
fn own_name(alloc: Global, text: &[u8]) -> Result<String, AllocError> {
    for number in 0..10_000u32 {
        let name = format!(in alloc; "sent{number}")?;
        if !has(text, name.as_bytes()) {
            return Ok(name);
        }
    }
    String::from_str(alloc, "sent")
}

/// The line without the spaces in front.
fn without_spaces(line: &[u8]) -> &[u8] {
    match line.iter().position(|byte| *byte != b' ') {
        Some(place) => line.split_at(place).1,
        None => line,
    }
}

/// What a line says behind this verb; none where it has another one.
fn behind<'l>(line: &'l [u8], verb: &[u8]) -> Option<&'l [u8]> {
    let rest = without_spaces(line).strip_prefix(verb)?;
    if rest.is_empty() || rest.starts_with(b" ") {
        Some(rest)
    } else {
        None
    }
}

/// Adds the two lines that stand for this one.
fn add_lines(alloc: Global, text: &mut Vec<u8>, line: &[u8], name: &str) -> Result<(), AllocError> {
    if let Some(rest) = behind(line, b"send") {
        let first = format!(in alloc; "issend {name}")?;
        let second = format!(in alloc; "\nwait {name}\n")?;
        text.extend_from_slice(first.as_bytes())?;
        text.extend_from_slice(rest)?;
        text.extend_from_slice(second.as_bytes())?;
        return Ok(());
    }
    match behind(line, b"isend") {
        Some(rest) => {
            text.extend_from_slice(b"issend")?;
            text.extend_from_slice(rest)?;
        }
        None => text.extend_from_slice(line)?,
    }
    text.extend_from_slice(b"\n\n")?;
    Ok(())
}

fn synchronous(alloc: Global, text: &[u8]) -> Result<Vec<u8>, AllocError> {
    let name = own_name(alloc, text)?;
    let mut played = Vec::new(alloc);
    for line in text.split(|byte| *byte == b'\n') {
        add_lines(alloc, &mut played, line, name.as_str())?;
    }
    Ok(played)
}

impl<'t> PlayedText<'t> {
    /// This script as it is.
    pub fn as_written(written: &'t [u8]) -> PlayedText<'t> {
        PlayedText {
            written,
            synchronous: None,
        }
    }

    /// This script with each send as a synchronous one (MPI 3.1, 3.4): it ends once its message is received. The only
    /// error is want of memory.
    pub fn with_synchronous_sends(
        alloc: Global,
        written: &'t [u8],
    ) -> Result<PlayedText<'t>, AllocError> {
        Ok(PlayedText {
            written,
            synchronous: Some(synchronous(alloc, written)?),
        })
    }

    /// Whether each send is a synchronous one.
    pub fn is_synchronous(&self) -> bool {
        self.synchronous.is_some()
    }

    /// The script as it is written.
    pub fn written(&self) -> &'t [u8] {
        self.written
    }

    /// The number of the line of the script for which this line of the text that is played stands.
    pub fn line(&self, played: usize) -> usize {
        if self.is_synchronous() {
            played.div_ceil(2)
        } else {
            played
        }
    }

    fn lines_each(&self) -> usize {
        if self.is_synchronous() { 2 } else { 1 }
    }

    /// The text that is played.
    pub fn text(&self) -> &[u8] {
        match &self.synchronous {
            Some(text) => text.as_slice(),
            None => self.written,
        }
    }

    /// The lines of the script, as they are told of.
    pub fn shown(&self, alloc: Global) -> Result<ShownLines<'t>, AllocError> {
        ShownLines::new(alloc, self.written, self.lines_each())
    }
}

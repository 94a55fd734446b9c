//! Which word of a faulty line is wrong, and which form its statement has.

use crate::forms::{FORMS, form_of};
use crate::placeholders::may_stand;
use crate::slips::is_slip;
use line_diagnostics::LineFault;
use shown_words::Shown;
use std::alloc::{AllocError, Global};
use tokens::{Token, is, said_in};

/// What is wrong with words, by the form of their statement.
#[derive(Clone, Copy)]
enum Mistake<'w, 'f> {
    /// This word can't stand where the form has that.
    Unfit(&'w [u8], &'f [u8]),
    /// What the form has there is missing.
    Missing(&'f [u8]),
    /// This word stands behind the end of the statement.
    Further(&'w [u8]),
}

/// How many words a form has without those that may follow or be left out, and how many of them there are at most.
fn fixed_count(form: &str) -> usize {
    let (front, _) = form.split_once(" [").unwrap_or((form, ""));
    front
        .as_bytes()
        .split(|byte| *byte == b' ')
        .filter(|place| !is(place, b".."))
        .count()
}

/// What stands in front of `[as L N]`.
fn front_of(form: &'static str) -> &'static str {
    match form.split_once(" [") {
        Some((front, _)) => front,
        None => form,
    }
}

/// What is to stand for each of so many words by this form: what may follow is there as often as the words allow, and
/// what may be left out where there are more words than without it.
fn places_of(
    alloc: Global,
    form: &'static str,
    count: usize,
) -> Result<Vec<&'static [u8]>, AllocError> {
    let front = front_of(form);
    let further = count.saturating_sub(fixed_count(form));
    let mut places: Vec<&'static [u8]> = Vec::new(alloc);
    for place in front.as_bytes().split(|byte| *byte == b' ') {
        if is(place, b"..") {
            let again = places.last().copied().unwrap_or("".as_bytes());
            for _ in 0..further {
                places.push(again)?;
            }
        } else {
            places.push(place)?;
        }
    }
    if front.len() < form.len() && further > 0 {
        places.push("as".as_bytes())?;
        places.push("L".as_bytes())?;
        places.push("N".as_bytes())?;
    }
    Ok(places)
}

/// The first mistake in these words, of which the verb is the first.
fn mistake_in<'w>(
    alloc: Global,
    words: &'w [Token],
    places: &[&'static [u8]],
) -> Option<Mistake<'w, 'static>> {
    for (at, place) in places.iter().enumerate() {
        let Some(word) = words.get(at) else {
            return Some(Mistake::Missing(*place));
        };
        if !may_stand(alloc, place, word.as_bytes()) {
            return Some(Mistake::Unfit(word.as_bytes(), *place));
        }
    }
    let further = words.get(places.len())?;
    Some(Mistake::Further(further.as_bytes()))
}

/// The text of bytes of a form.
fn text_of(place: &[u8]) -> &str {
    str::from_utf8(place).unwrap_or("")
}

/// What is wrong, and the form.
fn mistake_text(
    alloc: Global,
    mistake: Option<Mistake<'_, '_>>,
    form: &str,
) -> Result<String, AllocError> {
    match mistake {
        Some(Mistake::Unfit(word, place)) => {
            let (word, place) = (Shown { word }, text_of(place));
            format!(in alloc; "'{word}' can't be {place}: the form is {form}")
        }
        Some(Mistake::Missing(place)) => {
            let place = text_of(place);
            format!(in alloc; "{place} is missing: the form is {form}")
        }
        Some(Mistake::Further(word)) if word.starts_with(b"#") => {
            format!(in alloc; "a comment is a line of its own: the form is {form}")
        }
        Some(Mistake::Further(word)) => {
            let word = Shown { word };
            format!(in alloc; "'{word}' stands behind the end of the statement: the form is {form}")
        }
        None => format!(in alloc; "the form is {form}"),
    }
}

/// Which word doesn't fit, and the form.
fn unfit_hint(alloc: Global, words: &[Token]) -> Result<Option<String>, AllocError> {
    let Some(form) = form_of(words) else {
        return Ok(None);
    };
    let places = places_of(alloc, form, words.len())?;
    let mistake = mistake_in(alloc, words, &places);
    Ok(Some(mistake_text(alloc, mistake, form)?))
}

/// The statement whose verb the first word may have been meant to be.
fn verb_hint(alloc: Global, words: &[Token]) -> Result<Option<String>, AllocError> {
    let Some(verb) = words.first() else {
        return Ok(None);
    };
    for (name, form) in &FORMS {
        if is_slip(verb.as_bytes(), name.as_bytes()) {
            return Ok(Some(format!(in alloc; "'{name}' may be meant: {form}")?));
        }
    }
    Ok(None)
}

/// What the byte is that can't be read.
fn byte_hint(alloc: Global, line: &[u8]) -> Result<Option<String>, AllocError> {
    if line.ends_with(b"\r") {
        let text = "the line ends with a carriage return (CRLF): lines end with a line feed alone";
        return Ok(Some(format!(in alloc; "{text}")?));
    }
    if line.contains(&b'\t') {
        let text = "a tab stands there: words stand apart by spaces";
        return Ok(Some(format!(in alloc; "{text}")?));
    }
    Ok(None)
}

/// What else there is to say of a line of a script that is faulty so: which word doesn't fit and the form of the
/// statement, the statement that may be meant, or which byte can't be read. The only error is want of memory.
pub fn hint_of(
    alloc: Global,
    fault: &LineFault,
    line: &[u8],
) -> Result<Option<String>, AllocError> {
    let Ok(Some(words)) = said_in(alloc, line) else {
        return byte_hint(alloc, line);
    };
    match fault {
        LineFault::UnfitWords => unfit_hint(alloc, words.as_slice()),
        LineFault::NoStatement => verb_hint(alloc, words.as_slice()),
        _ => Ok(None),
    }
}

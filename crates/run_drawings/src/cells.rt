//! One row of characters.

ghost use Rattle.std.specs.Prelude.{◌≡◌, ◌-◌, vec_len, min, slice_set};
ghost use Rattle.run_drawings.specs.Cells.{character_of, filled, with_text};

use std::alloc::{AllocError, Global};

/// A row of so many blanks.
pub(crate) fn blanks(alloc: Global, width: usize) -> Result<Vec<char>, AllocError> {
    vec![in alloc; ' '; width]
}

/// Writes a character at a place of a row, if the row has that place.
pub(crate) fn put(row: &mut Vec<char>, place: usize, character: char)
    ensures { row.new.items ≡ slice_set row.old.items place character }
{
    if let Some(cell) = row.get_mut(place) {
        *cell = character;
    }
}

/// Writes one character over so many places from one on, as far as the row has them.
#[tactic(auto, using(crate::proofs::CellLaws::filled_more))]
fn fill_count(row: &mut Vec<char>, first: usize, count: usize, character: char)
    ensures { row.new.items ≡ filled row.old.items first count character }
{
    let mut place = first;
    for _step in 0..count {
        put(row, place, character);
        place = place.saturating_add(1);
    }
}

/// Writes one character over the places from the first on, before the end.
pub(crate) fn fill(row: &mut Vec<char>, first: usize, end: usize, character: char)
    ensures { row.new.items ≡ filled row.old.items first (min end (vec_len row.old) - first) character }
{
    let count = end.min(row.len()).saturating_sub(first);
    fill_count(row, first, count, character);
}

/// The character of a byte: `?` for what isn't printable ASCII.
fn character_of(byte: u8) -> char
    ensures { result ≡ character_of byte }
{
    if b' ' <= byte && byte <= b'~' {
        char::from(byte)
    } else {
        '?'
    }
}

/// Writes a text from a place on, as far as the row goes.
#[tactic(auto, using(crate::proofs::CellLaws::text_more))]
pub(crate) fn put_text(row: &mut Vec<char>, place: usize, text: &[u8])
    ensures { row.new.items ≡ with_text row.old.items place text.now }
{
    let mut at = place;
    for byte in text {
        put(row, at, character_of(*byte));
        at = at.saturating_add(1);
    }
}

/// Adds a row to a text, without the blanks at its end, and a line feed.
pub(crate) fn push_row(out: &mut String, row: &[char]) -> Result<(), AllocError> {
    let blank = row.iter().rev().take_while(|it| **it == ' ').count();
    for character in row.iter().take(row.len().saturating_sub(blank)) {
        out.push(*character)?;
    }
    out.push('\n')
}

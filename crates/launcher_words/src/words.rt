//! The words of a line, `key=value` each.

ghost use Rattle.std.specs.Prelude.{◌≡◌};
ghost use Rattle.std.specs.Option.{option_copied};
ghost use Rattle.std.specs.Str.{bytes_eq};
ghost use Rattle.launcher_words.specs.Words.{behind_sign, value_in, value_of};

use crate::cut::first_part;

/// Whether two texts are the same.
pub(crate) fn is(text: &[u8], other: &[u8]) -> bool
    ensures { result ≡ bytes_eq text.now other.now }
{
    text == other
}

/// What stands behind a `=` at the front.
fn behind_sign(text: &[u8]) -> Option<&[u8]>
    ensures { option_copied result ≡ behind_sign text.now }
{
    let (first, rest) = text.split_first()?;
    if *first != b'=' {
        return None;
    }
    Some(rest)
}

/// What stands behind `key=`, where the word begins so.
fn value_in<'a>(word: &'a [u8], key: &[u8]) -> Option<&'a [u8]>
    ensures { option_copied result ≡ value_in key.now word.now }
{
    let (front, behind) = word.split_at(word.len().min(key.len()));
    if !is(front, key) {
        return None;
    }
    behind_sign(behind)
}

/// The value of a key in a line of words `key=value`, with this byte between each two: what stands behind `key=` in the
/// first word that begins so. It takes no memory.
pub fn value_of<'a>(line: &'a [u8], key: &[u8], end: u8) -> Option<&'a [u8]>
    ensures { option_copied result ≡ value_of key.now end line.now }
{
    let mut left = Some(line);
    while let Some(text) = left {
        let cut = first_part(text, end);
        if let Some(value) = value_in(cut.part, key) {
            return Some(value);
        }
        left = cut.rest;
    }
    None
}

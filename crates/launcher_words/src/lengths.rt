//! How long a record of PMI-2 is.

ghost use Rattle.std.specs.Prelude.{◌≡◌};
ghost use Rattle.std.specs.Option.{option_copied};
ghost use Rattle.launcher_words.specs.Lengths.{only_word, record_length};

use crate::cut::first_part;
use numerals::number_between;

/// The only word of a text, which may have blanks around it; none where there is none or another one.
fn only_word(text: &[u8]) -> Option<&[u8]>
    ensures { option_copied result ≡ only_word text.now }
{
    let mut found = None;
    let mut left = Some(text);
    while let Some(rest) = left {
        let cut = first_part(rest, b' ');
        if !cut.part.is_empty() {
            if found.is_some() {
                return None;
            }
            found = Some(cut.part);
        }
        left = cut.rest;
    }
    found
}

/// How many bytes follow in a record that begins so: a number up to 999,999 in decimal digits, with blanks around it.
/// It takes no memory.
pub fn record_length(front: &[u8]) -> Option<u64>
    ensures { result ≡ record_length front.now }
{
    number_between(only_word(front)?, 0, 999_999)
}

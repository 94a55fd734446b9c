//! The bytes of a word as they are shown.

ghost use Rattle.std.specs.Prelude.{◌≡◌};
ghost use Rattle.shown_words.specs.WordTexts.{printable};

use std::fmt;

/// How many bytes of a word are shown.
const MOST_SHOWN: usize = 80;

/// The byte as it is shown: `?` where it isn't printable ASCII.
fn printable(byte: u8) -> u8
    ensures { result ≡ printable byte }
{
    if b' ' <= byte && byte <= b'~' {
        byte
    } else {
        b'?'
    }
}

/// The first bytes of a word as they are shown, each `?` that isn't printable ASCII.
#[derive(Clone, Copy)]
struct ShownBytes<'a> {
    bytes: &'a [u8],
}

impl<'a> fmt::Display for ShownBytes<'a> {
    ghost use Rattle.std.specs.Prelude.{Some, map};
    ghost use Rattle.shown_words.specs.WordTexts.{printable};

    ghost output = { λ p. Some (map printable p.bytes.now) };

    fn fmt<W: fmt::Write>(&self, f: &mut fmt::Formatter<W>) -> fmt::Result {
        for byte in self.bytes {
            let character = char::from(printable(*byte));
            write!(f, "{character}")?;
        }
        Ok(())
    }
}

/// A word as it is shown: its first 80 bytes, with `?` for each that isn't printable ASCII, and ` ..` where it has
/// more.
#[derive(Clone, Copy)]
pub struct Shown<'a> {
    /// The word's bytes.
    pub word: &'a [u8],
}

impl<'a> fmt::Display for Shown<'a> {
    ghost use Rattle.std.specs.Prelude.{Some};
    ghost use Rattle.shown_words.specs.WordTexts.{shown};

    ghost output = { λ s. Some (shown s.word.now) };

    #[tactic(auto, unfolding(crate::specs::WordTexts::shown))]
    fn fmt<W: fmt::Write>(&self, f: &mut fmt::Formatter<W>) -> fmt::Result {
        if self.word.len() <= MOST_SHOWN {
            return ShownBytes { bytes: self.word }.fmt(f);
        }
        let (bytes, _) = self.word.split_at(MOST_SHOWN);
        let first = ShownBytes { bytes };
        write!(f, "{first} ..")
    }
}

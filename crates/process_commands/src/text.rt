//! Words as the texts that a command takes.

ghost use Rattle.std.specs.Prelude.{◌≡◌, IfOk};

use launch_keeper::Word;
use std::io;
use std::io::ErrorKind;

/// The word as a text. A command takes no word that isn't UTF-8.
pub fn text_of(word: &Word) -> io::Result<&str>
    ensures { IfOk result (λ text. text.now ≡ word.now) }
{
    match str::from_utf8(word.as_bytes()) {
        Ok(text) => Ok(text),
        Err(_) => Err(io::Error::from(ErrorKind::InvalidInput)),
    }
}

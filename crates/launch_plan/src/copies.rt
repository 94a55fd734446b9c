//! Words that are copied. Each step takes the list by reference and owns one word at most, since what
//! a function owns is dropped at each of its exits.

ghost use Rattle.std.specs.Prelude.{◌≡◌, [], ◌∷◌, ◌++◌, IfOk, OnOk};

use launch_keeper::{Word, Words};
use std::alloc::{AllocError, Global};

/// Adds a copy of the bytes as a word.
pub(crate) fn push_bytes(alloc: Global, words: &mut Words, bytes: &[u8]) -> Result<(), AllocError>
    ensures { OnOk result (words.new ≡ words.old ++ bytes.now ∷ []) }
{
    words.push(Word::from_slice(alloc, bytes)?)?;
    Ok(())
}

/// Copies of these words.
pub(crate) fn copy_words(alloc: Global, words: &[Word]) -> Result<Words, AllocError>
    ensures { IfOk result (λ all. all ≡ words.now) }
{
    let mut all = Words::new(alloc);
    all.extend(alloc, words)?;
    Ok(all)
}

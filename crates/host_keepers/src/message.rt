//! The words that a launcher hands to a keeper, over its standard input.

ghost use Rattle.std.specs.Prelude.{◌≡◌, IfOk, map, OnOk, ◌++◌};
ghost use Rattle.std.specs.List.{slice_split};
ghost use Rattle.host_keepers.specs.Messages.{Finds, is_end, message_text, words_text};

use launch_keeper::{Word, Words};
use numerals::number_between;
use std::alloc::{AllocError, Global};

/// What a text that came so far says.
#[derive(Drop)]
pub enum FoundWords {
    /// Its words aren't whole yet.
    Unfinished,
    /// It is no text of a launcher.
    Faulty,
    /// These words.
    Whole(Words),
}

/// Adds words, each ended by a byte 0.
fn push_words(text: &mut Vec<u8>, words: &[Word]) -> Result<(), AllocError>
    ensures { OnOk result (text.new.items ≡ text.old.items ++ words_text words.now) }
{
    for word in words {
        text.extend_from_slice(word.as_bytes())?;
        text.push(0)?;
    }
    Ok(())
}

/// The text that hands these words over: how many there are, in decimal digits, and the words, each ended by a byte 0.
/// No word has such a byte. Only want of memory is an error.
pub fn message_text(alloc: Global, words: &[Word]) -> Result<Vec<u8>, AllocError>
    ensures { IfOk result (λ text. text.items ≡ message_text words.now) }
{
    let mut text = Vec::new(alloc);
    let count = Word::from_number(alloc, words.len() as u64)?;
    text.extend_from_slice(count.as_bytes())?;
    text.push(0)?;
    push_words(&mut text, words)?;
    Ok(text)
}

fn pieces(alloc: Global, text: &[u8]) -> Result<Vec<&[u8]>, AllocError>
    ensures { IfOk result (λ pieces. map (λ piece. piece.now) pieces.items ≡ slice_split is_end text.now) }
{
    text.split(|byte| *byte == 0).collect(alloc)
}

/// These pieces as words.
fn words_of(alloc: Global, pieces: &[&[u8]]) -> Result<Words, AllocError>
    ensures { IfOk result (λ words. words ≡ map (λ piece. piece.now) pieces.now) }
{
    let mut words = Words::new(alloc);
    for piece in pieces {
        words.push(Word::from_slice(alloc, piece)?)?;
    }
    Ok(words)
}

/// The words that a text hands over, which came so far. Only want of memory is an error.
pub fn words_in(alloc: Global, text: &[u8]) -> Result<FoundWords, AllocError>
    ensures { IfOk result (λ found. Finds text.now found) }
{
    let pieces = pieces(alloc, text)?;
    let Some((_, ended)) = pieces.split_last() else {
        return Ok(FoundWords::Unfinished);
    };
    let Some((first, words)) = ended.split_first() else {
        return Ok(FoundWords::Unfinished);
    };
    let Some(count) = number_between(first, 1, 65_535) else {
        return Ok(FoundWords::Faulty);
    };
    if words.len() < count as usize {
        return Ok(FoundWords::Unfinished);
    }
    let (own, _) = words.split_at(count as usize);
    Ok(FoundWords::Whole(words_of(alloc, own)?))
}

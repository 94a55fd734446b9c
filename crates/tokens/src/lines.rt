//! Lines of text, and their words.

ghost use Rattle.std.specs.Prelude.{◌≡◌, ◌++◌, ◌==◌, [], ◌∷◌, map, filter, slice_index, IfOk, OnOk};
ghost use Rattle.std.specs.List.{slice_split, list_all};
ghost use Rattle.tokens.specs.Lines.{is_line_end, is_blank, is_text_byte, is_nonempty, without_end, lines_of};
ghost use Rattle.tokens.specs.Lines.{tokens_of, is_skipped, said_in};
ghost use Rattle.tokens.specs.Results.{Gives};

use crate::fault::LineError;
use crate::token::{Token, Tokens};
use std::alloc::{AllocError, Global};

fn split(alloc: Global, text: &[u8]) -> Result<Vec<&[u8]>, AllocError>
    ensures { IfOk result (λ lines. map (λ line. line.now) lines.items ≡ slice_split is_line_end text.now) }
{
    text.split(|byte| *byte == b'\n').collect(alloc)
}

/// The text without the end of its last line.
#[tactic(auto, unfolding(crate::specs::Lines::without_end))]
fn without_end(text: &[u8]) -> &[u8]
    ensures { result.now ≡ without_end text.now }
{
    match text.split_last() {
        Some((last, front)) if *last == b'\n' => front,
        _ => text,
    }
}

/// The lines of a text, which end at byte 10; the last may lack its end.
#[tactic(auto, unfolding(crate::specs::Lines::lines_of))]
pub fn lines_of(alloc: Global, text: &[u8]) -> Result<Vec<&[u8]>, AllocError>
    ensures { IfOk result (λ lines. map (λ line. line.now) lines.items ≡ lines_of text.now) }
{
    if text.is_empty() {
        return Ok(Vec::new(alloc));
    }
    split(alloc, without_end(text))
}

fn pieces(alloc: Global, line: &[u8]) -> Result<Vec<&[u8]>, AllocError>
    ensures { IfOk result (λ pieces. map (λ piece. piece.now) pieces.items ≡ slice_split is_blank line.now) }
{
    line.split(|byte| *byte == b' ').collect(alloc)
}

fn is_text(line: &[u8]) -> bool
    ensures { result ≡ list_all is_text_byte line.now }
{
    for byte in line {
        if *byte < b' ' || *byte > b'~' {
            return false;
        }
    }
    true
}

/// Adds the piece as a word, if there is anything in it.
fn take_piece(alloc: Global, words: &mut Tokens, piece: &[u8]) -> Result<(), AllocError>
    ensures { OnOk result (words.new ≡ words.old ++ filter is_nonempty (piece.now ∷ [])) }
{
    if piece.is_empty() {
        return Ok(());
    }
    words.push(Token::from_slice(alloc, piece)?)?;
    Ok(())
}

/// The pieces that there is anything in, as words.
fn tokens_among(alloc: Global, pieces: &[&[u8]]) -> Result<Tokens, AllocError>
    ensures { IfOk result (λ words. words ≡ filter is_nonempty (map (λ piece. piece.now) pieces.now)) }
{
    let mut words = Tokens::new(alloc);
    for piece in pieces {
        take_piece(alloc, &mut words, piece)?;
    }
    Ok(words)
}

#[tactic(auto, unfolding(crate::specs::Lines::tokens_of))]
fn tokens_of(alloc: Global, line: &[u8]) -> Result<Tokens, AllocError>
    ensures { IfOk result (λ words. words ≡ tokens_of line.now) }
{
    let pieces = pieces(alloc, line)?;
    tokens_among(alloc, &pieces)
}

/// Whether the word begins a comment.
fn is_comment(word: &[u8]) -> bool
    ensures { result ≡ (slice_index word.now 0 == 35) }
{
    !word.is_empty() && word[0] == b'#'
}

#[tactic(auto, unfolding(crate::specs::Lines::is_skipped))]
fn is_skipped(words: &[Token]) -> bool
    ensures { result ≡ is_skipped words.now }
{
    match words.split_first() {
        None => true,
        Some((word, _)) => is_comment(word.as_bytes()),
    }
}

/// The words of a line, if it isn't skipped: none where it has no word, or where its first word begins with `#`. A line
/// is faulty where a byte of it is none of ASCII text, from space to `~`.
#[tactic(auto, unfolding(crate::specs::Lines::said_in))]
pub fn said_in(alloc: Global, line: &[u8]) -> Result<Option<Tokens>, LineError>
    ensures { Gives (λ x. x) result (said_in line.now) }
{
    if !is_text(line) {
        return Err(LineError::Faulty);
    }
    let words = tokens_of(alloc, line)?;
    if is_skipped(words.as_slice()) {
        return Ok(None);
    }
    Ok(Some(words))
}

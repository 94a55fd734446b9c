//! The lines that the script of a rank prints.

ghost use Rattle.std.specs.Prelude.{◌≡◌, drop, IfOk};
ghost use Rattle.printed_lines.specs.Answers.{count_text, status_text};
ghost use Rattle.printed_lines.specs.CommunicatorTexts.{comparison_text, members_text, position_text};
ghost use Rattle.printed_lines.specs.Lines.{error_line, error_lines, further_errors, none_line, pending_line};
ghost use Rattle.printed_lines.specs.Lines.{elements_line, words_line, spaced_words};

use crate::{ComparisonText, CountText, ElementsText, MembersText, PositionText, StatusText};
use datagram::Bytes;
use datatypes::Buffer;
use statements::Tokens;
use std::alloc::{AllocError, Global};
use vocabulary::Status;

/// `error N`
pub fn error_line(alloc: Global, number: u8) -> Result<Bytes, AllocError>
    ensures { IfOk result (λ line. line ≡ error_line number) }
{
    let text = format!(in alloc; "error {number}")?;
    Bytes::from_vec(text.into_bytes())
}

/// `source S tag T count C`
pub fn status_line(alloc: Global, status: Status) -> Result<Bytes, AllocError>
    ensures { IfOk result (λ line. line ≡ status_text status) }
{
    let status = StatusText { status };
    let text = format!(in alloc; "{status}")?;
    Bytes::from_vec(text.into_bytes())
}

/// `pending`
pub fn pending_line(alloc: Global) -> Result<Bytes, AllocError>
    ensures { IfOk result (λ line. line ≡ pending_line) }
{
    Bytes::from_slice(alloc, "pending".as_bytes())
}

/// `none`
pub fn none_line(alloc: Global) -> Result<Bytes, AllocError>
    ensures { IfOk result (λ line. line ≡ none_line) }
{
    Bytes::from_slice(alloc, "none".as_bytes())
}

/// A line's end and `error N`, for each of these numbers.
fn further_errors(alloc: Global, numbers: &[u8]) -> Result<Vec<u8>, AllocError>
    ensures { IfOk result (λ text. text.items ≡ further_errors numbers.now) }
{
    let mut text = Vec::new(alloc);
    for number in numbers {
        let line = error_line(alloc, *number)?;
        text.push(b'\n')?;
        text.extend_from_slice(line.as_slice())?;
    }
    Ok(text)
}

/// `error N` for each of these numbers, a line each.
pub fn error_lines(alloc: Global, number: u8, numbers: &[u8]) -> Result<Bytes, AllocError>
    ensures { IfOk result (λ line. line ≡ error_lines number numbers.now) }
{
    let first = error_line(alloc, number)?;
    let further = further_errors(alloc, numbers)?;
    let mut text = Vec::from_slice(alloc, first.as_slice())?;
    text.extend_from_slice(&further)?;
    Bytes::from_vec(text)
}

/// The number of copies, or `undefined`
pub fn count_line(alloc: Global, copies: Option<u64>) -> Result<Bytes, AllocError>
    ensures { IfOk result (λ line. line ≡ count_text copies) }
{
    let count = CountText { copies };
    let text = format!(in alloc; "{count}")?;
    Bytes::from_vec(text.into_bytes())
}

/// The text without its first byte.
fn without_first(alloc: Global, text: &[u8]) -> Result<Bytes, AllocError>
    ensures { IfOk result (λ line. line ≡ drop 1 text.now) }
{
    match text {
        [] => Bytes::from_slice(alloc, text),
        [_, rest @ ..] => Bytes::from_slice(alloc, rest),
    }
}

/// The elements of a buffer, a space between two.
pub fn elements_line(alloc: Global, buffer: &Buffer) -> Result<Bytes, AllocError>
    ensures { IfOk result (λ line. line ≡ elements_line buffer.now) }
{
    let elements = ElementsText { buffer };
    let text = format!(in alloc; "{elements}")?;
    without_first(alloc, text.as_bytes())
}

/// A space and the word, for each.
fn spaced_words(alloc: Global, words: &Tokens) -> Result<Vec<u8>, AllocError>
    ensures { IfOk result (λ text. text.items ≡ spaced_words words.now) }
{
    let mut text = Vec::new(alloc);
    for word in words.as_slice() {
        text.push(b' ')?;
        text.extend_from_slice(word.as_bytes())?;
    }
    Ok(text)
}

/// The words, a space between two.
pub fn words_line(alloc: Global, words: &Tokens) -> Result<Bytes, AllocError>
    ensures { IfOk result (λ line. line ≡ words_line words.now) }
{
    let text = spaced_words(alloc, words)?;
    without_first(alloc, &text)
}

/// `rank R of N`: a rank in a communicator, and the communicator's size.
pub fn position_line(alloc: Global, rank: usize, size: usize) -> Result<Bytes, AllocError>
    ensures { IfOk result (λ line. line ≡ position_text rank size) }
{
    let position = PositionText { rank, size };
    let text = format!(in alloc; "{position}")?;
    Bytes::from_vec(text.into_bytes())
}

/// The ranks of world of a communicator's members, in order, a space between two.
pub fn members_line(alloc: Global, ranks: &[u16]) -> Result<Bytes, AllocError>
    ensures { IfOk result (λ line. line ≡ members_text ranks.now) }
{
    let members = MembersText { ranks };
    let text = format!(in alloc; "{members}")?;
    Bytes::from_vec(text.into_bytes())
}

/// How two communicators compare.
pub fn comparison_line(alloc: Global, comparison: ComparisonText) -> Result<Bytes, AllocError>
    ensures { IfOk result (λ line. line ≡ comparison_text comparison) }
{
    let text = format!(in alloc; "{comparison}")?;
    Bytes::from_vec(text.into_bytes())
}

//! The messages, byte by byte.

ghost use Rattle.std.specs.Prelude.{◌≡◌, ◌++◌, IfOk};
ghost use Rattle.line_diagnostics.specs.Messages.{explanation, gave_up, gave_up_at, gave_up_behind, reason};

use crate::fault::LineFault;
use shown_words::Shown;
use std::alloc::{AllocError, Global};

/// The texts one behind the other.
fn concatenate(
    alloc: Global,
    front: &[u8],
    middle: &[u8],
    back: &[u8],
) -> Result<Vec<u8>, AllocError>
    ensures { IfOk result (λ text. text.items ≡ front.now ++ middle.now ++ back.now) }
{
    let mut text = Vec::from_slice(alloc, front)?;
    text.extend_from_slice(middle)?;
    text.extend_from_slice(back)?;
    Ok(text)
}

/// Why the line is faulty, in words.
fn reason(alloc: Global, fault: &LineFault) -> Result<Vec<u8>, AllocError>
    ensures { IfOk result (λ text. text.items ≡ reason fault.now) }
{
    match fault {
        LineFault::NotAscii => Vec::from_slice(alloc, b"a byte that isn't ASCII"),
        LineFault::NotPrintable => Vec::from_slice(alloc, b"a byte that isn't printable ASCII"),
        LineFault::NoStatement => Vec::from_slice(alloc, b"no such statement"),
        LineFault::OutsideType => Vec::from_slice(alloc, b"a value outside its type"),
        LineFault::UnfitWords => Vec::from_slice(alloc, b"words that don't fit the statement"),
        LineFault::Unset(name) => concatenate(alloc, b"the name ", name.as_bytes(), b" isn't set"),
        LineFault::Lent(name) => concatenate(
            alloc,
            b"the buffer ",
            name.as_bytes(),
            b" is lent to a receive",
        ),
    }
}

/// `SPEAKER: REASON: LINE`: why a line is faulty, and its text. The only error is want of memory.
pub fn explanation(
    alloc: Global,
    speaker: &[u8],
    fault: &LineFault,
    line: &[u8],
) -> Result<Vec<u8>, AllocError>
    ensures { IfOk result (λ text. text.items ≡ explanation speaker.now fault.now line.now) }
{
    let reason = reason(alloc, fault)?;
    let line = Shown { word: line };
    let shown = format!(in alloc; "{line}")?;
    let mut text = concatenate(alloc, speaker, b": ", &reason)?;
    text.extend_from_slice(b": ")?;
    text.extend_from_slice(shown.as_bytes())?;
    Ok(text)
}

/// `SPEAKER gave up after MS ms`
fn gave_up(alloc: Global, speaker: &[u8], patience: u64) -> Result<Vec<u8>, AllocError>
    ensures { IfOk result (λ text. text.items ≡ gave_up speaker.now patience) }
{
    let time = format!(in alloc; " gave up after {patience} ms")?;
    concatenate(alloc, speaker, time.as_bytes(), b"")
}

/// `SPEAKER gave up after MS ms at line L: LINE`: the patience of this many milliseconds is over at a line of this
/// number. The only error is want of memory.
pub fn gave_up_at(
    alloc: Global,
    speaker: &[u8],
    patience: u64,
    number: usize,
    line: &[u8],
) -> Result<Vec<u8>, AllocError>
    ensures { IfOk result (λ text. text.items ≡ gave_up_at speaker.now patience number line.now) }
{
    let front = gave_up(alloc, speaker, patience)?;
    let place = format!(in alloc; " at line {number}: ")?;
    let line = Shown { word: line };
    let shown = format!(in alloc; "{line}")?;
    concatenate(alloc, &front, place.as_bytes(), shown.as_bytes())
}

/// That the patience is over behind the last line: the rank waits for acknowledgements of what it sent.
pub fn gave_up_behind(alloc: Global, speaker: &[u8], patience: u64) -> Result<Vec<u8>, AllocError>
    ensures { IfOk result (λ text. text.items ≡ gave_up_behind speaker.now patience) }
{
    let front = gave_up(alloc, speaker, patience)?;
    concatenate(
        alloc,
        &front,
        b" behind the end of its script: ",
        b"what it sent is not all acknowledged",
    )
}

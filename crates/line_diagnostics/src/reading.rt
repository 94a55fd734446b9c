//! Why a line isn't in its language.

ghost use Rattle.std.specs.Prelude.{◌≡◌, ◌-◌, IfOk, option_map};
ghost use Rattle.std.specs.List.{position};
ghost use Rattle.tokens.specs.Lines.{lines_of, said_in};
ghost use Rattle.line_diagnostics.specs.Faults.{byte_fault, event_fault, event_words_fault, fits, is_odd};
ghost use Rattle.line_diagnostics.specs.Faults.{line_numbered, rank_words_fault, script_fault, script_words_fault};
ghost use Rattle.line_diagnostics.specs.Faults.{words_said};

use crate::fault::LineFault;
use crate::out_of_range::{has_action_outside, has_tick_outside};
use crate::verbs::{is_action_verb, is_event_verb, is_script_verb};
use numerals::is_numeral;
use std::alloc::{AllocError, Global};
use tokens::{LineError, Token, Tokens, is, lines_of, said_in};

/// The text of the line of this number, of which the first line has 1; none where there is no such line. The only error
/// is want of memory.
pub fn line_at(alloc: Global, text: &[u8], number: usize) -> Result<Option<&[u8]>, AllocError>
    ensures { IfOk result (λ line. option_map (λ found. found.now) line ≡ line_numbered number (lines_of text.now)) }
{
    let lines = lines_of(alloc, text)?;
    if number == 0 || number > lines.len() {
        return Ok(None);
    }
    Ok(Some(lines[number - 1]))
}

fn odd_place(line: &[u8]) -> Option<usize>
    ensures { result ≡ position is_odd line.now }
{
    line.iter().position(|byte| *byte < b' ' || *byte > b'~')
}

/// The fault of the first byte that is none from space to `~`, if there is one.
#[tactic(auto, unfolding(crate::specs::Faults::byte_fault))]
fn byte_fault(line: &[u8]) -> Option<LineFault>
    ensures { result ≡ byte_fault line.now }
{
    let place = odd_place(line)?;
    if line[place] > 127 {
        Some(LineFault::NotAscii)
    } else {
        Some(LineFault::NotPrintable)
    }
}

/// The fault of a line whose verb is one of its language.
fn form_fault(is_outside: bool) -> LineFault
    ensures { result ≡ fits is_outside }
{
    if is_outside {
        LineFault::OutsideType
    } else {
        LineFault::UnfitWords
    }
}

fn script_words_fault(words: &[Token]) -> LineFault
    ensures { result ≡ script_words_fault words.now }
{
    match words {
        [] => LineFault::NoStatement,
        [verb, rest @ ..] => {
            if is_script_verb(verb.as_bytes()) {
                form_fault(has_action_outside(verb.as_bytes(), rest))
            } else {
                LineFault::NoStatement
            }
        }
    }
}

/// The words behind a rank.
fn rank_words_fault(words: &[Token]) -> LineFault
    ensures { result ≡ rank_words_fault words.now }
{
    match words {
        [] => LineFault::UnfitWords,
        [verb, rest @ ..] => {
            if is_action_verb(verb.as_bytes()) {
                form_fault(has_action_outside(verb.as_bytes(), rest))
            } else {
                LineFault::NoStatement
            }
        }
    }
}

fn event_words_fault(words: &[Token]) -> LineFault
    ensures { result ≡ event_words_fault words.now }
{
    match words {
        [] => LineFault::NoStatement,
        [verb, rest @ ..] => {
            if is_event_verb(verb.as_bytes()) {
                form_fault(is(verb.as_bytes(), b"tick") && has_tick_outside(rest))
            } else if is_numeral(verb.as_bytes()) {
                rank_words_fault(rest)
            } else {
                LineFault::NoStatement
            }
        }
    }
}

/// The words of a line whose bytes are printable ASCII; none where it is skipped.
fn words_in(alloc: Global, line: &[u8]) -> Result<Option<Tokens>, AllocError>
    ensures { IfOk result (λ words. words ≡ words_said (said_in line.now)) }
{
    match said_in(alloc, line) {
        Ok(words) => Ok(words),
        Err(LineError::Faulty) => Ok(None),
        Err(LineError::OutOfMemory) => Err(AllocError),
    }
}

/// Why this line of a script is faulty, where `parse` finds it so: a byte that isn't printable ASCII, where the line
/// has one; no such statement, where its first word is no statement's verb; a value outside its type, where a number of
/// a `buf` or a `split` is one; else words that don't fit the statement. The only error is want of memory.
pub fn script_fault(alloc: Global, line: &[u8]) -> Result<LineFault, AllocError>
    ensures { IfOk result (λ fault. fault ≡ script_fault line.now) }
{
    if let Some(fault) = byte_fault(line) {
        return Ok(fault);
    }
    match words_in(alloc, line)? {
        Some(words) => Ok(script_words_fault(words.as_slice())),
        None => Ok(LineFault::NoStatement),
    }
}

/// Why this line of a file of events is faulty, by the rules of `script_fault`: the statement of a rank stands behind
/// the rank, and the time of a `tick` is a number with a type too.
pub fn event_fault(alloc: Global, line: &[u8]) -> Result<LineFault, AllocError>
    ensures { IfOk result (λ fault. fault ≡ event_fault line.now) }
{
    if let Some(fault) = byte_fault(line) {
        return Ok(fault);
    }
    match words_in(alloc, line)? {
        Some(words) => Ok(event_words_fault(words.as_slice())),
        None => Ok(LineFault::NoStatement),
    }
}

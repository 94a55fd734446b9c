//! The configuration file: one set a line.

ghost use Rattle.std.specs.Prelude.{◌≡◌, ◌-◌, ◌∷◌, [], ◌++◌, length, take, map, filter, true, false, not, ◌&&◌, List};
ghost use Rattle.std.specs.Prelude.{ℕ, IfOk, OnOk, MatchOption};
ghost use Rattle.std.specs.Option.{option_copied};
ghost use Rattle.std.specs.List.{slice_split};
ghost use Rattle.launch_plan.specs.Configuration.{is_line_end, is_blank, is_comment, goes_on, is_nonempty, words_of};
ghost use Rattle.launch_plan.specs.Configuration.{pending, lines_of, sets_of_file};
ghost use Rattle.launch_plan.specs.Results.{Gives, HasNoFault};

use crate::copies::push_bytes;
use crate::process_set::ProcessSet;
use crate::refusal::LaunchRefusal;
use crate::sets::each_set;
use launch_keeper::{Word, Words};
use std::alloc::{AllocError, Global};
use std::mem;

fn file_lines(alloc: Global, bytes: &[u8]) -> Result<Vec<&[u8]>, AllocError>
    ensures { IfOk result
        (λ lines. map (λ line. line.now) lines.items ≡ slice_split is_line_end bytes.now) }
{
    bytes.split(|byte| *byte == b'\n').collect(alloc)
}

fn pieces(alloc: Global, line: &[u8]) -> Result<Vec<&[u8]>, AllocError>
    ensures { IfOk result
        (λ pieces. map (λ piece. piece.now) pieces.items ≡ slice_split is_blank line.now) }
{
    line.split(|byte| *byte == b' ' || *byte == b'\t')
        .collect(alloc)
}

/// Adds the pieces that aren't empty.
fn push_pieces(alloc: Global, words: &mut Words, pieces: &[&[u8]]) -> Result<(), AllocError>
    ensures { OnOk result
        (words.new ≡ words.old ++ filter is_nonempty (map (λ piece. piece.now) pieces.now)) }
{
    for piece in pieces {
        if !piece.is_empty() {
            push_bytes(alloc, words, piece)?;
        }
    }
    Ok(())
}

/// Adds the words of the line.
#[tactic(auto, unfolding(crate::specs::Configuration::words_of))]
fn push_words(alloc: Global, words: &mut Words, line: &[u8]) -> Result<(), AllocError>
    ensures { OnOk result (words.new ≡ words.old ++ words_of line.now) }
{
    push_pieces(alloc, words, &pieces(alloc, line)?)
}

fn is_comment(line: &[u8]) -> bool
    ensures { result ≡ is_comment line.now }
{
    !line.is_empty() && line[0] == b'#'
}

/// Whether the line is skipped: it is a comment, and no line goes on in it.
pub(crate) fn is_skipped(begun: bool, line: &[u8]) -> bool
    ensures { result ≡ (not begun && is_comment line.now) }
{
    !begun && is_comment(line)
}

/// What stands before the `\` at the line's end, where it has one.
pub(crate) fn before_continuation(line: &[u8]) -> Option<&[u8]>
    ensures { MatchOption result (goes_on line.now ≡ false)
        (λ front. (goes_on line.now ≡ true) × (front.now ≡ take (length line.now - 1) line.now)) }
{
    if line.is_empty() {
        return None;
    }
    let last = line.len() - 1;
    if line[last] != b'\\' {
        return None;
    }
    let (front, _) = line.split_at(last);
    Some(front)
}

/// Ends a line: its words are kept where there are any.
fn end_line(lines: &mut Vec<Words>, words: Words) -> Result<(), AllocError>
    ensures { OnOk result (lines.new.items ≡ lines.old.items ++ filter is_nonempty (words ∷ [])) }
{
    if !words.is_empty() {
        lines.push(words)?;
    }
    Ok(())
}

/// Takes one more line of the file, and answers whether it goes on in the next. In `words` stand
/// the words of the line so far, where the one before it goes on in this one.
fn take_line(
    alloc: Global,
    lines: &mut Vec<Words>,
    words: &mut Words,
    begun: bool,
    line: &[u8],
) -> Result<bool, AllocError>
    ensures { IfOk result (λ goes_on. (rest : List (List ℕ)) →
        lines.new.items ++ pending goes_on words.new rest
        ≡ lines.old.items ++ pending begun words.old (line.now ∷ rest)) }
{
    if is_skipped(begun, line) {
        return Ok(false);
    }
    match before_continuation(line) {
        Some(front) => {
            push_words(alloc, words, front)?;
            Ok(true)
        }
        None => {
            push_words(alloc, words, line)?;
            end_line(lines, mem::replace(words, Words::new(alloc)))?;
            Ok(false)
        }
    }
}

/// The words of each line that has words.
pub(crate) fn lines_of(alloc: Global, bytes: &[u8]) -> Result<Vec<Words>, AllocError>
    ensures { IfOk result (λ lines. lines.items ≡ lines_of bytes.now) }
{
    let mut lines = Vec::new(alloc);
    let mut words = Words::new(alloc);
    let mut begun = false;
    for line in &file_lines(alloc, bytes)? {
        begun = take_line(alloc, &mut lines, &mut words, begun, line)?;
    }
    end_line(&mut lines, words)?;
    Ok(lines)
}

fn slices(alloc: Global, lines: &[Words]) -> Result<Vec<&[Word]>, AllocError>
    ensures { IfOk result (λ slices. map (λ line. line.now) slices.items ≡ lines.now) }
{
    let mut slices = Vec::with_capacity(alloc, lines.len())?;
    for line in lines {
        slices.push(line.as_slice())?;
    }
    Ok(slices)
}

/// What the sets of the configuration file ask for, one set a line, where it has no fault. A file
/// that can't be read is `None`.
pub(crate) fn sets_of_file(
    alloc: Global,
    config: Option<&[u8]>,
) -> Result<Vec<ProcessSet>, LaunchRefusal>
    requires { HasNoFault (sets_of_file (option_copied config)) }
    ensures { Gives (λ sets. sets.items) result (sets_of_file (option_copied config.entry)) }
{
    let Some(bytes) = config else {
        return Err(LaunchRefusal::UnreadableFile);
    };
    let lines = lines_of(alloc, bytes)?;
    if lines.is_empty() {
        return Err(LaunchRefusal::NoSet);
    }
    each_set(alloc, &slices(alloc, &lines)?)
}

//! Reading a file of events.

ghost use Rattle.std.specs.Prelude.{◌≡◌, ◌≤◌, ◌+◌, ◌∷◌, List, ℕ, length, drop, map, OnOk, IfErr};
ghost use Rattle.tokens.specs.Lines.{line_of, lines_from, with_front, lines_of};
ghost use Rattle.tokens.specs.Results.{Gives, GivesLines, LineFails};
ghost use Rattle.event_files.specs.LineWords.{statement_of, size_of, line_read};
ghost use Rattle.event_files.specs.Files.{Answers, IsAnsweredBy, FileSays};
ghost use Rattle.event_files.specs.Starts.{file_from, StartGives};
ghost use Rattle.event_files.specs.declared.file.EventFile.{EventFile};

use crate::file::{EventFile, EventLine, EventLines, EventStatement};
use crate::reading::{size_of, statement_of};
use std::alloc::Global;
use tokens::{LineError, ParseError, lines_of, said_in};

/// What a line asks for, if it isn't skipped.
#[tactic(auto, unfolding(tokens::specs::Lines::line_of))]
fn statement_in(alloc: Global, line: &[u8]) -> Result<Option<EventStatement>, LineError>
    ensures { Gives (λ x. x) result (line_of statement_of line.now) }
{
    match said_in(alloc, line)? {
        None => Ok(None),
        Some(words) => Ok(Some(statement_of(alloc, words.as_slice())?)),
    }
}

/// How many ranks a line asks for, if it isn't skipped.
#[tactic(auto, unfolding(tokens::specs::Lines::line_of))]
fn size_in(alloc: Global, line: &[u8]) -> Result<Option<u16>, LineError>
    ensures { Gives (λ x. x) result (line_of size_of line.now) }
{
    match said_in(alloc, line)? {
        None => Ok(None),
        Some(words) => Ok(Some(size_of(words.as_slice())?)),
    }
}

/// How many ranks the first line that isn't skipped asks for, and how many lines end with it.
fn start_of(alloc: Global, lines: &[&[u8]]) -> Result<(u16, usize), ParseError>
    ensures { StartGives (map (λ line. line.now) lines.now) result }
{
    for place in 0..lines.len() {
        match size_in(alloc, lines[place]) {
            Err(LineError::Faulty) => return Err(ParseError::Line(place + 1)),
            Err(LineError::OutOfMemory) => return Err(ParseError::OutOfMemory),
            Ok(None) => {}
            Ok(Some(size)) => return Ok((size, place + 1)),
        }
    }
    Err(ParseError::Line(lines.len() + 1))
}

/// Takes one more line.
fn take_line(
    alloc: Global,
    lines: &mut EventLines,
    number: usize,
    line: &[u8],
) -> Result<(), ParseError>
    ensures ok { OnOk result ((rest : List (List ℕ)) →
        with_front lines.new (lines_from line_read (number + 1) rest) ≡
        with_front lines.old (lines_from line_read number (line.now ∷ rest))) }
    ensures err { IfErr result (λ e. (rest : List (List ℕ)) →
        LineFails e (with_front lines.old (lines_from line_read number (line.now ∷ rest)))) }
{
    match statement_in(alloc, line) {
        Err(LineError::Faulty) => Err(ParseError::Line(number)),
        Err(LineError::OutOfMemory) => Err(ParseError::OutOfMemory),
        Ok(None) => Ok(()),
        Ok(Some(statement)) => {
            lines.push(EventLine { number, statement })?;
            Ok(())
        }
    }
}

/// What the lines from this place on ask for.
fn lines_behind(alloc: Global, lines: &[&[u8]], from: usize) -> Result<EventLines, ParseError>
    requires { from ≤ length lines.now }
    ensures { GivesLines (λ x. x) result
        (lines_from line_read (from + 1) (drop from (map (λ line. line.now) lines.now))) }
{
    let mut read = EventLines::new(alloc);
    for place in from..lines.len() {
        take_line(alloc, &mut read, place + 1, lines[place])?;
    }
    Ok(read)
}

fn file_of(alloc: Global, text: &[u8]) -> Result<EventFile, ParseError>
    ensures { GivesLines (λ x. x) result (file_from 1 (lines_of text.now)) }
{
    let lines = lines_of(alloc, text)?;
    let (size, from) = start_of(alloc, &lines)?;
    let lines = lines_behind(alloc, &lines, from)?;
    Ok(EventFile { size, lines })
}

/// Reads a file of events whole: what it says, or its first faulty line. Its first line that isn't skipped is `world
/// N`,
/// N from 1 to 1,024; empty lines and those whose first word begins with `#` are skipped.
///
/// Answers the number of the first faulty line, which is refusal number 51 (the one after the last where there is no
/// line `world N`), or that a growth was refused.
pub fn parse(alloc: Global, text: &[u8]) -> Result<EventFile, ParseError>
    // What is answered is what the text says, or its first faulty line.
    ensures found { Answers text.now result }
    // What the text says is answered, unless memory runs out.
    ensures only { (file : EventFile) → FileSays 1 (lines_of text.now) file → IsAnsweredBy file result }
{
    file_of(alloc, text)
}

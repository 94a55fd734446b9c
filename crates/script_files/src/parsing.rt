//! Reading a script.

ghost use Rattle.std.specs.Prelude.{◌≡◌, ◌+◌, ◌∷◌, List, ℕ, OnOk, IfErr};
ghost use Rattle.tokens.specs.Lines.{line_of, lines_from, with_front, lines_of};
ghost use Rattle.tokens.specs.Results.{Gives, GivesLines, LineFails};
ghost use Rattle.script_files.specs.LineWords.{item_of, line_read};
ghost use Rattle.script_files.specs.Scripts.{Says, Answers, IsAnsweredBy};
ghost use Rattle.tokens.specs.Texts.{LinesSay};
ghost use Rattle.script_files.specs.declared.script.ScriptLine.{ScriptLine};

use crate::reading::item_of;
use crate::script::{Item, Script, ScriptLine};
use std::alloc::Global;
use tokens::{LineError, ParseError, lines_of, said_in};

/// What a line says, if it isn't skipped.
#[tactic(auto, unfolding(tokens::specs::Lines::line_of))]
fn item_in(alloc: Global, line: &[u8]) -> Result<Option<Item>, LineError>
    ensures { Gives (λ x. x) result (line_of item_of line.now) }
{
    match said_in(alloc, line)? {
        None => Ok(None),
        Some(words) => Ok(Some(item_of(alloc, words.as_slice())?)),
    }
}

/// Takes one more line.
fn take_line(
    alloc: Global,
    script: &mut Script,
    number: usize,
    line: &[u8],
) -> Result<(), ParseError>
    ensures ok { OnOk result ((rest : List (List ℕ)) →
        with_front script.new (lines_from line_read (number + 1) rest) ≡
        with_front script.old (lines_from line_read number (line.now ∷ rest))) }
    ensures err { IfErr result (λ e. (rest : List (List ℕ)) →
        LineFails e (with_front script.old (lines_from line_read number (line.now ∷ rest)))) }
{
    match item_in(alloc, line) {
        Err(LineError::Faulty) => Err(ParseError::Line(number)),
        Err(LineError::OutOfMemory) => Err(ParseError::OutOfMemory),
        Ok(None) => Ok(()),
        Ok(Some(item)) => {
            script.push(ScriptLine { number, item })?;
            Ok(())
        }
    }
}

fn script_of(alloc: Global, text: &[u8]) -> Result<Script, ParseError>
    ensures { GivesLines (λ x. x) result (lines_from line_read 1 (lines_of text.now)) }
{
    let lines = lines_of(alloc, text)?;
    let mut script = Script::new(alloc);
    for place in 0..lines.len() {
        take_line(alloc, &mut script, place + 1, lines[place])?;
    }
    Ok(script)
}

/// Reads a script whole: what its lines say, or its first faulty line. Empty lines and those whose first word begins
/// with `#` are skipped.
///
/// Answers the number of the first faulty line, which is refusal number 51, or that a growth was refused.
pub fn parse(alloc: Global, text: &[u8]) -> Result<Script, ParseError>
    // What is answered is what the text says, or its first faulty line.
    ensures found { Answers text.now result }
    // What the text says is answered, unless memory runs out.
    ensures only { (said : List ScriptLine) → LinesSay Says 1 (lines_of text.now) said → IsAnsweredBy said result }
{
    script_of(alloc, text)
}

//! What a line says, by its words.

ghost use Rattle.std.specs.Prelude.{◌≡◌, Some};
ghost use Rattle.tokens.specs.Results.{Gives};
ghost use Rattle.script_files.specs.LineWords.{name_alone, said_words, item_of};

use crate::fields::audience_of;
use crate::script::{Item, ScriptStatement};
use crate::verb::{ScriptVerb, verb_of};
use statements::{action_of, receiving_of, sending_of};
use std::alloc::Global;
use tokens::{LineError, Name, Token, Tokens, end_of_line, first, name_of};

/// One name, and nothing behind it.
#[tactic(auto, unfolding(crate::specs::LineWords::name_alone))]
fn name_alone(alloc: Global, words: &[Token]) -> Result<Name, LineError>
    ensures { Gives (λ x. x) result (name_alone words.now) }
{
    let (name, rest) = first(words)?;
    end_of_line(rest)?;
    name_of(alloc, name)
}

fn copies(alloc: Global, words: &[Token]) -> Result<Tokens, LineError>
    ensures { Gives (λ x. x) result (Some words.now) }
{
    let mut said = Tokens::new(alloc);
    for word in words {
        said.push(Token::from_slice(alloc, word.as_bytes())?)?;
    }
    Ok(said)
}

/// The words that are said, of which there is at least one.
#[tactic(auto, unfolding(crate::specs::LineWords::said_words))]
fn said_words(alloc: Global, words: &[Token]) -> Result<Tokens, LineError>
    ensures { Gives (λ x. x) result (said_words words.now) }
{
    let _ = first(words)?;
    copies(alloc, words)
}

/// What a line says, by its words.
#[tactic(auto, unfolding(crate::specs::LineWords::item_of))]
pub(crate) fn item_of(alloc: Global, words: &[Token]) -> Result<Item, LineError>
    ensures { Gives (λ x. x) result (item_of words.now) }
{
    let (verb, rest) = first(words)?;
    let Some(verb) = verb_of(verb) else {
        return Ok(Item::Does(ScriptStatement::Action(action_of(alloc, words)?)));
    };
    match verb {
        ScriptVerb::On => Ok(Item::On(audience_of(alloc, rest)?)),
        ScriptVerb::Send => Ok(Item::Does(ScriptStatement::Send(sending_of(alloc, rest)?))),
        ScriptVerb::Recv => Ok(Item::Does(ScriptStatement::Recv(receiving_of(alloc, rest)?))),
        ScriptVerb::Print => Ok(Item::Does(ScriptStatement::Print(name_alone(alloc, rest)?))),
        ScriptVerb::Status => {
            end_of_line(rest)?;
            Ok(Item::Does(ScriptStatement::Status))
        }
        ScriptVerb::Count => Ok(Item::Does(ScriptStatement::Count(name_alone(alloc, rest)?))),
        ScriptVerb::Say => Ok(Item::Does(ScriptStatement::Say(said_words(alloc, rest)?))),
        ScriptVerb::Fail => {
            end_of_line(rest)?;
            Ok(Item::Does(ScriptStatement::Fail))
        }
    }
}

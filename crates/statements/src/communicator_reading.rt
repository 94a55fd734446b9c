//! What is said of communicators, by the words that spell it.

ghost use Rattle.std.specs.Prelude.{◌≡◌, ◌≤◌};
ghost use Rattle.statements.specs.LineWords.{action_by, colour_of, communicator_alone, communicator_of, key_below};
ghost use Rattle.statements.specs.LineWords.{key_of, name_and_communicator, two_communicators};
ghost use Rattle.tokens.specs.Results.{Gives};

use crate::action::{Action, CommunicatorName, Splitting};
use crate::fields::communicator_of;
use crate::front::{four_alone, one_alone, two_alone};
use crate::verb::Verb;
use std::alloc::Global;
use tokens::{LineError, Name, Token, is, name_of, number_up_to};

/// A colour, or `undefined`.
#[tactic(auto, unfolding(crate::specs::LineWords::colour_of))]
fn colour_of(word: &[u8]) -> Result<Option<u32>, LineError>
    ensures { Gives (λ x. x) result (colour_of word.now) }
{
    if is(word, b"undefined") {
        return Ok(None);
    }
    match number_up_to(word, 4_294_967_295) {
        Some(colour) => Ok(Some(colour as u32)),
        None => Err(LineError::Faulty),
    }
}

/// The key of this magnitude that isn't above zero.
fn key_below(magnitude: u64) -> i32
    requires { magnitude ≤ 2147483648 }
    ensures { result ≡ key_below magnitude }
{
    if magnitude == 0 {
        0
    } else {
        -1 - (magnitude - 1) as i32
    }
}

/// A key, which may have `-` in front.
#[tactic(auto, unfolding(crate::specs::LineWords::key_of))]
fn key_of(word: &[u8]) -> Result<i32, LineError>
    ensures { Gives (λ x. x) result (key_of word.now) }
{
    if !word.is_empty() && word[0] == b'-' {
        let (_, digits) = word.split_at(1);
        match number_up_to(digits, 2_147_483_648) {
            Some(magnitude) => Ok(key_below(magnitude)),
            None => Err(LineError::Faulty),
        }
    } else {
        match number_up_to(word, 2_147_483_647) {
            Some(magnitude) => Ok(magnitude as i32),
            None => Err(LineError::Faulty),
        }
    }
}

/// One communicator, and nothing behind it.
#[tactic(auto, unfolding(crate::specs::LineWords::communicator_alone))]
pub(crate) fn communicator_alone(
    alloc: Global,
    words: &[Token],
) -> Result<CommunicatorName, LineError>
    ensures { Gives (λ x. x) result (communicator_alone words.now) }
{
    communicator_of(alloc, one_alone(words)?)
}

/// `COMM COMM`
#[tactic(auto, unfolding(crate::specs::LineWords::two_communicators))]
pub(crate) fn two_communicators(
    alloc: Global,
    words: &[Token],
) -> Result<(CommunicatorName, CommunicatorName), LineError>
    ensures { Gives (λ x. x) result (two_communicators words.now) }
{
    let (one, other) = two_alone(words)?;
    let one = communicator_of(alloc, one)?;
    Ok((one, communicator_of(alloc, other)?))
}

/// A new name, and a communicator.
fn name_and_communicator(
    alloc: Global,
    name: &[u8],
    communicator: &[u8],
) -> Result<(Name, CommunicatorName), LineError>
    ensures { Gives (λ x. x) result (name_and_communicator name.now communicator.now) }
{
    let name = name_of(alloc, name)?;
    let communicator = communicator_of(alloc, communicator)?;
    Ok((name, communicator))
}

/// `NEW COMM`
#[tactic(auto, unfolding(crate::specs::LineWords::dup_of))]
pub(crate) fn dup_of(alloc: Global, words: &[Token]) -> Result<Action, LineError>
    ensures { Gives (λ x. x) result (action_by Verb.Dup words.now) }
{
    let (name, communicator) = two_alone(words)?;
    let (name, communicator) = name_and_communicator(alloc, name, communicator)?;
    Ok(Action::Dup(name, communicator))
}

/// `NEW COMM COLOUR KEY`
#[tactic(auto, unfolding(crate::specs::LineWords::split_of))]
pub(crate) fn split_of(alloc: Global, words: &[Token]) -> Result<Action, LineError>
    ensures { Gives (λ x. x) result (action_by Verb.Split words.now) }
{
    let (name, communicator, colour, key) = four_alone(words)?;
    let colour = colour_of(colour)?;
    let key = key_of(key)?;
    let (name, communicator) = name_and_communicator(alloc, name, communicator)?;
    let splitting = Splitting {
        communicator,
        colour,
        key,
    };
    Ok(Action::Split(name, splitting))
}

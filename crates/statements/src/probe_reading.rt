//! What is said of probes and of the messages that they find, by the words that spell it.

ghost use Rattle.std.specs.Prelude.{◌≡◌};
ghost use Rattle.statements.specs.LineWords.{action_by, landing_of, probing_of};
ghost use Rattle.tokens.specs.Results.{Gives};

use crate::action::{Action, Landing, Probing};
use crate::fields::{communicator_of, source_of, tag_of, through_of};
use crate::front::{first_two, one_alone};
use crate::verb::Verb;
use std::alloc::Global;
use tokens::{LineError, Token, first, name_of};

/// `COMM SRC TAG`
#[tactic(auto, unfolding(crate::specs::LineWords::probing_of))]
pub(crate) fn probing_of(alloc: Global, words: &[Token]) -> Result<Probing, LineError>
    ensures { Gives (λ x. x) result (probing_of words.now) }
{
    let (communicator, source, rest) = first_two(words)?;
    let tag = one_alone(rest)?;
    let source = source_of(source)?;
    let tag = tag_of(tag)?;
    let communicator = communicator_of(alloc, communicator)?;
    Ok(Probing {
        communicator,
        source,
        tag,
    })
}

/// `B`, with or without `as L N`.
#[tactic(auto, unfolding(crate::specs::LineWords::landing_of))]
fn landing_of(alloc: Global, words: &[Token]) -> Result<Landing, LineError>
    ensures { Gives (λ x. x) result (landing_of words.now) }
{
    let (buffer, rest) = first(words)?;
    let buffer = name_of(alloc, buffer)?;
    let through = through_of(alloc, rest)?;
    Ok(Landing { buffer, through })
}

/// `M COMM SRC TAG`
#[tactic(auto, unfolding(crate::specs::LineWords::improbe_of))]
pub(crate) fn improbe_of(alloc: Global, words: &[Token]) -> Result<Action, LineError>
    ensures { Gives (λ x. x) result (action_by Verb.Improbe words.now) }
{
    let (message, rest) = first(words)?;
    let message = name_of(alloc, message)?;
    Ok(Action::Improbe(message, probing_of(alloc, rest)?))
}

/// `M B`, with or without `as L N`.
#[tactic(auto, unfolding(crate::specs::LineWords::mrecv_of))]
pub(crate) fn mrecv_of(alloc: Global, words: &[Token]) -> Result<Action, LineError>
    ensures { Gives (λ x. x) result (action_by Verb.Mrecv words.now) }
{
    let (message, rest) = first(words)?;
    let message = name_of(alloc, message)?;
    Ok(Action::Mrecv(message, landing_of(alloc, rest)?))
}

//! What is said of collectives that move elements, by the words that spell it.

ghost use Rattle.std.specs.Prelude.{◌≡◌};
ghost use Rattle.statements.specs.LineWords.{action_by, block_from, communicator_and_two, operation_of};
ghost use Rattle.tokens.specs.Results.{Gives};

use crate::action::{Action, CommunicatorName};
use crate::collective_line::{Broadcasting, Gathering, Reducing, ReducingToAll, Scattering};
use crate::fields::communicator_and_buffer;
use crate::front::{first_four, first_two, four_alone, one_alone};
use crate::verb::Verb;
use std::alloc::Global;
use tokens::{LineError, Name, Token, is, name_of, rank_of, require};
use vocabulary::Operation;

/// The operation that the word names.
#[tactic(auto, unfolding(crate::specs::LineWords::operation_of))]
fn operation_of(word: &[u8]) -> Option<Operation>
    ensures { result ≡ operation_of word.now }
{
    if is(word, b"max") {
        Some(Operation::Max)
    } else if is(word, b"min") {
        Some(Operation::Min)
    } else if is(word, b"sum") {
        Some(Operation::Sum)
    } else if is(word, b"prod") {
        Some(Operation::Prod)
    } else if is(word, b"land") {
        Some(Operation::Land)
    } else if is(word, b"lor") {
        Some(Operation::Lor)
    } else if is(word, b"lxor") {
        Some(Operation::Lxor)
    } else if is(word, b"band") {
        Some(Operation::Band)
    } else if is(word, b"bor") {
        Some(Operation::Bor)
    } else if is(word, b"bxor") {
        Some(Operation::Bxor)
    } else if is(word, b"affine") {
        Some(Operation::Affine)
    } else {
        None
    }
}

/// A buffer's name, or `-`.
#[tactic(auto, unfolding(crate::specs::LineWords::block_from))]
fn block_from(alloc: Global, word: &[u8]) -> Result<Option<Name>, LineError>
    ensures { Gives (λ x. x) result (block_from word.now) }
{
    if is(word, b"-") {
        return Ok(None);
    }
    Ok(Some(name_of(alloc, word)?))
}

/// A communicator, and the names of two buffers.
fn communicator_and_two(
    alloc: Global,
    communicator: &[u8],
    buffer: &[u8],
    into: &[u8],
) -> Result<(CommunicatorName, Name, Name), LineError>
    ensures { Gives (λ x. x) result (communicator_and_two communicator.now buffer.now into.now) }
{
    let (communicator, buffer) = communicator_and_buffer(alloc, communicator, buffer)?;
    let into = name_of(alloc, into)?;
    Ok((communicator, buffer, into))
}

/// `COMM ROOT B`
#[tactic(auto, unfolding(crate::specs::LineWords::bcast_of))]
pub(crate) fn bcast_of(alloc: Global, words: &[Token]) -> Result<Action, LineError>
    ensures { Gives (λ x. x) result (action_by Verb.Bcast words.now) }
{
    let (communicator, root, rest) = first_two(words)?;
    let buffer = one_alone(rest)?;
    let root = rank_of(root)?;
    let (communicator, buffer) = communicator_and_buffer(alloc, communicator, buffer)?;
    Ok(Action::Bcast(Broadcasting {
        communicator,
        root,
        buffer,
    }))
}

/// `COMM ROOT B INTO`
#[tactic(auto, unfolding(crate::specs::LineWords::gather_of))]
pub(crate) fn gather_of(alloc: Global, words: &[Token]) -> Result<Action, LineError>
    ensures { Gives (λ x. x) result (action_by Verb.Gather words.now) }
{
    let (communicator, root, buffer, into) = four_alone(words)?;
    let root = rank_of(root)?;
    let (communicator, buffer, into) = communicator_and_two(alloc, communicator, buffer, into)?;
    Ok(Action::Gather(Gathering {
        communicator,
        root,
        buffer,
        into,
    }))
}

/// `COMM ROOT B INTO`, where B may be `-`
#[tactic(auto, unfolding(crate::specs::LineWords::scatter_of))]
pub(crate) fn scatter_of(alloc: Global, words: &[Token]) -> Result<Action, LineError>
    ensures { Gives (λ x. x) result (action_by Verb.Scatter words.now) }
{
    let (communicator, root, buffer, into) = four_alone(words)?;
    let root = rank_of(root)?;
    let buffer = block_from(alloc, buffer)?;
    let (communicator, into) = communicator_and_buffer(alloc, communicator, into)?;
    Ok(Action::Scatter(Scattering {
        communicator,
        root,
        buffer,
        into,
    }))
}

/// `COMM ROOT OP B INTO`
#[tactic(auto, unfolding(crate::specs::LineWords::reduce_of))]
pub(crate) fn reduce_of(alloc: Global, words: &[Token]) -> Result<Action, LineError>
    ensures { Gives (λ x. x) result (action_by Verb.Reduce words.now) }
{
    let (communicator, root, operation, buffer, rest) = first_four(words)?;
    let into = one_alone(rest)?;
    let root = rank_of(root)?;
    let operation = require(operation_of(operation))?;
    let (communicator, buffer, into) = communicator_and_two(alloc, communicator, buffer, into)?;
    Ok(Action::Reduce(Reducing {
        communicator,
        root,
        operation,
        buffer,
        into,
    }))
}

/// `COMM OP B INTO`
#[tactic(auto, unfolding(crate::specs::LineWords::allreduce_of))]
pub(crate) fn allreduce_of(alloc: Global, words: &[Token]) -> Result<Action, LineError>
    ensures { Gives (λ x. x) result (action_by Verb.Allreduce words.now) }
{
    let (communicator, operation, buffer, into) = four_alone(words)?;
    let operation = require(operation_of(operation))?;
    let (communicator, buffer, into) = communicator_and_two(alloc, communicator, buffer, into)?;
    Ok(Action::Allreduce(ReducingToAll {
        communicator,
        operation,
        buffer,
        into,
    }))
}

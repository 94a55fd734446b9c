//! What one word of a statement stands for.

ghost use Rattle.std.specs.Prelude.{◌≡◌};
ghost use Rattle.statements.specs.LineWords.{communicator_of, communicator_and_buffer, target_of, source_of, tag_of};
ghost use Rattle.statements.specs.LineWords.{requested_of, one_request, behind_as, through_of};
ghost use Rattle.tokens.specs.Fields.{name_of, rank_of, large_of, each};
ghost use Rattle.tokens.specs.Results.{Gives};

use crate::action::{CommunicatorName, LayoutClause, RequestName, RequestNames};
use crate::front::two_alone;
use std::alloc::Global;
use tokens::{LineError, Name, Token, is, large_of, name_of, number_or, rank_of};
use vocabulary::Source;

#[tactic(auto, unfolding(crate::specs::LineWords::communicator_of))]
pub(crate) fn communicator_of(alloc: Global, word: &[u8]) -> Result<CommunicatorName, LineError>
    ensures { Gives (λ x. x) result (communicator_of word.now) }
{
    if is(word, b"world") {
        Ok(CommunicatorName::World)
    } else if is(word, b"self") {
        Ok(CommunicatorName::Own)
    } else {
        Ok(CommunicatorName::Named(name_of(alloc, word)?))
    }
}

/// A communicator, and the name of a buffer.
pub(crate) fn communicator_and_buffer(
    alloc: Global,
    communicator: &[u8],
    buffer: &[u8],
) -> Result<(CommunicatorName, Name), LineError>
    ensures { Gives (λ x. x) result (communicator_and_buffer communicator.now buffer.now) }
{
    let communicator = communicator_of(alloc, communicator)?;
    let buffer = name_of(alloc, buffer)?;
    Ok((communicator, buffer))
}

#[tactic(auto, unfolding(crate::specs::LineWords::target_of))]
pub(crate) fn target_of(word: &[u8]) -> Result<Source, LineError>
    ensures { Gives (λ x. x) result (target_of word.now) }
{
    if is(word, b"null") {
        return Ok(Source::Null);
    }
    Ok(Source::Rank(rank_of(word)?))
}

#[tactic(auto, unfolding(crate::specs::LineWords::source_of))]
pub(crate) fn source_of(word: &[u8]) -> Result<Source, LineError>
    ensures { Gives (λ x. x) result (source_of word.now) }
{
    if is(word, b"any") {
        return Ok(Source::Any);
    }
    if is(word, b"null") {
        return Ok(Source::Null);
    }
    Ok(Source::Rank(rank_of(word)?))
}

#[tactic(auto, unfolding(crate::specs::LineWords::tag_of))]
pub(crate) fn tag_of(word: &[u8]) -> Result<Option<u32>, LineError>
    ensures { Gives (λ x. x) result (tag_of word.now) }
{
    if is(word, b"any") {
        return Ok(None);
    }
    match number_or(word, 4_294_967_295) {
        Some(tag) => Ok(Some(tag as u32)),
        None => Err(LineError::Faulty),
    }
}

#[tactic(auto, unfolding(crate::specs::LineWords::requested_of))]
pub(crate) fn requested_of(alloc: Global, word: &[u8]) -> Result<RequestName, LineError>
    ensures { Gives (λ x. x) result (requested_of word.now) }
{
    if is(word, b"null") {
        Ok(RequestName::Null)
    } else {
        Ok(RequestName::Named(name_of(alloc, word)?))
    }
}

/// A request for each word.
pub(crate) fn requests_of(alloc: Global, words: &[Token]) -> Result<RequestNames, LineError>
    ensures { Gives (λ x. x) result (each one_request words.now) }
{
    let mut requests = RequestNames::new(alloc);
    for word in words {
        let request = requested_of(alloc, word.as_bytes())?;
        requests.push(request)?;
    }
    Ok(requests)
}

/// `L N`
#[tactic(auto, unfolding(crate::specs::LineWords::behind_as))]
fn behind_as(alloc: Global, words: &[Token]) -> Result<LayoutClause, LineError>
    ensures { Gives (λ x. x) result (behind_as words.now) }
{
    let (layout, copies) = two_alone(words)?;
    let copies = large_of(copies)?;
    let layout = name_of(alloc, layout)?;
    Ok(LayoutClause { layout, copies })
}

/// `as L N`, or nothing.
#[tactic(auto, unfolding(crate::specs::LineWords::through_of))]
pub(crate) fn through_of(alloc: Global, words: &[Token]) -> Result<Option<LayoutClause>, LineError>
    ensures { Gives (λ x. x) result (through_of words.now) }
{
    let Some((word, rest)) = words.split_first() else {
        return Ok(None);
    };
    if !is(word.as_bytes(), b"as") {
        return Err(LineError::Faulty);
    }
    Ok(Some(behind_as(alloc, rest)?))
}

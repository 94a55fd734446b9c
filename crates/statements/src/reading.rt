//! What a rank does, by the words that spell it.

ghost use Rattle.std.specs.Prelude.{◌≡◌};
ghost use Rattle.statements.specs.LineWords.{places_of, sending_of, receiving_of, isend_of, one_of, action_by, action_of};
ghost use Rattle.tokens.specs.Results.{Gives};

use crate::action::{
    Action, BufferLine, CommunicatorName, LayoutClause, Receiving, RequestName, Sending,
};
use crate::collective_reading::{allreduce_of, bcast_of, gather_of, reduce_of, scatter_of};
use crate::communicator_reading::{communicator_alone, dup_of, split_of, two_communicators};
use crate::fields::{
    communicator_and_buffer, requested_of, requests_of, source_of, tag_of, target_of, through_of,
};
use crate::front::{first_four, first_two, one_alone};
use crate::layout_reading::layout_of;
use crate::probe_reading::{improbe_of, mrecv_of, probing_of};
use crate::values::buffer_with;
use crate::verb::{Verb, verb_of};
use std::alloc::Global;
use tokens::{LineError, Name, Token, basic_type_of, first, name_of, require};

#[tactic(auto, unfolding(crate::specs::LineWords::buffer_of))]
fn buffer_of(alloc: Global, words: &[Token]) -> Result<Action, LineError>
    ensures { Gives (λ x. x) result (action_by Verb.Buffer words.now) }
{
    let (name, basic, rest) = first_two(words)?;
    let basic = require(basic_type_of(basic))?;
    let name = name_of(alloc, name)?;
    let value = buffer_with(alloc, basic, rest)?;
    Ok(Action::Buffer(BufferLine { name, value }))
}

/// A communicator, a buffer's name, and what stands behind them.
fn places_of(
    alloc: Global,
    communicator: &[u8],
    buffer: &[u8],
    words: &[Token],
) -> Result<(CommunicatorName, Name, Option<LayoutClause>), LineError>
    ensures { Gives (λ x. x) result (places_of communicator.now buffer.now words.now) }
{
    let (communicator, buffer) = communicator_and_buffer(alloc, communicator, buffer)?;
    let through = through_of(alloc, words)?;
    Ok((communicator, buffer, through))
}

/// The arguments of a send, which the words `COMM DEST TAG B` spell, with or without `as L N`.
#[tactic(auto, unfolding(crate::specs::LineWords::sending_of))]
pub fn sending_of(alloc: Global, words: &[Token]) -> Result<Sending, LineError>
    ensures { Gives (λ x. x) result (sending_of words.now) }
{
    let (communicator, target, tag, buffer, rest) = first_four(words)?;
    let target = target_of(target)?;
    let tag = tag_of(tag)?;
    let (communicator, buffer, through) = places_of(alloc, communicator, buffer, rest)?;
    Ok(Sending {
        communicator,
        target,
        tag,
        buffer,
        through,
    })
}

/// The arguments of a receive, which the words `COMM SRC TAG B` spell, with or without `as L N`.
#[tactic(auto, unfolding(crate::specs::LineWords::receiving_of))]
pub fn receiving_of(alloc: Global, words: &[Token]) -> Result<Receiving, LineError>
    ensures { Gives (λ x. x) result (receiving_of words.now) }
{
    let (communicator, source, tag, buffer, rest) = first_four(words)?;
    let source = source_of(source)?;
    let tag = tag_of(tag)?;
    let (communicator, buffer, through) = places_of(alloc, communicator, buffer, rest)?;
    Ok(Receiving {
        communicator,
        source,
        tag,
        buffer,
        through,
    })
}

/// `Q COMM DEST TAG B`: the name of a send's request, and its arguments.
#[tactic(auto, unfolding(crate::specs::LineWords::isend_of))]
fn isend_of(alloc: Global, words: &[Token]) -> Result<(Name, Sending), LineError>
    ensures { Gives (λ x. x) result (isend_of words.now) }
{
    let (request, rest) = first(words)?;
    let request = name_of(alloc, request)?;
    let sending = sending_of(alloc, rest)?;
    Ok((request, sending))
}

#[tactic(auto, unfolding(crate::specs::LineWords::irecv_of))]
fn irecv_of(alloc: Global, words: &[Token]) -> Result<Action, LineError>
    ensures { Gives (λ x. x) result (action_by Verb.Irecv words.now) }
{
    let (request, rest) = first(words)?;
    let request = name_of(alloc, request)?;
    Ok(Action::Irecv(request, receiving_of(alloc, rest)?))
}

#[tactic(auto, unfolding(crate::specs::LineWords::one_of))]
fn one_of(alloc: Global, words: &[Token]) -> Result<RequestName, LineError>
    ensures { Gives (λ x. x) result (one_of words.now) }
{
    requested_of(alloc, one_alone(words)?)
}

/// What a rank does, which the words behind its verb spell.
fn action_by(alloc: Global, verb: Verb, rest: &[Token]) -> Result<Action, LineError>
    ensures { Gives (λ x. x) result (action_by verb rest.now) }
{
    match verb {
        Verb::Buffer => buffer_of(alloc, rest),
        Verb::Layout => layout_of(alloc, rest),
        Verb::Isend => {
            let (request, sending) = isend_of(alloc, rest)?;
            Ok(Action::Isend(request, sending))
        }
        Verb::Issend => {
            let (request, sending) = isend_of(alloc, rest)?;
            Ok(Action::Issend(request, sending))
        }
        Verb::Irecv => irecv_of(alloc, rest),
        Verb::Iprobe => Ok(Action::Iprobe(probing_of(alloc, rest)?)),
        Verb::Improbe => improbe_of(alloc, rest),
        Verb::Mrecv => mrecv_of(alloc, rest),
        Verb::Wait => Ok(Action::Wait(one_of(alloc, rest)?)),
        Verb::Test => Ok(Action::Test(one_of(alloc, rest)?)),
        Verb::Cancel => Ok(Action::Cancel(one_of(alloc, rest)?)),
        Verb::Waitany => Ok(Action::Waitany(requests_of(alloc, rest)?)),
        Verb::Waitall => Ok(Action::Waitall(requests_of(alloc, rest)?)),
        Verb::Barrier => Ok(Action::Barrier(communicator_alone(alloc, rest)?)),
        Verb::Bcast => bcast_of(alloc, rest),
        Verb::Gather => gather_of(alloc, rest),
        Verb::Scatter => scatter_of(alloc, rest),
        Verb::Reduce => reduce_of(alloc, rest),
        Verb::Allreduce => allreduce_of(alloc, rest),
        Verb::Dup => dup_of(alloc, rest),
        Verb::Split => split_of(alloc, rest),
        Verb::Who => Ok(Action::Who(communicator_alone(alloc, rest)?)),
        Verb::Members => Ok(Action::Members(communicator_alone(alloc, rest)?)),
        Verb::Compare => {
            let (one, other) = two_communicators(alloc, rest)?;
            Ok(Action::Compare(one, other))
        }
    }
}

/// What a rank does, which the words spell.
#[tactic(auto, unfolding(crate::specs::LineWords::action_of))]
pub fn action_of(alloc: Global, words: &[Token]) -> Result<Action, LineError>
    ensures { Gives (λ x. x) result (action_of words.now) }
{
    let (verb, rest) = first(words)?;
    let verb = require(verb_of(verb))?;
    action_by(alloc, verb, rest)
}

//! What a rank tells the other members of a communicator, made ready: it takes memory, and changes nothing.

ghost use Rattle.std.specs.Prelude.{◌≡◌, map, filter, not, IfOk, Some};
ghost use Rattle.std.specs.Option.{option_copied};
ghost use Rattle.collective_messages.specs.Notes.{member_at};
ghost use Rattle.collective_steps.specs.Steps.{given_of, message_to, mine, to_others, words_given};
ghost use Rattle.collective_messages.specs.declared.message.MessageContent.TheVariants as given;
ghost use Rattle.vocabulary.specs.Endpoints.{is_same};
ghost use Rattle.vocabulary.specs.declared.basic_type.BasicType.TheVariants.{Uint16};

use collective_messages::{CollectiveMessage, Inside, MessageContent, is_same};
use context_agreement::Communicator;
use datatypes::Buffer;
use payload::Direction;
use std::alloc::{AllocError, Global};
use vocabulary::{BasicType, Endpoint};

/// What is told to all in the same words.
#[derive(Clone, Copy)]
pub enum ToAll {
    /// That two records differ.
    RecordsDiffer,
    /// That all have entered.
    AllEntered,
    /// The context of a copy.
    Context(u64),
}

impl ToAll {
    /// What a message carries that says this.
    fn into_content(self) -> MessageContent
        ensures { result ≡ words_given self }
    {
        match self {
            ToAll::RecordsDiffer => MessageContent::RecordsDiffer,
            ToAll::AllEntered => MessageContent::Nothing(Direction::FromRoot),
            ToAll::Context(context) => MessageContent::Context(context),
        }
    }
}

/// The member of the communicator that has this rank in `world`.
pub(crate) fn member(inside: &Inside, rank: u16) -> Endpoint
    ensures { result ≡ member_at inside.now.incarnation rank }
{
    Endpoint {
        rank,
        incarnation: inside.incarnation,
    }
}

/// A message of the collective to the member with this rank.
pub(crate) fn message_to(inside: &Inside, rank: u16, given: MessageContent) -> CollectiveMessage
    ensures { result ≡ message_to inside.now given rank }
{
    CollectiveMessage {
        target: member(inside, rank),
        context: inside.context,
        number: inside.number,
        entered: inside.entry.record(),
        given,
    }
}

/// The ranks of the other members.
pub(crate) fn others(
    alloc: Global,
    own: Endpoint,
    inside: &Inside,
    ranks: &[u16],
) -> Result<Vec<u16>, AllocError>
    ensures { IfOk result (λ others. others.items ≡
        filter (λ r. not (is_same (member_at inside.now.incarnation r) own)) ranks.now) }
{
    let mut others = Vec::new(alloc);
    for rank in ranks {
        if !is_same(member(inside, *rank), own) {
            others.push(*rank)?;
        }
    }
    Ok(others)
}

/// The same words to each of these ranks.
fn same_to_each(
    alloc: Global,
    inside: &Inside,
    ranks: &[u16],
    words: ToAll,
) -> Result<Vec<CollectiveMessage>, AllocError>
    ensures { IfOk result (λ messages. messages.items ≡
        map (λ r. message_to inside.now (words_given words) r) ranks.now) }
{
    ranks
        .iter()
        .map(|rank| message_to(inside, *rank, words.into_content()))
        .collect(alloc)
}

/// The same words to each of these members but the rank itself.
pub(crate) fn same_to_others(
    alloc: Global,
    own: Endpoint,
    inside: &Inside,
    ranks: &[u16],
    words: ToAll,
) -> Result<Vec<CollectiveMessage>, AllocError>
    ensures { IfOk result (λ messages. messages.items ≡ to_others own inside.now (λ r. words_given words) ranks.now) }
{
    let others = others(alloc, own, inside, ranks)?;
    same_to_each(alloc, inside, &others, words)
}

/// The ranks of a group, as elements.
fn elements_of(alloc: Global, ranks: &[u16]) -> Result<Buffer, AllocError>
    ensures { IfOk result (λ elements. elements ≡ record { basic = Uint16; values = ranks.now }) }
{
    let mut elements = Buffer::new(alloc, BasicType::Uint16);
    for rank in ranks {
        elements.push_number(u64::from(*rank))?;
    }
    Ok(elements)
}

/// What a member is told of the communicator that it gets.
fn group_content(alloc: Global, communicator: &Communicator) -> Result<MessageContent, AllocError>
    ensures { IfOk result (λ given. given ≡ given_of (Some communicator.now)) }
{
    let ranks = elements_of(alloc, communicator.group.ranks())?;
    Ok(MessageContent::NewGroup(communicator.context.number(), ranks.into_whole()))
}

/// The first of these communicators that has a rank among its members.
pub(crate) fn mine(made: &[Communicator], rank: u16) -> Option<&Communicator>
    ensures { option_copied result ≡ mine rank made.now }
{
    made.iter()
        .find(|communicator| communicator.group.contains(rank))
}

/// What a member is told of a split: the communicator that it gets, or MPI_COMM_NULL.
fn content_for(
    alloc: Global,
    made: &[Communicator],
    rank: u16,
) -> Result<MessageContent, AllocError>
    ensures { IfOk result (λ given. given ≡ given_of (mine rank made.now)) }
{
    match mine(made, rank) {
        Some(communicator) => group_content(alloc, communicator),
        None => Ok(MessageContent::NullCommunicator),
    }
}

/// What each of these ranks gets of a split.
fn groups_to_each(
    alloc: Global,
    inside: &Inside,
    ranks: &[u16],
    made: &[Communicator],
) -> Result<Vec<CollectiveMessage>, AllocError>
    ensures { IfOk result (λ messages. messages.items ≡
        map (λ r. message_to inside.now (given_of (mine r made.now)) r) ranks.now) }
{
    let mut messages = Vec::new(alloc);
    for rank in ranks {
        let given = content_for(alloc, made, *rank)?;
        messages.push(message_to(inside, *rank, given))?;
    }
    Ok(messages)
}

/// What each member but the rank itself gets of a split.
pub(crate) fn groups_to_others(
    alloc: Global,
    own: Endpoint,
    inside: &Inside,
    ranks: &[u16],
    made: &[Communicator],
) -> Result<Vec<CollectiveMessage>, AllocError>
    ensures { IfOk result (λ messages. messages.items ≡
        to_others own inside.now (λ r. given_of (mine r made.now)) ranks.now) }
{
    let others = others(alloc, own, inside, ranks)?;
    groups_to_each(alloc, inside, &others, made)
}

/// What a message carries that brings a copy of these elements.
pub(crate) fn block_content(
    alloc: Global,
    way: Direction,
    block: &Buffer,
) -> Result<MessageContent, AllocError>
    ensures { IfOk result (λ made. made ≡ given.Elements way block.now) }
{
    match block.try_clone(alloc) {
        Ok(block) => Ok(MessageContent::Elements(way, block.into_whole())),
        Err(refused) => Err(refused),
    }
}

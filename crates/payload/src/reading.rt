//! Reading a payload.

ghost use Rattle.std.specs.Prelude.{◌≡◌, ◌≤◌, length, slice_index, IfOk, OnOk, Some};
ghost use Rattle.payload.specs.Spellings.{PartText, NothingMore, part_text, PayloadText, payload_text, PayloadFits};
ghost use Rattle.payload.specs.Spellings.{spelling};
ghost use Rattle.vocabulary.specs.Operations.{operation_at};
ghost use Rattle.payload.specs.ByteMeanings.{Gives, without_fields, elements_in, rooted_in, reduce_in, allreduce_in};
ghost use Rattle.payload.specs.ByteMeanings.{record_in, elements_from, nothing_from, colour_from, choice_from, context_from};
ghost use Rattle.payload.specs.ByteMeanings.{group_from, towards_root, from_root, part_in, head_of, payload_of};

use crate::kind::{CollectiveKind, Phase};
use crate::payload::{Choice, Direction, NewGroup, Payload, PayloadContent};
use crate::record::{Elements, RECORD_BYTES, Record, Rooted};
use crate::refusal::PayloadRefusal;
use byteorder::{BigEndian, ByteOrder};
use vocabulary::{BasicType, Operation};

/// The fields of a record behind its kind.
#[derive(Clone, Copy)]
pub struct Fields {
    /// The code of the operation.
    pub operation: u8,
    /// The code of the basic type.
    pub basic: u8,
    /// The root's rank.
    pub root: u32,
    /// How many elements there are.
    pub count: u32,
}

/// The record, which has no fields: all of them are 0.
#[tactic(auto, unfolding(crate::specs::ByteMeanings::without_fields))]
fn without_fields(entered: Record, fields: Fields) -> Result<Record, PayloadRefusal>
    ensures { Gives (λ r. r) result (without_fields entered fields) }
{
    if fields.operation != 0 || fields.basic != 0 || fields.root != 0 || fields.count != 0 {
        return Err(PayloadRefusal::BadFrame);
    }
    Ok(entered)
}

/// The elements that the fields name.
#[tactic(auto, unfolding(crate::specs::ByteMeanings::elements_in))]
fn elements_in(fields: Fields) -> Result<Elements, PayloadRefusal>
    ensures { Gives (λ e. e) result (elements_in fields) }
{
    match BasicType::from_code(fields.basic) {
        Some(basic) => Ok(Elements {
            basic,
            count: fields.count,
        }),
        None => Err(PayloadRefusal::BadFrame),
    }
}

/// The elements and their root, without an operation.
#[tactic(auto, unfolding(crate::specs::ByteMeanings::rooted_in))]
fn rooted_in(fields: Fields) -> Result<Rooted, PayloadRefusal>
    ensures { Gives (λ r. r) result (rooted_in fields) }
{
    if fields.operation != 0 {
        return Err(PayloadRefusal::BadFrame);
    }
    Ok(Rooted {
        elements: elements_in(fields)?,
        root: fields.root,
    })
}

/// The operation with this code.
fn operation_in(code: u8) -> Result<Operation, PayloadRefusal>
    ensures { Gives (λ o. o) result (operation_at code) }
{
    match Operation::from_code(code) {
        Some(operation) => Ok(operation),
        None => Err(PayloadRefusal::BadFrame),
    }
}

/// A reduction to a root.
#[tactic(auto, unfolding(crate::specs::ByteMeanings::reduce_in))]
fn reduce_in(fields: Fields) -> Result<Record, PayloadRefusal>
    ensures { Gives (λ r. r) result (reduce_in fields) }
{
    let operation = operation_in(fields.operation)?;
    let elements = elements_in(fields)?;
    let root = fields.root;
    Ok(Record::Reduce(operation, Rooted { elements, root }))
}

/// A reduction to all members, which has no root.
#[tactic(auto, unfolding(crate::specs::ByteMeanings::allreduce_in))]
fn allreduce_in(fields: Fields) -> Result<Record, PayloadRefusal>
    ensures { Gives (λ r. r) result (allreduce_in fields) }
{
    let operation = operation_in(fields.operation)?;
    let elements = elements_in(fields)?;
    if fields.root != 0 {
        return Err(PayloadRefusal::BadFrame);
    }
    Ok(Record::Allreduce(operation, elements))
}

/// The record of this kind that the fields say.
#[tactic(auto, unfolding(crate::specs::ByteMeanings::record_in))]
fn record_in(kind: CollectiveKind, fields: Fields) -> Result<Record, PayloadRefusal>
    ensures { Gives (λ r. r) result (record_in kind fields) }
{
    match kind {
        CollectiveKind::Barrier => without_fields(Record::Barrier, fields),
        CollectiveKind::Bcast => Ok(Record::Bcast(rooted_in(fields)?)),
        CollectiveKind::Gather => Ok(Record::Gather(rooted_in(fields)?)),
        CollectiveKind::Scatter => Ok(Record::Scatter(rooted_in(fields)?)),
        CollectiveKind::Reduce => reduce_in(fields),
        CollectiveKind::Allreduce => allreduce_in(fields),
        CollectiveKind::Dup => without_fields(Record::Dup, fields),
        CollectiveKind::Split => without_fields(Record::Split, fields),
    }
}

/// The elements, where they are as many bytes as the record says.
#[tactic(auto, unfolding(crate::specs::ByteMeanings::elements_from))]
fn elements_from(
    way: Direction,
    elements: Elements,
    body: &[u8],
) -> Result<PayloadContent<'_>, PayloadRefusal>
    ensures { Gives part_text result (elements_from way elements body.now) }
{
    let size = u64::from(elements.count) * u64::from(elements.basic.size());
    if body.len() as u64 != size {
        return Err(PayloadRefusal::BadFrame);
    }
    Ok(PayloadContent::Elements(way, body))
}

/// The part that says nothing more, where nothing more is said.
#[tactic(auto, unfolding(crate::specs::ByteMeanings::nothing_from))]
fn nothing_from<'a>(
    part: PayloadContent<'a>,
    body: &[u8],
) -> Result<PayloadContent<'a>, PayloadRefusal>
    ensures { Gives part_text result (nothing_from (part_text part.entry) body.now) }
{
    if body.len() != 0 {
        return Err(PayloadRefusal::BadFrame);
    }
    Ok(part)
}

/// The colour, by the byte that says whether there is one.
#[tactic(auto, unfolding(crate::specs::ByteMeanings::colour_from))]
fn colour_from(given: u8, colour: u32) -> Result<Option<u32>, PayloadRefusal>
    ensures { Gives (λ c. c) result (colour_from given colour) }
{
    match given {
        1 => Ok(Some(colour)),
        0 => {
            if colour == 0 {
                Ok(None)
            } else {
                Err(PayloadRefusal::BadFrame)
            }
        }
        _ => Err(PayloadRefusal::BadFrame),
    }
}

/// What a member asks for in a split.
#[tactic(auto, unfolding(crate::specs::ByteMeanings::choice_from))]
fn choice_from(body: &[u8]) -> Result<PayloadContent<'_>, PayloadRefusal>
    ensures { Gives part_text result (choice_from body.now) }
{
    if body.len() != 9 {
        return Err(PayloadRefusal::BadFrame);
    }
    let colour = colour_from(body[0], BigEndian::read_u32(&body[1..]))?;
    let key = BigEndian::read_i32(&body[5..]);
    Ok(PayloadContent::Choice(Choice { colour, key }))
}

/// The context of a copy.
#[tactic(auto, unfolding(crate::specs::ByteMeanings::context_from))]
fn context_from(body: &[u8]) -> Result<PayloadContent<'_>, PayloadRefusal>
    ensures { Gives part_text result (context_from body.now) }
{
    if body.len() != 8 {
        return Err(PayloadRefusal::BadFrame);
    }
    Ok(PayloadContent::Context(BigEndian::read_u64(body)))
}

/// What a member gets of a split.
#[tactic(auto, unfolding(crate::specs::ByteMeanings::group_from))]
fn group_from(body: &[u8]) -> Result<PayloadContent<'_>, PayloadRefusal>
    ensures { Gives part_text result (group_from body.now) }
{
    if body.is_empty() {
        return Ok(PayloadContent::NullCommunicator);
    }
    if body.len() < 10 || body.len() % 2 != 0 {
        return Err(PayloadRefusal::BadFrame);
    }
    let context = BigEndian::read_u64(body);
    let (_, ranks) = body.split_at(8);
    Ok(PayloadContent::NewGroup(NewGroup { context, ranks }))
}

/// What goes towards the root.
#[tactic(auto, unfolding(crate::specs::ByteMeanings::towards_root))]
fn towards_root(entered: Record, body: &[u8]) -> Result<PayloadContent<'_>, PayloadRefusal>
    ensures { Gives part_text result (towards_root entered body.now) }
{
    let way = Direction::TowardsRoot;
    match entered {
        Record::Barrier => nothing_from(PayloadContent::Nothing(way), body),
        Record::Bcast(rooted) => elements_from(way, rooted.elements, body),
        Record::Gather(rooted) => elements_from(way, rooted.elements, body),
        Record::Scatter(rooted) => elements_from(way, rooted.elements, body),
        Record::Reduce(_, rooted) => elements_from(way, rooted.elements, body),
        Record::Allreduce(_, elements) => elements_from(way, elements, body),
        Record::Dup => nothing_from(PayloadContent::Nothing(way), body),
        Record::Split => choice_from(body),
    }
}

/// What comes from the root.
#[tactic(auto, unfolding(crate::specs::ByteMeanings::from_root))]
fn from_root(entered: Record, body: &[u8]) -> Result<PayloadContent<'_>, PayloadRefusal>
    ensures { Gives part_text result (from_root entered body.now) }
{
    let way = Direction::FromRoot;
    match entered {
        Record::Barrier => nothing_from(PayloadContent::Nothing(way), body),
        Record::Bcast(rooted) => elements_from(way, rooted.elements, body),
        Record::Gather(rooted) => elements_from(way, rooted.elements, body),
        Record::Scatter(rooted) => elements_from(way, rooted.elements, body),
        Record::Reduce(_, rooted) => elements_from(way, rooted.elements, body),
        Record::Allreduce(_, elements) => elements_from(way, elements, body),
        Record::Dup => context_from(body),
        Record::Split => group_from(body),
    }
}

/// What a message of this phase and record carries.
#[tactic(auto, unfolding(crate::specs::ByteMeanings::part_in))]
fn part_in(phase: Phase, entered: Record, body: &[u8]) -> Result<PayloadContent<'_>, PayloadRefusal>
    ensures { Gives part_text result (part_in phase entered body.now) }
{
    match phase {
        Phase::TowardsRoot => towards_root(entered, body),
        Phase::FromRoot => from_root(entered, body),
        Phase::RecordsDiffer => nothing_from(PayloadContent::RecordsDiffer, body),
    }
}

/// The record in the first bytes.
#[tactic(auto, unfolding(crate::specs::ByteMeanings::head_of))]
fn head_of(bytes: &[u8]) -> Result<Record, PayloadRefusal>
    ensures exact { Gives (λ r. r) result (head_of bytes.now) }
    ensures long { OnOk result (16 ≤ length bytes.now) }
{
    if bytes.len() < RECORD_BYTES || BigEndian::read_u32(&bytes[12..]) != 0 {
        return Err(PayloadRefusal::BadFrame);
    }
    let Some(kind) = CollectiveKind::from_code(bytes[0]) else {
        return Err(PayloadRefusal::BadFrame);
    };
    let fields = Fields {
        operation: bytes[1],
        basic: bytes[2],
        root: BigEndian::read_u32(&bytes[4..]),
        count: BigEndian::read_u32(&bytes[8..]),
    };
    record_in(kind, fields)
}

/// What the bytes say, field by field.
#[tactic(auto, unfolding(crate::specs::ByteMeanings::payload_of))]
fn payload_of(bytes: &[u8]) -> Result<Payload<'_>, PayloadRefusal>
    ensures { Gives payload_text result (payload_of bytes.now) }
{
    let entered = head_of(bytes)?;
    let Some(phase) = Phase::from_code(bytes[3]) else {
        return Err(PayloadRefusal::BadFrame);
    };
    let (_, body) = bytes.split_at(RECORD_BYTES);
    let part = part_in(phase, entered, body)?;
    Ok(Payload { entered, part })
}

/// The payload that the bytes spell, which borrows them; bytes that spell none are refused with 30.
/// What the members of the communicator make of it (whether the root is one of them, whether the
/// operation is defined on the type, whether a rank is named twice) is judged where it is used.
pub fn read_payload(bytes: &[u8]) -> Result<Payload<'_>, PayloadRefusal>
    // What is read is within the format's rules and spelled so, each byte of it.
    ensures found { IfOk result (λ p.
        PayloadFits (payload_text p) × (bytes.now ≡ spelling (payload_text p))) }
    // What is spelled so is read.
    ensures only { (p : PayloadText) → PayloadFits p → bytes.now ≡ spelling p
        → Gives payload_text result (Some p) }
    // Which payload it is, or that it is none.
    ensures exact { Gives payload_text result (payload_of bytes.now) }
{
    payload_of(bytes)
}

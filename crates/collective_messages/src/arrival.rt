//! A message that came, as a note that outlives its bytes.

ghost use Rattle.std.specs.Prelude.{◌≡◌, ◌*◌, ◌/◌, ◌<◌, length, nat_le, IfOk};
ghost use Rattle.std.specs.List.{list_any};
ghost use Rattle.datatypes.specs.Contents.{element_at};
ghost use Rattle.collective_messages.specs.Arrivals.{ArrivalGives, SaidGives, names_beyond, ranks_in};
ghost use Rattle.payload.specs.Spellings.{AreElements, ElementsText, GroupText, PartFits, elements_of, part_text};
ghost use Rattle.payload.specs.Spellings.{payload_text};

use crate::address::Address;
use crate::note::{Note, NoteContent};
use crate::refusal::CollectiveRefusal;
use datatypes::Buffer;
use groups::Group;
use payload::{Direction, NewGroup, Payload, PayloadContent, Record};
use std::alloc::{AllocError, Global};

/// The ranks of a group that came, in order.
#[tactic(auto, using(crate::proofs::Values::values_more), unfolding(datatypes::specs::Contents::values_of))]
fn ranks_of(alloc: Global, group: NewGroup<'_>) -> Result<Vec<u16>, AllocError>
    ensures { IfOk result (λ ranks. ranks.items ≡ ranks_in group.entry.ranks.now) }
{
    let mut ranks = Vec::new(alloc);
    for place in 0..group.len() {
        if let Some(rank) = group.rank(place) {
            ranks.push(rank)?;
        }
    }
    Ok(ranks)
}

/// Whether the member at a place of a group that came is a rank that a job of so many ranks lacks.
#[tactic(auto, unfolding(datatypes::specs::Contents::values_of))]
fn is_beyond_at(group: NewGroup<'_>, place: usize, size: u16) -> bool
    requires { place < length group.ranks.now / 2 }
    ensures { result ≡ nat_le size (element_at 2 group.entry.ranks.now place) }
{
    match group.rank(place) {
        Some(rank) => rank >= size,
        None => false,
    }
}

/// Whether a group that came names a rank that a job of so many ranks lacks.
#[tactic(auto, using(crate::proofs::Values::any_more), unfolding(datatypes::specs::Contents::values_of))]
fn is_beyond(group: NewGroup<'_>, size: u16) -> bool
    ensures { result ≡ list_any (λ r. nat_le size r) (ranks_in group.entry.ranks.now) }
{
    let mut beyond = false;
    for place in 0..group.len() {
        let there = is_beyond_at(group, place, size);
        beyond = beyond || there;
    }
    beyond
}

/// Whether a message names a rank that a job of so many ranks lacks: one of the group that it tells of. Then it is no
/// message of the job.
pub fn names_beyond(payload: Payload<'_>, size: u16) -> bool
    ensures { result ≡ names_beyond size (part_text payload.entry.part) }
{
    match payload.part {
        PayloadContent::NewGroup(group) => is_beyond(group, size),
        _ => false,
    }
}

/// The communicator that a message tells of; nothing where it names a rank twice.
fn said_of_group(
    alloc: Global,
    entered: Record,
    group: NewGroup<'_>,
) -> Result<Option<NoteContent>, CollectiveRefusal>
    ensures { SaidGives entered (GroupText group.entry.context group.entry.ranks.now) result }
{
    let context = group.context;
    let Ok(ranks) = ranks_of(alloc, group) else {
        return Err(CollectiveRefusal::OutOfMemory);
    };
    match Group::from_ranks(alloc, &ranks) {
        Ok(group) => Ok(Some(NoteContent::NewGroup(context, group))),
        Err(groups::GroupRefusal::OutOfMemory) => Err(CollectiveRefusal::OutOfMemory),
        Err(_) => Ok(None),
    }
}

/// The elements that a message carries, copied once.
fn said_of_elements(
    alloc: Global,
    entered: Record,
    way: Direction,
    bytes: &[u8],
) -> Result<Option<NoteContent>, CollectiveRefusal>
    requires { AreElements (elements_of entered) bytes.now }
    ensures { SaidGives entered (ElementsText way bytes.now) result }
{
    let Some(elements) = entered.elements() else {
        return Err(CollectiveRefusal::BadFrame);
    };
    match Vec::from_slice(alloc, bytes) {
        Ok(bytes) => Ok(Some(NoteContent::Elements(
            way,
            Buffer::from_bytes(elements.basic, bytes),
        ))),
        Err(_) => Err(CollectiveRefusal::OutOfMemory),
    }
}

/// What a message says, which outlives its bytes; nothing where its group names a rank twice.
fn said_of(alloc: Global, payload: Payload<'_>) -> Result<Option<NoteContent>, CollectiveRefusal>
    requires { PartFits payload.entered (part_text payload.part) }
    ensures { SaidGives payload.entry.entered (part_text payload.entry.part) result }
{
    match payload.part {
        PayloadContent::RecordsDiffer => Ok(Some(NoteContent::RecordsDiffer)),
        PayloadContent::Nothing(way) => Ok(Some(NoteContent::Nothing(way))),
        PayloadContent::Elements(way, bytes) => said_of_elements(
            alloc,
            payload.entered,
            way,
            bytes,
        ),
        PayloadContent::Context(context) => Ok(Some(NoteContent::Context(context))),
        PayloadContent::Choice(choice) => Ok(Some(NoteContent::Choice(choice))),
        PayloadContent::NullCommunicator => Ok(Some(NoteContent::NullCommunicator)),
        PayloadContent::NewGroup(group) => said_of_group(alloc, payload.entered, group),
    }
}

/// What is kept of a message of the collective with this number on the communicator with this context.
///
/// `CollectiveRefusal::BadFrame` (30) comes where what it carries doesn't fit its record,
/// `CollectiveRefusal::OutOfMemory` (14) where elements or a group can't be copied. Nothing is kept of a message whose
/// group names a rank twice: no member sends one.
pub fn note_of(
    alloc: Global,
    address: Address,
    payload: Payload<'_>,
) -> Result<Option<Note>, CollectiveRefusal>
    ensures { ArrivalGives address.sender address.context address.number (payload_text payload.entry) result }
{
    if !payload.fits() {
        return Err(CollectiveRefusal::BadFrame);
    }
    let entered = payload.entered;
    match said_of(alloc, payload) {
        Ok(Some(said)) => Ok(Some(Note {
            sender: address.sender,
            context: address.context,
            number: address.number,
            entered,
            said,
        })),
        Ok(None) => Ok(None),
        Err(refused) => Err(refused),
    }
}

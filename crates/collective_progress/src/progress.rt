//! What was found in the notes of a collective so far, and what is found by it.

ghost use Rattle.std.specs.Prelude.{◌≡◌, ◌<◌, ◌≤◌, ◌==◌, OnOk, find, length, replicate, position, slice_get, take};
ghost use Rattle.std.specs.Prelude.{None, Some};
ghost use Rattle.std.specs.Option.{option_copied};
ghost use Rattle.collective_messages.specs.Notes.{differs_in, found_in, is_known, member_at, result_place, tells_entry};
ghost use Rattle.collective_messages.specs.Notes.{tells_result};
ghost use Rattle.collective_progress.specs.Progress.{IsProgress, is_that, slot, unseen};

use collective_messages::{Entry, Inside, Note, differs_in, found_in, is_same};
use std::alloc::{AllocError, Global};
use std::marker::Model;
use vocabulary::Endpoint;

/// What was found in the notes of the collective that a rank is in, as far as they were looked at. Further notes are
/// looked at where they are asked for, so it stays right where a note is kept behind the others.
#[derive(Drop)]
pub struct Progress {
    /// So many notes were looked at, the oldest.
    pub(crate) count: usize,
    /// At the slot of each rank whose word is awaited, where the first note of its word stands.
    pub(crate) places: Vec<Option<usize>>,
    /// So many of these ranks, from the first on, are known to have entered.
    pub(crate) entered: usize,
    /// Whether a note speaks of a difference.
    pub(crate) differs: bool,
    /// Whether a note finds a difference in its record.
    pub(crate) found: bool,
    /// Where the first result stands.
    pub(crate) result: Option<usize>,
}

impl Model for Progress {
    ghost use Rattle.collective_progress.specs.Progress.{Seen};

    ghost Value = { Seen };

    ghost view = { λ p. record {
      count = p.count;
      places = p.places.items;
      entered = p.entered;
      differs = p.differs;
      found =
          p.found;
      result = p.result;
    } };
}

/// The member of the communicator that has this rank in `world`.
pub(crate) fn member(inside: &Inside, rank: u16) -> Endpoint
    ensures { result ≡ member_at inside.now.incarnation rank }
{
    Endpoint {
        rank,
        incarnation: inside.incarnation,
    }
}

/// Whether this rank stands at this place.
fn stands_at(ranks: &[u16], rank: u16, place: usize) -> bool
    ensures { result ≡ is_that rank (slice_get ranks.now place) }
{
    match ranks.get(place) {
        Some(found) => *found == rank,
        None => false,
    }
}

/// Where a rank stands first.
fn place_among(ranks: &[u16], rank: u16) -> Option<usize>
    ensures { result ≡ position (λ x. x == rank) ranks.now }
{
    ranks.iter().position(|found| *found == rank)
}

/// The slot of a rank: its own number where it stands there, as in `world` and its copies, and else where it stands
/// first.
pub(crate) fn slot(ranks: &[u16], rank: u16) -> Option<usize>
    ensures { result ≡ slot ranks.now rank }
{
    let own = usize::from(rank);
    if stands_at(ranks, rank, own) {
        return Some(own);
    }
    place_among(ranks, rank)
}

/// Where the first note stands that tells that a member has entered.
fn entry_among(notes: &[Note], context: u64, number: u32, member: Endpoint) -> Option<usize>
    ensures { result ≡ position (tells_entry context number member) notes.now }
{
    notes
        .iter()
        .position(|note| note.tells_entry(context, number, member))
}

/// Where the first note stands that tells with what the rank leaves.
fn result_among(notes: &[Note], context: u64, number: u32) -> Option<usize>
    ensures { result ≡ position (tells_result context number) notes.now }
{
    notes
        .iter()
        .position(|note| note.tells_result(context, number))
}

/// The note at a place, where there is one.
fn note_there(notes: &[Note], place: usize) -> Option<&Note>
    ensures { option_copied result ≡ slice_get notes.now place }
{
    notes.get(place)
}

/// Where the first note stands that tells that a member has entered, where none does before the start.
fn entry_behind(
    notes: &[Note],
    start: usize,
    context: u64,
    number: u32,
    member: Endpoint,
) -> Option<usize>
    requires start { start ≤ length notes.now }
    requires before { position (tells_entry context number member) (take start notes.now) ≡ None }
    ensures { result ≡ position (tells_entry context number member) notes.now }
{
    match entry_among(&notes[start..], context, number, member) {
        Some(place) => Some(start + place),
        None => None,
    }
}

/// Where the first result stands, where none does before the start.
fn result_behind(notes: &[Note], start: usize, context: u64, number: u32) -> Option<usize>
    requires start { start ≤ length notes.now }
    requires before { position (tells_result context number) (take start notes.now) ≡ None }
    ensures { result ≡ position (tells_result context number) notes.now }
{
    match result_among(&notes[start..], context, number) {
        Some(place) => Some(start + place),
        None => None,
    }
}

/// Each slot is free.
fn free_all(places: &mut Vec<Option<usize>>)
    ensures { places.new.items ≡ replicate (length places.old.items) None }
{
    for slot in 0..places.len() {
        places[slot] = None;
    }
}

impl Progress {
    /// That of a rank that is in no collective. It takes no memory.
    pub fn new(alloc: Global) -> Progress
        ensures { result ≡ unseen 0 }
    {
        Progress {
            count: 0,
            places: Vec::new(alloc),
            entered: 0,
            differs: false,
            found: false,
            result: None,
        }
    }

    /// Begins with a collective none of whose notes was looked at, with a slot for each of those for whom the rank
    /// waits. The only error is want of memory.
    pub fn start(&mut self, alloc: Global, inside: &Inside) -> Result<(), AllocError>
        ensures { OnOk result (self.new ≡ unseen (length inside.now.role.feeders)) }
    {
        let places = vec![in alloc; None; inside.role.feeders().len()]?;
        *self = Progress {
            count: 0,
            places,
            entered: 0,
            differs: false,
            found: false,
            result: None,
        };
        Ok(())
    }

    /// Begins anew with the slots that there are. It takes no memory.
    pub fn restart(&mut self)
        ensures { self.new ≡ unseen (length self.old.places) }
    {
        free_all(&mut self.places);
        self.count = 0;
        self.entered = 0;
        self.differs = false;
        self.found = false;
        self.result = None;
    }

    /// So many notes were looked at.
    pub(crate) fn count(&self) -> usize
        ensures { result ≡ self.now.count }
    {
        self.count
    }

    /// So many of those for whom the rank waits, from the first on, are known to have entered.
    pub(crate) fn entered_count(&self) -> usize
        ensures { result ≡ self.now.entered }
    {
        self.entered
    }

    /// Whether a note that was looked at speaks of a difference.
    fn difference_seen(&self) -> bool
        ensures { result ≡ self.now.differs }
    {
        self.differs
    }

    /// Whether a note that was looked at finds a difference.
    fn difference_found(&self) -> bool
        ensures { result ≡ self.now.found }
    {
        self.found
    }

    /// Where the first result stands among the notes that were looked at.
    fn result_seen(&self) -> Option<usize>
        ensures { result ≡ self.now.result }
    {
        self.result
    }

    /// What stands at a slot, where there is that.
    fn place_at(&self, slot: usize) -> Option<Option<usize>>
        ensures { result ≡ slice_get self.now.places slot }
    {
        match self.places.get(slot) {
            Some(place) => Some(*place),
            None => None,
        }
    }

    /// Where the first note stands that tells that the member with this rank has entered.
    #[tactic(auto, using(crate::proofs::NoteLaws::slot_is, crate::proofs::NoteLaws::slot_taken))]
    pub fn entry_place(&self, inside: &Inside, notes: &[Note], rank: u16) -> Option<usize>
        requires { IsProgress inside.now notes.now self.now }
        ensures { result ≡
            position (tells_entry inside.now.context inside.now.number (member_at inside.now.incarnation rank))
            notes.now }
    {
        let member = member(inside, rank);
        let Some(slot) = slot(inside.role.feeders(), rank) else {
            return entry_behind(notes, 0, inside.context, inside.number, member);
        };
        match self.place_at(slot) {
            Some(Some(place)) => Some(place),
            Some(None) => {
                entry_behind(notes, self.count(), inside.context, inside.number, member)
            }
            None => entry_behind(notes, 0, inside.context, inside.number, member),
        }
    }

    /// The first note that tells that the member with this rank has entered.
    #[tactic(auto, using(crate::proofs::Places::found_nowhere))]
    pub fn entry_note<'a>(&self, inside: &Inside, notes: &'a [Note], rank: u16) -> Option<&'a Note>
        requires { IsProgress inside.now notes.now self.now }
        ensures { option_copied result ≡
            find (tells_entry inside.now.context inside.now.number (member_at inside.now.incarnation rank)) notes.now }
    {
        match self.entry_place(inside, notes, rank) {
            Some(place) => note_there(notes, place),
            None => None,
        }
    }

    /// Whether the member with this rank has entered, as the rank at `own` knows it.
    #[tactic(auto, using(crate::proofs::Places::told_place))]
    pub fn is_known(&self, own: Endpoint, inside: &Inside, notes: &[Note], rank: u16) -> bool
        requires { IsProgress inside.now notes.now self.now }
        ensures { result ≡
            is_known own inside.now.context inside.now.number notes.now (member_at inside.now.incarnation rank) }
    {
        is_same(member(inside, rank), own) || self.entry_place(inside, notes, rank).is_some()
    }

    /// Whether a note speaks of a difference.
    pub fn has_difference(&self, inside: &Inside, notes: &[Note]) -> bool
        requires { IsProgress inside.now notes.now self.now }
        ensures { result ≡ differs_in inside.now.context inside.now.number inside.now.entry notes.now }
    {
        self.difference_seen()
            || differs_in(
                &notes[self.count()..],
                inside.context,
                inside.number,
                &inside.entry,
            )
    }

    /// Whether a note finds a difference in its record, and isn't only told of one.
    pub fn has_found_difference(&self, inside: &Inside, notes: &[Note]) -> bool
        requires { IsProgress inside.now notes.now self.now }
        ensures { result ≡ found_in inside.now.context inside.now.number inside.now.entry notes.now }
    {
        self.difference_found()
            || found_in(
                &notes[self.count()..],
                inside.context,
                inside.number,
                &inside.entry,
            )
    }

    /// Where the first note stands that tells with what the rank leaves.
    #[tactic(auto, using(crate::proofs::NoteLaws::result_is))]
    pub fn result_place(&self, inside: &Inside, notes: &[Note]) -> Option<usize>
        requires { IsProgress inside.now notes.now self.now }
        ensures { result ≡ result_place inside.now.context inside.now.number notes.now }
    {
        match self.result_seen() {
            Some(place) => Some(place),
            None => result_behind(notes, self.count(), inside.context, inside.number),
        }
    }
}

//! What a rank does that is in a collective, and what notes say of it.

ghost use Rattle.std.specs.Prelude.{◌≡◌};
ghost use Rattle.collective_messages.specs.Notes.{differs_in, found_in, without};
ghost use Rattle.vocabulary.specs.Endpoints.{is_same};
ghost use Rattle.collective_messages.specs.Verdicts.{is_at};

use crate::entry::Entry;
use crate::note::Note;
use vocabulary::Endpoint;

/// What a rank does that is in a collective, by what it was told.
#[derive(Clone, Copy)]
pub enum Verdict {
    /// It stays in it: some have not entered for whom it waits.
    Stays,
    /// It leaves with 12, since two records differ.
    Breaks,
    /// All have entered for whom it waits, and it waits to be told with what it leaves.
    Waits,
    /// It leaves by what was entered: all have entered for whom it waits.
    Decides,
    /// It leaves with what the note at this place tells.
    Hears(usize),
}

/// Whether two endpoints are one.
pub fn is_same(first: Endpoint, second: Endpoint) -> bool
    ensures { result ≡ is_same first second }
{
    first.rank == second.rank && first.incarnation == second.incarnation
}

/// Whether what is kept of a collective speaks of a difference.
pub fn differs_in(notes: &[Note], context: u64, number: u32, entry: &Entry) -> bool
    ensures { result ≡ differs_in context number entry.now notes.now }
{
    notes.iter().any(|note| note.is_of(context, number) && note.is_differing(entry))
}

/// Whether a difference is found in what is kept of a collective, and not only told.
pub fn found_in(notes: &[Note], context: u64, number: u32, entry: &Entry) -> bool
    ensures { result ≡ found_in context number entry.now notes.now }
{
    notes
        .iter()
        .any(|note| note.is_of(context, number) && note.is_found(entry))
}

/// Whether an endpoint is the member at a place among these ranks, whose incarnation this is.
pub fn is_at(own: Endpoint, incarnation: u16, ranks: &[u16], place: u32) -> bool
    ensures { result ≡ is_at own incarnation ranks.now place }
{
    match ranks.get(place as usize) {
        Some(rank) => *rank == own.rank && incarnation == own.incarnation,
        None => false,
    }
}

/// Drops what is kept of a collective that was left.
pub fn drop_notes(notes: &mut Vec<Note>, context: u64, number: u32)
    ensures { notes.new.items ≡ without context number notes.old.items }
{
    notes.retain(|note| !note.is_of(context, number));
}

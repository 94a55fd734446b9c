//! What was found, note by note.

ghost use Rattle.std.specs.Prelude.{◌≡◌, ◌<◌, length};
ghost use Rattle.collective_progress.specs.Progress.{IsKept, filled_at, looked, or_here};

use crate::judgement::first_known;
use crate::progress::{Progress, member, slot};
use collective_messages::{Inside, Note};
use vocabulary::Endpoint;

/// The place at a slot is taken, where it is free.
fn fill(places: &mut Vec<Option<usize>>, slot: Option<usize>, at: usize)
    ensures { places.new.items ≡ filled_at slot at places.old.items }
{
    let Some(slot) = slot else {
        return;
    };
    if slot < places.len() && places[slot].is_none() {
        places[slot] = Some(at);
    }
}

/// This place, or the new one.
fn or_here(place: Option<usize>, here: bool, at: usize) -> Option<usize>
    ensures { result ≡ or_here place here at }
{
    match (place, here) {
        (Some(place), _) => Some(place),
        (None, true) => Some(at),
        (None, false) => None,
    }
}

/// The note is looked at that stands behind those that were.
fn look_at(progress: &mut Progress, inside: &Inside, note: &Note)
    requires { progress.old.count < 9223372036854775808 }
    ensures { progress.new ≡ looked inside.now note.now progress.old }
{
    let at = progress.count;
    let (context, number) = (inside.context, inside.number);
    if note.tells_entry(context, number, member(inside, note.sender.rank)) {
        let slot = slot(inside.role.feeders(), note.sender.rank);
        fill(&mut progress.places, slot, at);
    }
    let is_of = note.is_of(context, number);
    progress.differs = progress.differs || (is_of && note.is_differing(&inside.entry));
    progress.found = progress.found || (is_of && note.is_found(&inside.entry));
    progress.result = or_here(progress.result, note.tells_result(context, number), at);
    progress.count = at + 1;
}

/// All notes are looked at.
fn look_at_all(progress: &mut Progress, own: Endpoint, inside: &Inside, notes: &[Note])
    requires { IsKept own inside.now notes.now progress.old }
    ensures kept { IsKept own inside.now notes.now progress.new }
    ensures count { progress.new.count ≡ length notes.now }
{
    let mut count = progress.count();
    while count < notes.len() {
        look_at(progress, inside, &notes[count]);
        count += 1;
    }
}

impl Progress {
    /// Looks at the notes that were not looked at before. It takes no memory.
    pub fn catch_up(&mut self, own: Endpoint, inside: &Inside, notes: &[Note])
        requires { IsKept own inside.now notes.now self.old }
        ensures kept { IsKept own inside.now notes.now self.new }
        ensures count { self.new.count ≡ length notes.now }
    {
        look_at_all(self, own, inside, notes);
        let entered = first_known(self, own, inside, notes, self.entered_count());
        self.entered = entered;
    }
}

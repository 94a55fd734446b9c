//! The verdict by what was found so far.

ghost use Rattle.std.specs.Prelude.{◌≡◌, ◌==◌, length};
ghost use Rattle.collective_messages.specs.Entries.{own_choice};
ghost use Rattle.collective_messages.specs.Notes.{choice_known, choice_of_note, have_entered, member_at, note_at};
ghost use Rattle.collective_messages.specs.Verdicts.{verdict, verdict_told};
ghost use Rattle.collective_progress.specs.Progress.{AreFirst, IsProgress};

use crate::progress::{Progress, member};
use crate::seat::Seat;
use collective_messages::{Inside, Note, Verdict, is_same};
use payload::Choice;
use vocabulary::Endpoint;

/// What a rank does once those have entered for whom it waits, by where the note stands that tells it with what it
/// leaves.
fn judge_entered(decides: bool, told: Option<usize>) -> Verdict
    ensures { result ≡ verdict_told decides told }
{
    match (decides, told) {
        (true, _) => Verdict::Decides,
        (false, Some(place)) => Verdict::Hears(place),
        (false, None) => Verdict::Waits,
    }
}

/// So many of those for whom the rank at `own` waits, from the first on, are known to have entered, and not the one
/// behind them.
pub(crate) fn first_known(
    progress: &Progress,
    own: Endpoint,
    inside: &Inside,
    notes: &[Note],
    start: usize,
) -> usize
    requires progress { IsProgress inside.now notes.now progress.now }
    requires start { AreFirst own inside.now notes.now start }
    ensures first { AreFirst own inside.now notes.now result }
    ensures all { (result == length inside.now.role.feeders) ≡
        have_entered own inside.now.incarnation inside.now.context inside.now.number notes.now inside.now.role.feeders }
{
    let feeders = inside.role.feeders();
    let mut count = start;
    while count < feeders.len() && progress.is_known(own, inside, notes, feeders[count]) {
        count += 1;
    }
    count
}

/// What the note at a place asks for, where there is one.
fn choice_at(notes: &[Note], place: Option<usize>) -> Choice
    ensures { result ≡ choice_of_note (note_at notes.now place) }
{
    let nothing = Choice {
        colour: None,
        key: 0,
    };
    match place {
        Some(place) => match notes.get(place) {
            Some(note) => note.said.choice(),
            None => nothing,
        },
        None => nothing,
    }
}

impl Seat<'_> {
    /// What the rank does that is in a collective: it leaves with 12 where a note of it speaks of a difference; else it
    /// stays until those have entered for whom it waits, and then leaves, or waits to be told with what.
    pub fn judge(&self) -> Verdict
        ensures { result ≡ verdict self.now.own self.now.inside.now self.now.notes.now }
    {
        let (inside, progress) = (self.inside, self.progress);
        if progress.has_difference(inside, self.notes) {
            return Verdict::Breaks;
        }
        let known = first_known(
            progress,
            self.own,
            inside,
            self.notes,
            progress.entered_count(),
        );
        if known < inside.role.feeders().len() {
            return Verdict::Stays;
        }
        judge_entered(
            inside.role.decides(),
            progress.result_place(inside, self.notes),
        )
    }

    /// What the member with this rank asks for in a split, as the rank knows it.
    pub fn choice_known(&self, rank: u16) -> Choice
        ensures { result ≡
            choice_known self.now.own (own_choice self.now.inside.now.entry) self.now.inside.now.context
            self.now.inside.now.number self.now.notes.now (member_at self.now.inside.now.incarnation rank) }
    {
        if is_same(member(self.inside, rank), self.own) {
            return self.inside.entry.choice();
        }
        choice_at(
            self.notes,
            self.progress.entry_place(self.inside, self.notes, rank),
        )
    }
}

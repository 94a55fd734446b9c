//! Whether two tables of requests stand alike.

ghost use Rattle.std.specs.Prelude.{◌≡◌, ℕ, List, Option, IsTrue};
ghost use Rattle.std.specs.Option.{option_copied};
ghost use Rattle.requests.specs.Table.{slot_at};
ghost use Rattle.requests.specs.Trimmed.{trimmed};
ghost use Rattle.requests.specs.declared.table.TableEntry.{TableEntry};
ghost use Rattle.slab.specs.Slab.{get};

use crate::table::{Matched, Posted, Request, RequestProgress, TableEntry, TakenOut};
use alike::Alike;
use slab::Slab;

/// A law of `Requests::stands_as`: the same stands under each key of a table without the empty places at its end.
#[tactic(auto, using(crate::proofs::Trimming::trimmed_at))]
pub fn trimmed_tables_have_the_same_entries()
    ensures { (slots : List (Option TableEntry)) → (key : ℕ) → slot_at (trimmed slots) key ≡ slot_at slots key }
{}

impl Alike for Request {
    fn stands_as(&self, other: &Self) -> bool {
        self == other
    }
}

impl Alike for Posted {
    fn stands_as(&self, other: &Self) -> bool {
        self.into.stands_as(&other.into) && self.group.stands_as(&other.group)
    }
}

impl Alike for Matched {
    fn stands_as(&self, other: &Self) -> bool {
        self.into.stands_as(&other.into) && self.status == other.status
    }
}

impl Alike for TakenOut {
    fn stands_as(&self, other: &Self) -> bool {
        self.group.stands_as(&other.group) && self.message.stands_as(&other.message)
    }
}

impl Alike for RequestProgress {
    fn stands_as(&self, other: &Self) -> bool {
        match (self, other) {
            (RequestProgress::Receiving(posted), RequestProgress::Receiving(other)) => {
                posted.stands_as(other)
            }
            (RequestProgress::Collecting(matched), RequestProgress::Collecting(other)) => {
                matched.stands_as(other)
            }
            (RequestProgress::Offering, RequestProgress::Offering) => true,
            (RequestProgress::TakenOut(taken), RequestProgress::TakenOut(other)) => {
                taken.stands_as(other)
            }
            (RequestProgress::Finished(outcome), RequestProgress::Finished(other)) => {
                outcome.stands_as(other)
            }
            _ => false,
        }
    }
}

impl Alike for TableEntry {
    fn stands_as(&self, other: &Self) -> bool {
        self.serial == other.serial && self.progress.stands_as(&other.progress)
    }
}

fn is_same<T: Alike>(this: Option<&T>, that: Option<&T>) -> bool
    ensures { IsTrue result → option_copied this.entry ≡ option_copied that.entry }
{
    match (this, that) {
        (Some(this), Some(that)) => this.stands_as(that),
        (None, None) => true,
        _ => false,
    }
}

/// Whether the same stands under each key.
fn have_same_entries<T: Alike>(these: &Slab<T>, those: &Slab<T>) -> bool
    ensures { IsTrue result → (key : ℕ) → get these.now key ≡ get those.now key }
{
    for key in 0..these.capacity().max(those.capacity()) {
        if !is_same(these.get(key), those.get(key)) {
            return false;
        }
    }
    true
}

/// Whether the same stands under each key; how many empty places are at the end isn't looked at.
#[tactic(auto, using(crate::proofs::Trimming::same_trimmed))]
pub(crate) fn are_alike_but_for_end<T: Alike>(these: &Slab<T>, those: &Slab<T>) -> bool
    ensures { IsTrue result → trimmed these.now.slots ≡ trimmed those.now.slots }
{
    have_same_entries(these, those)
}

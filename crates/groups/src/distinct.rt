//! Whether a list names anything twice.

ghost use Rattle.std.specs.Prelude.{IsTrue, ◌↔◌};
ghost use Rattle.groups.specs.Groups.{HasNoRepeats};

use crate::rank_set::RankSet;

/// Whether no rank stands in the list twice: one pass over it.
pub(crate) fn has_no_repeats(ranks: &[u16]) -> bool
    ensures { IsTrue result ↔ HasNoRepeats ranks.now }
{
    let mut seen = RankSet::new();
    for rank in ranks {
        if seen.contains(*rank) {
            return false;
        }
        seen.insert(*rank);
    }
    true
}

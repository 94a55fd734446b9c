//! Laws of the one meaning.

ghost use Rattle.std.specs.Prelude.{◌≡◌, true, false, [], ◌∷◌};
ghost use Rattle.one_meaning.specs.CourseLaws.{EveryWayLeadsThere, TheEndIsOne};
ghost use Rattle.one_meaning.specs.Examples.{by_tags, deadlock, in_order, meaning, on_copies, ping_pong, refused, sums};
ghost use Rattle.one_meaning.specs.PairLaws.{MatchesKeepPairs, MoreKeepsPairs};
ghost use Rattle.one_meaning.specs.Turns.{TurnsComeToTheEnd};

/// States that what each receive is to get is settled by what is posted and sent, and not by when matches are made. It
/// does nothing when it is called.
///
/// A match that the machine may make keeps it, and so do messages and receives that come later (MPI 3.1, 3.5). Receives
/// name a rank.
pub fn pairs_stay()
    ensures matches { MatchesKeepPairs }
    ensures more { MoreKeepsPairs }
{}

/// States that ranks that run by themselves come to one end, in whatever order they go on. It does nothing when it is
/// called.
///
/// What each rank has printed on the way is a beginning of all that it prints, and all of it once it has ended. There
/// is one such end.
pub fn ways_lead_there()
    ensures lead { EveryWayLeadsThere }
    ensures one { TheEndIsOne }
{}

/// States that ranks in turn, each going as far as it can, turn after turn, come to where none may go on, if the steps
/// of each process are bounded. It does nothing when it is called.
pub fn turns_come_to_the_end()
    ensures { TurnsComeToTheEnd }
{}

/// States what ranks print in the one meaning of small scripts, and which of them have ended. It does nothing when it
/// is called.
///
/// They show a message and its answer; messages by tag and in the order of receives (MPI 3.1, 3.2.4 and 3.5); messages
/// of a copy of world, which aren't world's (6.4.2); a call that is refused (3.2.3); a sum (5.9.6); and two ranks that
/// wait for each other for ever (3.5).
pub fn examples_come_out()
    ensures ping_pong { meaning ping_pong ≡ ((2 ∷ []) ∷ [], true) ∷ ((1 ∷ []) ∷ [], true) ∷ [] }
    ensures by_tags { meaning by_tags ≡ ([], true) ∷ ((2 ∷ []) ∷ (1 ∷ []) ∷ [], true) ∷ [] }
    ensures in_order { meaning in_order ≡ ([], true) ∷ ((2 ∷ []) ∷ (1 ∷ []) ∷ [], true) ∷ [] }
    ensures on_copies { meaning on_copies ≡ ([], true) ∷ ((2 ∷ []) ∷ [], true) ∷ [] }
    ensures refused { meaning refused ≡ ((5 ∷ []) ∷ [], true) ∷ ([], true) ∷ [] }
    ensures sums { meaning sums ≡ ((3 ∷ []) ∷ [], true) ∷ ((3 ∷ []) ∷ [], true) ∷ [] }
    ensures deadlock { meaning deadlock ≡ ([], false) ∷ ([], false) ∷ [] }
{}

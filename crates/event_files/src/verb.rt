//! The first word of a line that asks for an event.

ghost use Rattle.std.specs.Prelude.{◌≡◌};
ghost use Rattle.event_files.specs.LineWords.{verb_of};

use tokens::is;

/// The event that a line asks for, by its first word.
#[derive(Clone, Copy)]
pub(crate) enum EventVerb {
    /// `deliver`
    Deliver,
    /// `tick`
    Tick,
    /// `stray`
    Stray,
    /// `restart`
    Restart,
}

/// The event that the first word asks for, if it is no rank.
#[tactic(auto, unfolding(crate::specs::LineWords::verb_of))]
pub(crate) fn verb_of(word: &[u8]) -> Option<EventVerb>
    ensures { result ≡ verb_of word.now }
{
    if is(word, b"deliver") {
        Some(EventVerb::Deliver)
    } else if is(word, b"tick") {
        Some(EventVerb::Tick)
    } else if is(word, b"stray") {
        Some(EventVerb::Stray)
    } else if is(word, b"restart") {
        Some(EventVerb::Restart)
    } else {
        None
    }
}

//! Laws of transfers, over every list of events.

ghost use Rattle.std.specs.Prelude.{◌≡◌, ℕ, ◌<◌, List, length};
ghost use Rattle.vocabulary.specs.declared.basic_type.BasicType.{BasicType};
ghost use Rattle.vocabulary.specs.BasicTypes.{size_of};
ghost use Rattle.datatypes.specs.Contents.{AreWithin};
ghost use Rattle.vocabulary.specs.MessageLimits.{frame_limit_of};
ghost use Rattle.vocabulary.specs.declared.message_limit.MessageLimit.{MessageLimit};
ghost use Rattle.rendezvous.specs.Pieces.{pieces_of};
ghost use Rattle.rendezvous.specs.WholePieces.{ArePieces, ArriveWhole};
ghost use Rattle.rendezvous.specs.Events.{Event, opening};
ghost use Rattle.rendezvous.specs.Courses.{IsWholeOrNothing, story};
ghost use Rattle.rendezvous.specs.OfferLaws.{AreAnsweredOnce, after_all};
ghost use Rattle.rendezvous.specs.TransferCounts.{transfers_to, announcements_by, IsCounted, AreAlike, AreFound};

/// A law of `pieces`, `is_next_data` and `on_data`: pieces put together in order are the data, and a new collection of
/// that size takes them in order and gives just the elements, with the last one and not before.
pub fn pieces_are_whole()
    ensures pieces { (limit : MessageLimit) (bytes : List ℕ) →
        ArePieces (frame_limit_of limit) bytes (pieces_of (frame_limit_of limit) bytes) }
    ensures elements { (limit : MessageLimit) (source transfer request : ℕ) (basic : BasicType) (values : List ℕ) →
        0 < length values → AreWithin (size_of basic) values → ArriveWhole limit source transfer request basic values }
{}

/// A law of `Transfers`: a message that is collected is handed out at most once and whole, as just the pieces that were
/// taken for it, in order; and not at all once its sender is known at a new incarnation.
pub fn transfers_are_whole_or_nothing()
    ensures { (ranks : ℕ) (events : List Event) → IsWholeOrNothing (story ranks events) }
{}

/// A law of `Transfers`: an offer is handed out at most once. As long as the session goes on, no second answer finds
/// it.
pub fn offers_are_handed_out_once()
    ensures { (ranks : ℕ) (events : List Event) → AreAnsweredOnce (after_all (opening ranks) events) }
{}

/// A law of `Transfers`: both sides of a session count its transfers alike. A rank's next transfer gets the number of
/// those that began in the session, and the announcement that is due has the number of those that came. So where the
/// one side has taken as many announcements as the other has begun transfers, just the next one is due. What began is
/// found under its number until it is answered or the session ends.
pub fn numbers_are_counted_alike()
    ensures counted { (ranks rank : ℕ) (events : List Event) → rank < ranks →
        IsCounted rank events (after_all (opening ranks) events) }
    ensures alike { (ranks source target : ℕ) (sent received : List Event) → source < ranks → target < ranks →
        announcements_by source received ≡ transfers_to target sent →
        AreAlike source target (after_all (opening ranks) sent) (after_all (opening ranks) received) }
    ensures found { (ranks : ℕ) (events : List Event) → AreFound (after_all (opening ranks) events) }
{}

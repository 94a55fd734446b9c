//! What sessions carry once an event of a collective happened.

ghost use Rattle.proof_session_carrying.specs.EventLaws.{EntriesAreCarried, NoticesAreCarried, AnnouncementsAreCarried};
ghost use Rattle.proof_session_carrying.specs.EventLaws.{AnswersAreCarried, PartsAreCarried};

/// States that what a rank sends in a collective goes out as the notices that go out in the network, each whole or
/// announced by an
/// RTS. Where the texts of all sessions stood for what the network's sessions carried, they do so
///
/// - once the rank has entered a collective, and once it was handed what made a notice whole, an eager frame or the
/// last piece of
///   its data, with all that it sends then;
/// - once it was handed an RTS of a collective, and sent the CTS that asks for the data;
/// - once it was handed such a CTS, and sent the data in pieces;
/// - and once it was handed a piece that isn't the last one.
///
/// It does nothing when it is called. Collectives are those of MPI 3.1, 5.1 to 5.9 and 6.4.2; that their messages go
/// over the sessions, and large ones in pieces, is this project's own.
pub fn collectives_are_carried()
    ensures entries { EntriesAreCarried }
    ensures notices { NoticesAreCarried }
    ensures announcements { AnnouncementsAreCarried }
    ensures answers { AnswersAreCarried }
    ensures parts { PartsAreCarried }
{}

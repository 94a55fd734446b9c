//! What the parts of one word do to the network.

ghost use Rattle.proof_group_network.specs.Midway.{WordsCome, MessagesCome, NoticesCome, PartsAddUp, EventsSettle};
ghost use Rattle.proof_group_network.specs.Midway.{WordsSettle, WordsGoOn, MidwayStands};

/// States that a word may be taken in one part after the other: each part teaches at most, or hands up one message or
/// one notice, and parts add up. In the middle nothing is seen of it, the endpoint that speaks is known as it is, and
/// what holds of the links and of what ranks can rely on in every network to which happenings lead holds there, too. At
/// the end a blocked call that is ready is answered, or a collective that ended, and the word has happened. It does
/// nothing when it is called.
///
/// Words are this project's own; a call that waits for one of several requests may answer with any that is done (MPI
/// 3.1, 3.7.5).
pub fn words_come_in_parts()
    ensures words { WordsCome }
    ensures messages { MessagesCome }
    ensures notices { NoticesCome }
    ensures sums { PartsAddUp }
    ensures settling { EventsSettle }
    ensures ends { WordsSettle }
    ensures going_on { WordsGoOn }
    ensures standing { MidwayStands }
{}

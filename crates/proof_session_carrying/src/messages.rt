//! What sessions carry once an event of point to point happened.

ghost use Rattle.proof_session_carrying.specs.MessageLaws.{QueueCallsAreCarried, MessagesAreCarried, OthersAreCarried};
ghost use Rattle.proof_session_carrying.specs.MessageLaws.{StillTextsAreQuiet};

/// States that where the texts of all sessions stood for what the network's sessions carried, they do so once a call of
/// point to point was taken, a frame of messages was handed up, or something happened that touches no link; and that
/// where no text is under way between endpoints that know each other as they are, the network is quiet and its notices
/// were handed up. It does nothing when it is called.
///
/// Calls are those of MPI 3.1, 3.7; that messages and collectives go over one session is this project's own.
pub fn messages_are_carried()
    ensures calls { QueueCallsAreCarried }
    ensures messages { MessagesAreCarried }
    ensures others { OthersAreCarried }
    ensures still { StillTextsAreQuiet }
{}

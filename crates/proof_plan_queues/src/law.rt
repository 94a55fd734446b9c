//! The law of lines.

ghost use Rattle.proof_plan_queues.specs.Lines.{CallsKeepLines, ReceivesAreBegun, SettlingKeepsLines, StepsAreArrivals};
ghost use Rattle.proof_plan_queues.specs.Lines.{MessagesJoinLines};

/// States that the messages of one context and tag, and the receives that were posted for them, each of which names its
/// sender, are the queues and the receives that were begun of the laws of plans: what an endpoint does of itself either
/// changes nothing of them, or the first block of a sender comes to the first receive from it; a message joins the
/// queue of its sender at its end; a receive is begun behind those that wait. It does nothing when it is called.
///
/// The order of matches is that of MPI 3.1, 3.5.
pub fn lines_are_plan_queues()
    ensures arrivals { StepsAreArrivals }
    ensures messages { MessagesJoinLines }
    ensures begun { ReceivesAreBegun }
    ensures calls { CallsKeepLines }
    ensures settling { SettlingKeepsLines }
{}

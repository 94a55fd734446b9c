//! The law of both halves.

ghost use Rattle.proof_queue_calls.specs.Halves.{CallsAreJudgedAlike, FaultIsOfBothHalves};

/// States that a call on a communicator that the caller holds, and one that names requests, is judged by its requests
/// and by what it hands in as its call of the queues is, and that its fault is the first of: the queues' rules on
/// requests (6), the queues' rules on what it hands in (2, 1, 3 and 5), and then the groups' rules on its rank (5) and
/// on the member that it names (11). It does nothing when it is called.
pub fn calls_are_of_both_halves()
    ensures judged { CallsAreJudgedAlike }
    ensures fault { FaultIsOfBothHalves }
{}

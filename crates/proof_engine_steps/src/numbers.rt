//! That transfers which are no sends are counted in a rank's sessions.

ghost use Rattle.proof_engine_steps.specs.TransferCounts.{NumbersAreCounts, TransfersToAreCounted, TransfersFromAreCounted};

/// States that a rank's core goes on to hold what a core of the pure network holds where a transfer is counted that is
/// none of its sends and receives, to another rank or from one: the numbers of the session go on, under which later
/// ones are announced, and each is still how many were announced. So large payloads of collectives share the numbers of
/// a session with its large messages. It does nothing when it is called.
///
/// That both share the numbers of a session is this project's own.
pub fn transfers_are_counted()
    ensures numbers { NumbersAreCounts }
    ensures to { TransfersToAreCounted }
    ensures from { TransfersFromAreCounted }
{}

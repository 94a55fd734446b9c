//! The law of an engine's own faults.

ghost use Rattle.proof_engine_faults.specs.Own.{OwnRefusals, OwnTakings, OwnJudgements, NewEnginesAreOrderly};
ghost use Rattle.proof_engine_faults.specs.Own.{EnginesOfWorldsAreOrderly};
ghost use Rattle.proof_engine_faults.specs.OrderlyEngines.{CallsKeepOrder, DatagramsKeepOrder, NewEnginesStayOrderly};
ghost use Rattle.proof_engine_faults.specs.OrderlyEngines.{OutKeepsOrder, CompletionsKeepOrder, TicksKeepOrder, WaitsKeepOrder};

/// States of an engine alone, without a world or a network, whatever it has heard, that it refuses a call exactly where
/// the machine finds a fault with it, by what the engine itself holds: its blocked call, its table of requests, the
/// incarnations that it knows, and its communicators. A refused call has the machine's first fault, by its number, or
/// the machine finds none and the number is 13 or 14; with a call that is taken, or judged to meet no rule and no
/// limit, the machine finds none, and the call names no request of another engine. It stands on the engine's contract,
/// and on this: no two requests of the table have one serial, and all serials are below the next; its communicators are
/// of ranks of its job; and its parts know where it stands (`IsOrderly`). A new engine is so, and so is each engine of
/// a world that follows the network. It does nothing when it is called.
///
/// Faults are those of MPI 3.1, 3, 5 and 6.4; their order is this project's own.
pub fn engines_find_the_machines_faults()
    ensures refused { OwnRefusals }
    ensures taken { OwnTakings }
    ensures judged { OwnJudgements }
    ensures new { NewEnginesAreOrderly }
    ensures worlds { EnginesOfWorldsAreOrderly }
{}

/// States that an engine stays orderly, whatever calls, bytes and times it is handed (`StaysOrderly`). A new engine is
/// so; a call, a datagram and a tick, each taken or refused, leave it so, and so do taking out what it emitted, taking
/// out the answer of a blocked call, and telling it how long frames wait for their acknowledgements. So a rank that
/// runs refuses a call exactly where the machine finds a fault with it (`engines_find_the_machines_faults`), whatever
/// came to it. What is asked beside `IsOrderly` is that its rank is one of its job's, and that each group that it was
/// told of is of ranks of its job, as what is received is judged. It does nothing when it is called.
pub fn engines_stay_orderly()
    ensures new { NewEnginesStayOrderly }
    ensures calls { CallsKeepOrder }
    ensures datagrams { DatagramsKeepOrder }
    ensures ticks { TicksKeepOrder }
    ensures out { OutKeepsOrder }
    ensures completions { CompletionsKeepOrder }
    ensures waits { WaitsKeepOrder }
{}

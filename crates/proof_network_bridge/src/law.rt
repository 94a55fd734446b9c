//! The law that joins a world of engines to the machine of queues and groups.

ghost use Rattle.proof_network_bridge.specs.OnWorld.{RunsOnWorldAreOfQueues};
ghost use Rattle.proof_network_bridge.specs.EventLaws.{OpeningFollows, CallsFollow, DatagramsFollow, RefusalsFollow};
ghost use Rattle.proof_network_bridge.specs.EventLaws.{TicksFollow, RestartsFollow, FollowingIsRun};
ghost use Rattle.proof_network_bridge.specs.Alone.{EnginesAreRanks, EnginesRefuseAsTheMachine, EnginesTakeNoFault};
ghost use Rattle.proof_network_bridge.specs.Alone.{EnginesJudgeAsTheMachine};
ghost use Rattle.proof_network_bridge.specs.GoingOn.{OpeningFollowsNone, CallsFollowOn, DatagramsFollowOn};
ghost use Rattle.proof_network_bridge.specs.GoingOn.{RefusalsStand, TicksStand, RestartsFollowOn, FollowingIsEachRun};
ghost use Rattle.proof_network_bridge.specs.GoingOn.{EnginesShareGroups};

/// States that a world of engines follows the pure network with communicators from its opening on, through every call
/// that is taken, every datagram that is taken in or refused, every tick and every restart of a rank; and that whoever
/// follows that network is seen as a run of the machine of queues and groups. Calls are of point to point and on
/// requests, on whatever communicator a rank holds (MPI 3.1, 3 and 6.2.4), they enter collectives (5.3 to 5.9, 6.4.2),
/// or ask about communicators (6.4.1).
///
/// That run ends with each rank at the incarnation of its engine, which knows there what its engine knows, and holds
/// the communicators that its engine holds; a call that its engine refuses has a reason there, and one that it takes
/// has no fault; of all ranks, whoever hold communicators with one context hold the same one. The run has come to rest
/// where no session of ranks that know each other as they are holds a frame: no message can be matched, and a
/// collective whose members are all current, know each other so and have all entered it alike was left by all. It does
/// nothing when it is called.
pub fn worlds_are_runs()
    ensures opening { OpeningFollows }
    ensures calls { CallsFollow }
    ensures datagrams { DatagramsFollow }
    ensures refusals { RefusalsFollow }
    ensures ticks { TicksFollow }
    ensures restarts { RestartsFollow }
    ensures run { FollowingIsRun }
{}

/// States that a world of engines goes on from the happenings of the network that it followed before: at its opening
/// from none, with a call, a datagram that is taken in and a restart by one more at the rank of the event, or by none,
/// and with a datagram that is refused and with a tick by none; that whatever is told of its engines by some run of the
/// machine is so by each run that goes with these happenings; and that along such a run engines share one group for
/// each context, one that is there with one that was started anew since. It does nothing when it is called.
///
/// Communicators are those of MPI 3.1, 6.2.4; restarts are this project's own.
pub fn worlds_go_on()
    ensures opening { OpeningFollowsNone }
    ensures calls { CallsFollowOn }
    ensures datagrams { DatagramsFollowOn }
    ensures refusals { RefusalsStand }
    ensures ticks { TicksStand }
    ensures restarts { RestartsFollowOn }
    ensures run { FollowingIsEachRun }
    ensures groups { EnginesShareGroups }
{}

/// States of an engine alone, without a world, that it refuses a call exactly where its own part of the machine finds a
/// fault: a refused call has the machine's first fault, by its number, or the machine finds none and the number is 13
/// or 14; with a call that is taken, or judged to meet no rule and no limit, the machine finds none. It stands on the
/// engine's contract and on what it holds: its table of requests is that of a core of the network, and its
/// communicators are those of a member, of ranks of its job (`IsRank`); and each engine of a world that follows the
/// network is such a rank (`ranks`). It does nothing when it is called.
///
/// Faults are those of MPI 3.1, 3, 5 and 6.4; their order is this project's own.
pub fn engines_refuse_as_the_machine()
    ensures refused { EnginesRefuseAsTheMachine }
    ensures taken { EnginesTakeNoFault }
    ensures judged { EnginesJudgeAsTheMachine }
    ensures ranks { EnginesAreRanks }
{}

/// States that a run of the machine of queues and groups in which all calls are of point to point on world is a run of
/// the machine of perfect queues, with the same history and the same queues at its end. So where engines call on world
/// alone, the headline of a world allows no history that perfect queues don't allow. It does nothing when it is called.
///
/// World is the communicator of MPI 3.1, 6.2.4.
pub fn runs_on_world_are_of_queues()
    ensures { RunsOnWorldAreOfQueues }
{}

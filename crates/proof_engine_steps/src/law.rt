//! The law that joins a rank's core to its core in the pure network.

ghost use Rattle.proof_engine_steps.specs.Steps.{OpeningIsShown, OpeningIsSettled, CallsAreShown, NewsAreShown};
ghost use Rattle.proof_engine_steps.specs.Steps.{WakesAreShown, OthersMayAnnounce};
ghost use Rattle.proof_engine_steps.specs.Probes.{LooksAreShown, LooksAreJudged, SearchesFindAll};
ghost use Rattle.proof_engine_steps.specs.Refusals.{FaultsHaveReasons, AllowedCallsAreFaultless, RoomIsAReason};

/// States that a rank's core holds what a core of the pure network holds, at whatever incarnation it starts, and that
/// each call that is taken, if its elements have the width of their type, and all that may come from another rank, be
/// it a lesson or not, with a frame or without one, keep that. The machine finds no fault with the call, and is told
/// the same reply; the frames that go out can leave the rank, and stand for those that the network's core gives to its
/// links. So it is with messages of every size that a send may have, and what others announce to the rank changes
/// nothing of it. A frame may come if it stands for one of the network and the rank's core refuses it by no rule.
/// Several may come in one event, whether or not they make the answer of a blocked call ready: once it is over the rank
/// is woken as the network's core is settled, and the machine is told the same completion.
/// A look at the messages that came is a probe, which has its answer at once and changes nothing; its fault is the
/// machine's. A look, and a matching probe, answers none only where the rank holds no message that such a receive would
/// take.
/// Each call that meets a rule or a limit has the machine's first fault, or the machine finds none and a limit met it;
/// each call that meets none names no request of another engine, and the machine finds no fault with it, so that a
/// limit of its frame or want of memory is a reason. It does nothing when it is called.
pub fn engines_are_cores()
    ensures opening { OpeningIsShown }
    ensures opening_settled { OpeningIsSettled }
    ensures calls { CallsAreShown }
    ensures looks { LooksAreShown }
    ensures judged { LooksAreJudged }
    ensures finds { SearchesFindAll }
    ensures news { NewsAreShown }
    ensures wakes { WakesAreShown }
    ensures announced { OthersMayAnnounce }
    ensures faults { FaultsHaveReasons }
    ensures allowed { AllowedCallsAreFaultless }
    ensures room { RoomIsAReason }
{}

//! The law that joins datagrams to links.

ghost use Rattle.proof_link_truth.specs.Deliveries.{DeliveriesBegin, TurnsTellTheTruth, TurnsAreTrue, DiscardsAreTrue};
ghost use Rattle.proof_link_truth.specs.Deliveries.{OrderIsFree};
ghost use Rattle.proof_link_truth.specs.Events.{OpeningIsTrue, HearingIsTrue, EventsAreTrue, RestIsTrue};
ghost use Rattle.proof_link_truth.specs.Events.{RefusalsAreTrue, TicksAreTrue, RestartsAreTrue, IdleIsStill};
ghost use Rattle.proof_link_truth.specs.Events.{IdleHoldsNothing};

/// States that the sessions of the ranks of a world hold just what the links between their endpoints hold, and every
/// datagram that was ever emitted tells the truth of them; that whatever a rank hears in a datagram is true; that each
/// event keeps all that: what is heard, with the frames that are sent for it or without anything heard, what isn't
/// heard, a tick, and a restart of a rank; and that nothing is on its way between two ranks that know each other as
/// they are, where their senders hold no frame, nor does a receiver hold one. It does nothing when it is called.
pub fn datagrams_tell_the_truth()
    ensures opening { OpeningIsTrue }
    ensures hearing { HearingIsTrue }
    ensures events { EventsAreTrue }
    ensures rest { RestIsTrue }
    ensures refusals { RefusalsAreTrue }
    ensures ticks { TicksAreTrue }
    ensures restarts { RestartsAreTrue }
    ensures idle { IdleIsStill }
    ensures empty { IdleHoldsNothing }
{}

/// States the same of deliveries that hand up several frames: the first one is an event, as any other; whatever was
/// held is the next frame of its link, once its turn comes; each turn leaves the links true, with the frames that are
/// sent for it and with the acknowledgement of the delivery, which gives way to one that says more; so does a frame
/// that is taken out in its turn, and any order in which what went out is put. It does nothing when it is called.
pub fn deliveries_tell_the_truth()
    ensures begin { DeliveriesBegin }
    ensures heard { TurnsTellTheTruth }
    ensures turns { TurnsAreTrue }
    ensures discards { DiscardsAreTrue }
    ensures order { OrderIsFree }
{}

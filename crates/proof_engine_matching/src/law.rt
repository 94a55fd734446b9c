//! The law of matching.

ghost use Rattle.proof_engine_matching.specs.Matches.{ArrivalsMatch, PostsMatch, TakesMatch, OutcomesAgree};
ghost use Rattle.proof_engine_matching.specs.Matches.{OwnOutcomesAgree, AnnouncementsAgree};

/// States that a message that arrives takes the same receive from an engine's queues as from a core's jobs, that a
/// receive that is posted takes the same message, that a probe takes out the same, and that both end a receive alike.
/// It does nothing when it is called.
pub fn queues_match_alike()
    ensures arrivals { ArrivalsMatch }
    ensures posts { PostsMatch }
    ensures takes { TakesMatch }
    ensures outcomes { OutcomesAgree }
    ensures own { OwnOutcomesAgree }
    ensures announcements { AnnouncementsAgree }
{}

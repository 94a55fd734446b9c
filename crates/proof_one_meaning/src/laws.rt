//! The laws.

ghost use Rattle.proof_one_meaning.specs.Histories.{RunsAreJustified};
ghost use Rattle.proof_one_meaning.specs.Plays.{BeginningsAreHistories, EndpointsAreFirst, EveryPlayIsTheMeaning};

/// States that each entry of a run's history is the one that the accounts of the ranks give, and that each call has the
/// fault that it has by them. It does nothing when it is called.
///
/// The run is whatever run of the machine of queues and groups in which no rank is started anew, no two records of a
/// collective differ, and all calls have one meaning (`IsCovered`): no receive is from any rank (MPI 3.1, 3.2.4), and
/// nothing is tested, waited for as the first of several, probed or cancelled (3.7.3, 3.7.5, 3.8).
pub fn runs_have_one_meaning()
    ensures { RunsAreJustified }
{}

/// States that processes that make such calls alone play their one meaning over whatever has the machine's histories.
/// It does nothing when it is called.
///
/// What each has printed is a beginning of what it prints in the one meaning, and all of it once it has ended, where no
/// two records of a collective differ in the one meaning. Beginnings of histories are histories, and in one without
/// restarts all endpoints are the first ones of their ranks.
pub fn plays_have_one_meaning()
    ensures play { EveryPlayIsTheMeaning }
    ensures beginnings { BeginningsAreHistories }
    ensures endpoints { EndpointsAreFirst }
{}

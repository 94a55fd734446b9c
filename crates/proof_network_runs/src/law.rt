//! The law of one happening more.

ghost use Rattle.proof_network_runs.specs.Runs.{NoneIsARun, HappeningsGoOn, EachHasARun, RunsShowAll};
ghost use Rattle.proof_network_runs.specs.Runs.{OneGroupAlongRuns};

/// States that a run of the machine of queues and groups goes with the happenings of the pure network, one after the
/// other: the empty run goes with no happening; where a run goes with some happenings, it goes on by one event of
/// the machine, at the endpoint of the next one, or by none where that can't be, so some run goes with any
/// happenings; and whatever is said of some run of a network that happenings lead to is so of each run that goes with
/// them. Along such a run there is one group for each context, at any two moments. It does nothing when it is called.
///
/// Communicators are those of MPI 3.1, 6.2.4; happenings are this project's own.
pub fn runs_go_on_event_by_event()
    ensures none { NoneIsARun }
    ensures more { HappeningsGoOn }
    ensures some { EachHasARun }
    ensures shows { RunsShowAll }
    ensures one_group { OneGroupAlongRuns }
{}

//! Laws of what is told.

ghost use Rattle.rank_findings.specs.Laws.{AbortsEndRuns, AreApart, DeathsAreErrors, ErrorsAreWrong, FaultsAreWrong};
ghost use Rattle.rank_findings.specs.Laws.{GoesAlong, IsOneWay, RunsGiveStatuses};

/// States that findings of other numbers have one order alone: of two one is told before the other, not both ways, and
/// what is told before one is told before what that is before. It does nothing when it is called.
pub fn findings_have_one_order()
    ensures one_way { IsOneWay }
    ensures apart { AreApart }
    ensures along { GoesAlong }
{}

/// States that a run is wrong where one of its findings is a fault, and where not all ranks ended, unless what can't be
/// explored ended it (`faults`, `errors`); that a process which dies of its own ends its run by an error (`deaths`); and
/// that what ends the job ends the run (`aborts`). It does nothing when it is called.
pub fn faults_count()
    ensures faults { FaultsAreWrong }
    ensures errors { ErrorsAreWrong }
    ensures deaths { DeathsAreErrors }
    ensures aborts { AbortsEndRuns }
{}

/// States that the status is 1 exactly where a run of some pass weighs 2 and more, or a pass went astray, and else 7
/// exactly where a call can't be explored. It does nothing when it is called.
pub fn statuses_tell_of_runs()
    ensures { RunsGiveStatuses }
{}

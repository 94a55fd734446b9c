//! The laws of plans.

ghost use Rattle.collective_plans.specs.Ahead.{AheadGives, InPlaceGives};
ghost use Rattle.collective_plans.specs.PlanLaws.{AllgatherGives, AlltoallGives, ReduceScatterGives, RunsAreMeant};
ghost use Rattle.collective_plans.specs.PlanLaws.{ExchangesGoOn, NoOneWaitsForWhoWaits, ScanGives};
ghost use Rattle.collective_plans.specs.Chains.{ExscanGives, ScanInPlaceGives};
ghost use Rattle.collective_plans.specs.Stars.{GatherGives, ScatterGives};

/// States the laws of plans. It does nothing when it is called.
///
/// In whatever order members go on, each one that has ended has what its plan makes of what all say to it; so in an
/// alltoall block j of member i's result is what member j handed in for i (MPI 3.1, 5.8), and so for the others.
pub fn plans_do_what_they_say()
    ensures meant { RunsAreMeant }
    ensures waits { NoOneWaitsForWhoWaits }
    ensures exchanges { ExchangesGoOn }
    ensures alltoall { AlltoallGives }
    ensures allgather { AllgatherGives }
    ensures reduce_scatter { ReduceScatterGives }
    ensures scan { ScanGives }
    ensures scan_in_place { ScanInPlaceGives }
    ensures exscan { ExscanGives }
    ensures ahead { AheadGives }
    ensures in_place { InPlaceGives }
    ensures gather { GatherGives }
    ensures scatter { ScatterGives }
{}

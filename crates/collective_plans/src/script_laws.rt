//! The laws of plans that are parts of scripts.

ghost use Rattle.collective_plans.specs.Scripts.{ScriptsArePlayed};
ghost use Rattle.collective_plans.specs.Entering.{GoesWithoutData, NothingOfTheAbsent};
ghost use Rattle.collective_plans.specs.Trees.{BarrierWaits, TreeAllreduceGives, TreeBroadcastGives, TreeReduceGives};
ghost use Rattle.collective_plans.specs.Ordered.{OrderedAllreduceGives, OrderedReduceGives};

/// States the laws of plans that are their members' parts of one script. It does nothing when it is called.
///
/// In whatever order members go on, each one that has ended has what it has where the script is played from its
/// beginning to its end.
pub fn scripts_are_carried_out()
    ensures played { ScriptsArePlayed }
    ensures absent { NothingOfTheAbsent }
    ensures dataless { GoesWithoutData }
    ensures broadcast { TreeBroadcastGives }
    ensures reduce { TreeReduceGives }
    ensures allreduce { TreeAllreduceGives }
    ensures barrier { BarrierWaits }
    ensures ordered_reduce { OrderedReduceGives }
    ensures ordered_allreduce { OrderedAllreduceGives }
{}

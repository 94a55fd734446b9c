//! The laws of plans in rounds.

ghost use Rattle.collective_plans.specs.Rounds.{RoundAllgatherGives, RoundAlltoallGives};

/// States what an allgather and an alltoall in rounds give. It does nothing when it is called.
pub fn rounds_hand_all_blocks_on()
    ensures allgather { RoundAllgatherGives }
    ensures alltoall { RoundAlltoallGives }
{}

//! Which plan a collective is carried out by.

ghost use Rattle.std.specs.Prelude.{◌≡◌};
ghost use Rattle.plan_rows.specs.Kinds.{allgather_form, alltoall_form, form_of};

use crate::kind::PlanKind;

/// A plan of `collective_plans`.
#[derive(Clone, Copy, Debug, PartialEq, Eq)]
pub enum PlanForm {
    /// Each hands a block to each.
    AlltoallExchange,
    /// Blocks go on by powers of two of ranks, many in a message.
    AlltoallRounds,
    /// Each hands its block to each.
    AllgatherExchange,
    /// What each has doubles in each round.
    AllgatherRounds,
    /// Each hands a block to each, and folds what comes.
    ReduceScatterExchange,
    /// A fold goes from each member to the next.
    ScanChain,
    /// A fold goes from each member to the next.
    ExscanChain,
    /// Each hands its block to the root.
    GatherStar,
    /// The root hands a block to each.
    ScatterStar,
    /// The root's block goes on by halves of the ranks.
    BroadcastTree,
    /// Folds of halves of the ranks are joined.
    ReduceTree,
    /// The root folds one block after the other.
    ReduceInOrder,
    /// Folds of halves of the ranks are joined, and the result goes on by halves.
    AllreduceTree,
    /// Member 0 folds one block after the other, and the result goes on by halves.
    AllreduceInOrder,
    /// An allreduce of nothing.
    BarrierTree,
}

/// The fewest members among whom blocks go in rounds: what fewer exchange differs in few messages, and each one that
/// is too long is told of its sender.
const FEWEST_OF_ROUNDS: u32 = 8;

/// The longest blocks of an alltoall that go in rounds, in bytes: each goes by way of others, log n / 2 times.
const LONGEST_PASSED_ON: u64 = 256;

/// The longest blocks of an allgather that go in rounds, in bytes.
const LONGEST_GATHERED: u64 = 4_096;

/// What all members of a collective know alike.
#[derive(Clone, Copy, Debug, PartialEq, Eq)]
pub struct Known {
    /// How many members there are.
    pub size: u32,
    /// How many bytes each block has, where all have as many; else more than any block has.
    pub bytes: u64,
    /// Whether the operation of a reduction is associative on the elements.
    pub regroups: bool,
}

/// How blocks of an alltoall go.
fn alltoall_form(known: Known) -> PlanForm
    ensures { result ≡ alltoall_form known.size known.bytes }
{
    if known.size >= FEWEST_OF_ROUNDS && known.bytes <= LONGEST_PASSED_ON {
        PlanForm::AlltoallRounds
    } else {
        PlanForm::AlltoallExchange
    }
}

/// How blocks of an allgather go.
fn allgather_form(known: Known) -> PlanForm
    ensures { result ≡ allgather_form known.size known.bytes }
{
    if known.size >= FEWEST_OF_ROUNDS && known.bytes <= LONGEST_GATHERED {
        PlanForm::AllgatherRounds
    } else {
        PlanForm::AllgatherExchange
    }
}

/// The plan of a collective, by what all members know alike: so all take the same one. Where the operation of a
/// reduction isn't associative, folds go in the order of ranks alone, so that a result has the same bits by each way.
pub fn which_plan(kind: PlanKind, known: Known) -> PlanForm
    ensures { result ≡ form_of kind known.size known.bytes known.regroups }
{
    match kind {
        PlanKind::Alltoall => alltoall_form(known),
        PlanKind::Allgather => allgather_form(known),
        PlanKind::ReduceScatter => PlanForm::ReduceScatterExchange,
        PlanKind::Scan => PlanForm::ScanChain,
        PlanKind::Exscan => PlanForm::ExscanChain,
        PlanKind::Gather => PlanForm::GatherStar,
        PlanKind::Scatter => PlanForm::ScatterStar,
        PlanKind::Broadcast => PlanForm::BroadcastTree,
        PlanKind::Reduce => {
            if known.regroups {
                PlanForm::ReduceTree
            } else {
                PlanForm::ReduceInOrder
            }
        }
        PlanKind::Allreduce => {
            if known.regroups {
                PlanForm::AllreduceTree
            } else {
                PlanForm::AllreduceInOrder
            }
        }
        PlanKind::Barrier => PlanForm::BarrierTree,
    }
}

//! Which collective a plan is of.

ghost use Rattle.std.specs.Prelude.{◌≡◌};
ghost use Rattle.plan_rows.specs.Kinds.{kind_at};

/// A collective that goes by a plan.
#[derive(Clone, Copy, Debug, PartialEq, Eq)]
pub enum PlanKind {
    /// MPI 3.1, 5.8.
    Alltoall,
    /// MPI 3.1, 5.7.
    Allgather,
    /// MPI 3.1, 5.10.
    ReduceScatter,
    /// MPI 3.1, 5.11.1.
    Scan,
    /// MPI 3.1, 5.11.2.
    Exscan,
    /// MPI 3.1, 5.5.
    Gather,
    /// MPI 3.1, 5.6.
    Scatter,
    /// MPI 3.1, 5.4.
    Broadcast,
    /// MPI 3.1, 5.9.1.
    Reduce,
    /// MPI 3.1, 5.9.6.
    Allreduce,
    /// MPI 3.1, 5.3.
    Barrier,
}

impl PlanKind {
    /// The collective that a number names, where it names one.
    pub fn from_number(number: u32) -> Option<PlanKind>
        ensures { result ≡ kind_at number }
    {
        match number {
            1 => Some(PlanKind::Alltoall),
            2 => Some(PlanKind::Allgather),
            3 => Some(PlanKind::ReduceScatter),
            4 => Some(PlanKind::Scan),
            5 => Some(PlanKind::Exscan),
            6 => Some(PlanKind::Gather),
            7 => Some(PlanKind::Scatter),
            8 => Some(PlanKind::Broadcast),
            9 => Some(PlanKind::Reduce),
            10 => Some(PlanKind::Allreduce),
            11 => Some(PlanKind::Barrier),
            _ => None,
        }
    }
}

//! The kinds of collectives and the phases of their messages, by their codes.

ghost use Rattle.std.specs.Prelude.{◌≡◌};
ghost use Rattle.payload.specs.Codes.{kind_code, kind_at, phase_code, phase_at};

/// Which collective a record is of.
#[derive(Clone, Copy)]
pub enum CollectiveKind {
    /// MPI_Barrier.
    Barrier,
    /// MPI_Bcast.
    Bcast,
    /// MPI_Gather.
    Gather,
    /// MPI_Scatter.
    Scatter,
    /// MPI_Reduce.
    Reduce,
    /// MPI_Allreduce.
    Allreduce,
    /// MPI_Comm_dup.
    Dup,
    /// MPI_Comm_split.
    Split,
}

impl CollectiveKind {
    /// The code that stands for this kind.
    pub fn code(self) -> u8
        ensures { result ≡ kind_code self }
    {
        match self {
            CollectiveKind::Barrier => 1,
            CollectiveKind::Bcast => 2,
            CollectiveKind::Gather => 3,
            CollectiveKind::Scatter => 4,
            CollectiveKind::Reduce => 5,
            CollectiveKind::Allreduce => 6,
            CollectiveKind::Dup => 7,
            CollectiveKind::Split => 8,
        }
    }

    /// The kind that has this code, where there is one.
    pub fn from_code(code: u8) -> Option<CollectiveKind>
        ensures { result ≡ kind_at code }
    {
        match code {
            1 => Some(CollectiveKind::Barrier),
            2 => Some(CollectiveKind::Bcast),
            3 => Some(CollectiveKind::Gather),
            4 => Some(CollectiveKind::Scatter),
            5 => Some(CollectiveKind::Reduce),
            6 => Some(CollectiveKind::Allreduce),
            7 => Some(CollectiveKind::Dup),
            8 => Some(CollectiveKind::Split),
            _ => None,
        }
    }
}

/// Which step of a collective a message is.
#[derive(Clone, Copy)]
pub enum Phase {
    /// Towards the root.
    TowardsRoot,
    /// From the root.
    FromRoot,
    /// Two records differ.
    RecordsDiffer,
}

impl Phase {
    /// The code that stands for this phase.
    pub fn code(self) -> u8
        ensures { result ≡ phase_code self }
    {
        match self {
            Phase::TowardsRoot => 0,
            Phase::FromRoot => 1,
            Phase::RecordsDiffer => 2,
        }
    }

    /// The phase that has this code, where there is one.
    pub fn from_code(code: u8) -> Option<Phase>
        ensures { result ≡ phase_at code }
    {
        match code {
            0 => Some(Phase::TowardsRoot),
            1 => Some(Phase::FromRoot),
            2 => Some(Phase::RecordsDiffer),
            _ => None,
        }
    }
}

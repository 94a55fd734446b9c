//! Which call a number names.

ghost use Rattle.std.specs.Prelude.{◌≡◌};
ghost use Rattle.c_rank.specs.Kinds.{kind_at};

/// Which call is asked for.
#[derive(Clone, Copy, Debug, PartialEq, Eq)]
pub enum CallKind {
    /// A standard send (MPI 3.1, 3.7.2).
    Isend,
    /// A synchronous send (3.4).
    Issend,
    /// A receive (3.7.2).
    Irecv,
    /// A test of a request, which ends it (3.7.3).
    Test,
    /// A look at a request, which doesn't (3.7.6).
    Look,
    /// A cancel of a receive (3.8.4).
    Cancel,
    /// A probe (3.8.1).
    Iprobe,
    /// A matching probe (3.8.2).
    Improbe,
    /// The receive of a message that was taken out (3.8.3).
    Mrecv,
    /// The answer of the call that was blocked.
    Finish,
    /// A barrier (5.3).
    Barrier,
    /// A broadcast (5.4).
    Bcast,
    /// A gather (5.5).
    Gather,
    /// A scatter (5.6).
    Scatter,
    /// A reduction to a root (5.9.1).
    Reduce,
    /// A reduction to all (5.9.6).
    Allreduce,
    /// A copy of a communicator (6.4.2).
    Dup,
    /// A split of a communicator (6.4.2).
    Split,
    /// The own rank in a communicator (6.4.1).
    Rank,
    /// The size of a communicator (6.4.1).
    Size,
    /// The members of a communicator (6.4.1).
    Members,
    /// How two communicators compare (6.4.1).
    Compare,
}

impl CallKind {
    /// The call that a number names, where it names one.
    pub fn from_number(number: u32) -> Option<CallKind>
        ensures { result ≡ kind_at number }
    {
        match number {
            1 => Some(CallKind::Isend),
            2 => Some(CallKind::Issend),
            3 => Some(CallKind::Irecv),
            4 => Some(CallKind::Test),
            5 => Some(CallKind::Look),
            6 => Some(CallKind::Cancel),
            7 => Some(CallKind::Iprobe),
            8 => Some(CallKind::Improbe),
            9 => Some(CallKind::Mrecv),
            10 => Some(CallKind::Finish),
            11 => Some(CallKind::Barrier),
            12 => Some(CallKind::Bcast),
            13 => Some(CallKind::Gather),
            14 => Some(CallKind::Scatter),
            15 => Some(CallKind::Reduce),
            16 => Some(CallKind::Allreduce),
            17 => Some(CallKind::Dup),
            18 => Some(CallKind::Split),
            19 => Some(CallKind::Rank),
            20 => Some(CallKind::Size),
            21 => Some(CallKind::Members),
            22 => Some(CallKind::Compare),
            _ => None,
        }
    }
}

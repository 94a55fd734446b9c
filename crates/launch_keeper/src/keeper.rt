//! The keeper of a rank, which starts its program again.

ghost use Rattle.std.specs.Prelude.{◌≡◌};
ghost use Rattle.launch_keeper.specs.Keepers.{after_status};

/// What a keeper does after its program has ended.
#[derive(Clone, Copy, Debug, PartialEq, Eq)]
pub enum After {
    /// It ends, with this status.
    End(u8),
    /// It starts the program again, at this incarnation.
    Again(u16),
}

/// The keeper of a rank: how often it may start its program again.
///
/// ```text
///  runs ── ends with 0 ────────────────────────────────► End(0)
///       ── ends with s, fewer restarts used than allowed ► Again: runs at the next incarnation
///       ── ends with s, all of them used ────────────────► End(s)
/// ```
#[derive(Clone, Copy)]
pub struct Keeper {
    /// The restarts that are allowed.
    pub allowed: u16,
}

impl Keeper {
    /// A keeper that may start its program again so often.
    pub fn new(allowed: u16) -> Keeper
        ensures { result.allowed ≡ allowed }
    {
        Keeper { allowed }
    }

    /// What follows when the program ended with this status after so many restarts were used: it is
    /// started again, at the next incarnation, exactly where the status isn't 0 and fewer were used
    /// than are allowed. It takes no memory.
    ///
    /// MPI 3.1 has no restarts: they are this project's own.
    pub fn after(self, status: u8, used: u16) -> After
        ensures { result ≡ after_status self.allowed status used }
    {
        if status != 0 && used < self.allowed {
            After::Again(used + 1)
        } else {
            After::End(status)
        }
    }
}

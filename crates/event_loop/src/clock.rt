//! The clock of a rank.

/// A clock that counts milliseconds. It may stand still or go back: an engine drops a tick that is below an earlier
/// one.
pub trait Clock {
    ghost use Rattle.std.specs.Prelude.{ℕ};

    /// Between these states it told this time.
    ghost told: { Self → ℕ → Self → Type 0 };

    /// The time now, in milliseconds.
    fn now(&mut self) -> u64
        ensures { told self.old result self.new };
}

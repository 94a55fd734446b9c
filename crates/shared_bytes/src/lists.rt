//! Lists of runs.

ghost use Rattle.std.specs.Prelude.{◌≡◌, ◌↔◌, IfSome, IfNone, IsTrue, true, false};
ghost use Rattle.shared_bytes.specs.Memory.{AreWithinMemory, IsWithinMemory, MeetOne, Share};

use crate::runs::{ByteRun, meet};

/// Whether all runs end within 64 bits.
fn are_within_memory(runs: &[ByteRun]) -> bool
    ensures { IsTrue result ↔ AreWithinMemory runs.now }
{
    for run in runs {
        if !run.is_within_memory() {
            return false;
        }
    }
    true
}

/// Whether a run shares a byte with one of some.
fn meets_one(run: &ByteRun, others: &[ByteRun]) -> bool
    requires run { IsWithinMemory run.now }
    requires others { AreWithinMemory others.now }
    ensures yes { result ≡ true → MeetOne run.now others.now }
    ensures no { result ≡ false → MeetOne run.now others.now → ⊥ }
{
    for other in others {
        if meet(run, other) {
            return true;
        }
    }
    false
}

/// Whether one of some runs shares a byte with one of others; `None` where one of them doesn't end within 64 bits.
pub fn share_bytes(ones: &[ByteRun], others: &[ByteRun]) -> Option<bool>
    ensures told { IfSome result (λ shared. (shared ≡ true → Share ones.now others.now) ×
        (shared ≡ false → Share ones.now others.now → ⊥)) }
    ensures untold { IfNone result (AreWithinMemory ones.now → AreWithinMemory others.now → ⊥) }
{
    if !are_within_memory(ones) || !are_within_memory(others) {
        return None;
    }
    for one in ones {
        if meets_one(one, others) {
            return Some(true);
        }
    }
    Some(false)
}

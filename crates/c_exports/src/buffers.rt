//! Whether buffers share bytes, for C.

ghost use Rattle.std.specs.Prelude.{◌≡◌, ◌≤◌};
ghost use Rattle.shared_bytes.specs.Memory.{AreWithinMemory, Share};

use shared_bytes::{ByteRun, share_bytes};

/// The number of runs of which one doesn't end within 64 bits.
const TOO_LARGE: u32 = 96;

/// Whether one of some runs of bytes shares a byte with one of others: 1, it does; 0, none does; 96, one of them doesn't
/// end within 64 bits.
#[unsafe(no_mangle)]
pub extern "C" fn kombazily_share_bytes(ones: &[ByteRun], others: &[ByteRun]) -> u32
    ensures yes { result ≡ 1 → Share ones.now others.now }
    ensures no { result ≡ 0 → Share ones.now others.now → ⊥ }
    ensures untold { 2 ≤ result → (result ≡ 96) × (AreWithinMemory ones.now → AreWithinMemory others.now → ⊥) }
{
    match share_bytes(ones, others) {
        Some(true) => 1,
        Some(false) => 0,
        None => TOO_LARGE,
    }
}

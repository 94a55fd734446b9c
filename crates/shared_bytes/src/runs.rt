//! One run, and two.

ghost use Rattle.std.specs.Prelude.{◌≡◌, ℕ, ◌<◌, ◌↔◌, IsTrue, true, false};
ghost use Rattle.shared_bytes.specs.Memory.{IsIn, IsWithinMemory, Meet, piece_at};

use std::default::Default;

/// `count` rows of `length` bytes, the first one at the address `at`, each further one `stride` bytes behind the one
/// before it.
#[repr(C)]
#[derive(Clone, Copy, Default)]
pub struct ByteRun {
    /// The address of the first row.
    pub at: u64,
    /// The bytes of a row.
    pub length: u64,
    /// How many rows.
    pub count: u64,
    /// From one row to the next, in bytes.
    pub stride: u64,
}

impl ByteRun {
    /// Whether the last row ends within 64 bits.
    pub(crate) fn is_within_memory(&self) -> bool
        ensures { IsTrue result ↔ IsWithinMemory self.now }
    {
        let Some(behind) = self.count.saturating_sub(1).checked_mul(self.stride) else {
            return false;
        };
        let Some(last) = self.at.checked_add(behind) else {
            return false;
        };
        last.checked_add(self.length).is_some()
    }

    /// The address of a row.
    fn piece(&self, number: u64) -> u64
        requires within { IsWithinMemory self.now }
        requires there { number < self.now.count }
        ensures { result ≡ piece_at self.now number }
    {
        self.at + number * self.stride
    }

    /// Whether all rows end at this address or before it.
    fn is_before(&self, address: u64) -> bool
        requires { IsWithinMemory self.now }
        ensures { result ≡ true → (a : ℕ) → IsIn a self.now → a < address }
    {
        self.count == 0 || self.at + (self.count - 1) * self.stride + self.length <= address
    }
}

/// Whether two runs share a byte: the row that begins first is left behind until one begins within another.
pub(crate) fn meet(one: &ByteRun, other: &ByteRun) -> bool
    requires one { IsWithinMemory one.now }
    requires other { IsWithinMemory other.now }
    ensures yes { result ≡ true → Meet one.now other.now }
    ensures no { result ≡ false → Meet one.now other.now → ⊥ }
{
    if one.length == 0 || other.length == 0 {
        return false;
    }
    if one.is_before(other.at) || other.is_before(one.at) {
        return false;
    }
    let mut first = 0;
    let mut second = 0;
    while first < one.count && second < other.count {
        let low = one.piece(first);
        let high = other.piece(second);
        if low <= high {
            if high - low < one.length {
                return true;
            }
            first += 1;
        } else {
            if low - high < other.length {
                return true;
            }
            second += 1;
        }
    }
    false
}

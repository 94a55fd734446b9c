//! Whether two rings hold the same.

ghost use Rattle.std.specs.Prelude.{◌≡◌, IsTrue};

use alike::Alike;
use circular_buffer::HeapCircularBuffer;

/// Whether both hold equally many items, which stand alike one by one.
pub(crate) fn rings_are_alike<T: Alike>(
    one: &HeapCircularBuffer<T>,
    other: &HeapCircularBuffer<T>,
) -> bool
    ensures { IsTrue result → one.now.items ≡ other.now.items }
{
    if one.len() != other.len() {
        return false;
    }
    for place in 0..one.len() {
        let (Some(this), Some(that)) = (one.get(place), other.get(place)) else {
            return false;
        };
        if !this.stands_as(that) {
            return false;
        }
    }
    true
}

//! Whether two values stand alike: what a program can find out of two engines, part by part.

#![tactic(auto)]

ghost use Rattle.std.specs.Prelude.{◌≡◌, IsTrue};

mod plain;

use std::collections::VecDeque;

/// Values of which a program can find out that they are the same.
pub trait Alike {
    ghost use Rattle.std.specs.Prelude.{◌≡◌, IsTrue};

    /// Whether both stand alike: then contracts see the same value. `false` says nothing, since two values that mean
    /// the same may lie differently in memory.
    fn stands_as(&self, other: &Self) -> bool
        ensures { IsTrue result → self.now ≡ other.now };
}

impl<T: Alike> Alike for Option<T> {
    fn stands_as(&self, other: &Self) -> bool {
        match (self, other) {
            (Some(this), Some(that)) => this.stands_as(that),
            (None, None) => true,
            _ => false,
        }
    }
}

impl<A: Alike, B: Alike> Alike for (A, B) {
    fn stands_as(&self, other: &Self) -> bool {
        self.0.stands_as(&other.0) && self.1.stands_as(&other.1)
    }
}

/// Whether both lists have equally many items, which stand alike one by one.
pub fn are_alike<T: Alike>(these: &[T], those: &[T]) -> bool
    ensures { IsTrue result → these.now ≡ those.now }
{
    if these.len() != those.len() {
        return false;
    }
    for place in 0..these.len() {
        if !these[place].stands_as(&those[place]) {
            return false;
        }
    }
    true
}

/// The same of queues.
pub fn queues_are_alike<T: Alike>(one: &VecDeque<T>, other: &VecDeque<T>) -> bool
    ensures { IsTrue result → one.now.items ≡ other.now.items }
{
    if one.len() != other.len() {
        return false;
    }
    for place in 0..one.len() {
        if !one[place].stands_as(&other[place]) {
            return false;
        }
    }
    true
}

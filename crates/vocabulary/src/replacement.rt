//! A value in the place of another one.

ghost use Rattle.std.specs.Prelude.{◌≡◌};

/// What stood here is replaced by this, and dropped. Where its type is open, its drop is one step of a proof, and not
/// one for each variant. It takes no memory.
pub fn replace<T: Drop>(place: &mut T, next: T)
    ensures { place.new ≡ next }
{
    *place = next;
}

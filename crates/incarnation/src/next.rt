//! The incarnation at which a rank is started anew.

ghost use Rattle.std.specs.Prelude.{◌≡◌};
ghost use Rattle.incarnation.specs.Restarts.{incarnation_after};

use crate::refusal::IncarnationRefusal;

/// The incarnation after this one. It is refused with `Limit` exactly at 65,535, the last one: a
/// rank is started anew at most so often.
pub fn next_incarnation(incarnation: u16) -> Result<u16, IncarnationRefusal>
    ensures { result ≡ incarnation_after incarnation }
{
    match incarnation.checked_add(1) {
        Some(next) => Ok(next),
        None => Err(IncarnationRefusal::Limit),
    }
}

//! How long programs that are asked to end have to.

ghost use Rattle.std.specs.Prelude.{◌≡◌, nat_le};

/// How many milliseconds programs have to end by themselves once they are asked to.
pub const GRACE: u64 = 900;

/// Whether a program that was asked to end so many milliseconds ago has had its time to, and is killed.
pub fn is_grace_over(passed: u64) -> bool
    ensures { result ≡ nat_le 900 passed }
{
    GRACE <= passed
}

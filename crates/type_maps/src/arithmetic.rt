//! Sums and products that are refused where they are too large.

ghost use Rattle.std.specs.Prelude.{◌+ℤ◌, ◌-ℤ◌, ◌*ℤ◌, ◌+◌, ◌*◌, pos};
ghost use Rattle.type_maps.specs.Refusals.{GivesNumber, GivesCount};

use crate::refusal::Refusal;

/// The greatest count.
const GREATEST: u64 = 0x7fff_ffff_ffff_ffff;

/// The sum of two numbers of bytes.
///
/// Refused where it isn't within 64 bits.
pub fn sum(one: i64, other: i64) -> Result<i64, Refusal>
    ensures { GivesNumber (one +ℤ other) result }
{
    match one.checked_add(other) {
        Some(number) => Ok(number),
        None => Err(Refusal::TooLarge),
    }
}

/// The difference of two numbers of bytes.
pub(crate) fn difference(one: i64, other: i64) -> Result<i64, Refusal>
    ensures { GivesNumber (one -ℤ other) result }
{
    match one.checked_sub(other) {
        Some(number) => Ok(number),
        None => Err(Refusal::TooLarge),
    }
}

/// The product of two numbers of bytes.
///
/// Refused where it isn't within 64 bits.
pub fn product(one: i64, other: i64) -> Result<i64, Refusal>
    ensures { GivesNumber (one *ℤ other) result }
{
    match one.checked_mul(other) {
        Some(number) => Ok(number),
        None => Err(Refusal::TooLarge),
    }
}

/// The sum of two counts.
pub(crate) fn count_sum(one: u64, other: u64) -> Result<u64, Refusal>
    ensures { GivesCount (one + other) result }
{
    match one.checked_add(other) {
        Some(count) if count <= GREATEST => Ok(count),
        _ => Err(Refusal::TooLarge),
    }
}

/// The product of two counts.
pub(crate) fn count_product(one: u64, other: u64) -> Result<u64, Refusal>
    ensures { GivesCount (one * other) result }
{
    match one.checked_mul(other) {
        Some(count) if count <= GREATEST => Ok(count),
        _ => Err(Refusal::TooLarge),
    }
}

/// A count as a number of bytes.
///
/// Refused where it isn't below 2^63.
pub fn number_of(count: u64) -> Result<i64, Refusal>
    ensures { GivesNumber (pos count) result }
{
    if count <= GREATEST {
        Ok(count as i64)
    } else {
        Err(Refusal::TooLarge)
    }
}

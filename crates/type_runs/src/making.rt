//! The begin and the end of a type that is made.

ghost use Rattle.std.specs.Prelude.{◌≡◌, MatchResult, ◌*ℤ◌, ◌-ℤ◌, true};
ghost use Rattle.type_maps.specs.Constructors as constructors;
ghost use Rattle.type_maps.specs.Maps.{Map, no_elements};
ghost use Rattle.type_maps.specs.Refusals.{Fits};
ghost use Rattle.type_maps.specs.Summaries.{data_lower, data_upper, summary_of};
ghost use Rattle.type_runs.specs.Making.{EndFits, ResizeFits, Tell};
ghost use Rattle.type_runs.specs.Records.{meant};

use crate::records::TypeRecord;
use type_maps::{Refusal, Summary, product, sum};

/// The numbers of a type without elements.
pub fn begin() -> TypeRecord
    ensures { Tell no_elements result }
{
    TypeRecord::of(&Summary::none())
}

/// Marks both bounds in place of the markers that there are (4.1.7): the extent is so many units of so many bytes.
///
/// Refused where the extent or the upper bound isn't within 64 bits.
pub fn resize(
    numbers: &TypeRecord,
    lower: i64,
    count: i64,
    unit: i64,
) -> Result<TypeRecord, Refusal>
    ensures { (m : Map) → meant numbers.now ≡ summary_of m → MatchResult result
        (λ r. meant r ≡ summary_of (constructors.resized lower (count *ℤ unit) m))
        (λ _. ResizeFits lower count unit → ⊥) }
{
    let Ok(extent) = product(count, unit) else {
        return Err(Refusal::TooLarge);
    };
    let Ok(upper) = sum(lower, extent) else {
        return Err(Refusal::TooLarge);
    };
    let mut resized = *numbers;
    resized.lower_mark = lower;
    resized.upper_mark = upper;
    resized.has_lower = true;
    resized.has_upper = true;
    Ok(resized)
}

/// Whether the extent of the data alone isn't within 64 bits (4.1.8).
fn is_too_wide(summary: &Summary) -> bool
    ensures { result ≡ true → Fits (data_upper summary.now.span -ℤ data_lower summary.now.span) → ⊥ }
{
    match summary.span {
        Some(span) => span.upper.checked_sub(span.lower).is_none(),
        None => false,
    }
}

/// With the bounds told.
///
/// Refused where a bound, the extent or that of the data alone isn't within 64 bits.
pub fn end(numbers: &TypeRecord) -> Result<TypeRecord, Refusal>
    ensures { (m : Map) → meant numbers.now ≡ summary_of m → MatchResult result (Tell m) (λ _. EndFits m → ⊥) }
{
    let summary = numbers.summary();
    if is_too_wide(&summary) {
        return Err(Refusal::TooLarge);
    }
    let Ok(extent) = summary.extent() else {
        return Err(Refusal::TooLarge);
    };
    let mut ended = *numbers;
    ended.lower = summary.lower();
    ended.extent = extent;
    Ok(ended)
}

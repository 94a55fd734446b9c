//! Where copies begin.

ghost use Rattle.std.specs.Prelude.{◌≡◌, ◌-◌, ◌<◌, IfSome, ◌+ℤ◌};
ghost use Rattle.type_maps.specs.Refusals.{GivesIf, PlacesFit};
ghost use Rattle.type_maps.specs.Summaries.{hull};
ghost use Rattle.type_maps.specs.Maps.{copied_numbers, places_of};

use crate::arithmetic::{number_of, product, sum};
use crate::refusal::Refusal;

/// Places of copies: `count` of them, the first at `at`, each further one `stride` behind the one before it.
#[derive(Clone, Copy)]
pub struct Places {
    /// The first place, in bytes.
    pub at: i64,
    /// How many places.
    pub count: u64,
    /// From one place to the next, in bytes.
    pub stride: i64,
}

/// From a lowest byte to a byte behind the highest one.
#[derive(Clone, Copy)]
pub struct Span {
    /// The lowest byte.
    pub lower: i64,
    /// The byte behind the highest one.
    pub upper: i64,
}

impl Places {
    /// The lowest and the highest of the places.
    pub(crate) fn hull(&self) -> Result<Span, Refusal>
        requires { 0 < self.now.count }
        ensures { GivesIf (PlacesFit self.now) (hull self.now.at (self.now.count - 1) self.now.stride) result }
    {
        let further = number_of(self.count - 1)?;
        let way = product(further, self.stride)?;
        let last = sum(self.at, way)?;
        Ok(Span {
            lower: self.at.min(last),
            upper: self.at.max(last),
        })
    }

    /// The places that these have at each place of others; `None` where they aren't regular, or aren't within 64 bits.
    pub fn at_each(&self, others: &Places) -> Option<Places>
        ensures { IfSome result
            (λ r. copied_numbers (places_of others.now) (places_of self.now) ≡ places_of r) }
    {
        let at = others.at.checked_add(self.at)?;
        if self.count == 1 {
            return Some(Places { at, ..*others });
        }
        if others.count == 1 {
            return Some(Places { at, ..*self });
        }
        self.row_of_rows(at, others)
    }

    /// The places that these have at each place of others, where these touch, so that they are one row of places.
    fn row_of_rows(&self, at: i64, others: &Places) -> Option<Places>
        requires { at ≡ others.now.at +ℤ self.now.at }
        ensures { IfSome result
            (λ r. copied_numbers (places_of others.now) (places_of self.now) ≡ places_of r) }
    {
        let Ok(row) = number_of(self.count) else {
            return None;
        };
        let count = others.count.checked_mul(self.count)?;
        if row.checked_mul(self.stride)? == others.stride {
            Some(Places {
                at,
                count,
                stride: self.stride,
            })
        } else {
            None
        }
    }
}

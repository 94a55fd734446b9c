//! Types.

ghost use Rattle.std.specs.Prelude.{◌≡◌, ◌||◌, IfOk, MatchResult, pos, true, unsigned_abs};
ghost use Rattle.std.specs.Int.{is_negative};
ghost use Rattle.type_maps.specs.Constructors as constructors;
ghost use Rattle.type_maps.specs.Entries.{IsWhole};
ghost use Rattle.type_maps.specs.Maps.{Map, copied, map_of_basic, places_of};
ghost use Rattle.type_maps.specs.Refusals.{BoundsFit, Fits};
ghost use Rattle.type_maps.specs.Summaries as terms;
ghost use Rattle.type_maps.specs.Types.{CopiedFits, IsBuilt, IsTypeOf, Makes, MakesIf, ResizedFits, RowsFit};
ghost use Rattle.type_maps.specs.Types.{VectorFits};
ghost use Rattle.type_maps.specs.Types.{in_a_row, rows_apart};

use crate::arithmetic::{product, sum};
use crate::basic::Basic;
use crate::building::Building;
use crate::entry::{Body, Entry};
use crate::places::Places;
use crate::refusal::Refusal;
use crate::summary::Summary;
use std::alloc::{AllocError, Global};

/// A type.
#[derive(Drop)]
pub struct Datatype {
    pub(crate) summary: Summary,
    pub(crate) entries: Vec<Entry>,
    pub(crate) items: u64,
    pub(crate) lower: i64,
    pub(crate) extent: i64,
}

/// The count, if it isn't negative.
fn count_of(count: i64) -> Result<u64, Refusal>
    ensures { MatchResult result (λ n. count ≡ pos n)
        (λ e. (e ≡ Refusal.NegativeCount) × (is_negative count ≡ true)) }
{
    if count < 0 {
        Err(Refusal::NegativeCount)
    } else {
        Ok(count as u64)
    }
}

/// The places of so many rows, each so many bytes behind the one before it.
fn rows_apart(count: u64, stride: i64) -> Places
    ensures { result ≡ rows_apart count stride }
{
    Places {
        at: 0,
        count,
        stride,
    }
}

impl Datatype {
    /// All of it, as what is copied.
    pub(crate) fn body(&self) -> Body
        ensures { (m : Map) → IsTypeOf m self.now → IsWhole result self.now.entries.items m.elements }
    {
        Body {
            items: self.items,
            length: self.summary.size,
            elements: self.summary.elements,
        }
    }

    /// The type of one element of a basic type, at 0.
    ///
    /// Refused for want of memory.
    pub fn of_basic(alloc: Global, basic: Basic) -> Result<Datatype, Refusal>
        ensures { MakesIf (BoundsFit (terms.summary_of (map_of_basic basic))) (map_of_basic basic) result }
    {
        let mut made = Building::new(alloc);
        match made.start(basic) {
            Ok(()) => made.finish(),
            Err(_) => Err(Refusal::OutOfMemory),
        }
    }

    /// The places of so many copies, one behind the other.
    pub(crate) fn in_a_row(&self, at: i64, count: u64) -> Places
        ensures { (m : Map) → IsTypeOf m self.now → result ≡ in_a_row at count m }
    {
        Places {
            at,
            count,
            stride: self.extent,
        }
    }

    /// A copy of the type at each place.
    ///
    /// Refused where a place, the size, a bound or the extent isn't within 64 bits, and for want of memory.
    pub fn copies(&self, alloc: Global, at: &Places) -> Result<Datatype, Refusal>
        ensures { (m : Map) → IsTypeOf m self.now → MakesIf (CopiedFits at.now m) (copied (places_of at.now) m) result }
    {
        let mut made = Building::new(alloc);
        match made.add(self, at) {
            Ok(()) => made.finish(),
            Err(refusal) => Err(refusal),
        }
    }

    /// So many copies, one behind the other (4.1.2).
    ///
    /// Refused where the count is negative, a place, the size, a bound or the extent isn't within 64 bits, and for want
    /// of memory.
    pub fn contiguous(&self, alloc: Global, count: i64) -> Result<Datatype, Refusal>
        ensures { (m : Map) → IsTypeOf m self.now →
            Makes (is_negative count) (CopiedFits (in_a_row (pos 0) (unsigned_abs count) m) m)
            (constructors.contiguous (unsigned_abs count) m) result }
    {
        match count_of(count) {
            Ok(count) => self.copies(alloc, &self.in_a_row(0, count)),
            Err(refusal) => Err(refusal),
        }
    }

    /// Rows of so many copies, each so many bytes behind the one before it.
    fn rows(
        &self,
        alloc: Global,
        count: u64,
        blocklength: u64,
        stride: i64,
    ) -> Result<Datatype, Refusal>
        ensures { (m : Map) → IsTypeOf m self.now →
            MakesIf (RowsFit count blocklength stride m) (constructors.hvector count blocklength stride m) result }
    {
        match self.copies(alloc, &self.in_a_row(0, blocklength)) {
            Ok(row) => row.copies(alloc, &rows_apart(count, stride)),
            Err(refusal) => Err(refusal),
        }
    }

    /// So many blocks of copies, each so many bytes behind the one before it (4.1.2).
    ///
    /// Refused where the count or the length of a block is negative, a place, the size, a bound or the extent of the
    /// type or of a block isn't within 64 bits, and for want of memory.
    pub fn hvector(
        &self,
        alloc: Global,
        count: i64,
        blocklength: i64,
        stride: i64,
    ) -> Result<Datatype, Refusal>
        ensures { (m : Map) → IsTypeOf m self.now →
            Makes (is_negative count || is_negative blocklength)
            (RowsFit (unsigned_abs count) (unsigned_abs blocklength) stride m)
            (constructors.hvector (unsigned_abs count) (unsigned_abs blocklength) stride m) result }
    {
        let Ok(blocks) = count_of(count) else {
            return Err(Refusal::NegativeCount);
        };
        let Ok(length) = count_of(blocklength) else {
            return Err(Refusal::NegativeCount);
        };
        self.rows(alloc, blocks, length, stride)
    }

    /// So many blocks of copies, each so many extents behind the one before it (4.1.2).
    ///
    /// Refused as `hvector` is, and where the stride isn't within 64 bits in bytes.
    pub fn vector(
        &self,
        alloc: Global,
        count: i64,
        blocklength: i64,
        stride: i64,
    ) -> Result<Datatype, Refusal>
        ensures { (m : Map) → IsTypeOf m self.now →
            Makes (is_negative count || is_negative blocklength)
            (VectorFits (unsigned_abs count) (unsigned_abs blocklength) stride m)
            (constructors.vector (unsigned_abs count) (unsigned_abs blocklength) stride m) result }
    {
        let Ok(blocks) = count_of(count) else {
            return Err(Refusal::NegativeCount);
        };
        let Ok(length) = count_of(blocklength) else {
            return Err(Refusal::NegativeCount);
        };
        let Ok(bytes) = product(stride, self.extent) else {
            return Err(Refusal::TooLarge);
        };
        self.rows(alloc, blocks, length, bytes)
    }

    /// The same again, to be built on.
    fn again(&self, alloc: Global) -> Result<Building, AllocError>
        ensures { (m : Map) → IsTypeOf m self.now → IfOk result (IsBuilt m) }
    {
        let entries = Vec::from_slice(alloc, self.entries.as_slice())?;
        Ok(Building {
            summary: self.summary,
            entries,
            items: self.items,
        })
    }

    /// The same data, with both bounds marked anew (4.1.7).
    ///
    /// Refused where the upper bound isn't within 64 bits, and for want of memory.
    pub fn resized(&self, alloc: Global, lower: i64, extent: i64) -> Result<Datatype, Refusal>
        ensures { (m : Map) → IsTypeOf m self.now →
            MakesIf (ResizedFits lower extent m) (constructors.resized lower extent m) result }
    {
        let Ok(upper) = sum(lower, extent) else {
            return Err(Refusal::TooLarge);
        };
        match self.again(alloc) {
            Ok(mut made) => {
                made.mark(lower, upper);
                made.finish()
            }
            Err(_) => Err(Refusal::OutOfMemory),
        }
    }

    /// The same type once more (4.1.10).
    ///
    /// Refused for want of memory alone.
    pub fn dup(&self, alloc: Global) -> Result<Datatype, AllocError>
        ensures { (m : Map) → IsTypeOf m self.now → IfOk result (IsTypeOf (constructors.dup m)) }
    {
        let Building {
            summary,
            entries,
            items,
        } = self.again(alloc)?;
        Ok(Datatype {
            summary,
            entries,
            items,
            lower: self.lower,
            extent: self.extent,
        })
    }
}

//! Parts of arrays (MPI 3.1, 4.1.3).

ghost use Rattle.std.specs.Prelude.{◌*ℤ◌, pos};
ghost use Rattle.type_maps.specs.Constructors as constructors;
ghost use Rattle.type_maps.specs.Maps.{Map};
ghost use Rattle.type_maps.specs.Refusals.{Fits, GivesIf};
ghost use Rattle.type_maps.specs.Summaries as terms;
ghost use Rattle.type_maps.specs.Types.{IsTypeOf, MakesIf, PartFits, PartsFit};

use crate::arithmetic::{number_of, product};
use crate::blocks::Dimension;
use crate::building::Building;
use crate::datatype::Datatype;
use crate::refusal::Refusal;
use std::alloc::Global;

impl Datatype {
    /// So many extents, in bytes.
    fn extents(&self, count: u64) -> Result<i64, Refusal>
        ensures { (m : Map) → IsTypeOf m self.now →
            GivesIf (Fits (pos count) × Fits (pos count *ℤ terms.extent m)) (pos count *ℤ terms.extent m) result }
    {
        let Ok(number) = number_of(count) else {
            return Err(Refusal::TooLarge);
        };
        product(number, self.extent)
    }

    /// Of a row of copies some that are next to each other; the extent is that of the whole row.
    fn part_of_row(&self, alloc: Global, part: &Dimension) -> Result<Datatype, Refusal>
        ensures { (m : Map) → IsTypeOf m self.now →
            MakesIf (PartFits part.now m) (constructors.part_of_row part.now m) result }
    {
        let Ok(first) = self.extents(part.start) else {
            return Err(Refusal::TooLarge);
        };
        let Ok(whole) = self.extents(part.size) else {
            return Err(Refusal::TooLarge);
        };
        let mut made = Building::new(alloc);
        match made.add(self, &self.in_a_row(first, part.subsize)) {
            Ok(()) => {
                made.mark(0, whole);
                made.finish()
            }
            Err(refusal) => Err(refusal),
        }
    }

    /// A part of an array of copies (4.1.3): the dimensions begin with the one whose indices are next to each other in
    /// memory, which is the first in Fortran's order and the last in C's.
    ///
    /// Refused where a place, the size, a bound or the extent of the type, or of a part of it with fewer dimensions,
    /// isn't within 64 bits, and for want of memory.
    pub fn subarray(&self, alloc: Global, dimensions: &[Dimension]) -> Result<Datatype, Refusal>
        ensures { (m : Map) → IsTypeOf m self.now →
            MakesIf (PartsFit dimensions.now m) (constructors.part_of_rows dimensions.now m) result }
    {
        match dimensions {
            [] => match self.dup(alloc) {
                Ok(same) => Ok(same),
                Err(_) => Err(Refusal::OutOfMemory),
            },
            [first, rest @ ..] => match self.part_of_row(alloc, first) {
                Ok(part) => part.subarray(alloc, rest),
                Err(refusal) => Err(refusal),
            },
        }
    }
}

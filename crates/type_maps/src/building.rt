//! A type while it is made.

ghost use Rattle.std.specs.Prelude.{[], ◌∷◌, ◌++◌, List, IfOk, OnOk};
ghost use Rattle.type_maps.specs.Entries.{Spells};
ghost use Rattle.type_maps.specs.Maps.{Element, Map, copied, copied_elements, joined, map_of_basic, no_elements};
ghost use Rattle.type_maps.specs.Maps.{places_of};
ghost use Rattle.type_maps.specs.Refusals.{BoundsFit};
ghost use Rattle.type_maps.specs.Summaries.{summary_of};
ghost use Rattle.type_maps.specs.Types.{AddFits, BuildsIf, IsBuilt, IsTypeOf, MakesIf};

use crate::basic::Basic;
use crate::datatype::Datatype;
use crate::entry::{Entry, append_copies};
use crate::places::Places;
use crate::refusal::Refusal;
use crate::summary::Summary;
use std::alloc::{AllocError, Global};

/// A type while it is made: copies of other types are added to it, in order.
#[derive(Drop)]
pub struct Building {
    pub(crate) summary: Summary,
    pub(crate) entries: Vec<Entry>,
    pub(crate) items: u64,
}

/// Appends copies of a type's items, and answers how many items there are then.
fn append_type(
    entries: &mut Vec<Entry>,
    items: u64,
    item: &Datatype,
    at: &Places,
) -> Result<u64, AllocError>
    ensures { (done : List Element) (m : Map) → Spells entries.old.items items done → IsTypeOf m item.now →
        IfOk result
        (λ more. Spells entries.new.items more (done ++ copied_elements (places_of at.now) m.elements)) }
{
    let old = item.entries.as_slice();
    if old.is_empty() {
        return Ok(items);
    }
    let Some(more) = items.checked_add(1) else {
        return Err(AllocError);
    };
    match append_copies(entries, old, item.body(), at) {
        Ok(()) => Ok(more),
        Err(refused) => Err(refused),
    }
}

impl Building {
    /// The type without an element.
    pub(crate) fn new(alloc: Global) -> Building
        ensures { IsBuilt no_elements result }
    {
        Building {
            summary: Summary::none(),
            entries: Vec::new(alloc),
            items: 0,
        }
    }

    /// Begins with one element of a basic type.
    pub(crate) fn start(&mut self, basic: Basic) -> Result<(), AllocError>
        ensures { IsBuilt no_elements self.old → OnOk result (IsBuilt (map_of_basic basic) self.new) }
    {
        let at = Places {
            at: 0,
            count: 1,
            stride: 0,
        };
        self.entries.clear();
        self.entries.push(Entry::Elements(basic, at))?;
        self.summary = Summary::of_basic(basic);
        self.items = 1;
        Ok(())
    }

    /// Adds copies of a type behind what there is.
    ///
    /// Refused where a place, the size or a bound isn't within 64 bits, and for want of memory. It is then of no use.
    pub(crate) fn add(&mut self, item: &Datatype, at: &Places) -> Result<(), Refusal>
        ensures { (m n : Map) → IsBuilt m self.old → IsTypeOf n item.now →
            BuildsIf (AddFits m n at.now) (joined m (copied (places_of at.now) n)) self.new result }
    {
        if at.count == 0 {
            return Ok(());
        }
        let Ok(copies) = item.summary.copied(at) else {
            return Err(Refusal::TooLarge);
        };
        let Ok(summary) = self.summary.joined(&copies) else {
            return Err(Refusal::TooLarge);
        };
        match append_type(&mut self.entries, self.items, item, at) {
            Ok(items) => {
                self.items = items;
                self.summary = summary;
                Ok(())
            }
            Err(_) => Err(Refusal::OutOfMemory),
        }
    }

    /// Marks both bounds, in place of the markers that there are (4.1.7).
    pub(crate) fn mark(&mut self, lower: i64, upper: i64)
        ensures { (m : Map) → IsBuilt m self.old →
            IsBuilt (record m { lower_marks = lower ∷ []; upper_marks = upper ∷ [] }) self.new }
    {
        self.summary.lower_mark = Some(lower);
        self.summary.upper_mark = Some(upper);
    }

    /// The type.
    ///
    /// Refused where a bound or the extent isn't within 64 bits.
    pub(crate) fn finish(self) -> Result<Datatype, Refusal>
        ensures { (m : Map) → IsBuilt m self → MakesIf (BoundsFit (summary_of m)) m result }
    {
        let Building {
            summary,
            entries,
            items,
        } = self;
        let lower = summary.lower();
        match summary.extent() {
            Ok(extent) => Ok(Datatype {
                summary,
                entries,
                items,
                lower,
                extent,
            }),
            Err(refusal) => Err(refusal),
        }
    }
}

//! What is asked of types (MPI 3.1, 4.1.5 to 4.1.8 and 4.1.11).

ghost use Rattle.std.specs.Prelude.{◌≡◌, length};
ghost use Rattle.type_maps.specs.Entries.{IsCommittedTo, spelled};
ghost use Rattle.type_maps.specs.Maps.{Map};
ghost use Rattle.type_maps.specs.Packing.{whole_items};
ghost use Rattle.type_maps.specs.Summaries as terms;
ghost use Rattle.type_maps.specs.Types.{IsTypeOf};

use crate::datatype::Datatype;
use crate::entry::Entry;
use crate::places::Span;
use crate::summary::Content;

/// How many whole items of so many bytes a number of bytes is (4.1.11): of items without data, none if it is 0.
fn whole_items(bytes: u64, size: u64) -> Option<u64>
    ensures { result ≡ whole_items bytes size }
{
    if size == 0 {
        if bytes == 0 { Some(0) } else { None }
    } else if bytes % size == 0 {
        Some(bytes / size)
    } else {
        None
    }
}

impl Datatype {
    /// The bytes of data (4.1.5).
    pub fn size(&self) -> u64
        ensures { (m : Map) → IsTypeOf m self.now → result ≡ terms.size m }
    {
        self.summary.size
    }

    /// How many elements of basic types there are (4.1.11).
    pub fn elements(&self) -> u64
        ensures { (m : Map) → IsTypeOf m self.now → result ≡ length m.elements }
    {
        self.summary.elements
    }

    /// The lower bound, in bytes (4.1.7).
    pub fn lower(&self) -> i64
        ensures { (m : Map) → IsTypeOf m self.now → result ≡ terms.lower m }
    {
        self.lower
    }

    /// From one item to the next, in bytes (4.1.7).
    pub fn extent(&self) -> i64
        ensures { (m : Map) → IsTypeOf m self.now → result ≡ terms.extent m }
    {
        self.extent
    }

    /// From the lowest byte of data to behind the highest one (4.1.8), where there are data.
    pub fn true_bounds(&self) -> Option<Span>
        ensures { (m : Map) → IsTypeOf m self.now → result ≡ terms.span_of m.elements }
    {
        self.summary.span
    }

    /// The basic types of which the elements are.
    pub fn content(&self) -> Content
        ensures { (m : Map) → IsTypeOf m self.now → result ≡ terms.content_of m.elements }
    {
        self.summary.content
    }

    /// How many items begin the entries, each with the items of its body.
    pub fn items(&self) -> u64
        ensures { (m : Map) → IsTypeOf m self.now → result ≡ length (spelled self.now.entries.items) }
    {
        self.items
    }

    /// What is copied when the data are packed, in order (4.1.9).
    pub fn entries(&self) -> &[Entry]
        ensures entries { result.now ≡ self.now.entries.items }
        ensures committed { (m : Map) → IsTypeOf m self.now → IsCommittedTo m result.now }
    {
        self.entries.as_slice()
    }

    /// How many whole items so many bytes of data are (4.1.11).
    pub fn items_in(&self, bytes: u64) -> Option<u64>
        ensures { (m : Map) → IsTypeOf m self.now → result ≡ whole_items bytes (terms.size m) }
    {
        whole_items(bytes, self.summary.size)
    }
}

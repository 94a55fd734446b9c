//! The entries of a committed type.

ghost use Rattle.std.specs.Prelude.{◌≡◌, ◌∷◌, ◌++◌, List, IfOk, IfSome, ℕ, ◌+◌};
ghost use Rattle.type_maps.specs.Entries.{IsWhole, Spells, places_in, with_places};
ghost use Rattle.type_maps.specs.Maps.{Element, copied_elements, places_of};

use crate::basic::Basic;
use crate::places::Places;
use std::alloc::AllocError;

/// What is copied: the next items.
#[derive(Clone, Copy)]
pub struct Body {
    /// How many of the next items.
    pub items: u64,
    /// Their bytes of data.
    pub length: u64,
    /// Their elements of basic types.
    pub elements: u64,
}

/// An entry: an item is an entry with the items of its body.
#[derive(Clone, Copy)]
pub enum Entry {
    /// An element of a basic type at each place.
    Elements(Basic, Places),
    /// A copy of the body at each place.
    Copies(Body, Places),
}

impl Entry {
    /// Its places.
    fn places(&self) -> Places
        ensures { result ≡ places_in self.now }
    {
        match self {
            Entry::Elements(_, places) => *places,
            Entry::Copies(_, places) => *places,
        }
    }

    /// The same at other places.
    fn with_places(&self, places: Places) -> Entry
        ensures { result ≡ with_places places self.now }
    {
        match self {
            Entry::Elements(basic, _) => Entry::Elements(*basic, places),
            Entry::Copies(body, _) => Entry::Copies(*body, places),
        }
    }
}

/// The first of the entries that stand for copies of these, which are one item, and the entries behind it, which stay;
/// `None` where its places at all the places of the copies are no places.
fn first_of_copies<'a>(old: &'a [Entry], items: u64, at: &Places) -> Option<(Entry, &'a [Entry])>
    ensures { IfSome result
        (λ r. (es : List Element) → Spells old.now items es →
        Spells (r.0 ∷ r.1.now) 1 (copied_elements (places_of at.now) es)) }
{
    if items != 1 {
        return None;
    }
    let (first, rest) = old.split_first()?;
    let places = first.places().at_each(at)?;
    Some((first.with_places(places), rest))
}

/// Appends an entry and those behind it.
fn append_item(entries: &mut Vec<Entry>, first: Entry, rest: &[Entry]) -> Result<(), AllocError>
    ensures { IfOk result (λ _. entries.new.items ≡ entries.old.items ++ (first ∷ rest.now)) }
{
    entries.push(first)?;
    entries.extend_from_slice(rest)
}

/// Appends copies of the items of entries, and answers how many items they are.
pub(crate) fn append_copies(
    entries: &mut Vec<Entry>,
    old: &[Entry],
    body: Body,
    at: &Places,
) -> Result<(), AllocError>
    ensures { (done : List Element) (items : ℕ) (es : List Element) →
        Spells entries.old.items items done → IsWhole body old.now es →
        IfOk result (λ _. Spells entries.new.items (items + 1) (done ++ copied_elements (places_of at.now) es)) }
{
    match first_of_copies(old, body.items, at) {
        Some((first, rest)) => append_item(entries, first, rest),
        None => append_item(entries, Entry::Copies(body, *at), old),
    }
}

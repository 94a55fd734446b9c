//! Tables from names to what they stand for.

ghost use Rattle.std.specs.Prelude.{◌≡◌, [], None, IfSome, IfNone, IsTrue, OnOk, OnErr};
ghost use Rattle.std.specs.Option.{option_copied};
ghost use Rattle.script_calls.specs.Tables.{entries_of, value_at, with_value};

use alike::Alike;
use indexmap::IndexMap;
use std::alloc::{AllocError, Global};
use std::marker::Model;
use std::mem;
use tokens::Name;

/// What names stand for. Contracts see it as the list of the names that are set, each with its value, in the order in
/// which they were first set.
#[derive(Drop)]
pub struct Table<V> {
    alloc: Global,
    values: IndexMap<Vec<u8>, V>,
}

impl<V> Model for Table<V> {
    ghost use Rattle.std.specs.Prelude.{List};
    ghost use Rattle.script_calls.specs.Tables.{Entry, entries_of};

    ghost Value = { List (Entry V) };

    ghost view = { λ t. entries_of t.values.entries };
}

/// Adds a copy of these bytes as a name that stands for this value, or writes over the value if the name is there.
fn insert_new<V: Drop>(
    alloc: Global,
    values: &mut IndexMap<Vec<u8>, V>,
    name: &[u8],
    value: V,
) -> Result<(), AllocError>
    ensures set { OnOk result (entries_of values.new.entries ≡ with_value (entries_of values.old.entries) name.now value) }
    ensures unchanged { OnErr result (values.new.entries ≡ values.old.entries) }
{
    let bytes = Vec::from_slice(alloc, name)?;
    match values.insert(bytes, value) {
        Ok(_) => Ok(()),
        Err(_) => Err(AllocError),
    }
}

impl<V> Table<V> {
    /// A table in which no name is set. It takes no memory.
    pub fn new(alloc: Global) -> Table<V>
        ensures { result ≡ [] }
    {
        Table {
            alloc,
            values: IndexMap::new(alloc),
        }
    }

    /// What the name stands for, if it is set.
    pub fn get(&self, name: &Name) -> Option<&V>
        ensures { option_copied result ≡ value_at self.now name.now }
    {
        self.values.get(name.as_bytes())
    }
}

impl<V: Drop> Table<V> {
    /// Lets the name stand for this value. The only error is want of memory, for a name that isn't set yet; the table
    /// is then as it was.
    pub fn set(&mut self, name: &Name, value: V) -> Result<(), AllocError>
        ensures set { OnOk result (self.new ≡ with_value self.old name.now value) }
        ensures unchanged { OnErr result (self.new ≡ self.old) }
        ensures new { OnErr result (value_at self.old name.now ≡ None) }
    {
        if let Some(there) = self.values.get_mut(name.as_bytes()) {
            *there = value;
            return Ok(());
        }
        insert_new(self.alloc, &mut self.values, name.as_bytes(), value)
    }

    /// Lets the name stand for this value in place of what it stood for, which is the answer. A name that isn't set
    /// stays so.
    pub fn replace(&mut self, name: &Name, value: V) -> Option<V>
        ensures before { result ≡ value_at self.old name.now }
        ensures after { IfSome result (λ _. self.new ≡ with_value self.old name.now value) }
        ensures unchanged { IfNone result (self.new ≡ self.old) }
    {
        let there = self.values.get_mut(name.as_bytes())?;
        Some(mem::replace(there, value))
    }
}

/// Whether both have as many entries, whose names are the same and whose values stand alike, one by one.
fn entries_are_alike<V: Alike>(these: &IndexMap<Vec<u8>, V>, those: &IndexMap<Vec<u8>, V>) -> bool
    ensures { IsTrue result → entries_of these.now.entries ≡ entries_of those.now.entries }
{
    let these = these.as_slice();
    let those = those.as_slice();
    if these.len() != those.len() {
        return false;
    }
    for place in 0..these.len() {
        match (these.get_index(place), those.get_index(place)) {
            (Some((name, value)), Some((other_name, other_value))) => {
                if name.as_slice() != other_name.as_slice() || !value.stands_as(other_value) {
                    return false;
                }
            }
            _ => return false,
        }
    }
    true
}

impl<V: Alike> Alike for Table<V> {
    fn stands_as(&self, other: &Self) -> bool {
        entries_are_alike(&self.values, &other.values)
    }
}

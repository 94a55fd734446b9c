//! That the definitions of type maps hold together.

ghost use Rattle.type_maps.specs.Distributions.{OwnIndicesAreBlocks};
ghost use Rattle.type_maps.specs.Entries.{EntriesHaveBytes};
ghost use Rattle.type_maps.specs.Examples.{ExamplesStand};
ghost use Rattle.type_maps.specs.Packing.{ElementsAreCounted, PackingHolds};

/// States that the definitions give the examples of the standard (MPI 3.1, 4.1.2 to 4.1.8), that the bytes of a type's
/// entries are those of its map, in order, and that packing and unpacking are inverse (4.1.11). It does nothing when it
/// is called.
pub fn maps_hold_together()
    ensures examples { ExamplesStand }
    ensures bytes { EntriesHaveBytes }
    ensures packing { PackingHolds }
    ensures elements { ElementsAreCounted }
{}

/// States that the indices which a process of a distributed array has are those that the standard writes out block by
/// block (MPI 3.1, 4.1.4). It does nothing when it is called.
pub fn own_indices_are_blocks()
    ensures { OwnIndicesAreBlocks }
{}

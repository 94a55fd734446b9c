//! Children and parents.

ghost use Rattle.std.specs.Prelude.{◌≡◌, ◌<◌, ◌≤◌, All, IfOk};
ghost use Rattle.binomial_trees.specs.Trees.{children, has_child, parent, parent_from, rotate, rotate_back};

use std::alloc::{AllocError, Global};

/// Whether a position has a child at this distance.
fn has_child(size: u32, position: u32, distance: u32) -> bool
    requires size { size ≤ 65536 }
    requires position { position < size }
    requires distance { (0 < distance) × (distance ≤ 131072) }
    ensures { result ≡ has_child size position distance }
{
    position % (distance + distance) == 0 && position + distance < size
}

/// The children of a position in the tree over so many positions, rising.
pub fn children(alloc: Global, size: u32, position: u32) -> Result<Vec<u32>, AllocError>
    requires size { size ≤ 65536 }
    requires position { position < size }
    ensures children { IfOk result (λ below. below.items ≡ children size position) }
    ensures inside { IfOk result (λ below. All (λ c. c < size) below.items) }
{
    let mut below = Vec::new(alloc);
    let mut distance = 1;
    for step in 0..size {
        if !has_child(size, position, distance) {
            return Ok(below);
        }
        below.push(position + distance)?;
        distance += distance;
    }
    Ok(below)
}

/// The parent of a position above 0.
pub fn parent(position: u32) -> u32
    requires above { 0 < position }
    requires position { position ≤ 65536 }
    ensures { result ≡ parent position }
{
    let mut distance = 1;
    for step in 0..position {
        if position % (distance + distance) != 0 {
            return position - distance;
        }
        distance += distance;
    }
    position - distance
}

/// The position of the member at a place, in a tree over so many members whose top is another one: (place - top) modulo
/// the size.
pub fn rotate(top: u32, size: u32, place: u32) -> u32
    requires size { size ≤ 65536 }
    requires top { top < size }
    requires place { place < size }
    ensures { result ≡ rotate top size place }
{
    if place < top {
        place + size - top
    } else {
        place - top
    }
}

/// The place of the member with a position in such a tree.
pub fn rotate_back(top: u32, size: u32, position: u32) -> u32
    requires size { size ≤ 65536 }
    requires top { top < size }
    requires position { position < size }
    ensures { result ≡ rotate_back top size position }
{
    if position + top < size {
        position + top
    } else {
        position + top - size
    }
}

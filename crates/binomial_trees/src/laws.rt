//! The laws of the binomial tree.

ghost use Rattle.std.specs.Prelude.{ℕ};
ghost use Rattle.binomial_trees.specs.TreeLaws.{ChildrenPartition, TopStandsAboveAll, ChildrenHaveTheirParent};
ghost use Rattle.binomial_trees.specs.TreeLaws.{ParentsHaveTheirChild, ChildrenAreFew, FoldsGoByPieces, SubtreesFold};
ghost use Rattle.binomial_trees.specs.TreeLaws.{PlacesTurn};

/// States the laws of the binomial tree over the positions below n: the children of a position partition what stands
/// below it, in their order; position 0 stands above all; a position is a child of its parent, and of no other; a
/// position has few children; and the left fold of a subtree by an associative operation is that of the position's own
/// value and the folds of its children's subtrees, in order of position. It does nothing when it is called.
pub fn trees_hold_together()
    ensures partition { ChildrenPartition ℕ }
    ensures top { TopStandsAboveAll ℕ }
    ensures children { ChildrenHaveTheirParent }
    ensures parents { ParentsHaveTheirChild }
    ensures few { ChildrenAreFew }
    ensures pieces { FoldsGoByPieces ℕ }
    ensures folds { SubtreesFold ℕ }
    ensures turned { PlacesTurn }
{}

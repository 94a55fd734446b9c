//! The laws of grids.

ghost use Rattle.cartesian_grids.specs.Grids.{RanksArePlaces};
ghost use Rattle.cartesian_grids.specs.Moves.{BackUndoesAhead};

/// States that ranks are places, one for one. It does nothing when it is called.
pub fn ranks_are_places()
    ensures { RanksArePlaces }
{}

/// States that on a ring steps back undo steps ahead. It does nothing when it is called.
pub fn steps_back_undo_steps_ahead()
    ensures { BackUndoesAhead }
{}

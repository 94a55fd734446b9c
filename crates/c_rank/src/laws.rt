//! A law of what goes out.

ghost use Rattle.c_rank.specs.OutgoingDatagrams.{DefersNothing};

/// States that a rank without windows hands out all that its engine emitted but the frames that are to wait before they
/// go again, that it asks its engine for nothing, and that no windows come into being. It does nothing when it is called.
pub fn nothing_is_deferred_without_windows()
    ensures { DefersNothing }
{}

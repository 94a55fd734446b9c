//! What is known of a collective to one who is in it.

ghost use Rattle.collective_progress.specs.Progress.{IsKept};

use crate::Progress;
use collective_messages::{Inside, Note};
use vocabulary::Endpoint;

/// What is known of a collective to a rank that is in it.
#[derive(Clone, Copy)]
pub struct Seat<'a> {
    /// Who the rank is.
    pub own: Endpoint,
    /// The collective that it is in.
    pub inside: &'a Inside,
    /// What it was told.
    pub notes: &'a [Note],
    /// What was found in these notes.
    pub progress: &'a Progress,
    ghost kept: { IsKept own inside.now notes.now progress.now },
}

//! What is known of the collective that a rank is in, whether it is in one or not.

use collective_messages::Inside;
use collective_progress::Progress;
use vocabulary::Endpoint;

/// A rank, the collective that it is in, if any, and what was found in that one's notes.
#[derive(Clone, Copy)]
pub struct Presence<'i, 'p> {
    /// Who the rank is.
    pub own: Endpoint,
    /// The collective that it is in, if any.
    pub inside: Option<&'i Inside>,
    /// What was found in the notes of this collective.
    pub progress: &'p Progress,
}

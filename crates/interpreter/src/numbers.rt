//! The numbers of errors that a rank tells of itself (MPI 3.1, 8.4). All others come with the replies of its engine.

/// A block of a collective is above all limits.
pub(crate) const ERR_COUNT: u8 = 1;

/// A message is received a second time.
pub(crate) const ERR_REQUEST: u8 = 6;

/// A member of a collective was started anew. MPI 3.1 has no such class.
pub(crate) const ERR_REPLACED: u8 = 11;

/// Two members of a collective entered different ones. MPI 3.1 has no such class.
pub(crate) const ERR_MISMATCH: u8 = 12;

/// An answer isn't one to the call that it was awaited for.
pub(crate) const ERR_INTERN: u8 = 15;

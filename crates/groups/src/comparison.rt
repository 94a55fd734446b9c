//! How two groups compare.

/// How two groups compare (MPI 3.1, 6.3.1).
#[derive(Clone, Copy, Debug, PartialEq, Eq)]
pub enum GroupComparison {
    /// The same members in the same order.
    Ident,
    /// The same members in another order.
    Similar,
    /// Some rank is in one of the groups alone.
    Unequal,
}

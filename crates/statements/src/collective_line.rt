//! What a line says of a collective that moves elements.

use crate::action::CommunicatorName;
use tokens::Name;
use vocabulary::Operation;

/// `COMM ROOT B`: the arguments of a broadcast (MPI 3.1, 5.4).
#[derive(Drop)]
pub struct Broadcasting {
    /// The communicator whose members take part.
    pub communicator: CommunicatorName,
    /// The root's rank in the communicator. A number that 16 bits don't hold stands as the greatest that they hold,
    /// which is no rank either.
    pub root: u16,
    /// The name of the buffer: the root's elements go to the others, where it is replaced.
    pub buffer: Name,
}

/// `COMM ROOT B INTO`: the arguments of a gather (MPI 3.1, 5.5).
#[derive(Drop)]
pub struct Gathering {
    /// The communicator whose members take part.
    pub communicator: CommunicatorName,
    /// The root's rank in the communicator. A number that 16 bits don't hold stands as the greatest that they hold,
    /// which is no rank either.
    pub root: u16,
    /// The name of the buffer whose elements the caller gives.
    pub buffer: Name,
    /// The name of the buffer that the root sets.
    pub into: Name,
}

/// `COMM ROOT B INTO`: the arguments of a scatter (MPI 3.1, 5.6).
#[derive(Drop)]
pub struct Scattering {
    /// The communicator whose members take part.
    pub communicator: CommunicatorName,
    /// The root's rank in the communicator. A number that 16 bits don't hold stands as the greatest that they hold,
    /// which is no rank either.
    pub root: u16,
    /// The name of the buffer that has a block for each member, which the root alone uses; none: `-`.
    pub buffer: Option<Name>,
    /// The name of the buffer that says of which type and how many elements a block is, and gets the caller's.
    pub into: Name,
}

/// `COMM ROOT OP B INTO`: the arguments of a reduction for the root (MPI 3.1, 5.9.1).
#[derive(Drop)]
pub struct Reducing {
    /// The communicator whose members take part.
    pub communicator: CommunicatorName,
    /// The root's rank in the communicator. A number that 16 bits don't hold stands as the greatest that they hold,
    /// which is no rank either.
    pub root: u16,
    /// What combines the elements.
    pub operation: Operation,
    /// The name of the buffer whose elements the caller gives.
    pub buffer: Name,
    /// The name of the buffer that the root sets.
    pub into: Name,
}

/// `COMM OP B INTO`: the arguments of a reduction for all members (MPI 3.1, 5.9.6).
#[derive(Drop)]
pub struct ReducingToAll {
    /// The communicator whose members take part.
    pub communicator: CommunicatorName,
    /// What combines the elements.
    pub operation: Operation,
    /// The name of the buffer whose elements the caller gives.
    pub buffer: Name,
    /// The name of the buffer that is set.
    pub into: Name,
}

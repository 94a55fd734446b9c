//! Why a file of events did not run to its end.

ghost use Rattle.std.specs.Prelude.{◌≡◌};
ghost use Rattle.simulation.specs.declared.error.SimulateError.TheVariants.{OutOfMemory, Output};

use std::alloc::AllocError;
use std::io;

/// Why a file of events did not run to its end.
#[derive(Clone, Copy, Debug, PartialEq, Eq)]
pub enum SimulateError {
    /// This line is faulty, which is refusal number 51; the first line is 1.
    Line(usize),
    /// A growth was refused, which is refusal number 14.
    OutOfMemory,
    /// The output failed.
    Output,
}

impl From<AllocError> for SimulateError {
    ghost from_gives = { λ _ e. e ≡ OutOfMemory };

    fn from(_e: AllocError) -> SimulateError {
        SimulateError::OutOfMemory
    }
}

impl From<io::Error> for SimulateError {
    ghost from_gives = { λ _ e. e ≡ Output };

    fn from(_e: io::Error) -> SimulateError {
        SimulateError::Output
    }
}

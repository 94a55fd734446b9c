//! What comes next of a statement: when it is acted on, and behind each answer to a call of it.

ghost use Rattle.std.specs.Prelude.{◌≡◌, ◌++◌, [], ◌∷◌, OnOk};
ghost use Rattle.interpreter.specs.Numbers.{err_intern};

use crate::numbers::ERR_INTERN;
use communicators::CommunicatorComparison;
use engine_calls::Call;
use script_calls::Pending;
use std::alloc::{AllocError, Global};
use std::marker::Model;

/// A call that a statement makes.
#[derive(Drop)]
pub struct PendingCall {
    /// The call.
    pub call: Call,
    /// What its answer is for.
    pub pending: Pending,
}

/// The numbers of errors, in order. Contracts see them as a list.
#[derive(Drop)]
pub struct ErrorNumbers {
    items: Vec<u8>,
}

impl Model for ErrorNumbers {
    ghost use Rattle.std.specs.Prelude.{List, ℕ};

    ghost Value = { List ℕ };

    ghost view = { λ e. e.items.items };
}

impl ErrorNumbers {
    /// No error. It takes no memory.
    pub(crate) fn new(alloc: Global) -> ErrorNumbers
        ensures { result ≡ [] }
    {
        ErrorNumbers {
            items: Vec::new(alloc),
        }
    }

    /// Adds an error at the end.
    pub(crate) fn push(&mut self, number: u8) -> Result<(), AllocError>
        ensures { OnOk result (self.new ≡ self.old ++ number ∷ []) }
    {
        self.items.push(number).map_err(AllocError::from)
    }

    /// The numbers, in order.
    pub fn as_slice(&self) -> &[u8]
        ensures { result.now ≡ self.now }
    {
        self.items.as_slice()
    }
}

/// What a rank tells of a statement, beside what its names then stand for.
#[derive(Drop)]
pub enum Told {
    /// A call is refused with this number, with or without being made, or an operation ended with this error.
    Error(u8),
    /// Several operations ended, some with these errors.
    Errors(ErrorNumbers),
    /// The request of a test is unfinished.
    Pending,
    /// A probe found no message.
    NoMessage,
    /// The rank in a communicator, and the communicator's size.
    Position(usize, usize),
    /// The ranks of world of a communicator's members, in order.
    Members(Vec<u16>),
    /// How two communicators compare.
    Comparison(CommunicatorComparison),
}

/// What comes next of a statement, beside a change of names.
#[derive(Drop)]
pub enum NextStep {
    /// Nothing more: the statement is done.
    Nothing,
    /// It makes this call.
    Call(PendingCall),
    /// It is done, and this is told.
    Told(Told),
}

impl NextStep {
    /// This call is made, whose answer is for this.
    pub(crate) fn calling(call: Call, pending: Pending) -> NextStep
        ensures { result ≡ NextStep.Call (record { call = call; pending = pending }) }
    {
        NextStep::Call(PendingCall { call, pending })
    }

    /// This error, or the refusal of this number, is told.
    pub(crate) fn error(number: u8) -> NextStep
        ensures { result ≡ NextStep.Told (Told.Error number) }
    {
        NextStep::Told(Told::Error(number))
    }

    /// The answer isn't one to the call that it was awaited for, which is told as an error of its own; no name changes.
    pub(crate) fn misfit() -> NextStep
        ensures { result ≡ NextStep.Told (Told.Error err_intern) }
    {
        NextStep::error(ERR_INTERN)
    }
}

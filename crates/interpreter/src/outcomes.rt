//! What is made of the outcomes of operations.

ghost use Rattle.std.specs.Prelude.{◌≡◌, IfOk, OnOk, slice_get};
ghost use Rattle.script_calls.specs.NamedThings.{null};
ghost use Rattle.interpreter.specs.NamesState.{with_request};
ghost use Rattle.interpreter.specs.Answers.{ended_each, ended_named, ends_all, ends_at, ends_by, ends_message};
ghost use Rattle.interpreter.specs.Answers.{ends_named_one, ends_one, ends_requested, ends_with, EndsNext, error_told};
ghost use Rattle.interpreter.specs.Answers.{errors_told, held_buffer, returned};

use crate::names::Names;
use crate::steps::{ErrorNumbers, NextStep, Told};
use requests::{Answer, Outcome};
use script_calls::{NamedMessage, NamedRequest, Pending, error_of, status_after};
use statements::{Name, RequestName, RequestNames};
use std::alloc::{AllocError, Global};

/// The error is told, if there is one.
fn error_told(error: Option<u8>) -> NextStep
    ensures { result ≡ error_told error }
{
    match error {
        Some(number) => NextStep::error(number),
        None => NextStep::Nothing,
    }
}

/// The errors are told, if there are any.
fn errors_told(errors: ErrorNumbers) -> NextStep
    ensures { result ≡ errors_told errors }
{
    match errors.as_slice() {
        [] => NextStep::Nothing,
        [_, ..] => NextStep::Told(Told::Errors(errors)),
    }
}

/// The request at this place of a list. The only error is want of memory.
fn requested_at(
    alloc: Global,
    several: &RequestNames,
    index: usize,
) -> Result<Option<RequestName>, AllocError>
    ensures { IfOk result (λ requested. requested ≡ slice_get several.now index) }
{
    match several.as_slice().get(index) {
        Some(RequestName::Null) => Ok(Some(RequestName::Null)),
        Some(RequestName::Named(name)) => Ok(Some(RequestName::Named(name.try_clone(alloc)?))),
        None => Ok(None),
    }
}

impl Names {
    /// The request of this name is null from now on. Answers the name of the buffer that comes back with its outcome.
    fn null_request(&mut self, name: &Name) -> Result<Option<Name>, AllocError>
        ensures { IfOk result (λ buffer.
            (buffer ≡ held_buffer self.old name.now) × (self.new ≡ with_request self.old name.now null)) }
    {
        match self.requests.replace(name, NamedRequest::null()) {
            Some(held) => Ok(held.buffer),
            None => {
                self.requests.set(name, NamedRequest::null())?;
                Ok(None)
            }
        }
    }

    /// A receive's buffer comes back to this name with its outcome.
    fn return_buffer(&mut self, name: &Option<Name>, outcome: Outcome) -> Result<(), AllocError>
        ensures { OnOk result (self.new ≡ returned name.now outcome self.old) }
    {
        match outcome {
            Outcome::Sent => Ok(()),
            Outcome::Received(_, buffer) => self.give_back(name, buffer),
            Outcome::Ended(_, _, buffer) => self.give_back(name, buffer),
            Outcome::Replaced(None) => Ok(()),
            Outcome::Replaced(Some(buffer)) => self.give_back(name, buffer),
            Outcome::Cancelled(buffer) => self.give_back(name, buffer),
            Outcome::Empty => Ok(()),
        }
    }

    /// The one operation that was waited for or tested has ended so, and its buffer comes back to this name.
    fn end_with(&mut self, name: &Option<Name>, outcome: Outcome) -> Result<NextStep, AllocError>
        ensures { IfOk result (λ next. ends_with name.now outcome self.old ≡ (next, self.new)) }
    {
        let error = error_of(&outcome);
        let last = status_after(self.last, &outcome);
        self.return_buffer(name, outcome)?;
        self.last = last;
        Ok(error_told(error))
    }

    /// The request that a line names has ended so.
    fn end_requested(
        &mut self,
        requested: RequestName,
        outcome: Outcome,
    ) -> Result<NextStep, AllocError>
        ensures { IfOk result (λ next. ends_requested requested outcome self.old ≡ (next, self.new)) }
    {
        match requested {
            RequestName::Null => self.end_with(&None, outcome),
            RequestName::Named(name) => {
                let buffer = self.null_request(&name)?;
                self.end_with(&buffer, outcome)
            }
        }
    }

    /// The message of this name was received into the buffer of that name, and is ended.
    fn end_message(
        &mut self,
        message: &Name,
        buffer: Name,
        outcome: Outcome,
    ) -> Result<NextStep, AllocError>
        ensures { IfOk result (λ next. ends_message message.now buffer outcome self.old ≡ (next, self.new)) }
    {
        self.messages.set(message, NamedMessage::Ended)?;
        let name = Some(buffer);
        self.end_with(&name, outcome)
    }

    /// An operation that was waited for alone has ended so.
    fn end_one(&mut self, pending: Pending, outcome: Outcome) -> Result<NextStep, AllocError>
        ensures { IfOk result (λ next. ends_one pending outcome self.old ≡ (next, self.new)) }
    {
        match pending {
            Pending::Waiting(requested) => self.end_requested(requested, outcome),
            Pending::WaitingUnnamed(buffer) => self.end_with(&buffer, outcome),
            Pending::Receiving(message, buffer) => self.end_message(&message, buffer, outcome),
            other => {
                drop(other);
                drop(outcome);
                Ok(NextStep::misfit())
            }
        }
    }

    /// One of several requests has ended so.
    fn end_named(&mut self, requested: RequestName, outcome: Outcome) -> Result<(), AllocError>
        ensures { OnOk result (self.new ≡ ended_named requested outcome self.old) }
    {
        match requested {
            RequestName::Null => Ok(()),
            RequestName::Named(name) => {
                let buffer = self.null_request(&name)?;
                self.return_buffer(&buffer, outcome)
            }
        }
    }

    /// The request that stands there among several has ended so.
    fn end_named_one(
        &mut self,
        requested: Option<RequestName>,
        outcome: Outcome,
    ) -> Result<NextStep, AllocError>
        ensures { IfOk result (λ next. ends_named_one requested outcome self.old ≡ (next, self.new)) }
    {
        match requested {
            Some(requested) => {
                let error = error_of(&outcome);
                self.end_named(requested, outcome)?;
                Ok(error_told(error))
            }
            None => {
                drop(outcome);
                Ok(NextStep::misfit())
            }
        }
    }

    /// The request at this place among several has ended so.
    fn end_at(
        &mut self,
        pending: Pending,
        index: usize,
        outcome: Outcome,
    ) -> Result<NextStep, AllocError>
        ensures { IfOk result (λ next. ends_at pending index outcome self.old ≡ (next, self.new)) }
    {
        match pending {
            Pending::WaitingForSeveral(several) => {
                let Ok(requested) = requested_at(self.alloc, &several, index) else {
                    drop(outcome);
                    return Err(AllocError);
                };
                self.end_named_one(requested, outcome)
            }
            other => {
                drop(other);
                drop(outcome);
                Ok(NextStep::misfit())
            }
        }
    }

    /// One more of several requests has ended so: its error, if it has one, comes behind those before.
    fn end_next(
        &mut self,
        errors: &mut ErrorNumbers,
        requested: RequestName,
        outcome: Outcome,
    ) -> Result<(), AllocError>
        ensures { OnOk result (EndsNext errors.old requested outcome self.old errors.new self.new) }
    {
        if let Some(number) = error_of(&outcome) {
            errors.push(number)?;
        }
        self.end_named(requested, outcome)
    }

    /// Each of several requests has ended, in order. Answers the errors with which they did.
    fn end_each(
        &mut self,
        several: Vec<RequestName>,
        outcomes: Vec<Outcome>,
    ) -> Result<ErrorNumbers, AllocError>
        ensures { IfOk result (λ errors. ended_each several.items outcomes.items self.old ≡ (errors, self.new)) }
    {
        let mut errors = ErrorNumbers::new(self.alloc);
        let mut outcomes = outcomes.into_iter();
        for requested in several {
            let Some(outcome) = outcomes.next() else {
                return Ok(errors);
            };
            self.end_next(&mut errors, requested, outcome)?;
        }
        Ok(errors)
    }

    /// The operations that were waited for together have ended so, in the order in which the statement names them.
    fn end_all(&mut self, pending: Pending, outcomes: Vec<Outcome>) -> Result<NextStep, AllocError>
        ensures { IfOk result (λ next. ends_all pending outcomes.items self.old ≡ (next, self.new)) }
    {
        match pending {
            Pending::WaitingForSeveral(several) => {
                let errors = self.end_each(several.into_vec(), outcomes)?;
                Ok(errors_told(errors))
            }
            other => {
                drop(other);
                drop(outcomes);
                Ok(NextStep::misfit())
            }
        }
    }

    /// What was waited for is answered so.
    pub(crate) fn end(&mut self, pending: Pending, answer: Answer) -> Result<NextStep, AllocError>
        ensures { IfOk result (λ next. ends_by pending answer self.old ≡ (next, self.new)) }
    {
        match answer {
            Answer::One(outcome) => self.end_one(pending, outcome),
            Answer::Index(index, outcome) => self.end_at(pending, index, outcome),
            Answer::IndexUndefined => {
                drop(pending);
                Ok(NextStep::Nothing)
            }
            Answer::All(outcomes) => self.end_all(pending, outcomes.into_vec()),
        }
    }
}

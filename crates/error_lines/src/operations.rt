//! The operations of a rank that haven't ended.

ghost use Rattle.std.specs.Prelude.{◌≡◌, OnOk};
ghost use Rattle.error_lines.specs.Calls.{named_by};

use crate::met_error::MetError;
use crate::outcomes::{ending_error, outcome_error};
use crate::refused::refused_error;
use collective_steps::Ending;
use engine_calls::{Call, Completion, Reply};
use requests::{Answer, Outcome, Places, Region, Request};
use std::alloc::{AllocError, Global};

/// What kind of operation it is.
#[derive(Clone, Copy, Debug, PartialEq, Eq)]
pub enum OperationKind {
    /// A send.
    Send,
    /// A receive, which has room for so many elements.
    Receive(u64),
    /// A message that was taken out and isn't received.
    Message,
}

/// An operation that hasn't ended.
#[derive(Clone, Copy, Debug, PartialEq, Eq)]
pub struct OpenOperation {
    /// Its request.
    pub request: Request,
    /// The number of the line that started it.
    pub line: usize,
    /// What kind of operation it is.
    pub kind: OperationKind,
}

/// What is known of the operations of a rank: which of them haven't ended, and which call waits for its answer.
#[derive(Drop)]
pub struct Operations {
    alloc: Global,
    open: Vec<OpenOperation>,
    /// The number of the line of the last call.
    line: usize,
    /// What the last call starts, if it starts an operation.
    starts: Option<OperationKind>,
    /// What the last call names, in order.
    named: Vec<Option<Request>>,
    /// How many elements the last call has room for, if it receives a message that was taken out.
    room: Option<u64>,
}

/// How many elements there are places for.
fn room_in(region: &Region) -> u64 {
    match &region.places {
        Places::All => region.buffer.len() as u64,
        Places::Copies(layout, copies) => layout.place_count(*copies),
    }
}

/// What a call starts, if it starts an operation.
fn started_by(call: &Call) -> Option<OperationKind> {
    match call {
        Call::Isend(_) => Some(OperationKind::Send),
        Call::Irecv(receive) => Some(OperationKind::Receive(room_in(&receive.into))),
        Call::Improbe(_) => Some(OperationKind::Message),
        _ => None,
    }
}

impl Operations {
    /// No operations. It takes no memory.
    pub fn new(alloc: Global) -> Operations {
        Operations {
            alloc,
            open: Vec::new(alloc),
            line: 0,
            starts: None,
            named: Vec::new(alloc),
            room: None,
        }
    }

    /// The operations that haven't ended, in the order in which they were started.
    pub fn unended(&self) -> &[OpenOperation] {
        self.open.as_slice()
    }

    /// The requests that this call names are those of the last call from now on.
    fn note_named(&mut self, call: &Call) -> Result<(), AllocError>
        ensures { OnOk result (self.new.named.items ≡ named_by call.now) }
    {
        self.named.clear();
        match call {
            Call::Wait(request) | Call::Test(request) | Call::Mrecv(request, _) => {
                self.named.push(*request)?;
            }
            Call::Waitany(list) | Call::Waitall(list) => {
                self.named.extend_from_slice(list.as_slice())?;
            }
            _ => {}
        }
        Ok(())
    }

    /// The line of this number makes this call. The only error is want of memory.
    pub fn on_call(&mut self, line: usize, call: &Call) -> Result<(), AllocError> {
        self.line = line;
        self.starts = started_by(call);
        self.room = match call {
            Call::Mrecv(_, region) => Some(room_in(region)),
            _ => None,
        };
        self.note_named(call)
    }

    fn start(&mut self, request: Request) -> Result<(), AllocError> {
        if let Some(kind) = self.starts {
            let line = self.line;
            self.open.push(OpenOperation {
                request,
                line,
                kind,
            })?;
        }
        Ok(())
    }

    /// The operation at this place among those that the last call names has ended; what was known of it.
    fn end(&mut self, place: usize) -> Option<OpenOperation> {
        let request = (*self.named.get(place)?)?;
        let at = self.open.iter().position(|open| open.request == request)?;
        Some(self.open.remove(at))
    }

    /// How the operation at this place among those that the last call names ended: its error, if it is one.
    fn error_at(
        &mut self,
        place: usize,
        outcome: &Outcome,
    ) -> Result<Option<MetError>, AllocError> {
        let ended = self.end(place);
        let room = match ended {
            Some(
                OpenOperation {
                    kind: OperationKind::Receive(room),
                    ..
                },
            ) => Some(room),
            _ => self.room,
        };
        let Some(mut error) = outcome_error(self.alloc, outcome, room)? else {
            return Ok(None);
        };
        if let Some(ended) = ended {
            if ended.line != self.line {
                error.started = Some(ended.line);
            }
        }
        Ok(Some(error))
    }

    fn add_error_at(
        &mut self,
        errors: &mut Vec<MetError>,
        place: usize,
        outcome: &Outcome,
    ) -> Result<(), AllocError> {
        if let Some(error) = self.error_at(place, outcome)? {
            errors.push(error)?;
        }
        Ok(())
    }

    fn on_answer(&mut self, errors: &mut Vec<MetError>, answer: &Answer) -> Result<(), AllocError> {
        match answer {
            Answer::One(outcome) => self.add_error_at(errors, 0, outcome),
            Answer::Index(place, outcome) => self.add_error_at(errors, *place, outcome),
            Answer::IndexUndefined => Ok(()),
            Answer::All(outcomes) => {
                for (place, outcome) in outcomes.as_slice().iter().enumerate() {
                    self.add_error_at(errors, place, outcome)?;
                }
                Ok(())
            }
        }
    }

    fn on_ending(&self, errors: &mut Vec<MetError>, ending: &Ending) -> Result<(), AllocError> {
        if let Some(error) = ending_error(self.alloc, ending)? {
            errors.push(error)?;
        }
        Ok(())
    }

    /// The last call is answered so: the errors in the answer, in the order in which a script prints them. The only
    /// error is want of memory.
    pub fn on_reply(&mut self, reply: &Reply) -> Result<Vec<MetError>, AllocError> {
        let mut errors = Vec::new(self.alloc);
        match reply {
            Reply::Started(request) => self.start(*request)?,
            Reply::Matched(Some((Some(request), _))) => self.start(*request)?,
            Reply::Done(answer) => self.on_answer(&mut errors, answer)?,
            Reply::Left(ending) => self.on_ending(&mut errors, ending)?,
            Reply::Refused(refusal, call) => {
                errors.push(refused_error(self.alloc, *refusal, call)?)?;
            }
            _ => {}
        }
        Ok(errors)
    }

    /// The last call, which was blocked, is answered so: as `on_reply`.
    pub fn on_completion(&mut self, completion: &Completion) -> Result<Vec<MetError>, AllocError> {
        let mut errors = Vec::new(self.alloc);
        match completion {
            Completion::Requests(answer) => self.on_answer(&mut errors, answer)?,
            Completion::Collective(ending) => self.on_ending(&mut errors, ending)?,
        }
        Ok(errors)
    }
}

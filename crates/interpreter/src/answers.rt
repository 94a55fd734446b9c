//! What is made of the answer to a statement's call.

ghost use Rattle.std.specs.Prelude.{◌≡◌, IfOk, OnOk};
ghost use Rattle.interpreter.specs.NamesState.{given_back};
ghost use Rattle.interpreter.specs.Answers.{counts, finds, hears, hears_match, hears_probe, leaves, lent_by};
ghost use Rattle.interpreter.specs.Answers.{learns, refuses_call, starts, taken_back, takes_communicator};
ghost use Rattle.interpreter.specs.Answers.{takes_elements, unawaited};

use crate::names::Names;
use crate::numbers::{ERR_COUNT, ERR_MISMATCH, ERR_REPLACED};
use crate::steps::{NextStep, Told};
use collectives::Ending;
use communicators::Question;
use datatypes::Buffer;
use engine_calls::{Call, Fact, Reply};
use point_to_point_calls::Refusal;
use requests::Request;
use script_calls::{NamedCommunicator, NamedMessage, NamedRequest, Pending};
use std::alloc::AllocError;
use vocabulary::Status;

/// A collective has given these elements, if it gave any, though none were awaited.
fn unawaited(elements: Option<Buffer>) -> NextStep
    ensures { result ≡ unawaited elements }
{
    match elements {
        Some(elements) => {
            drop(elements);
            NextStep::misfit()
        }
        None => NextStep::Nothing,
    }
}

impl Names {
    /// The operation is started under this request.
    fn start(&mut self, pending: Pending, request: Request) -> Result<NextStep, AllocError>
        ensures { IfOk result (λ next. starts pending request self.old ≡ (next, self.new)) }
    {
        match pending {
            Pending::Starting(name, buffer) => {
                let held = NamedRequest {
                    request: Some(request),
                    buffer,
                };
                self.requests.set(&name, held)?;
                Ok(NextStep::Nothing)
            }
            Pending::StartingToWait(buffer) => Ok(NextStep::calling(
                Call::Wait(Some(request)),
                Pending::WaitingUnnamed(buffer),
            )),
            other => {
                drop(other);
                Ok(NextStep::misfit())
            }
        }
    }

    /// A buffer that was lent to a call comes back.
    fn give_back_lent(&mut self, pending: &Pending, buffer: Buffer) -> Result<(), AllocError>
        ensures { OnOk result (self.new ≡ given_back self.old (lent_by pending.now) buffer) }
    {
        match pending {
            Pending::Starting(_, name) => self.give_back(name, buffer),
            Pending::StartingToWait(name) => self.give_back(name, buffer),
            Pending::Receiving(_, name) => self.set_buffer(name, Some(buffer)),
            _ => {
                drop(buffer);
                Ok(())
            }
        }
    }

    /// A refused call comes back, whose answer was for this: a buffer that was lent to it is here again. The only error
    /// is want of memory.
    pub fn take_back(&mut self, pending: &Pending, call: Call) -> Result<(), AllocError>
        ensures { OnOk result (self.new ≡ taken_back pending.now call self.old) }
    {
        match call {
            Call::Irecv(receive) => self.give_back_lent(pending, receive.into.buffer),
            Call::Mrecv(_, into) => self.give_back_lent(pending, into.buffer),
            other => {
                drop(other);
                Ok(())
            }
        }
    }

    fn refuse(
        &mut self,
        pending: &Pending,
        refused: Refusal,
        call: Call,
    ) -> Result<NextStep, AllocError>
        ensures { IfOk result (λ next. refuses_call pending.now refused call self.old ≡ (next, self.new)) }
    {
        self.take_back(pending, call)?;
        Ok(NextStep::error(refused.number()))
    }

    /// What a probe answers: the status of the message that it found, if it found one.
    fn hear_probe(&mut self, status: Option<Status>) -> NextStep
        ensures { hears_probe status self.old ≡ (result, self.new) }
    {
        match status {
            Some(status) => {
                self.last = status;
                NextStep::Nothing
            }
            None => NextStep::Told(Told::NoMessage),
        }
    }

    /// The message that was taken out has the name under which it was looked for, and its status is the last one.
    fn name_found(
        &mut self,
        pending: Pending,
        message: Option<Request>,
        status: Status,
    ) -> Result<NextStep, AllocError>
        ensures { IfOk result (λ next. finds pending (message, status) self.old ≡ (next, self.new)) }
    {
        match pending {
            Pending::Searching(name) => {
                self.messages.set(&name, NamedMessage::TakenOut(message))?;
                self.last = status;
                Ok(NextStep::Nothing)
            }
            other => {
                drop(other);
                Ok(NextStep::misfit())
            }
        }
    }

    /// What a matching probe answers: the message that it took out and its status, if it found one.
    fn hear_match(
        &mut self,
        pending: Pending,
        found: Option<(Option<Request>, Status)>,
    ) -> Result<NextStep, AllocError>
        ensures { IfOk result (λ next. hears_match pending found self.old ≡ (next, self.new)) }
    {
        match found {
            Some((message, status)) => self.name_found(pending, message, status),
            None => {
                drop(pending);
                Ok(NextStep::Told(Told::NoMessage))
            }
        }
    }

    /// A collective has given these elements, if it gave any.
    fn take_elements(
        &mut self,
        pending: Pending,
        elements: Option<Buffer>,
    ) -> Result<NextStep, AllocError>
        ensures { IfOk result (λ next. takes_elements pending elements self.old ≡ (next, self.new)) }
    {
        match pending {
            Pending::Entering(name) => {
                if let Some(elements) = elements {
                    self.give_back(&name, elements)?;
                }
                Ok(NextStep::Nothing)
            }
            other => {
                drop(other);
                Ok(unawaited(elements))
            }
        }
    }

    /// A communicator was made: the rank in it is asked for next, and with that it has its name. Or none was made for
    /// this rank, and the name stands for that.
    fn take_communicator(
        &mut self,
        pending: Pending,
        place: Option<usize>,
    ) -> Result<NextStep, AllocError>
        ensures { IfOk result (λ next. takes_communicator pending place self.old ≡ (next, self.new)) }
    {
        match pending {
            Pending::Making(name) => match place {
                Some(place) => Ok(NextStep::calling(
                    Call::Ask(Some(place), Question::Rank),
                    Pending::Seating(name, place),
                )),
                None => {
                    self.communicators.set(&name, None)?;
                    Ok(NextStep::Nothing)
                }
            },
            other => {
                drop(other);
                Ok(NextStep::misfit())
            }
        }
    }

    /// A collective is over.
    fn leave(&mut self, pending: Pending, ending: Ending) -> Result<NextStep, AllocError>
        ensures { IfOk result (λ next. leaves pending ending self.old ≡ (next, self.new)) }
    {
        match ending {
            Ending::Left(elements) => self.take_elements(pending, elements),
            Ending::Comm(place) => self.take_communicator(pending, place),
            Ending::Replaced => {
                drop(pending);
                Ok(NextStep::error(ERR_REPLACED))
            }
            Ending::Mismatch => {
                drop(pending);
                Ok(NextStep::error(ERR_MISMATCH))
            }
        }
    }

    /// A number that was asked for: behind the rank the size is asked for, and with the size both are told; with the
    /// rank in a communicator that was made, that has its name.
    fn count(&mut self, pending: Pending, number: usize) -> Result<NextStep, AllocError>
        ensures { IfOk result (λ next. counts pending number self.old ≡ (next, self.new)) }
    {
        match pending {
            Pending::AskingRank(comm) => Ok(NextStep::calling(
                Call::Ask(comm, Question::Size),
                Pending::AskingSize(number),
            )),
            Pending::AskingSize(rank) => Ok(NextStep::Told(Told::Position(rank, number))),
            Pending::Seating(name, place) => {
                let seat = NamedCommunicator {
                    place,
                    rank: number,
                };
                self.communicators.set(&name, Some(seat))?;
                Ok(NextStep::Nothing)
            }
            Pending::Oversized => Ok(NextStep::error(ERR_COUNT)),
            other => {
                drop(other);
                Ok(NextStep::misfit())
            }
        }
    }

    /// The answer to a question about a communicator.
    fn learn(&mut self, pending: Pending, fact: Fact) -> Result<NextStep, AllocError>
        ensures { IfOk result (λ next. learns pending fact self.old ≡ (next, self.new)) }
    {
        match fact {
            Fact::Number(number) => self.count(pending, number),
            Fact::Ranks(ranks) => {
                drop(pending);
                Ok(NextStep::Told(Told::Members(ranks)))
            }
            Fact::Compares(comparison) => {
                drop(pending);
                Ok(NextStep::Told(Told::Comparison(comparison)))
            }
        }
    }

    /// What is made of the answer to a call that was for this: what the names then stand for, and what comes next. An
    /// answer that isn't one to such a call is told, and changes nothing. The only error is want of memory.
    pub fn hear(&mut self, pending: Pending, reply: Reply) -> Result<NextStep, AllocError>
        ensures { IfOk result (λ next. hears pending reply self.old ≡ (next, self.new)) }
    {
        match reply {
            Reply::Started(request) => self.start(pending, request),
            Reply::Done(answer) => self.end(pending, answer),
            Reply::Pending => {
                drop(pending);
                Ok(NextStep::Told(Told::Pending))
            }
            Reply::Accepted | Reply::Blocked => {
                drop(pending);
                Ok(NextStep::Nothing)
            }
            Reply::Left(ending) => self.leave(pending, ending),
            Reply::Fact(fact) => self.learn(pending, fact),
            Reply::Probed(status) => {
                drop(pending);
                Ok(self.hear_probe(status))
            }
            Reply::Matched(found) => self.hear_match(pending, found),
            Reply::Refused(refused, call) => self.refuse(&pending, refused, call),
        }
    }
}

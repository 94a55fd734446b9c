//! What a statement asks of its rank's engine; none where it is faulty.

ghost use Rattle.std.specs.Prelude.{◌≡◌, IfOk, Some, None};
ghost use Rattle.derived_types.specs.Layouts.{is_beyond};
ghost use Rattle.statements.specs.Meanings.{offsets_made};
ghost use Rattle.line_diagnostics.specs.Lacks.{lack_of_action};
ghost use Rattle.interpreter.specs.Faults.{FaultyWhere};
ghost use Rattle.interpreter.specs.NamesState.{here, holdings, message_at, place_named};
ghost use Rattle.interpreter.specs.StatementCalls.{acts_on, AreListed, asked_by, asks_group, asks_rank, cancels_for, compares};
ghost use Rattle.interpreter.specs.StatementCalls.{count_of, IsTogether, LendGives, LendsFor, listed_named, looks, old_layout};
ghost use Rattle.interpreter.specs.StatementCalls.{places_named, probe_in, receives, receives_ended};
ghost use Rattle.interpreter.specs.StatementCalls.{receives_message, receives_taken, receives_to_wait, request_named};
ghost use Rattle.interpreter.specs.StatementCalls.{requests_named, searches, send_call, sends, sends_to_wait, sets};
ghost use Rattle.interpreter.specs.StatementCalls.{sets_layout, sets_layout_unless, tests_for, waits_for, waits_for_several};

use crate::names::Names;
use crate::numbers::ERR_REQUEST;
use crate::steps::NextStep;
use collective_messages::Entry;
use communicators::Question;
use datatypes::{Buffer, Layout, LayoutRefusal};
use engine_calls::{Call, Probe, Receive, Send};
use line_diagnostics::{LineFault, lack_of_action};
use requests::{Places, Region, Request, RequestList};
use script_calls::{NamedMessage, Pending, split_by};
use statements::{
    Action, BufferLine, CommunicatorName, Landing, LayoutClause, LayoutLine, Name, OldLayout,
    Probing, Receiving, RequestName, RequestNames, Sending,
};
use std::alloc::AllocError;
use vocabulary::Mode;

/// The call is made, if there is one; else the statement is faulty.
pub(crate) fn asked_by(call: Option<Call>, pending: Pending) -> Option<NextStep>
    ensures { result ≡ asked_by call pending }
{
    match call {
        Some(call) => Some(NextStep::calling(call, pending)),
        None => {
            drop(pending);
            None
        }
    }
}

/// A probe in this communicator.
fn probe_in(comm: Option<usize>, probing: &Probing) -> Probe
    ensures { result ≡ probe_in comm probing.now }
{
    Probe {
        comm,
        source: probing.source,
        tag: probing.tag,
    }
}

impl Names {
    /// The buffer of this name, which is lent from now on, unless it is lent already or isn't set.
    fn lend(&mut self, name: &Name) -> Option<Buffer>
        ensures { LendGives self.old name.now result self.new }
    {
        self.buffers.replace(name, None).flatten()
    }

    fn set_line(&mut self, line: BufferLine) -> Result<Option<NextStep>, AllocError>
        ensures { IfOk result (λ next. sets line self.old ≡ (next, self.new)) }
    {
        let BufferLine { name, value } = line;
        if self.is_lent(&name) {
            return Ok(None);
        }
        self.set_buffer(&name, Some(value))?;
        Ok(Some(NextStep::Nothing))
    }

    /// The layout that a line starts from, if it is set.
    fn old_layout(&self, made_of: &OldLayout) -> Result<Option<Layout>, AllocError>
        ensures { IfOk result (λ layout. layout ≡ old_layout self.now made_of.now) }
    {
        match made_of {
            OldLayout::Basic(basic) => match Layout::new(self.alloc, *basic) {
                Ok(layout) => Ok(Some(layout)),
                Err(_) => Err(AllocError),
            },
            OldLayout::Named(name) => self.layout_of(name),
        }
    }

    /// The layout that a line makes of another one is set, unless it passes a limit.
    fn set_layout_made(
        &mut self,
        line: &LayoutLine,
        old: &Layout,
    ) -> Result<Option<NextStep>, AllocError>
        ensures { IfOk result (λ next.
            sets_layout_unless (is_beyond (offsets_made line.now.form old.now.offsets)) line.now.name
            (record { basic = old.now.basic; offsets = offsets_made line.now.form old.now.offsets }) self.old ≡
            (next, self.new)) }
    {
        match line.form.layout_made(self.alloc, old) {
            Ok(layout) => {
                self.layouts.set(&line.name, layout)?;
                Ok(Some(NextStep::Nothing))
            }
            Err(LayoutRefusal::OutOfMemory) => Err(AllocError),
            Err(refusal) => Ok(Some(NextStep::error(refusal.number()))),
        }
    }

    fn set_layout_line(&mut self, line: &LayoutLine) -> Result<Option<NextStep>, AllocError>
        ensures { IfOk result (λ next. sets_layout line.now self.old ≡ (next, self.new)) }
    {
        match self.old_layout(&line.made_of)? {
            Some(old) => self.set_layout_made(line, &old),
            None => Ok(None),
        }
    }

    /// The places that a send or a receive names, if its layout is set.
    fn places_named(&self, through: &Option<LayoutClause>) -> Result<Option<Places>, AllocError>
        ensures { IfOk result (λ places. places ≡ places_named self.now through.now) }
    {
        match through {
            None => Ok(Some(Places::All)),
            Some(through) => match self.layout_of(&through.layout)? {
                Some(layout) => Ok(Some(Places::Copies(layout, through.copies))),
                None => Ok(None),
            },
        }
    }

    /// The call of a send of this mode, if its communicator and its layout are set and its buffer is here.
    fn send_call(&self, mode: Mode, sending: &Sending) -> Result<Option<Call>, AllocError>
        ensures { IfOk result (λ call.
            call ≡ send_call mode sending.now (place_named self.now sending.now.communicator)
            (places_named self.now sending.now.through)
            (here self.now sending.now.buffer)) }
    {
        let Some(comm) = self.place_named(&sending.communicator) else {
            return Ok(None);
        };
        let Some(places) = self.places_named(&sending.through)? else {
            return Ok(None);
        };
        match self.copy_of(&sending.buffer)? {
            Some(buffer) => Ok(Some(Call::Isend(Send {
                mode,
                comm,
                target: sending.target,
                tag: sending.tag,
                from: Region { buffer, places },
            }))),
            None => Ok(None),
        }
    }

    fn send(
        &self,
        mode: Mode,
        pending: Pending,
        sending: &Sending,
    ) -> Result<Option<NextStep>, AllocError>
        ensures { IfOk result (λ next. sends mode pending sending.now self.now ≡ (next, self.now)) }
    {
        let call = self.send_call(mode, sending)?;
        Ok(asked_by(call, pending))
    }

    /// The call of a receive, if its communicator and its layout are set and its buffer is here, which is lent from now
    /// on.
    fn lend_for(&mut self, receiving: &Receiving) -> Result<Option<Call>, AllocError>
        ensures { IfOk result (λ call.
            LendsFor receiving.now (place_named self.old receiving.now.communicator)
            (places_named self.old receiving.now.through)
            (here self.old receiving.now.buffer) self.old call self.new) }
    {
        let Some(comm) = self.place_named(&receiving.communicator) else {
            return Ok(None);
        };
        let Some(places) = self.places_named(&receiving.through)? else {
            return Ok(None);
        };
        match self.lend(&receiving.buffer) {
            Some(buffer) => Ok(Some(Call::Irecv(Receive {
                comm,
                source: receiving.source,
                tag: receiving.tag,
                into: Region { buffer, places },
            }))),
            None => Ok(None),
        }
    }

    fn receive(
        &mut self,
        request: Name,
        receiving: Receiving,
    ) -> Result<Option<NextStep>, AllocError>
        ensures { IfOk result (λ next.
            receives (Pending.Starting request (Some receiving.buffer)) receiving self.old ≡ (next, self.new)) }
    {
        let call = self.lend_for(&receiving)?;
        let pending = Pending::Starting(request, Some(receiving.buffer));
        Ok(asked_by(call, pending))
    }

    fn look(&self, probing: &Probing) -> Option<NextStep>
        ensures { looks probing.now (place_named self.now probing.now.communicator) self.now ≡ (result, self.now) }
    {
        match self.place_named(&probing.communicator) {
            Some(comm) => {
                Some(NextStep::calling(Call::Iprobe(probe_in(comm, probing)), Pending::Nothing))
            }
            None => None,
        }
    }

    fn search(&self, message: Name, probing: &Probing) -> Option<NextStep>
        ensures { searches message probing.now (place_named self.now probing.now.communicator) self.now ≡
            (result, self.now) }
    {
        match self.place_named(&probing.communicator) {
            Some(comm) => {
                let call = Call::Improbe(probe_in(comm, probing));
                Some(NextStep::calling(call, Pending::Searching(message)))
            }
            None => None,
        }
    }

    /// What the name of a message stands for, if it is set.
    fn message_at(&self, name: &Name) -> Option<NamedMessage>
        ensures { result ≡ message_at self.now name.now }
    {
        match self.messages.get(name) {
            Some(message) => Some(*message),
            None => None,
        }
    }

    /// The receive of a message that was received before.
    fn receive_ended(&self, buffer: &Name) -> Option<NextStep>
        ensures { result ≡ receives_ended (here self.now buffer.now) }
    {
        match self.buffers.get(buffer) {
            Some(slot) => match slot {
                Some(_) => Some(NextStep::error(ERR_REQUEST)),
                None => None,
            },
            None => None,
        }
    }

    /// The receive of a message that was taken out.
    fn receive_taken(
        &mut self,
        message: Option<Request>,
        places: Places,
        name: Name,
        buffer: Name,
    ) -> Option<NextStep>
        ensures { receives_taken message places name buffer (here self.old buffer) self.old ≡ (result, self.new) }
    {
        match self.lend(&buffer) {
            Some(contents) => {
                let into = Region {
                    buffer: contents,
                    places,
                };
                Some(NextStep::calling(
                    Call::Mrecv(message, into),
                    Pending::Receiving(name, buffer),
                ))
            }
            None => None,
        }
    }

    fn receive_message(
        &mut self,
        name: Name,
        landing: Landing,
    ) -> Result<Option<NextStep>, AllocError>
        ensures { IfOk result (λ next. receives_message name landing self.old ≡ (next, self.new)) }
    {
        let Some(named) = self.message_at(&name) else {
            return Ok(None);
        };
        let Some(places) = self.places_named(&landing.through)? else {
            return Ok(None);
        };
        match named {
            NamedMessage::TakenOut(message) => {
                Ok(self.receive_taken(message, places, name, landing.buffer))
            }
            NamedMessage::Ended => Ok(self.receive_ended(&landing.buffer)),
        }
    }

    /// The request that a line names, if it is set.
    fn request_named(&self, requested: &RequestName) -> Option<Option<Request>>
        ensures { result ≡ request_named self.now requested.now }
    {
        match requested {
            RequestName::Null => Some(None),
            RequestName::Named(name) => match self.requests.get(name) {
                Some(held) => Some(held.request),
                None => None,
            },
        }
    }

    fn wait(&self, requested: RequestName) -> Option<NextStep>
        ensures { waits_for requested (request_named self.now requested) self.now ≡ (result, self.now) }
    {
        match self.request_named(&requested) {
            Some(request) => Some(NextStep::calling(
                Call::Wait(request),
                Pending::Waiting(requested),
            )),
            None => None,
        }
    }

    fn test(&self, requested: RequestName) -> Option<NextStep>
        ensures { tests_for requested (request_named self.now requested) self.now ≡ (result, self.now) }
    {
        match self.request_named(&requested) {
            Some(request) => Some(NextStep::calling(
                Call::Test(request),
                Pending::Waiting(requested),
            )),
            None => None,
        }
    }

    fn cancel(&self, requested: &RequestName) -> Option<NextStep>
        ensures { cancels_for (request_named self.now requested.now) self.now ≡ (result, self.now) }
    {
        match self.request_named(requested) {
            Some(request) => Some(NextStep::calling(Call::Cancel(request), Pending::Nothing)),
            None => None,
        }
    }

    /// The requests that a line names, if each is set.
    fn requests_named(
        &self,
        several: &[RequestName],
    ) -> Result<Option<Vec<Option<Request>>>, AllocError>
        ensures { IfOk result (λ requests. AreListed (requests_named self.now several.now) requests) }
    {
        let mut requests = Vec::with_capacity(self.alloc, several.len())?;
        for requested in several {
            match self.request_named(requested) {
                Some(request) => requests.push(request)?,
                None => return Ok(None),
            }
        }
        Ok(Some(requests))
    }

    /// The list of the requests that a line names, if each is set.
    fn listed_named(&self, several: &RequestNames) -> Result<Option<RequestList>, AllocError>
        ensures { IfOk result (λ list. list ≡ listed_named self.now several.now) }
    {
        match self.requests_named(several.as_slice())? {
            Some(requests) => Ok(Some(RequestList::new(self.alloc, requests)?)),
            None => Ok(None),
        }
    }

    fn wait_any(&self, several: RequestNames) -> Result<Option<NextStep>, AllocError>
        ensures { IfOk result (λ next.
            waits_for_several Call.Waitany several (requests_named self.now several) self.now ≡ (next, self.now)) }
    {
        match self.listed_named(&several)? {
            Some(list) => Ok(Some(NextStep::calling(
                Call::Waitany(list),
                Pending::WaitingForSeveral(several),
            ))),
            None => Ok(None),
        }
    }

    fn wait_all(&self, several: RequestNames) -> Result<Option<NextStep>, AllocError>
        ensures { IfOk result (λ next.
            waits_for_several Call.Waitall several (requests_named self.now several) self.now ≡ (next, self.now)) }
    {
        match self.listed_named(&several)? {
            Some(list) => Ok(Some(NextStep::calling(
                Call::Waitall(list),
                Pending::WaitingForSeveral(several),
            ))),
            None => Ok(None),
        }
    }

    fn ask_rank(&self, communicator: &CommunicatorName) -> Option<NextStep>
        ensures { asks_rank (place_named self.now communicator.now) self.now ≡ (result, self.now) }
    {
        match self.place_named(communicator) {
            Some(comm) => {
                let call = Call::Ask(comm, Question::Rank);
                Some(NextStep::calling(call, Pending::AskingRank(comm)))
            }
            None => None,
        }
    }

    fn ask_group(&self, communicator: &CommunicatorName) -> Option<NextStep>
        ensures { asks_group (place_named self.now communicator.now) self.now ≡ (result, self.now) }
    {
        match self.place_named(communicator) {
            Some(comm) => Some(NextStep::calling(
                Call::Ask(comm, Question::Group),
                Pending::Nothing,
            )),
            None => None,
        }
    }

    fn compare(&self, one: &CommunicatorName, other: &CommunicatorName) -> Option<NextStep>
        ensures { compares (place_named self.now one.now) (place_named self.now other.now) self.now ≡
            (result, self.now) }
    {
        let (Some(comm), Some(other)) = (self.place_named(one), self.place_named(other)) else {
            return None;
        };
        Some(NextStep::calling(Call::Ask(comm, Question::Compare(other)), Pending::Nothing))
    }

    /// What concerns a communicator as a whole: a collective, or a question about it.
    fn act_together(&mut self, action: Action) -> Result<Option<NextStep>, AllocError>
        requires { IsTogether action }
        ensures { IfOk result (λ next. acts_on action self.old ≡ (next, self.new)) }
    {
        match action {
            Action::Barrier(communicator) => {
                Ok(self.enter(&communicator, Entry::Barrier, Pending::Entering(None)))
            }
            Action::Bcast(said) => self.broadcast(said),
            Action::Gather(said) => self.gather(said),
            Action::Scatter(said) => self.scatter(said),
            Action::Reduce(said) => self.reduce(said),
            Action::Allreduce(said) => self.reduce_to_all(said),
            Action::Dup(name, communicator) => {
                Ok(self.enter(&communicator, Entry::Dup, Pending::Making(name)))
            }
            Action::Split(name, splitting) => Ok(self.enter(
                &splitting.communicator,
                split_by(&splitting),
                Pending::Making(name),
            )),
            Action::Who(communicator) => Ok(self.ask_rank(&communicator)),
            Action::Members(communicator) => Ok(self.ask_group(&communicator)),
            Action::Compare(one, other) => Ok(self.compare(&one, &other)),
            _ => unreachable!(),
        }
    }

    /// What comes next of a statement. None where it uses a name that isn't set, or a buffer that is lent: it is
    /// faulty, and nothing changes. The only error is want of memory.
    // What concerns a communicator stands apart: a function pays at its entry for the locals of all its cases, and most
    // statements are sends, receives and waits.
    pub fn act(&mut self, action: Action) -> Result<Option<NextStep>, AllocError>
        ensures { IfOk result (λ next. acts_on action self.old ≡ (next, self.new)) }
    {
        match action {
            Action::Buffer(line) => self.set_line(line),
            Action::Layout(line) => {
                let next = self.set_layout_line(&line);
                drop(line);
                next
            }
            Action::Isend(name, sending) => {
                let next = self.send(Mode::Standard, Pending::Starting(name, None), &sending);
                drop(sending);
                next
            }
            Action::Issend(name, sending) => {
                let next = self.send(Mode::Synchronous, Pending::Starting(name, None), &sending);
                drop(sending);
                next
            }
            Action::Irecv(name, receiving) => self.receive(name, receiving),
            Action::Iprobe(probing) => Ok(self.look(&probing)),
            Action::Improbe(name, probing) => Ok(self.search(name, &probing)),
            Action::Mrecv(name, landing) => self.receive_message(name, landing),
            Action::Wait(requested) => Ok(self.wait(requested)),
            Action::Test(requested) => Ok(self.test(requested)),
            Action::Cancel(requested) => Ok(self.cancel(&requested)),
            Action::Waitany(several) => self.wait_any(several),
            Action::Waitall(several) => self.wait_all(several),
            together => self.act_together(together),
        }
    }

    /// Why a statement can't be followed by what the names stand for now: the first of the names that it uses that
    /// isn't set, or whose buffer is lent. None where it can be followed. The only error is want of memory.
    #[tactic(auto, using(crate::proofs::FaultLaws::action_faults))]
    pub fn lack_of(&self, action: &Action) -> Result<Option<LineFault>, AllocError>
        ensures exact { IfOk result (λ fault. fault ≡ lack_of_action (holdings self.now) action.now) }
        ensures faulty { IfOk result (λ fault. FaultyWhere fault (acts_on action.now self.now) self.now) }
    {
        lack_of_action(self.alloc, self, action)
    }

    /// A send that is waited for in the same statement.
    pub fn send_to_wait(&self, sending: &Sending) -> Result<Option<NextStep>, AllocError>
        ensures { IfOk result (λ next. sends_to_wait sending.now self.now ≡ (next, self.now)) }
    {
        self.send(Mode::Standard, Pending::StartingToWait(None), sending)
    }

    /// A receive that is waited for in the same statement.
    pub fn receive_to_wait(&mut self, receiving: Receiving) -> Result<Option<NextStep>, AllocError>
        ensures { IfOk result (λ next. receives_to_wait receiving self.old ≡ (next, self.new)) }
    {
        let call = self.lend_for(&receiving)?;
        let pending = Pending::StartingToWait(Some(receiving.buffer));
        Ok(asked_by(call, pending))
    }

    /// How many whole copies of the layout of this name the last status counts, if that layout is set; none where what
    /// came is no whole number of them (MPI 3.1, 3.2.5).
    pub fn count_of(&self, name: &Name) -> Option<Option<u64>>
        ensures { result ≡ count_of self.now name.now }
    {
        match self.layouts.get(name) {
            Some(layout) => Some(layout.get_count(self.last.count)),
            None => None,
        }
    }
}

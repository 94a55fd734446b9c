//! Receives of messages that a matching probe took out: which rule one breaks, and how it is answered (MPI 3.1, 3.8.3).

ghost use Rattle.std.specs.Prelude.{◌≡◌, IfErr, IfOk, None, OnErr, OnOk};
ghost use Rattle.point_to_point_calls.specs.CoreCalls as core_calls;
ghost use Rattle.point_to_point.specs.Calls.{CanCollect, call_frame};
ghost use Rattle.point_to_point.specs.Messages.{collection_on_message};
ghost use Rattle.engine_calls.specs.Asks.{IsAnswering, IsAsked, IsClear, MessageJudged, asked_fault, engine_of, groups_of};
ghost use Rattle.engine_calls.specs.Calls.{CoreGives};
ghost use Rattle.engine_calls.specs.EngineState.{GroupsState, Rest};
ghost use Rattle.engine_calls.specs.Frames.{after_frame};
ghost use Rattle.engine_calls.specs.declared.call.Call as engine_calls;
ghost use Rattle.engine_calls.specs.declared.call.Call.TheVariants as calls;

use crate::call::Call;
use crate::judgement::{is_busy, limit_of_frame, send_frame};
use crate::reply::Reply;
use crate::waits::reply_of_wait;
use communicators::Communicators;
use point_to_point::{Core, HandedBack, MessageReceive, Refusal, rule_of_region};
use rendezvous::Collection;
use requests::{Region, Request};
use sessions::Sessions;

/// The first rule or limit that the receive of a message meets by its region, or its answer.
fn fault_of_receive(core: &Core, sessions: &Sessions, receive: &MessageReceive) -> Option<Refusal>
    requires answering { IsAnswering core.now.state receive.now }
    requires place { core.now.state.place ≡ sessions.now.place }
    ensures { result ≡
        asked_fault core.now.state sessions.now None (core_calls.Mrecv receive.now.message receive.now.into) }
{
    // The place of the core shows how many ranks there are.
    let _place = core.place();
    if let Some(fault) = rule_of_region(&receive.into) {
        return Some(fault);
    }
    limit_of_frame(sessions, receive.answer)
}

/// What answers the sender of a message that is received; or the first rule or limit that the receive meets, whatever
/// memory there is.
pub fn judge_message(
    core: &Core,
    communicators: &Communicators,
    sessions: &Sessions,
    message: Option<Request>,
    into: Region,
) -> Result<MessageReceive, HandedBack<Region>>
    requires place { core.now.state.place ≡ sessions.now.place }
    ensures judged { (rest : Rest) →
        MessageJudged (engine_of core.now.state (groups_of communicators.now) rest sessions.now) message into result }
    ensures answering { IfOk result (λ receive. IsAnswering core.now.state receive) }
{
    if is_busy(core, communicators) {
        return Err(HandedBack {
            refused: Refusal::Request,
            value: into,
        });
    }
    if let Some(refused) = core.fault_of_message(message) {
        return Err(HandedBack {
            refused,
            value: into,
        });
    }
    let answer = core.answer_of_message(message, &into);
    let receive = MessageReceive {
        message,
        into,
        answer,
    };
    match fault_of_receive(core, sessions, &receive) {
        None => Ok(receive),
        Some(refused) => Err(HandedBack {
            refused,
            value: receive.into,
        }),
    }
}

/// Makes way for the receive of a message that breaks no rule and meets no limit: the place for its data is made ready,
/// and its sender is answered.
fn make_way(
    core: &mut Core,
    sessions: &mut Sessions,
    receive: &MessageReceive,
) -> Result<Option<Collection>, Refusal>
    requires answering { IsAnswering core.old.state receive.now }
    requires clear { IsClear core.old.state sessions.old (core_calls.Mrecv receive.now.message receive.now.into) }
    requires place { core.old.state.place ≡ sessions.old.place }
    ensures sent { OnOk result (sessions.new ≡
        after_frame sessions.old
        (call_frame core.old.state (core_calls.Mrecv receive.now.message receive.now.into))) }
    ensures unchanged { OnErr result (sessions.new ≡ sessions.old) }
    ensures room { IfOk result (λ collection.
        CanCollect (collection_on_message core.new.state receive.now.message receive.now.into) core.new collection) }
    ensures err { IfErr result (λ e. e ≡ Refusal.OutOfMemory) }
    ensures kept { core.new.state ≡ core.old.state }
    ensures payloads { core.new.payloads ≡ core.old.payloads }
{
    let collection = core.prepare_message(receive.message, &receive.into)?;
    match send_frame(sessions, receive.answer) {
        Ok(()) => Ok(collection),
        Err(refused) => Err(refused),
    }
}

/// Receives a message, where no rule is broken and no limit met; or the call comes back for want of memory.
fn start_receive(core: &mut Core, sessions: &mut Sessions, receive: MessageReceive) -> Reply
    requires answering { IsAnswering core.old.state receive }
    requires clear { IsClear core.old.state sessions.old (core_calls.Mrecv receive.message receive.into) }
    requires place { core.old.state.place ≡ sessions.old.place }
    ensures exact { (g : GroupsState) (rest : Rest) (call : engine_calls.Call) →
        IsAsked (engine_of core.old.state g rest sessions.old) call (core_calls.Mrecv receive.message receive.into) →
        CoreGives (engine_of core.old.state g rest sessions.old) call result
        (engine_of core.new.state g rest sessions.new) }
    ensures payloads { core.new.payloads ≡ core.old.payloads }
{
    match make_way(core, sessions, &receive) {
        Ok(collection) => {
            reply_of_wait(core.receive_message(receive.message, receive.into, collection))
        }
        Err(refused) => Reply::Refused(refused, Call::Mrecv(receive.message, receive.into)),
    }
}

/// Answers the receive of a message: with its outcome, or by being blocked; or it is refused.
pub fn mrecv(
    core: &mut Core,
    communicators: &Communicators,
    sessions: &mut Sessions,
    message: Option<Request>,
    into: Region,
) -> Reply
    requires place { core.old.state.place ≡ sessions.old.place }
    ensures exact { (rest : Rest) →
        CoreGives (engine_of core.old.state (groups_of communicators.now) rest sessions.old) (calls.Mrecv message into)
        result (engine_of core.new.state (groups_of communicators.now) rest sessions.new) }
    ensures payloads { core.new.payloads ≡ core.old.payloads }
{
    match judge_message(core, communicators, sessions, message, into) {
        Ok(receive) => start_receive(core, sessions, receive),
        Err(handed) => Reply::Refused(handed.refused, Call::Mrecv(message, handed.value)),
    }
}

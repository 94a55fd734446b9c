//! Sends: which rule one breaks, and how it is started.

ghost use Rattle.std.specs.Prelude.{◌≡◌, IfErr, IfOk, None, OnErr, OnOk};
ghost use Rattle.point_to_point_calls.specs.Calls.{IsWithin};
ghost use Rattle.point_to_point_calls.specs.CoreCalls as core_calls;
ghost use Rattle.point_to_point_calls.specs.SendRules.{IsAddressed};
ghost use Rattle.point_to_point.specs.Calls.{CanSend, argument_fault, call_frame, limit_fault};
ghost use Rattle.engine_calls.specs.Asks.{IsAsked, IsClear, SendJudged, asked_fault, engine_of, groups_of};
ghost use Rattle.engine_calls.specs.Calls.{CoreGives};
ghost use Rattle.engine_calls.specs.EngineState.{GroupsState, Rest};
ghost use Rattle.engine_calls.specs.Frames.{after_frame, frame_limit};
ghost use Rattle.engine_calls.specs.Refusals.{first_fault};
ghost use Rattle.engine_calls.specs.declared.call.Call as engine_calls;
ghost use Rattle.engine_calls.specs.declared.call.Call.TheVariants as calls;

use crate::call::Call;
use crate::judgement::{call_route, is_busy, limit_to, rule_of_target, send_frame};
use crate::reply::Reply;
use communicators::Communicators;
use datatypes::Buffer;
use point_to_point::{AddressedSend, Core, HandedBack, Refusal, RoutedSend, address, show_widths};
use point_to_point_calls::{Send, fault_of, rank_to};
use sessions::Sessions;

/// The limit that a send meets, or its frame.
fn limit_of_send(core: &Core, sessions: &Sessions, send: &AddressedSend) -> Option<Refusal>
    requires addressed { IsAddressed core.now.state.place send.now }
    requires arguments { argument_fault core.now.state.place (core_calls.Isend send.now.routed) ≡ None }
    requires place { core.now.state.place ≡ sessions.now.place }
    ensures { result ≡
        first_fault (limit_fault core.now.state (core_calls.Isend send.now.routed))
        (frame_limit sessions.now (call_frame core.now.state (core_calls.Isend send.now.routed))) }
{
    match core.limit_of_send(send) {
        Some(limit) => Some(limit),
        None => limit_to(sessions, rank_to(core.place(), send.destination)),
    }
}

/// The first rule or limit that a send meets, where a rule of its communicator stands between the two.
fn fault_of_send(
    core: &Core,
    sessions: &Sessions,
    rule: Option<Refusal>,
    send: &AddressedSend,
) -> Option<Refusal>
    requires addressed { IsAddressed core.now.state.place send.now }
    requires place { core.now.state.place ≡ sessions.now.place }
    ensures exact { result ≡ asked_fault core.now.state sessions.now rule (core_calls.Isend send.now.routed) }
    ensures within { IsWithin (core_calls.Isend send.now.routed) }
{
    show_widths(&send.routed);
    if let Some(fault) = fault_of(core.place(), &send.routed) {
        return Some(fault);
    }
    match rule {
        Some(rule) => Some(rule),
        None => limit_of_send(core, sessions, send),
    }
}

/// Where the message of a send goes; or the first rule or limit that the send meets, whatever memory there is.
pub fn judge_send(
    core: &Core,
    communicators: &Communicators,
    sessions: &Sessions,
    send: Send,
) -> Result<AddressedSend, HandedBack<Send>>
    requires place { core.now.state.place ≡ sessions.now.place }
    ensures { (rest : Rest) →
        SendJudged (engine_of core.now.state (groups_of communicators.now) rest sessions.now) send result }
{
    if is_busy(core, communicators) {
        return Err(HandedBack {
            refused: Refusal::Request,
            value: send,
        });
    }
    let Some(route) = communicators.route(sessions.incarnations(), send.comm, send.target) else {
        return Err(HandedBack {
            refused: Refusal::Communicator,
            value: send,
        });
    };
    let rule = rule_of_target(route, send.target);
    let route = call_route(route);
    let addressed = address(core.place(), RoutedSend { route, send });
    match fault_of_send(core, sessions, rule, &addressed) {
        None => Ok(addressed),
        Some(refused) => Err(HandedBack {
            refused,
            value: addressed.routed.send,
        }),
    }
}

/// Makes way for a send that breaks no rule and meets no limit: its data are packed where they don't stand in order, and
/// its frame, if it has one, is sent.
fn make_way(
    core: &mut Core,
    sessions: &mut Sessions,
    send: &AddressedSend,
) -> Result<Option<Buffer>, Refusal>
    requires addressed { IsAddressed core.old.state.place send.now }
    requires clear { IsClear core.old.state sessions.old (core_calls.Isend send.now.routed) }
    requires place { core.old.state.place ≡ sessions.old.place }
    ensures sent { OnOk result (sessions.new ≡
        after_frame sessions.old (call_frame core.old.state (core_calls.Isend send.now.routed))) }
    ensures unchanged { OnErr result (sessions.new ≡ sessions.old) }
    ensures room { IfOk result (λ packed. CanSend core.new send.now.routed packed) }
    ensures err { IfErr result (λ e. e ≡ Refusal.OutOfMemory) }
    ensures kept { core.new.state ≡ core.old.state }
    ensures payloads { core.new.payloads ≡ core.old.payloads }
{
    let packed = core.prepare_send(send)?;
    match send_frame(sessions, core.frame_of_send(send, &packed)) {
        Ok(()) => Ok(packed),
        Err(refused) => Err(refused),
    }
}

/// Starts a send that breaks no rule and meets no limit; or it comes back for want of memory.
fn start_send(core: &mut Core, sessions: &mut Sessions, send: AddressedSend) -> Reply
    requires addressed { IsAddressed core.old.state.place send }
    requires clear { IsClear core.old.state sessions.old (core_calls.Isend send.routed) }
    requires place { core.old.state.place ≡ sessions.old.place }
    ensures exact { (g : GroupsState) (rest : Rest) (call : engine_calls.Call) →
        IsAsked (engine_of core.old.state g rest sessions.old) call (core_calls.Isend send.routed) →
        CoreGives (engine_of core.old.state g rest sessions.old) call result
        (engine_of core.new.state g rest sessions.new) }
    ensures payloads { core.new.payloads ≡ core.old.payloads }
{
    match make_way(core, sessions, &send) {
        Ok(packed) => Reply::Started(core.send(send, packed)),
        Err(refused) => Reply::Refused(refused, Call::Isend(send.routed.send)),
    }
}

/// Answers a send: it is started, or refused.
pub fn isend(
    core: &mut Core,
    communicators: &Communicators,
    sessions: &mut Sessions,
    send: Send,
) -> Reply
    requires place { core.old.state.place ≡ sessions.old.place }
    ensures exact { (rest : Rest) →
        CoreGives (engine_of core.old.state (groups_of communicators.now) rest sessions.old) (calls.Isend send) result
        (engine_of core.new.state (groups_of communicators.now) rest sessions.new) }
    ensures payloads { core.new.payloads ≡ core.old.payloads }
{
    match judge_send(core, communicators, sessions, send) {
        Ok(addressed) => start_send(core, sessions, addressed),
        Err(handed) => Reply::Refused(handed.refused, Call::Isend(handed.value)),
    }
}

//! Receives: which rule one breaks, and how it is started.

ghost use Rattle.std.specs.Prelude.{◌≡◌, IfErr, IfOk, None, OnErr, OnOk};
ghost use Rattle.point_to_point_calls.specs.CoreCalls as core_calls;
ghost use Rattle.point_to_point.specs.Calls.{CanReceiveNow, IsSought, call_frame};
ghost use Rattle.engine_calls.specs.Asks.{IsAsked, IsClear, ReceiveJudged, asked_fault, engine_of, group_of, groups_of};
ghost use Rattle.engine_calls.specs.Asks.{receive_group};
ghost use Rattle.engine_calls.specs.Calls.{CoreGives};
ghost use Rattle.engine_calls.specs.EngineState.{GroupsState, Rest};
ghost use Rattle.engine_calls.specs.Faults.{group_limit};
ghost use Rattle.engine_calls.specs.Frames.{after_frame};
ghost use Rattle.engine_calls.specs.declared.call.Call as engine_calls;
ghost use Rattle.engine_calls.specs.declared.call.Call.TheVariants as calls;

use crate::call::Call;
use crate::judgement::{call_route, is_busy, limit_of_frame, rule_of_source, send_frame, shared};
use crate::reply::Reply;
use communicators::Communicators;
use point_to_point::{Core, HandedBack, Refusal, RoutedReceive, SoughtReceive, rule_of_receive};
use point_to_point_calls::Receive;
use rendezvous::Collection;
use sessions::Sessions;
use std::alloc::Global;

/// A receive that breaks no rule and meets no limit.
#[derive(Drop)]
pub struct JudgedReceive<'a> {
    /// The receive, and the message that it would take.
    pub sought: SoughtReceive,
    /// The group by which its status names the source (MPI 3.1, 3.2.5); none is that of `world`.
    pub group: Option<&'a [u16]>,
}

/// The first rule or limit that a receive meets, where a rule of its communicator stands between the two.
fn fault_of_receive(
    core: &Core,
    sessions: &Sessions,
    rule: Option<Refusal>,
    sought: &SoughtReceive,
) -> Option<Refusal>
    requires sought { IsSought core.now sought.now }
    requires place { core.now.state.place ≡ sessions.now.place }
    ensures { result ≡ asked_fault core.now.state sessions.now rule (core_calls.Irecv sought.now.routed) }
{
    if let Some(fault) = rule_of_receive(core.place().size, &sought.routed) {
        return Some(fault);
    }
    if let Some(rule) = rule {
        return Some(rule);
    }
    if let Some(limit) = core.limit_of_receive() {
        return Some(limit);
    }
    limit_of_frame(sessions, sought.answer)
}

/// The message that a receive would take; or the first rule or limit that the receive meets, whatever memory there is.
pub fn judge_receive<'a>(
    core: &Core,
    communicators: &'a Communicators,
    sessions: &Sessions,
    receive: Receive,
) -> Result<JudgedReceive<'a>, HandedBack<Receive>>
    requires place { core.now.state.place ≡ sessions.now.place }
    ensures judged { (rest : Rest) →
        ReceiveJudged (engine_of core.now.state (groups_of communicators.now) rest sessions.now) receive result }
    ensures sought { IfOk result (λ judged. IsSought core.now judged.sought) }
{
    if is_busy(core, communicators) {
        return Err(HandedBack {
            refused: Refusal::Request,
            value: receive,
        });
    }
    let Some(route) = communicators.route(sessions.incarnations(), receive.comm, receive.source)
    else {
        return Err(HandedBack {
            refused: Refusal::Communicator,
            value: receive,
        });
    };
    let sought = core.seek(RoutedReceive {
        route: call_route(route),
        group: None,
        receive,
    });
    match fault_of_receive(core, sessions, rule_of_source(route), &sought) {
        None => Ok(JudgedReceive {
            sought,
            group: route.group,
        }),
        Some(refused) => Err(HandedBack {
            refused,
            value: sought.routed.receive,
        }),
    }
}

/// Makes way for a receive that breaks no rule and meets no limit: the place for its data is made ready, and the message
/// that was found for it is answered.
fn make_way(
    core: &mut Core,
    sessions: &mut Sessions,
    sought: &SoughtReceive,
) -> Result<Option<Collection>, Refusal>
    requires sought { IsSought core.old sought.now }
    requires clear { IsClear core.old.state sessions.old (core_calls.Irecv sought.now.routed) }
    requires place { core.old.state.place ≡ sessions.old.place }
    ensures sent { OnOk result (sessions.new ≡
        after_frame sessions.old (call_frame core.old.state (core_calls.Irecv sought.now.routed))) }
    ensures unchanged { OnErr result (sessions.new ≡ sessions.old) }
    ensures room { IfOk result (λ collection. CanReceiveNow core.new sought.now.routed collection) }
    ensures sought { IsSought core.new sought.now }
    ensures err { IfErr result (λ e. e ≡ Refusal.OutOfMemory) }
    ensures kept { core.new.state ≡ core.old.state }
    ensures payloads { core.new.payloads ≡ core.old.payloads }
{
    let collection = core.prepare_receive(sought)?;
    match send_frame(sessions, sought.answer) {
        Ok(()) => Ok(collection),
        Err(refused) => Err(refused),
    }
}

/// Starts a receive that breaks no rule and meets no limit; or it comes back for want of memory.
fn start_receive(
    alloc: Global,
    core: &mut Core,
    sessions: &mut Sessions,
    judged: JudgedReceive<'_>,
) -> Reply
    requires sought { IsSought core.old judged.sought }
    requires group { group_limit (receive_group judged) ≡ None }
    requires clear { IsClear core.old.state sessions.old (core_calls.Irecv judged.sought.routed) }
    requires place { core.old.state.place ≡ sessions.old.place }
    ensures exact { (g : GroupsState) (rest : Rest) (call : engine_calls.Call) →
        group_of g (core_calls.Irecv judged.entry.sought.routed) ≡ receive_group judged.entry →
        IsAsked (engine_of core.old.state g rest sessions.old) call (core_calls.Irecv judged.entry.sought.routed) →
        CoreGives (engine_of core.old.state g rest sessions.old) call result
        (engine_of core.new.state g rest sessions.new) }
    ensures payloads { core.new.payloads ≡ core.old.payloads }
{
    let JudgedReceive { sought, group } = judged;
    let Ok(group) = shared(alloc, group) else {
        let SoughtReceive { routed, .. } = sought;
        return Reply::Refused(Refusal::OutOfMemory, Call::Irecv(routed.receive));
    };
    match make_way(core, sessions, &sought) {
        Ok(collection) => Reply::Started(core.receive(sought, group, collection)),
        Err(refused) => {
            let SoughtReceive { routed, .. } = sought;
            Reply::Refused(refused, Call::Irecv(routed.receive))
        }
    }
}

/// Answers a receive: it is started, or refused.
pub fn irecv(
    alloc: Global,
    core: &mut Core,
    communicators: &Communicators,
    sessions: &mut Sessions,
    receive: Receive,
) -> Reply
    requires place { core.old.state.place ≡ sessions.old.place }
    ensures exact { (rest : Rest) →
        CoreGives (engine_of core.old.state (groups_of communicators.now) rest sessions.old) (calls.Irecv receive) result
        (engine_of core.new.state (groups_of communicators.now) rest sessions.new) }
    ensures payloads { core.new.payloads ≡ core.old.payloads }
{
    match judge_receive(core, communicators, sessions, receive) {
        Ok(judged) => start_receive(alloc, core, sessions, judged),
        Err(handed) => Reply::Refused(handed.refused, Call::Irecv(handed.value)),
    }
}

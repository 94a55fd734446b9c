//! Probes: which rule one breaks, what it sees, and how a message is taken out of matching.

ghost use Rattle.std.specs.Prelude.{◌≡◌, IfOk, None};
ghost use Rattle.communicators.specs.Routes.{route_text};
ghost use Rattle.point_to_point_calls.specs.CoreCalls as core_calls;
ghost use Rattle.point_to_point.specs.Calls.{IsSoughtProbe};
ghost use Rattle.point_to_point.specs.Messages.{looked, probe_rule, search_limit};
ghost use Rattle.sessions.specs.SessionsState.{SessionsState};
ghost use Rattle.engine_calls.specs.Asks.{IsAsked, LookGives, ProbeJudged, SearchJudged, engine_of, group_of, groups_of};
ghost use Rattle.engine_calls.specs.Asks.{probe_group, rule_of_source};
ghost use Rattle.engine_calls.specs.Calls.{CoreGives};
ghost use Rattle.engine_calls.specs.EngineState.{GroupsState, Rest};
ghost use Rattle.engine_calls.specs.Faults.{fault_of, group_limit};
ghost use Rattle.engine_calls.specs.Refusals.{first_fault};
ghost use Rattle.engine_calls.specs.declared.call.Call as engine_calls;
ghost use Rattle.engine_calls.specs.declared.call.Call.TheVariants as calls;

use crate::call::Call;
use crate::judgement::{call_route, is_busy, rule_of_source, shared};
use crate::reply::Reply;
use communicator_members::status_among;
use communicators::{Communicators, Route};
use point_to_point::{Core, Refusal, RoutedProbe, SoughtProbe, rule_of_probe};
use point_to_point_calls::Probe;
use sessions::Sessions;
use std::alloc::Global;
use vocabulary::Status;

/// A matching probe that breaks no rule and meets no limit.
#[derive(Drop)]
pub struct JudgedProbe<'a> {
    /// The probe, and the message that it found.
    pub sought: SoughtProbe,
    /// The group by which its status names the source (MPI 3.1, 3.2.5); none is that of `world`.
    pub group: Option<&'a [u16]>,
}

/// The rule that a probe on a route breaks by what it names, or the limit that its group meets: 3, 5, 11 or 13.
fn rule_on_route(core: &Core, probe: Probe, route: Route<'_>) -> Option<Refusal>
    ensures { result ≡
        first_fault (probe_rule core.now.state.place.size (route_text route.entry).named probe.tag)
        (rule_of_source route.entry.is_beyond route.entry.is_replaced (route_text route.entry).group) }
{
    if let Some(fault) = rule_of_probe(core.place().size, route.named, probe.tag) {
        return Some(fault);
    }
    rule_of_source(route)
}

/// The route of a probe which breaks no rule, of 6, 4, 3, 5 and 11; and 13 for a group of more than 65,535 members, which
/// no job has.
fn judge_probe<'a>(
    core: &Core,
    communicators: &'a Communicators,
    sessions: &Sessions,
    probe: Probe,
) -> Result<Route<'a>, Refusal>
    ensures { ProbeJudged core.now.state (groups_of communicators.now) sessions.now probe result }
{
    if is_busy(core, communicators) {
        return Err(Refusal::Request);
    }
    let Some(route) = communicators.route(sessions.incarnations(), probe.comm, probe.source) else {
        return Err(Refusal::Communicator);
    };
    match rule_on_route(core, probe, route) {
        Some(fault) => Err(fault),
        None => Ok(route),
    }
}

/// The first rule that a probe breaks which takes nothing out, of 6, 4, 3, 5 and 11; and 13 for a group of more than
/// 65,535 members, which no job has. It takes no memory.
pub fn fault_of_look(
    core: &Core,
    communicators: &Communicators,
    sessions: &Sessions,
    probe: Probe,
) -> Option<Refusal>
    ensures { (rest : Rest) →
        result ≡ fault_of (engine_of core.now.state (groups_of communicators.now) rest sessions.now)
        (calls.Iprobe probe) }
{
    match judge_probe(core, communicators, sessions, probe) {
        Ok(_) => None,
        Err(fault) => Some(fault),
    }
}

/// What a probe on this route finds: the status of the message that such a receive would take now, by the group of its
/// communicator.
#[tactic(auto, using(crate::proofs::Looks::few_members, crate::proofs::Looks::found_by, crate::proofs::Looks::none_found))]
fn found_on(core: &Core, probe: Probe, route: Route<'_>) -> Option<Status>
    requires { group_limit (route_text route).group ≡ None }
    ensures { result ≡ looked core.now.state (route_text route.entry).named probe.tag (route_text route.entry).context
        (route_text route.entry).group }
{
    match core.look(route.named, probe.tag, route.context) {
        Some(status) => Some(status_among(route.group, status)),
        None => None,
    }
}

/// What a probe finds which takes nothing out, or the first rule that it breaks (MPI 3.1, 3.8.1). It takes no memory.
pub fn look(
    core: &Core,
    communicators: &Communicators,
    sessions: &Sessions,
    probe: Probe,
) -> Result<Option<Status>, Refusal>
    ensures { (rest : Rest) →
        LookGives (engine_of core.now.state (groups_of communicators.now) rest sessions.now) probe result }
{
    match judge_probe(core, communicators, sessions, probe) {
        Ok(route) => Ok(found_on(core, probe, route)),
        Err(fault) => Err(fault),
    }
}

/// The message that a matching probe found; or the first rule or limit that the probe meets, whatever memory there is.
pub fn judge_search<'a>(
    core: &Core,
    communicators: &'a Communicators,
    sessions: &Sessions,
    probe: Probe,
) -> Result<JudgedProbe<'a>, Refusal>
    ensures judged { (rest : Rest) →
        SearchJudged (engine_of core.now.state (groups_of communicators.now) rest sessions.now) probe result }
    ensures sought { IfOk result (λ judged. IsSoughtProbe core.now judged.sought) }
{
    match judge_probe(core, communicators, sessions, probe) {
        Ok(route) => {
            let sought = core.seek_for_probe(RoutedProbe {
                route: call_route(route),
                group: None,
                probe,
            });
            match core.limit_of_search(&sought) {
                None => Ok(JudgedProbe {
                    sought,
                    group: route.group,
                }),
                Some(limit) => Err(limit),
            }
        }
        Err(fault) => Err(fault),
    }
}

/// Takes the message out that a matching probe found, which breaks no rule and meets no limit; or it comes back for want
/// of memory.
fn take_out(alloc: Global, core: &mut Core, judged: JudgedProbe<'_>) -> Reply
    requires sought { IsSoughtProbe core.old judged.sought }
    requires group { group_limit (probe_group judged) ≡ None }
    requires limit { search_limit judged.sought.routed.route.named core.old.state judged.sought.routed ≡ None }
    ensures exact { (g : GroupsState) (rest : Rest) (s : SessionsState) (call : engine_calls.Call) →
        group_of g (core_calls.Improbe judged.entry.sought.routed) ≡ probe_group judged.entry →
        IsAsked (engine_of core.old.state g rest s) call (core_calls.Improbe judged.entry.sought.routed) →
        CoreGives (engine_of core.old.state g rest s) call result (engine_of core.new.state g rest s) }
    ensures payloads { core.new.payloads ≡ core.old.payloads }
{
    let JudgedProbe { sought, group } = judged;
    let probe = sought.routed.probe;
    let Ok(group) = shared(alloc, group) else {
        return Reply::Refused(Refusal::OutOfMemory, Call::Improbe(probe));
    };
    match core.prepare_search(&sought) {
        Ok(()) => Reply::Matched(core.search(sought, group)),
        Err(refused) => Reply::Refused(refused, Call::Improbe(probe)),
    }
}

/// Answers a matching probe: with what it took out, or none; or it is refused.
pub fn improbe(
    alloc: Global,
    core: &mut Core,
    communicators: &Communicators,
    sessions: &Sessions,
    probe: Probe,
) -> Reply
    ensures exact { (rest : Rest) →
        CoreGives (engine_of core.old.state (groups_of communicators.now) rest sessions.now) (calls.Improbe probe) result
        (engine_of core.new.state (groups_of communicators.now) rest sessions.now) }
    ensures payloads { core.new.payloads ≡ core.old.payloads }
{
    match judge_search(core, communicators, sessions, probe) {
        Ok(judged) => take_out(alloc, core, judged),
        Err(refused) => Reply::Refused(refused, Call::Improbe(probe)),
    }
}

//! What all calls of point to point are judged by.

ghost use Rattle.std.specs.Option.{option_copied};
ghost use Rattle.std.specs.Prelude.{◌≡◌, ◌||◌, ◌<◌, IfErr, IfOk, IfSome, Option, Some, None, OnErr, OnOk};
ghost use Rattle.std.specs.Prelude.{is_some, option_map};
ghost use Rattle.communicators.specs.Routes.{route_text};
ghost use Rattle.datagram.specs.Spellings.{FrameFits, OutgoingText, frame_text};
ghost use Rattle.perfect_groups.specs.Faults.{is_within};
ghost use Rattle.point_to_point_calls.specs.Frames.{addressed};
ghost use Rattle.engine_calls.specs.Asks.{groups_of, rule_of_source, rule_of_target};
ghost use Rattle.engine_calls.specs.EngineState.{member_of};
ghost use Rattle.engine_calls.specs.Faults.{group_limit};
ghost use Rattle.engine_calls.specs.Frames.{after_frame, frame_limit};
ghost use Rattle.engine_calls.specs.Routes.{call_route};

use crate::call::Call;
use crate::refusal::of_sessions;
use communicator_members::Members;
use communicators::{Communicators, Route};
use datagram::Outgoing;
use point_to_point::{Core, Refusal};
use point_to_point_calls::CallRoute;
use sessions::Sessions;
use std::alloc::Global;
use vocabulary::Source;

/// A call, with the first rule or limit that it meets.
#[derive(Drop)]
pub struct JudgedCall {
    /// The first rule or limit that it meets, whatever memory there is.
    pub fault: Option<Refusal>,
    /// The call, as it was handed in.
    pub call: Call,
}

/// Whether an earlier call is blocked, on requests or in a collective.
pub(crate) fn is_busy(core: &Core, communicators: &Communicators) -> bool
    ensures { result ≡ (is_some core.now.state.blocked || is_within (member_of (groups_of communicators.now)).present) }
{
    core.is_blocked() || communicators.is_inside()
}

/// What of a route the core looks at.
pub(crate) fn call_route(route: Route<'_>) -> CallRoute
    ensures { result ≡ call_route (route_text route.entry) }
{
    CallRoute {
        named: route.named,
        context: route.context,
    }
}

/// The rule that a send on a route breaks by the rank that it names: 5 or 11.
pub(crate) fn rule_of_target(route: Route<'_>, target: Source) -> Option<Refusal>
    ensures { result ≡ rule_of_target route.entry.is_beyond route.entry.is_replaced target }
{
    if let Source::Any = target {
        return Some(Refusal::Rank);
    }
    if route.is_beyond {
        return Some(Refusal::Rank);
    }
    if route.is_replaced {
        return Some(Refusal::Replaced);
    }
    None
}

/// The limit that a group meets which receives are to share: 65,535 members.
fn limit_of_group(group: Option<&[u16]>) -> Option<Refusal>
    ensures { result ≡ group_limit (option_copied group.entry) }
{
    match group {
        Some(ranks) if 65_535 < ranks.len() => Some(Refusal::Limit),
        _ => None,
    }
}

/// The rule that a receive or a probe on a route breaks by the rank that it names, or the limit that its group meets: 5,
/// 11 or 13.
pub(crate) fn rule_of_source(route: Route<'_>) -> Option<Refusal>
    ensures { result ≡ rule_of_source route.entry.is_beyond route.entry.is_replaced (route_text route.entry).group }
{
    if route.is_beyond {
        return Some(Refusal::Rank);
    }
    if route.is_replaced {
        return Some(Refusal::Replaced);
    }
    limit_of_group(route.group)
}

/// The limit that a frame to a rank meets.
fn limit_to_rank(sessions: &Sessions, rank: u16) -> Option<Refusal>
    requires { rank < sessions.now.place.size }
    ensures { (f : Option OutgoingText) → option_map (λ t. t.target) f ≡ Some rank → result ≡ frame_limit sessions.now f }
{
    match sessions.limit_to(rank) {
        Some(limit) => Some(of_sessions(limit)),
        None => None,
    }
}

/// The limit that a frame to another rank meets, where one goes to this rank.
pub(crate) fn limit_to(sessions: &Sessions, rank: Option<u16>) -> Option<Refusal>
    requires { IfSome rank (λ r. r < sessions.now.place.size) }
    ensures { (f : Option OutgoingText) → option_map (λ t. t.target) f ≡ rank → result ≡ frame_limit sessions.now f }
{
    match rank {
        Some(rank) => limit_to_rank(sessions, rank),
        None => None,
    }
}

/// The limit that a frame meets, if there is one.
pub(crate) fn limit_of_frame(sessions: &Sessions, frame: Option<Outgoing<'_>>) -> Option<Refusal>
    requires { IfSome frame (λ a. a.target < sessions.now.place.size) }
    ensures { result ≡ frame_limit sessions.now (addressed frame.entry) }
{
    match frame {
        Some(frame) => limit_to_rank(sessions, frame.target),
        None => None,
    }
}

/// The group by which a status names the source, to be shared among receives. It fails for want of memory alone.
pub(crate) fn shared(alloc: Global, group: Option<&[u16]>) -> Result<Option<Members>, Refusal>
    requires { group_limit (option_copied group) ≡ None }
    ensures ok { IfOk result (λ members. members ≡ option_copied group.entry) }
    ensures err { IfErr result (λ e. e ≡ Refusal.OutOfMemory) }
{
    match group {
        Some(ranks) => match Members::from_slice(alloc, ranks) {
            Ok(members) => Ok(Some(members)),
            Err(_) => Err(Refusal::OutOfMemory),
        },
        None => Ok(None),
    }
}

/// Sends a frame to another rank, if there is one, which meets no limit.
pub(crate) fn send_frame(
    sessions: &mut Sessions,
    frame: Option<Outgoing<'_>>,
) -> Result<(), Refusal>
    requires fits { IfSome frame (λ a. FrameFits (frame_text a.frame)) }
    requires there { IfSome frame (λ a. a.target < sessions.old.place.size) }
    requires limit { frame_limit sessions.old (addressed frame) ≡ None }
    ensures sent { OnOk result (sessions.new ≡ after_frame sessions.old (addressed frame.entry)) }
    ensures unchanged { OnErr result (sessions.new ≡ sessions.old) }
    ensures err { IfErr result (λ e. e ≡ Refusal.OutOfMemory) }
{
    let Some(frame) = frame else {
        return Ok(());
    };
    match sessions.carry_out_judged(None, &[frame]) {
        Ok(()) => Ok(()),
        Err(_) => Err(Refusal::OutOfMemory),
    }
}

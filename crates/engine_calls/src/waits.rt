//! Waits, tests and cancels: which rule one breaks, and how it is answered (MPI 3.1, 3.7.3, 3.7.5 and 3.8.4).

ghost use Rattle.std.specs.Prelude.{◌≡◌, None, Some, false};
ghost use Rattle.requests.specs.Lists.{is_twice, named};
ghost use Rattle.point_to_point.specs.Completions.{tested, waited};
ghost use Rattle.sessions.specs.SessionsState.{SessionsState};
ghost use Rattle.engine_calls.specs.Asks.{engine_of, groups_of};
ghost use Rattle.engine_calls.specs.Calls.{CoreGives};
ghost use Rattle.engine_calls.specs.EngineState.{GroupsState, Rest};
ghost use Rattle.engine_calls.specs.Faults.{fault_of};
ghost use Rattle.engine_calls.specs.Routes.{core_reply};
ghost use Rattle.engine_calls.specs.declared.call.Call.TheVariants as calls;

use crate::call::Call;
use crate::judgement::is_busy;
use crate::reply::Reply;
use communicators::Communicators;
use point_to_point::{Core, Refusal};
use requests::{Answer, Awaited, AwaitedAll, OutcomeRoom, Request, RequestList};
use std::alloc::Global;

/// What a wait is answered with: the answer, or that the call is blocked until it is ready.
pub(crate) fn reply_of_wait(answer: Option<Answer>) -> Reply
    ensures { core_reply result ≡ Some (waited answer) }
{
    match answer {
        Some(answer) => Reply::Done(answer),
        None => Reply::Blocked,
    }
}

/// What a test is answered with: the answer, or that its request is unfinished.
fn reply_of_test(answer: Option<Answer>) -> Reply
    ensures { core_reply result ≡ Some (tested answer) }
{
    match answer {
        Some(answer) => Reply::Done(answer),
        None => Reply::Pending,
    }
}

/// The rule that a wait for a request breaks, or a test of it: 6. It takes no memory.
pub fn fault_of_wait(
    core: &Core,
    communicators: &Communicators,
    request: Option<Request>,
) -> Option<Refusal>
    ensures wait { (rest : Rest) (s : SessionsState) →
        result ≡ fault_of (engine_of core.now.state (groups_of communicators.now) rest s) (calls.Wait request) }
    ensures test { (rest : Rest) (s : SessionsState) →
        result ≡ fault_of (engine_of core.now.state (groups_of communicators.now) rest s) (calls.Test request) }
    ensures free { result ≡ None → core.now.state.blocked ≡ None }
{
    if is_busy(core, communicators) {
        return Some(Refusal::Request);
    }
    core.fault_of_wait(request)
}

/// The rule that a wait for requests of a list breaks: 6. It takes no memory.
pub fn fault_of_list(
    core: &Core,
    communicators: &Communicators,
    list: &RequestList,
) -> Option<Refusal>
    ensures any { (rest : Rest) (s : SessionsState) →
        result ≡ fault_of (engine_of core.now.state (groups_of communicators.now) rest s) (calls.Waitany list.now) }
    ensures all { (rest : Rest) (s : SessionsState) →
        result ≡ fault_of (engine_of core.now.state (groups_of communicators.now) rest s) (calls.Waitall list.now) }
    ensures free { result ≡ None → core.now.state.blocked ≡ None }
    ensures once { result ≡ None → is_twice (named list.now) ≡ false }
{
    if is_busy(core, communicators) {
        return Some(Refusal::Request);
    }
    core.fault_of_list(list)
}

/// The rule that a cancel breaks: 6. It takes no memory.
pub fn fault_of_cancel(
    core: &Core,
    communicators: &Communicators,
    request: Option<Request>,
) -> Option<Refusal>
    ensures { (rest : Rest) (s : SessionsState) →
        result ≡ fault_of (engine_of core.now.state (groups_of communicators.now) rest s) (calls.Cancel request) }
{
    if is_busy(core, communicators) {
        return Some(Refusal::Request);
    }
    core.fault_of_cancel(request)
}

/// Answers a wait for a request: with its outcome, or by being blocked; or it is refused.
pub fn wait(core: &mut Core, communicators: &Communicators, request: Option<Request>) -> Reply
    ensures exact { (rest : Rest) (s : SessionsState) →
        CoreGives (engine_of core.old.state (groups_of communicators.now) rest s) (calls.Wait request) result
        (engine_of core.new.state (groups_of communicators.now) rest s) }
    ensures payloads { core.new.payloads ≡ core.old.payloads }
{
    match fault_of_wait(core, communicators, request) {
        None => reply_of_wait(core.wait(Awaited::One(request))),
        Some(refused) => Reply::Refused(refused, Call::Wait(request)),
    }
}

/// Answers a test of a request: with its outcome, or that it is unfinished; or it is refused.
pub fn test(core: &mut Core, communicators: &Communicators, request: Option<Request>) -> Reply
    ensures exact { (rest : Rest) (s : SessionsState) →
        CoreGives (engine_of core.old.state (groups_of communicators.now) rest s) (calls.Test request) result
        (engine_of core.new.state (groups_of communicators.now) rest s) }
    ensures payloads { core.new.payloads ≡ core.old.payloads }
{
    match fault_of_wait(core, communicators, request) {
        None => reply_of_test(core.test(request)),
        Some(refused) => Reply::Refused(refused, Call::Test(request)),
    }
}

/// Answers a wait for any request of a list: with the outcome of the first that is finished, or by being blocked; or it
/// is refused.
pub fn waitany(core: &mut Core, communicators: &Communicators, list: RequestList) -> Reply
    ensures exact { (rest : Rest) (s : SessionsState) →
        CoreGives (engine_of core.old.state (groups_of communicators.now) rest s) (calls.Waitany list) result
        (engine_of core.new.state (groups_of communicators.now) rest s) }
    ensures payloads { core.new.payloads ≡ core.old.payloads }
{
    match fault_of_list(core, communicators, &list) {
        None => reply_of_wait(core.wait(Awaited::AnyOf(list))),
        Some(refused) => Reply::Refused(refused, Call::Waitany(list)),
    }
}

/// Waits for all requests of a list, where no rule is broken; or the call comes back for want of memory.
fn wait_for_all(alloc: Global, core: &mut Core, list: RequestList) -> Reply
    requires free { core.old.state.blocked ≡ None }
    requires once { is_twice (named list) ≡ false }
    ensures exact { (g : GroupsState) →
        ((rest : Rest) (s : SessionsState) → fault_of (engine_of core.old.state g rest s) (calls.Waitall list) ≡ None) →
        (rest : Rest) (s : SessionsState) →
        CoreGives (engine_of core.old.state g rest s) (calls.Waitall list) result (engine_of core.new.state g rest s) }
    ensures payloads { core.new.payloads ≡ core.old.payloads }
{
    match OutcomeRoom::new(alloc, list.len()) {
        Ok(room) => reply_of_wait(core.wait(Awaited::AllOf(AwaitedAll::new(list, room)))),
        Err(_) => Reply::Refused(Refusal::OutOfMemory, Call::Waitall(list)),
    }
}

/// Answers a wait for all requests of a list: with their outcomes, or by being blocked; or it is refused, also for want
/// of memory.
pub fn waitall(
    alloc: Global,
    core: &mut Core,
    communicators: &Communicators,
    list: RequestList,
) -> Reply
    ensures exact { (rest : Rest) (s : SessionsState) →
        CoreGives (engine_of core.old.state (groups_of communicators.now) rest s) (calls.Waitall list) result
        (engine_of core.new.state (groups_of communicators.now) rest s) }
    ensures payloads { core.new.payloads ≡ core.old.payloads }
{
    match fault_of_list(core, communicators, &list) {
        None => wait_for_all(alloc, core, list),
        Some(refused) => Reply::Refused(refused, Call::Waitall(list)),
    }
}

/// Answers a cancel: it is taken, or refused.
pub fn cancel(core: &mut Core, communicators: &Communicators, request: Option<Request>) -> Reply
    ensures exact { (rest : Rest) (s : SessionsState) →
        CoreGives (engine_of core.old.state (groups_of communicators.now) rest s) (calls.Cancel request) result
        (engine_of core.new.state (groups_of communicators.now) rest s) }
    ensures payloads { core.new.payloads ≡ core.old.payloads }
{
    match fault_of_cancel(core, communicators, request) {
        None => {
            core.cancel(request);
            Reply::Accepted
        }
        Some(refused) => Reply::Refused(refused, Call::Cancel(request)),
    }
}

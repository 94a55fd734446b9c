//! Waits, tests and cancels: calls on requests alone (MPI 3.1, 3.7.3, 3.7.5 and 3.8.4).

ghost use Rattle.std.specs.Prelude.{◌≡◌, None};
ghost use Rattle.requests.specs.Lists.{named};
ghost use Rattle.requests.specs.declared.awaited_requests.Awaited.TheVariants.{One};
ghost use Rattle.point_to_point.specs.Completions.{Tests, Waits, cancel_fault, cancelled, requests_fault, tested, wait_fault};
ghost use Rattle.point_to_point.specs.Completions.{waited};

use crate::rank::Core;
use point_to_point_calls::Refusal;
use requests::{Answer, Awaited, Request, RequestList};
use vocabulary::replace;

impl Core {
    /// The fault of a wait for a request or a test of it, which is 6: there is no such request. The null request can
    /// always be waited for. It takes no memory.
    pub fn fault_of_wait(&self, request: Option<Request>) -> Option<Refusal>
        ensures { result ≡ wait_fault self.now.state (One request) }
    {
        match request {
            None => None,
            Some(request) => {
                if self.requests.contains(request) {
                    None
                } else {
                    Some(Refusal::Request)
                }
            }
        }
    }

    /// The fault of a wait for requests of a list, which is 6: one isn't there, or is named twice. It takes no memory.
    pub fn fault_of_list(&self, list: &RequestList) -> Option<Refusal>
        ensures { result ≡ requests_fault self.now.state (named list.now) }
    {
        if !self.requests.contains_all(list) {
            return Some(Refusal::Request);
        }
        if list.names_twice() {
            return Some(Refusal::Request);
        }
        None
    }

    /// The fault of a cancel, which is 6: what is cancelled is no receive. It takes no memory.
    pub fn fault_of_cancel(&self, request: Option<Request>) -> Option<Refusal>
        ensures { result ≡ cancel_fault self.now.state request }
    {
        match request {
            None => Some(Refusal::Request),
            Some(request) => {
                if self.requests.is_receive(request) {
                    None
                } else {
                    Some(Refusal::Request)
                }
            }
        }
    }

    /// Ends what a call waits for that breaks no rule, once it is finished, and tells the answer; or the call is blocked
    /// until it is.
    pub fn wait(&mut self, awaited: Awaited) -> Option<Answer>
        requires { self.old.state.blocked ≡ None }
        ensures exact { Waits self.old.state awaited (waited result) self.new.state }
        ensures placed { self.new.state.place ≡ self.old.state.place }
        ensures payloads { self.new.payloads ≡ self.old.payloads }
    {
        match self.requests.complete(awaited) {
            Ok(answer) => Some(answer),
            Err(awaited) => {
                replace(&mut self.blocked, Some(awaited));
                None
            }
        }
    }

    /// Ends a request, if it is finished, and tells the answer.
    pub fn test(&mut self, request: Option<Request>) -> Option<Answer>
        ensures exact { Tests self.old.state request (tested result) self.new.state }
        ensures placed { self.new.state.place ≡ self.old.state.place }
        ensures payloads { self.new.payloads ≡ self.old.payloads }
    {
        match self.requests.complete(Awaited::One(request)) {
            Ok(answer) => Some(answer),
            Err(_) => None,
        }
    }

    /// A receive that waits is over, and is posted no more; one that was matched goes on (MPI 3.1, 3.8.4).
    pub fn cancel(&mut self, request: Option<Request>)
        ensures exact { self.new.state ≡ cancelled self.old.state request }
        ensures placed { self.new.state.place ≡ self.old.state.place }
        ensures payloads { self.new.payloads ≡ self.old.payloads }
    {
        if let Some(request) = request
            && self.requests.cancel(request)
        {
            self.queues.cancel(request.key);
        }
    }
}

//! Which rule or limit a call would meet now.

ghost use Rattle.std.specs.Prelude.{◌≡◌};
ghost use Rattle.engine.specs.CallKinds.{HandsNoData};
ghost use Rattle.engine_calls.specs.Faults.{fault_of};
ghost use Rattle.engine_calls.specs.declared.call.Call.TheVariants as calls;

use crate::engine::Engine;
use engine_calls::{
    Call, JudgedCall, Probe, Receive, Send, fault_of_cancel, fault_of_list, fault_of_wait,
    judge_message, judge_receive, judge_search, judge_send,
};
use point_to_point::Refusal;
use requests::{Region, Request, RequestList};

impl Engine {
    /// The first rule or limit of a send, and the call.
    fn judge_send(&self, send: Send) -> JudgedCall
        ensures fault { result.fault ≡ fault_of self.now (calls.Isend send) }
        ensures back { result.call ≡ calls.Isend send }
    {
        match judge_send(
            &self.parts.core,
            &self.parts.communicators,
            &self.parts.sessions,
            send,
        ) {
            Ok(addressed) => JudgedCall {
                fault: None,
                call: Call::Isend(addressed.routed.send),
            },
            Err(handed) => JudgedCall {
                fault: Some(handed.refused),
                call: Call::Isend(handed.value),
            },
        }
    }

    /// The first rule or limit of a receive, and the call.
    fn judge_receive(&self, receive: Receive) -> JudgedCall
        ensures fault { result.fault ≡ fault_of self.now (calls.Irecv receive) }
        ensures back { result.call ≡ calls.Irecv receive }
    {
        match judge_receive(
            &self.parts.core,
            &self.parts.communicators,
            &self.parts.sessions,
            receive,
        ) {
            Ok(judged) => JudgedCall {
                fault: None,
                call: Call::Irecv(judged.sought.routed.receive),
            },
            Err(handed) => JudgedCall {
                fault: Some(handed.refused),
                call: Call::Irecv(handed.value),
            },
        }
    }

    /// The first rule or limit of the receive of a message, and the call.
    fn judge_message(&self, message: Option<Request>, into: Region) -> JudgedCall
        ensures fault { result.fault ≡ fault_of self.now (calls.Mrecv message into) }
        ensures back { result.call ≡ calls.Mrecv message into }
    {
        match judge_message(
            &self.parts.core,
            &self.parts.communicators,
            &self.parts.sessions,
            message,
            into,
        ) {
            Ok(receive) => JudgedCall {
                fault: None,
                call: Call::Mrecv(receive.message, receive.into),
            },
            Err(handed) => JudgedCall {
                fault: Some(handed.refused),
                call: Call::Mrecv(message, handed.value),
            },
        }
    }

    /// The first rule or limit of a matching probe.
    fn fault_of_search(&self, probe: Probe) -> Option<Refusal>
        ensures { result ≡ fault_of self.now (calls.Improbe probe) }
    {
        match judge_search(
            &self.parts.core,
            &self.parts.communicators,
            &self.parts.sessions,
            probe,
        ) {
            Ok(_) => None,
            Err(refused) => Some(refused),
        }
    }

    /// The rule of a wait for a request, or a test of it.
    fn fault_of_wait(&self, request: Option<Request>) -> Option<Refusal>
        ensures wait { result ≡ fault_of self.now (calls.Wait request) }
        ensures test { result ≡ fault_of self.now (calls.Test request) }
    {
        fault_of_wait(&self.parts.core, &self.parts.communicators, request)
    }

    /// The rule of a wait for requests of a list.
    fn fault_of_list(&self, list: &RequestList) -> Option<Refusal>
        ensures any { result ≡ fault_of self.now (calls.Waitany list.now) }
        ensures all { result ≡ fault_of self.now (calls.Waitall list.now) }
    {
        fault_of_list(&self.parts.core, &self.parts.communicators, list)
    }

    /// The rule of a cancel.
    fn fault_of_cancel(&self, request: Option<Request>) -> Option<Refusal>
        ensures { result ≡ fault_of self.now (calls.Cancel request) }
    {
        fault_of_cancel(&self.parts.core, &self.parts.communicators, request)
    }

    /// The first rule or limit that a call would be refused by now, of 6, 4, 2, 1, 3, 5, 7, 9, 11 and 13: see `call`;
    /// and the call as it was handed in. It takes no memory; a call that meets none is refused for want of memory (14),
    /// and a collective also where what the rank then does of itself meets a limit (13).
    pub fn judge(&self, call: Call) -> JudgedCall
        ensures fault { result.fault ≡ fault_of self.now call }
        ensures back { result.call ≡ call }
    {
        match call {
            Call::Isend(send) => self.judge_send(send),
            Call::Irecv(receive) => self.judge_receive(receive),
            Call::Mrecv(message, into) => self.judge_message(message, into),
            other => JudgedCall {
                fault: self.fault_of_other(&other),
                call: other,
            },
        }
    }

    /// The first rule or limit of a call that is neither a send nor a receive.
    fn fault_of_other(&self, call: &Call) -> Option<Refusal>
        requires { HandsNoData call.now }
        ensures { result ≡ fault_of self.now call.now }
    {
        match call {
            Call::Wait(request) | Call::Test(request) => self.fault_of_wait(*request),
            Call::Waitany(list) | Call::Waitall(list) => self.fault_of_list(list),
            Call::Cancel(request) => self.fault_of_cancel(*request),
            Call::Enter(comm, entry) => self.fault_of_entry(*comm, entry),
            Call::Ask(comm, question) => self.fault_of_question(*comm, *question),
            Call::Iprobe(probe) => self.fault_of_probe(*probe),
            Call::Improbe(probe) => self.fault_of_search(*probe),
            Call::Isend(_) | Call::Irecv(_) | Call::Mrecv(_, _) => unreachable!(),
        }
    }
}

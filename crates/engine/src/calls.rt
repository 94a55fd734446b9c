//! How an engine answers calls.

ghost use Rattle.std.specs.Prelude.{◌≡◌, ◌≤◌, ◌+◌, ◌*◌, length};
ghost use Rattle.engine.specs.CallKinds.{IsOther};
ghost use Rattle.engine_calls.specs.Calls.{CallGives, CoreGives, RefusedLeaves};
ghost use Rattle.engine_calls.specs.declared.call.Call.TheVariants as calls;

use crate::engine::Engine;
use engine_calls::{
    Call, Probe, Receive, Reply, Send, cancel, improbe, irecv, isend, mrecv, test, wait, waitall,
    waitany,
};
use requests::{Region, Request, RequestList};

impl Engine {
    /// Answers a send.
    // It stands apart, as each call that is made most: `call` then is a choice alone, which costs nothing where it is
    // known which call is made.
    #[inline(never)]
    fn isend(&mut self, send: Send) -> Reply
        ensures { CoreGives self.old (calls.Isend send) result self.new }
    {
        isend(
            &mut self.parts.core,
            &self.parts.communicators,
            &mut self.parts.sessions,
            send,
        )
    }

    /// Answers a receive.
    #[inline(never)]
    fn irecv(&mut self, receive: Receive) -> Reply
        ensures { CoreGives self.old (calls.Irecv receive) result self.new }
    {
        irecv(
            self.alloc,
            &mut self.parts.core,
            &self.parts.communicators,
            &mut self.parts.sessions,
            receive,
        )
    }

    /// Answers a matching probe.
    fn improbe(&mut self, probe: Probe) -> Reply
        ensures { CoreGives self.old (calls.Improbe probe) result self.new }
    {
        improbe(
            self.alloc,
            &mut self.parts.core,
            &self.parts.communicators,
            &self.parts.sessions,
            probe,
        )
    }

    /// Answers the receive of a message.
    fn mrecv(&mut self, message: Option<Request>, into: Region) -> Reply
        ensures { CoreGives self.old (calls.Mrecv message into) result self.new }
    {
        mrecv(
            &mut self.parts.core,
            &self.parts.communicators,
            &mut self.parts.sessions,
            message,
            into,
        )
    }

    /// Answers a wait for a request.
    #[inline(never)]
    fn wait(&mut self, request: Option<Request>) -> Reply
        ensures { CoreGives self.old (calls.Wait request) result self.new }
    {
        wait(&mut self.parts.core, &self.parts.communicators, request)
    }

    /// Answers a test of a request.
    #[inline(never)]
    fn test(&mut self, request: Option<Request>) -> Reply
        ensures { CoreGives self.old (calls.Test request) result self.new }
    {
        test(&mut self.parts.core, &self.parts.communicators, request)
    }

    /// Answers a wait for any request of a list.
    fn waitany(&mut self, list: RequestList) -> Reply
        ensures { CoreGives self.old (calls.Waitany list) result self.new }
    {
        waitany(&mut self.parts.core, &self.parts.communicators, list)
    }

    /// Answers a wait for all requests of a list.
    fn waitall(&mut self, list: RequestList) -> Reply
        ensures { CoreGives self.old (calls.Waitall list) result self.new }
    {
        waitall(
            self.alloc,
            &mut self.parts.core,
            &self.parts.communicators,
            list,
        )
    }

    /// Answers a cancel.
    fn cancel(&mut self, request: Option<Request>) -> Reply
        ensures { CoreGives self.old (calls.Cancel request) result self.new }
    {
        cancel(&mut self.parts.core, &self.parts.communicators, request)
    }

    /// Answers a call that is neither a send, a receive nor a wait for one request or a test of one.
    // These stand apart, since a function pays at its entry for the locals of all its cases.
    #[inline(never)]
    #[tactic(auto, using(engine_calls::proofs::Laws::core_leaves, engine_calls::proofs::Laws::core_few, engine_calls::proofs::Laws::core_placed, engine_calls::proofs::Laws::core_stays))]
    fn answer_other(&mut self, call: Call) -> Reply
        requires { IsOther call }
        ensures exact { CallGives self.old call result self.new }
        ensures unchanged { RefusedLeaves result self.old self.new }
        ensures few { length self.new.sessions.out ≤ length self.old.sessions.out + 65 * self.old.sessions.place.size }
        ensures placed { self.new.sessions.place ≡ self.old.sessions.place }
        ensures core_placed { self.new.core.place ≡ self.old.core.place }
    {
        // The place shows that the job has a rank at least.
        let _place = self.parts.sessions.place();
        match call {
            Call::Waitany(list) => self.waitany(list),
            Call::Waitall(list) => self.waitall(list),
            Call::Cancel(request) => self.cancel(request),
            Call::Enter(comm, entry) => self.enter(comm, entry),
            Call::Ask(comm, question) => self.ask(comm, question),
            Call::Iprobe(probe) => self.iprobe(probe),
            Call::Improbe(probe) => self.improbe(probe),
            Call::Mrecv(message, into) => self.mrecv(message, into),
            _ => unreachable!(),
        }
    }

    /// Answers a call.
    ///
    /// Refused is the first that holds of: 6 (an earlier call is blocked, on requests or in a collective; there is no
    /// such request, a list names one twice, what is cancelled is no receive, or what is to be received is no message
    /// that was taken out and isn't received), 4 (MPI_COMM_NULL, or the rank holds no such communicator, nor one to
    /// compare with), 2 (buffer and layout are of different basic types, a receive names a place twice, or a scatter's
    /// root hands in elements of another type than its blocks), 1 (more bytes of data in a send than a message of the
    /// job may have, the buffer is too short, more bytes in a block of a collective than 16 less than a message may
    /// have, or a scatter's root hands in another number of elements than a block for each member), 3 (the tag is above
    /// the greatest, or the wildcard in a send), 5 (no such rank in the communicator, or any rank in a send), 7 (no such
    /// root), 9 (the operation isn't defined on the type), 11 (the member that is named is known at another incarnation,
    /// which counts off `world` alone; in a collective any member), 13 (65,536 requests are there, messages that were taken out among them, and one more is
    /// wanted, which a matching probe wants only for a message that it found; no number is left for a message that is
    /// announced to the rank or for a frame to it, a communicator can't be held or given, no further collective may be
    /// entered on it, or a member would have to be told more than 1,008 bytes of elements), 14. A refusal hands the
    /// call back, and changes nothing. A send to the own rank (MPI 3.1, 3.2.4) or to the null process (3.11) emits no
    /// datagram; one of more than 1,024 bytes to another rank is announced, and finished once that rank answers. A
    /// receive that takes a message which was announced answers it: its data are to come where the receive has their
    /// type and places for them, and else it has ended without them. A collective is entered, and the other members are
    /// told; where it has not ended by that, the rank is blocked in it (5.1).
    ///
    /// A synchronous send is announced however few bytes it has, and finished once a receive has its message (3.4); one
    /// to the own rank emits nothing. A probe tells what such a receive would take now and changes nothing (3.8.1); a
    /// matching probe takes that message out, so that no receive finds it (3.8.2), and tells its sender nothing. The
    /// receive of that message answers its sender, and is over where its data are there, or is waited for (3.8.3).
    #[inline(always)]
    #[tactic(auto, using(engine_calls::proofs::Laws::core_leaves, engine_calls::proofs::Laws::core_few, engine_calls::proofs::Laws::core_placed, engine_calls::proofs::Laws::core_stays))]
    pub fn call(&mut self, call: Call) -> Reply
        ensures exact { CallGives self.old call result self.new }
        ensures unchanged { RefusedLeaves result self.old self.new }
        ensures few { length self.new.sessions.out ≤ length self.old.sessions.out + 65 * self.old.sessions.place.size }
        ensures placed { self.new.sessions.place ≡ self.old.sessions.place }
        ensures core_placed { self.new.core.place ≡ self.old.core.place }
    {
        // The place shows that the job has a rank at least.
        let _place = self.parts.sessions.place();
        match call {
            Call::Isend(send) => self.isend(send),
            Call::Irecv(receive) => self.irecv(receive),
            Call::Wait(request) => self.wait(request),
            Call::Test(request) => self.test(request),
            other => self.answer_other(other),
        }
    }
}

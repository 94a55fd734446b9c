//! How a rank enters a collective.

ghost use Rattle.std.specs.Prelude.{◌≡◌, ◌≤◌, ◌+◌, ◌*◌, None, OnErr, IfErr, length, false};
ghost use Rattle.collectives.specs.Calls.{entry_rule, limit_at};
ghost use Rattle.engine_calls.specs.Calls.{EnteringGives, RefusedLeaves, reply_on_entry};
ghost use Rattle.engine.specs.CollectiveEntries.{GoingGives};
ghost use Rattle.engine.specs.Parts.{state_of};
ghost use Rattle.engine_calls.specs.Faults.{fault_of};
ghost use Rattle.engine_calls.specs.declared.call.Call.TheVariants as calls;

use crate::engine::Engine;
use crate::parts::Parts;
use collective_messages::Entry;
use collectives::Ending;
use communicators::{RefusedEntry, entries_are_allowed};
use engine_calls::{Call, Reply, of_collectives, of_rule, send_step};
use point_to_point::{HandedBack, Refusal};
use std::alloc::Global;

impl Parts {
    /// Enters a collective of the communicator at a place, which breaks no rule and meets no limit: what the rank then
    /// does of itself is made ready and its frames are sent, and only then it has entered. Refused is 13 and 14; then
    /// nothing changes, and what was handed in comes back.
    fn go_in(
        &mut self,
        alloc: Global,
        place: usize,
        entry: Entry,
    ) -> Result<Option<Ending>, HandedBack<Entry>>
        requires rule { entry_rule self.old.communicators.collective.state self.old.communicators.contexts.state place
            ≡ None }
        requires limit { limit_at self.old.communicators.collective.state self.old.communicators.contexts.state place
            entry ≡ false }
        ensures exact { GoingGives (state_of self.old) place entry result (state_of self.new) }
        ensures handed { IfErr result (λ back. back.value ≡ entry) }
        ensures unchanged { OnErr result (state_of self.new ≡ state_of self.old) }
        ensures few { length self.new.sessions.out ≤ length self.old.sessions.out + 64 * self.old.sessions.place.size }
        ensures placed { self.new.sessions.place ≡ self.old.sessions.place }
    {
        // The place shows that there is a session for each rank.
        let _place = self.sessions.place();
        let ready = match self.communicators.prepare_entry(place, entry) {
            Ok(ready) => ready,
            Err(RefusedEntry { entry, refused }) => {
                return Err(HandedBack {
                    refused: of_collectives(refused),
                    value: entry,
                });
            }
        };
        match send_step(
            alloc,
            &mut self.core,
            &mut self.sessions,
            None,
            ready.messages(),
        ) {
            Ok(announced) => {
                self.core.announce_payloads(announced);
                Ok(self.communicators.enter(ready))
            }
            Err(refused) => Err(HandedBack {
                refused,
                value: ready.into_entry(),
            }),
        }
    }
}

/// The answer to an entry: with what the rank left at once, or that it is blocked.
fn reply_on_entry(ending: Option<Ending>) -> Reply
    ensures { result ≡ reply_on_entry ending }
{
    match ending {
        Some(ending) => Reply::Left(ending),
        None => Reply::Blocked,
    }
}

impl Engine {
    /// The first rule or limit that entering a collective meets, of 6, 4, 2, 1, 7, 9, 11 and 13. It takes no memory.
    pub(crate) fn fault_of_entry(&self, comm: Option<usize>, entry: &Entry) -> Option<Refusal>
        ensures { result ≡ fault_of self.now (calls.Enter comm entry.now) }
    {
        let known = self.parts.sessions.incarnations();
        let limit = self.parts.sessions.place().message_limit;
        let is_blocked = self.parts.core.is_blocked();
        match self
            .parts
            .communicators
            .fault_of_entry(is_blocked, known, limit, comm, entry)
        {
            Some(fault) => Some(of_rule(fault)),
            None => None,
        }
    }

    /// Enters a collective (MPI 3.1, chapter 5 and 6.4.2). Refused is the first that holds of 6, 4, 2, 1, 7, 9, 11, 13
    /// and 14; a refusal hands the call back, and changes nothing.
    pub(crate) fn enter(&mut self, comm: Option<usize>, entry: Entry) -> Reply
        ensures exact { EnteringGives self.old comm entry result self.new }
        ensures unchanged { RefusedLeaves result self.old self.new }
        ensures few { length self.new.sessions.out ≤ length self.old.sessions.out + 64 * self.old.sessions.place.size }
        ensures placed { self.new.sessions.place ≡ self.old.sessions.place }
        ensures core_placed { self.new.core.place ≡ self.old.core.place }
    {
        if let Some(fault) = self.fault_of_entry(comm, &entry) {
            return Reply::Refused(fault, Call::Enter(comm, entry));
        }
        // An entry that meets none can be made ready.
        entries_are_allowed();
        let Some(place) = comm else {
            return Reply::Refused(Refusal::Communicator, Call::Enter(comm, entry));
        };
        match self.parts.go_in(self.alloc, place, entry) {
            Ok(ending) => reply_on_entry(ending),
            Err(back) => Reply::Refused(back.refused, Call::Enter(comm, back.value)),
        }
    }
}

//! Entering collectives, the messages of others, and lessons: each is made ready, which changes nothing but room, and
//! then carried out, which can't fail.

ghost use Rattle.std.specs.Prelude.{◌≡◌, ◌<◌, ◌+◌, All, IfErr, IfOk, None, OnOk, false};
ghost use Rattle.collective_messages.specs.Messages.{IsFitting};
ghost use Rattle.collective_messages.specs.Tallies.{count_in};
ghost use Rattle.collectives.specs.Calls.{IsReady, MessageRefused, entered, entry_rule, inside_of, learned};
ghost use Rattle.collectives.specs.Calls.{lesson_ending, limit_at, after_lesson, most_collectives, with_note};
ghost use Rattle.collective_steps.specs.Steps.{IsPreparedEntry, IsRefusal, MeetsLimit, contexts_after, ending_of};
ghost use Rattle.collectives.specs.State.{after_step};
ghost use Rattle.payload.specs.Spellings.{payload_text};

use crate::communicators::Communicators;
use collective_messages::{Address, CollectiveRefusal, Entry};
use collectives::{Ending, ReadyEntry, ReadyMessage, RefusedEntry};
use payload::Payload;
use vocabulary::Endpoint;

impl Communicators {
    /// Makes ready the entry of a collective of the communicator at a place, which breaks no rule (`fault_of_entry`).
    /// Nothing changes but room. Refused is want of memory (14), and 13 where what the rank then gets can't be held or
    /// given; what was handed in comes back.
    pub fn prepare_entry(&mut self, place: usize, entry: Entry) -> Result<ReadyEntry, RefusedEntry>
        requires rule { entry_rule self.old.collective.state self.old.contexts.state place ≡ None }
        requires limit { limit_at self.old.collective.state self.old.contexts.state place entry ≡ false }
        ensures inside { IfOk result (λ ready. ready.inside ≡
            inside_of self.old.collective.state self.old.contexts.state place entry) }
        ensures step { IfOk result
            (λ ready. IsPreparedEntry self.old.collective.state.own
            (inside_of self.old.collective.state self.old.contexts.state place entry) self.old.contexts.state
            self.old.collective.state.kept ready.step) }
        ensures fits { IfOk result (λ ready. All IsFitting ready.step.messages) }
        ensures within { IfOk result (λ ready. MeetsLimit self.old.contexts.state ready.step → ⊥) }
        ensures number { OnOk result
            (count_in self.old.collective.state.tallies
            (inside_of self.old.collective.state self.old.contexts.state place entry).context < most_collectives) }
        ensures err { IfErr result
            (λ back. IsRefusal self.old.contexts.state
            (IsPreparedEntry self.old.collective.state.own
            (inside_of self.old.collective.state self.old.contexts.state place entry) self.old.contexts.state
            self.old.collective.state.kept) back.refused) }
        ensures handed { IfErr result (λ back. back.entry ≡ entry) }
        ensures room { OnOk result ((0 < self.new.collective.more_tallies) × (0 < self.new.contexts.more)) }
        ensures kept { (self.new.collective.state ≡ self.old.collective.state) ×
            (self.new.contexts.state ≡ self.old.contexts.state) }
    {
        self.collective
            .prepare_entry(&mut self.contexts, place, entry)
    }

    /// Enters: nothing can fail. The ending is answered where the collective is left at once.
    pub fn enter(&mut self, ready: ReadyEntry) -> Option<Ending>
        requires room { (0 < self.old.collective.more_tallies) × (0 < self.old.contexts.more) }
        requires number { count_in self.old.collective.state.tallies ready.inside.context < most_collectives }
        requires limits { MeetsLimit self.old.contexts.state ready.step → ⊥ }
        ensures collective { self.new.collective.state ≡
            after_step (entered self.old.collective.state ready.inside) ready.step.outcome }
        ensures contexts { self.new.contexts.state ≡
            contexts_after self.old.contexts.state ready.step.drawn ready.step.outcome }
        ensures ending { result ≡ ending_of self.old.contexts.state ready.step.outcome }
    {
        self.collective.enter(&mut self.contexts, ready)
    }

    /// Makes ready what a message of a collective brings, once the lesson is learnt that it teaches, if any. Nothing
    /// changes but room. Refused is 30 where what it carries doesn't fit its record, 14 for want of memory, and 13
    /// where what the rank then gets can't be held or given.
    pub fn prepare_message(
        &mut self,
        lesson: Option<Endpoint>,
        address: Address,
        payload: Payload<'_>,
    ) -> Result<ReadyMessage, CollectiveRefusal>
        ensures ready { IfOk result
            (IsReady (after_lesson self.old.collective.state self.old.contexts.state lesson) self.old.contexts.state
            address (payload_text payload.entry)) }
        ensures fits { IfOk result (λ ready. All IsFitting ready.step.messages) }
        ensures within { IfOk result (λ ready. MeetsLimit self.old.contexts.state ready.step → ⊥) }
        ensures err { IfErr result
            (MessageRefused (after_lesson self.old.collective.state self.old.contexts.state lesson)
            self.old.contexts.state address (payload_text payload.entry)) }
        ensures room { OnOk result ((0 < self.new.collective.more_notes) × (0 < self.new.contexts.more)) }
        ensures kept { (self.new.collective.state ≡ self.old.collective.state) ×
            (self.new.contexts.state ≡ self.old.contexts.state) }
    {
        self.collective
            .prepare_message(&mut self.contexts, lesson, address, payload)
    }

    /// Takes the message in: nothing can fail. The ending is answered where the present collective is left by it.
    pub fn on_message(&mut self, ready: ReadyMessage) -> Option<Ending>
        requires room { (0 < self.old.collective.more_notes) × (0 < self.old.contexts.more) }
        requires limits { MeetsLimit self.old.contexts.state ready.step → ⊥ }
        ensures collective { self.new.collective.state ≡
            after_step (with_note self.old.collective.state ready.note) ready.step.outcome }
        ensures contexts { self.new.contexts.state ≡
            contexts_after self.old.contexts.state ready.step.drawn ready.step.outcome }
        ensures ending { result ≡ ending_of self.old.contexts.state ready.step.outcome }
    {
        self.collective.on_message(&mut self.contexts, ready)
    }

    /// A rank is known at a higher incarnation now: a collective that has a former one among its members ends with 11.
    /// It takes no memory.
    pub fn learn(&mut self, rank: u16, incarnation: u16) -> Option<Ending>
        ensures collective { self.new.collective.state ≡
            learned self.old.collective.state self.old.contexts.state rank incarnation }
        ensures room { (self.new.collective.more_tallies ≡ self.old.collective.more_tallies) ×
            (self.new.collective.more_notes ≡ self.old.collective.more_notes) }
        ensures contexts { self.new.contexts ≡ self.old.contexts }
        ensures ending { result ≡ lesson_ending self.old.collective.state self.old.contexts.state rank incarnation }
    {
        self.collective.learn(&self.contexts, rank, incarnation)
    }
}

//! Entries and messages made ready: all growths are made, and nothing else changes.

ghost use Rattle.std.specs.Prelude.{◌≡◌, ◌<◌, ◌≤◌, ◌+◌, false, All, Err, IfErr, IfOk, IsOkUnless, List, None, Ok, OnOk};
ghost use Rattle.std.specs.Prelude.{Option, length, vec_len, vec_capacity};
ghost use Rattle.std.specs.Option.{option_copied};
ghost use Rattle.collectives.specs.Calls.{IsReady, MessageRefused, entry_rule, inside_of, kept_note, kept_with};
ghost use Rattle.collectives.specs.Calls.{limit_at, after_lesson, most_collectives, present_met};
ghost use Rattle.collective_messages.specs.Messages.{IsFitting};
ghost use Rattle.collective_messages.specs.Tallies.{count_in};
ghost use Rattle.payload.specs.Spellings.{payload_text};
ghost use Rattle.collective_progress.specs.Progress.{IsKeptOf};
ghost use Rattle.collective_steps.specs.Steps.{IsPrepared, IsPreparedEntry, IsRefusal, MeetsLimit};
ghost use Rattle.collective_messages.specs.declared.note.Note as notes;

use crate::collective::{
    Collective, ReadyEntry, ReadyMessage, RefusedEntry, after_lesson, is_left, keep, out_of_memory,
};
use collective_messages::{
    Address, CollectiveMessage, CollectiveRefusal, Entry, Inside, Note, Tally, note_of,
};
use collective_progress::{Progress, Seat};
use collective_steps::{Presence, Step, entry_step, prepare_step};
use context_agreement::Contexts;
use payload::Payload;
use std::alloc::Global;
use vocabulary::Endpoint;

/// Takes the note back that stands behind so many others, where there is one.
fn take_back(kept: &mut Vec<Note>, count: usize) -> Option<Note>
    requires { count ≤ vec_len kept.old }
    ensures back { (front : List notes.Note) (note : Option notes.Note) → length front ≡ count →
        kept.old.items ≡ kept_with front note
        → (result ≡ note) × (kept.new.items ≡ front) }
    ensures capacity { vec_capacity kept.old ≤ vec_capacity kept.new }
{
    if kept.len() > count { kept.pop() } else { None }
}

/// A message is ready once what the rank then does is.
fn ready_message(
    note: Option<Note>,
    prepared: Result<Step, CollectiveRefusal>,
) -> Result<ReadyMessage, CollectiveRefusal>
    ensures ok { IfOk result (λ ready. (ready.note ≡ note) × (prepared ≡ Ok ready.step)) }
    ensures err { IfErr result (λ refused. prepared ≡ Err refused) }
{
    match prepared {
        Ok(step) => Ok(ReadyMessage { note, step }),
        Err(refused) => Err(refused),
    }
}

/// What was found in the notes of the collective that a rank is in is brought up to all of them.
fn catch_up(progress: &mut Progress, own: Endpoint, present: Option<&Inside>, kept: &[Note])
    requires { IsKeptOf own (option_copied present) kept.now progress.old }
    ensures { IsKeptOf own (option_copied present.entry) kept.now progress.new }
{
    if let Some(inside) = present {
        progress.catch_up(own, inside, kept);
    }
}

/// What the rank does of itself once it keeps a note, for which there is room. The note stands behind the others while
/// the verdict is given, and is taken back whatever comes of it.
#[tactic(auto, using(crate::proofs::Beside::note_beside))]
pub(crate) fn prepared_with(
    alloc: Global,
    presence: &Presence,
    contexts: &Contexts,
    kept: &mut Vec<Note>,
    note: Option<Note>,
) -> Result<ReadyMessage, CollectiveRefusal>
    requires room { vec_len kept.old + 1 ≤ vec_capacity kept.old }
    requires progress { IsKeptOf presence.now.own (option_copied presence.now.inside) kept.old.items
        presence.now.progress.now }
    ensures note { IfOk result (λ ready. ready.note ≡ note) }
    ensures step { IfOk result
        (λ ready. IsPrepared presence.now.own (option_copied presence.now.inside) contexts.now.state
        (kept_with kept.old.items note) ready.step) }
    ensures within { IfOk result (λ ready. MeetsLimit contexts.now.state ready.step → ⊥) }
    ensures err { IfErr result
        (IsRefusal contexts.now.state
        (IsPrepared presence.now.own (option_copied presence.now.inside) contexts.now.state
        (kept_with kept.old.items note))) }
    ensures kept { kept.new.items ≡ kept.old.items }
    ensures capacity { vec_capacity kept.old ≤ vec_capacity kept.new }
{
    let count = kept.len();
    keep(kept, note);
    let prepared = prepare_step(alloc, presence, contexts, kept);
    let note = take_back(kept, count);
    ready_message(note, prepared)
}

/// Makes room for one more.
fn make_room<T>(list: &mut Vec<T>) -> Result<(), CollectiveRefusal>
    ensures room { OnOk result (vec_len list.new + 1 ≤ vec_capacity list.new) }
    ensures kept { list.new.items ≡ list.old.items }
    ensures err { IsOkUnless result CollectiveRefusal.OutOfMemory }
{
    match list.reserve(1) {
        Ok(()) => Ok(()),
        Err(_) => Err(CollectiveRefusal::OutOfMemory),
    }
}

/// Makes room for one more communicator.
fn hold_one_more(contexts: &mut Contexts) -> Result<(), CollectiveRefusal>
    ensures room { OnOk result (0 < contexts.new.more) }
    ensures kept { contexts.new.state ≡ contexts.old.state }
    ensures err { IsOkUnless result CollectiveRefusal.OutOfMemory }
{
    match contexts.reserve() {
        Ok(()) => Ok(()),
        Err(_) => Err(CollectiveRefusal::OutOfMemory),
    }
}

/// Makes room for one more behind these, and for one more communicator.
fn make_both<T>(list: &mut Vec<T>, contexts: &mut Contexts) -> Result<(), CollectiveRefusal>
    ensures room { OnOk result (vec_len list.new + 1 ≤ vec_capacity list.new) }
    ensures held { OnOk result (0 < contexts.new.more) }
    ensures kept { list.new.items ≡ list.old.items }
    ensures contexts { contexts.new.state ≡ contexts.old.state }
    ensures err { IsOkUnless result CollectiveRefusal.OutOfMemory }
{
    make_room(list)?;
    hold_one_more(contexts)
}

/// An entry is ready once what the rank does on entering is; what was handed in comes back otherwise.
fn ready_entry(
    inside: Inside,
    prepared: Result<Step, CollectiveRefusal>,
) -> Result<ReadyEntry, RefusedEntry>
    ensures inside { IfOk result (λ ready. ready.inside ≡ inside) }
    ensures step { IfOk result (λ ready. prepared ≡ Ok ready.step) }
    ensures err { IfErr result (λ back. prepared ≡ Err back.refused) }
    ensures handed { IfErr result (λ back. back.entry ≡ inside.entry) }
{
    match prepared {
        Ok(step) => Ok(ReadyEntry { inside, step }),
        Err(refused) => Err(RefusedEntry {
            entry: inside.entry,
            refused,
        }),
    }
}

impl ReadyEntry {
    /// What would have been entered with, where it isn't entered after all.
    pub fn into_entry(self) -> Entry
        ensures { result ≡ self.inside.entry }
    {
        self.inside.entry
    }

    /// What goes out, in order: each to another member.
    pub fn messages(&self) -> &[CollectiveMessage]
        ensures { result.now ≡ self.now.step.messages }
    {
        self.step.messages.as_slice()
    }
}

impl ReadyMessage {
    /// What goes out, in order: each to another member.
    pub fn messages(&self) -> &[CollectiveMessage]
        ensures { result.now ≡ self.now.step.messages }
    {
        self.step.messages.as_slice()
    }
}

impl Collective {
    /// Makes ready the entry of a collective that breaks no rule. Nothing changes but room.
    ///
    /// Refused is want of memory (14), and 13 where what the rank then gets can't be held or given; what was handed in
    /// comes back. That no member is known at another incarnation (11) is the caller's to see to.
    pub fn prepare_entry(
        &mut self,
        contexts: &mut Contexts,
        place: usize,
        entry: Entry,
    ) -> Result<ReadyEntry, RefusedEntry>
        requires rule { entry_rule self.old.state contexts.old.state place ≡ None }
        requires limit { limit_at self.old.state contexts.old.state place entry ≡ false }
        ensures inside { IfOk result (λ ready. ready.inside ≡ inside_of self.old.state contexts.old.state place entry) }
        ensures step { IfOk result
            (λ ready. IsPreparedEntry self.old.state.own (inside_of self.old.state contexts.old.state place entry)
            contexts.old.state self.old.state.kept ready.step) }
        ensures fits { IfOk result (λ ready. All IsFitting ready.step.messages) }
        ensures within { IfOk result (λ ready. MeetsLimit contexts.old.state ready.step → ⊥) }
        ensures number { OnOk result
            (count_in self.old.state.tallies (inside_of self.old.state contexts.old.state place entry).context <
            most_collectives) }
        ensures err { IfErr result
            (λ back. IsRefusal contexts.old.state
            (IsPreparedEntry self.old.state.own (inside_of self.old.state contexts.old.state place entry)
            contexts.old.state self.old.state.kept) back.refused) }
        ensures handed { IfErr result (λ back. back.entry ≡ entry) }
        ensures room { OnOk result (0 < self.new.more_tallies) }
        ensures held { OnOk result (0 < contexts.new.more) }
        ensures kept { self.new.state ≡ self.old.state }
        ensures contexts { contexts.new.state ≡ contexts.old.state }
    {
        if make_both(&mut self.tallies, contexts).is_err() {
            return Err(out_of_memory(entry));
        }
        let inside = self.inside_of(contexts, place, entry)?;
        if self.progress.start(self.alloc, &inside).is_err() {
            return Err(out_of_memory(inside.entry));
        }
        self.progress.catch_up(self.own, &inside, &self.kept);
        let seat = Seat {
            own: self.own,
            inside: &inside,
            notes: self.kept.as_slice(),
            progress: &self.progress,
        };
        let prepared = entry_step(self.alloc, &seat, contexts);
        ready_entry(inside, prepared)
    }

    /// Makes ready what a message of a collective brings, once the lesson is learnt that it teaches, if any. Nothing
    /// changes but room.
    ///
    /// Refused is 30 where what it carries doesn't fit its record, 14 for want of memory, and 13 where what the rank
    /// then gets can't be held or given.
    pub fn prepare_message(
        &mut self,
        contexts: &mut Contexts,
        lesson: Option<Endpoint>,
        address: Address,
        payload: Payload<'_>,
    ) -> Result<ReadyMessage, CollectiveRefusal>
        ensures ready { IfOk result (IsReady (after_lesson self.old.state contexts.old.state lesson) contexts.old.state address
            (payload_text payload.entry)) }
        ensures fits { IfOk result (λ ready. All IsFitting ready.step.messages) }
        ensures within { IfOk result (λ ready. MeetsLimit contexts.old.state ready.step → ⊥) }
        ensures err { IfErr result
            (MessageRefused (after_lesson self.old.state contexts.old.state lesson) contexts.old.state address
            (payload_text payload.entry)) }
        ensures room { OnOk result (0 < self.new.more_notes) }
        ensures held { OnOk result (0 < contexts.new.more) }
        ensures kept { self.new.state ≡ self.old.state }
        ensures contexts { contexts.new.state ≡ contexts.old.state }
    {
        if !payload.fits() {
            return Err(CollectiveRefusal::BadFrame);
        }
        if make_both(&mut self.kept, contexts).is_err() {
            return Err(CollectiveRefusal::OutOfMemory);
        }
        match note_of(self.alloc, address, payload) {
            Ok(arrived) => {
                let met = Met {
                    own: self.own,
                    tallies: self.tallies.as_slice(),
                    present: &self.present,
                    contexts,
                    lesson,
                };
                prepared_for(
                    self.alloc,
                    &met,
                    &mut self.kept,
                    &mut self.progress,
                    arrived,
                )
            }
            Err(refused) => Err(refused),
        }
    }
}

/// What is kept of what came: nothing where its collective was left.
fn kept_of(tallies: &[Tally], present: Option<&Inside>, arrived: Option<Note>) -> Option<Note>
    ensures { result ≡ kept_note tallies.now (option_copied present.entry) arrived }
{
    match arrived {
        Some(note) => {
            if is_left(tallies, present, &note) {
                return None;
            }
            Some(note)
        }
        None => None,
    }
}

/// What a message meets at a rank.
#[derive(Clone, Copy)]
struct Met<'a> {
    /// Who the rank is.
    own: Endpoint,
    /// How many collectives it has entered.
    tallies: &'a [Tally],
    /// The collective that it is in.
    present: &'a Option<Inside>,
    /// Its communicators.
    contexts: &'a Contexts,
    /// The lesson that is learnt before the message is taken in, if any.
    lesson: Option<Endpoint>,
}

/// What the rank does of itself once a lesson is learnt, if any, and it keeps what came, for which there is room.
#[tactic(auto, using(crate::proofs::Beside::met_beside))]
fn prepared_for(
    alloc: Global,
    met: &Met,
    kept: &mut Vec<Note>,
    progress: &mut Progress,
    arrived: Option<Note>,
) -> Result<ReadyMessage, CollectiveRefusal>
    requires room { vec_len kept.old + 1 ≤ vec_capacity kept.old }
    requires progress { IsKeptOf met.now.own met.now.present.now kept.old.items progress.old }
    ensures note { IfOk result
        (λ ready. ready.note ≡
        kept_note met.now.tallies.now (present_met met.now.present.now met.now.contexts.now.state met.now.lesson)
        arrived) }
    ensures step { IfOk result
        (λ ready. IsPrepared met.now.own
        (present_met met.now.present.now met.now.contexts.now.state met.now.lesson) met.now.contexts.now.state
        (kept_with kept.old.items
        (kept_note met.now.tallies.now (present_met met.now.present.now met.now.contexts.now.state met.now.lesson)
        arrived))
        ready.step) }
    ensures within { IfOk result (λ ready. MeetsLimit met.now.contexts.now.state ready.step → ⊥) }
    ensures err { IfErr result
        (IsRefusal met.now.contexts.now.state
        (IsPrepared met.now.own (present_met met.now.present.now met.now.contexts.now.state met.now.lesson)
        met.now.contexts.now.state
        (kept_with kept.old.items
        (kept_note met.now.tallies.now (present_met met.now.present.now met.now.contexts.now.state met.now.lesson)
        arrived)))) }
    ensures progress { IsKeptOf met.now.own met.now.present.now kept.new.items progress.new }
    ensures kept { kept.new.items ≡ kept.old.items }
    ensures capacity { vec_capacity kept.old ≤ vec_capacity kept.new }
{
    catch_up(progress, met.own, met.present.as_ref(), kept);
    let present = after_lesson(met.present, met.contexts, met.lesson);
    let note = kept_of(met.tallies, present, arrived);
    let presence = Presence {
        own: met.own,
        inside: present,
        progress: &*progress,
    };
    prepared_with(alloc, &presence, met.contexts, kept, note)
}

//! The collectives of a rank: its entries, the messages that come, and what a lesson ends.
//!
//! Each event goes in two steps, so that what carries messages may refuse it in between: what it needs is made ready,
//! which changes nothing but room, and then it is carried out, which can't fail.

ghost use Rattle.std.specs.Prelude.{◌≡◌, ◌<◌, ◌≤◌, ◌+◌, ◌^◌, ◌==◌, IfErr, IfOk, None, Some, [], if◌then◌else◌, vec_len};
ghost use Rattle.std.specs.Prelude.{IsTrue, vec_capacity};
ghost use Rattle.std.specs.Option.{option_copied};
ghost use Rattle.collectives.specs.Calls.{entered, entry_rule, inside_in, inside_of, is_ended, kept_with, learned};
ghost use Rattle.collectives.specs.Calls.{lesson_ending, limit_at, most_collectives, present_met, with_note};
ghost use Rattle.collective_messages.specs.Tallies.{count_in};
ghost use Rattle.collectives.specs.State.{after_step, has_told, left, opening, told_in, was_left};
ghost use Rattle.collective_steps.specs.Steps.{MeetsLimit, contexts_after, ending_of};

use crate::limits::{has_former, is_limited, members_incarnation};
use alike::{Alike, are_alike};
use collective_messages::{
    CollectiveRefusal, Entry, Inside, Note, Tally, count_in, drop_notes, raise, role_of,
};
use collective_progress::Progress;
use collective_steps::{Ending, Step, StepOutcome};
use context_agreement::{Communicator, Contexts};
use std::alloc::Global;
use std::marker::Model;
use vocabulary::Endpoint;

/// The collective that a rank is in, and what it was told of those that it has not left.
///
/// ```text
///  outside ── enter ─► its own step decides, or the notes did before ──────────────► outside, with an ending
///               └────► inside ── on_message: one more note; the verdict: ── stays ─► inside
///                         │                                              └─ leaves ► outside, with an ending
///                         └───── learn: a former incarnation is among its members ─► outside, with 11
///  on_message while outside, or of a later collective: kept as a note
/// ```
#[derive(Drop)]
pub struct Collective {
    pub(crate) alloc: Global,
    pub(crate) own: Endpoint,
    pub(crate) present: Option<Inside>,
    pub(crate) tallies: Vec<Tally>,
    pub(crate) kept: Vec<Note>,
    /// What was found in the notes of the present collective.
    pub(crate) progress: Progress,
}

impl Model for Collective {
    ghost use Rattle.std.specs.Prelude.{◌-◌, vec_len, vec_capacity};
    ghost use Rattle.collective_progress.specs.Progress.{IsKeptOf};
    ghost use Rattle.collectives.specs.State.{Held};

    ghost Value = { Held };

    ghost view = { λ c. record {
      state = record { own = c.own; present = c.present; tallies = c.tallies.items; kept = c.kept.items };
      more_tallies = vec_capacity c.tallies - vec_len c.tallies;
      more_notes = vec_capacity c.kept - vec_len c.kept;
    } };

    ghost invariant = { λ c. IsKeptOf c.own c.present c.kept.items c.progress };
}

/// An entry that was refused: what was handed in, and why.
#[derive(Drop)]
pub struct RefusedEntry {
    /// What the rank would have entered with.
    pub entry: Entry,
    /// Why it was refused.
    pub refused: CollectiveRefusal,
}

/// An entry that was made ready.
#[derive(Drop)]
pub struct ReadyEntry {
    pub(crate) inside: Inside,
    pub(crate) step: Step,
}

/// A message that was made ready: what is kept of it, where it isn't dropped, and what the rank then does of itself.
#[derive(Drop)]
pub struct ReadyMessage {
    pub(crate) note: Option<Note>,
    pub(crate) step: Step,
}

impl Collective {
    /// That of an endpoint that was just started. It takes no memory.
    pub fn new(alloc: Global, own: Endpoint) -> Self
        ensures { result.state ≡ opening own }
    {
        Collective {
            alloc,
            own,
            present: None,
            tallies: Vec::new(alloc),
            kept: Vec::new(alloc),
            progress: Progress::new(alloc),
        }
    }

    /// Who the rank is: its rank in `world`, and its incarnation.
    pub fn own(&self) -> Endpoint
        ensures { result ≡ self.now.state.own }
    {
        self.own
    }

    /// The collective that the rank is in.
    pub fn present(&self) -> Option<&Inside>
        ensures { option_copied result ≡ self.now.state.present }
    {
        self.present.as_ref()
    }

    /// Whether both are of one endpoint, are in the same collective, have entered as many in each context, counted in
    /// the same order, and keep the same notes in the same order, whatever room they have.
    pub fn stands_as(&self, other: &Collective) -> bool
        ensures { IsTrue result → self.now.state ≡ other.now.state }
    {
        self.own == other.own
            && self.present.stands_as(&other.present)
            && are_alike(&self.tallies, &other.tallies)
            && are_alike(&self.kept, &other.kept)
    }

    /// The first rule that entering would break now, of 6 (the rank is in a collective) and 4 (no communicator is held
    /// at the place). It takes no memory.
    ///
    /// That a member is known at another incarnation (11) comes behind them, and before the limits (13): the caller,
    /// who knows the incarnations of all ranks, judges it.
    pub fn fault_of(&self, contexts: &Contexts, place: usize) -> Option<CollectiveRefusal>
        ensures { result ≡ entry_rule self.now.state contexts.now.state place }
    {
        if self.present.is_some() {
            return Some(CollectiveRefusal::Blocked);
        }
        if contexts.communicator(place).is_none() {
            return Some(CollectiveRefusal::NoCommunicator);
        }
        None
    }

    /// Whether entering a collective of the communicator at a place meets a limit (13): 2,147,483,647 collectives were
    /// entered on it; for a copy or a split 4,096 communicators are held, or at member 0 fewer contexts are left to
    /// give than there are members. Where no communicator is held at the place it meets none. It takes no memory.
    pub fn meets_limit(&self, contexts: &Contexts, place: usize, entry: &Entry) -> bool
        ensures { result ≡ limit_at self.now.state contexts.now.state place entry.now }
    {
        match contexts.communicator(place) {
            Some(communicator) => is_limited(
                self.own,
                &self.tallies,
                contexts,
                communicator,
                entry,
            ),
            None => false,
        }
    }

    /// What the rank is in once it has entered a collective of this communicator, which it holds at this place.
    fn inside_in(
        &self,
        communicator: &Communicator,
        place: usize,
        entry: Entry,
    ) -> Result<Inside, RefusedEntry>
        ensures ok { IfOk result (λ inside. inside ≡ inside_in self.now.state (Some communicator.now) place entry) }
        ensures err { IfErr result (λ back. back.refused ≡ CollectiveRefusal.OutOfMemory) }
        ensures handed { IfErr result (λ back. back.entry ≡ entry) }
    {
        let context = communicator.context.number();
        let incarnation = members_incarnation(self.own, context);
        let entered = entry.record();
        match role_of(
            self.alloc,
            self.own,
            incarnation,
            &communicator.group,
            entered,
        ) {
            Ok(role) => Ok(Inside {
                place,
                context,
                incarnation,
                number: count_in(&self.tallies, context),
                entry,
                role,
                told: false,
            }),
            Err(_) => Err(out_of_memory(entry)),
        }
    }

    /// What the rank is in once it has entered. The only error is want of memory; what was handed in comes back.
    pub(crate) fn inside_of(
        &self,
        contexts: &Contexts,
        place: usize,
        entry: Entry,
    ) -> Result<Inside, RefusedEntry>
        requires { entry_rule self.now.state contexts.now.state place ≡ None }
        ensures ok { IfOk result (λ inside. inside ≡ inside_of self.now.state contexts.now.state place entry) }
        ensures err { IfErr result (λ back. back.refused ≡ CollectiveRefusal.OutOfMemory) }
        ensures handed { IfErr result (λ back. back.entry ≡ entry) }
    {
        match contexts.communicator(place) {
            Some(communicator) => self.inside_in(communicator, place, entry),
            None => Err(out_of_memory(entry)),
        }
    }

    /// Enters: nothing can fail. The ending is answered where the collective is left at once.
    #[tactic(auto, using(crate::proofs::Beside::entered_beside))]
    pub fn enter(&mut self, contexts: &mut Contexts, ready: ReadyEntry) -> Option<Ending>
        requires room { 0 < self.old.more_tallies }
        requires held { 0 < contexts.old.more }
        requires number { count_in self.old.state.tallies ready.inside.context < most_collectives }
        requires limits { MeetsLimit contexts.old.state ready.step → ⊥ }
        ensures state { self.new.state ≡ after_step (entered self.old.state ready.inside) ready.step.outcome }
        ensures contexts { contexts.new.state ≡ contexts_after contexts.old.state ready.step.drawn ready.step.outcome }
        ensures ending { result ≡ ending_of contexts.old.state ready.step.outcome }
    {
        raise(&mut self.tallies, ready.inside.context);
        self.progress.restart();
        set_present(&mut self.present, Some(ready.inside));
        self.take(contexts, ready.step)
    }

    /// Takes the message in: nothing can fail. The ending is answered where the present collective is left by it.
    #[tactic(auto, using(crate::proofs::Beside::note_beside))]
    pub fn on_message(&mut self, contexts: &mut Contexts, ready: ReadyMessage) -> Option<Ending>
        requires room { 0 < self.old.more_notes }
        requires held { 0 < contexts.old.more }
        requires limits { MeetsLimit contexts.old.state ready.step → ⊥ }
        ensures state { self.new.state ≡ after_step (with_note self.old.state ready.note) ready.step.outcome }
        ensures contexts { contexts.new.state ≡ contexts_after contexts.old.state ready.step.drawn ready.step.outcome }
        ensures ending { result ≡ ending_of contexts.old.state ready.step.outcome }
    {
        keep(&mut self.kept, ready.note);
        self.take(contexts, ready.step)
    }

    /// Takes a step that was made ready: nothing can fail.
    fn take(&mut self, contexts: &mut Contexts, step: Step) -> Option<Ending>
        requires held { 0 < contexts.old.more }
        requires limits { MeetsLimit contexts.old.state step → ⊥ }
        ensures state { self.new.state ≡ after_step self.old.state step.outcome }
        ensures contexts { contexts.new.state ≡ contexts_after contexts.old.state step.drawn step.outcome }
        ensures ending { result ≡ ending_of contexts.old.state step.outcome }
    {
        let waits = step.outcome.waits();
        let ending = take_contexts(contexts, step.outcome, step.drawn);
        self.leave_if(ending.is_some(), waits);
        ending
    }

    /// The rank leaves the collective that it is in where that ends: what it was told of it is dropped. Where it waits
    /// on, it has told that it and those below it have entered.
    #[tactic(auto, using(crate::proofs::Beside::told_beside))]
    fn leave_if(&mut self, ends: bool, waits: bool)
        ensures { self.new.state ≡
            (if ends then left self.old.state else (if waits then has_told self.old.state else self.old.state)) }
    {
        if !ends {
            if waits {
                set_told(&mut self.present);
            }
            return;
        }
        if let Some(inside) = &self.present {
            drop_notes(&mut self.kept, inside.context, inside.number);
        }
        set_present(&mut self.present, None);
    }

    /// A rank is known at a higher incarnation now: a collective that has a former one among its members ends with 11.
    /// It takes no memory, and what was told is kept.
    pub fn learn(&mut self, contexts: &Contexts, rank: u16, incarnation: u16) -> Option<Ending>
        ensures state { self.new.state ≡ learned self.old.state contexts.now.state rank incarnation }
        ensures room { (self.new.more_tallies ≡ self.old.more_tallies) × (self.new.more_notes ≡ self.old.more_notes) }
        ensures ending { result ≡ lesson_ending self.old.state contexts.now.state rank incarnation }
    {
        if !is_ended(&self.present, contexts, rank, incarnation) {
            return None;
        }
        set_present(&mut self.present, None);
        Some(Ending::Replaced)
    }
}

/// The rank is in this collective from now on, or in none.
fn set_present(present: &mut Option<Inside>, inside: Option<Inside>)
    ensures { present.new ≡ inside }
{
    *present = inside;
}

/// The rank has told that it and those below it have entered.
fn set_told(present: &mut Option<Inside>)
    ensures { present.new ≡ told_in present.old }
{
    if let Some(inside) = present {
        inside.told = true;
    }
}

/// There is no memory for what a rank would have entered with.
pub(crate) fn out_of_memory(entry: Entry) -> RefusedEntry
    ensures refused { result.refused ≡ CollectiveRefusal.OutOfMemory }
    ensures handed { result.entry ≡ entry }
{
    let refused = CollectiveRefusal::OutOfMemory;
    RefusedEntry { entry, refused }
}

/// The collective that the rank is in once a lesson is learnt: a message is judged by it, since the lesson that it
/// teaches comes first.
pub(crate) fn after_lesson<'a>(
    present: &'a Option<Inside>,
    contexts: &Contexts,
    lesson: Option<Endpoint>,
) -> Option<&'a Inside>
    ensures { option_copied result ≡ present_met present.now contexts.now.state lesson }
{
    let Some(source) = lesson else {
        return present.as_ref();
    };
    if is_ended(present, contexts, source.rank, source.incarnation) {
        return None;
    }
    present.as_ref()
}

/// Whether a lesson ends the collective that the rank is in: it has a former one of the rank among its members.
fn is_ended(present: &Option<Inside>, contexts: &Contexts, rank: u16, incarnation: u16) -> bool
    ensures { result ≡ is_ended rank incarnation contexts.now.state present.now }
{
    let Some(inside) = present else {
        return false;
    };
    let Some(communicator) = contexts.communicator(inside.place) else {
        return false;
    };
    has_former(rank, incarnation, inside, communicator.group.ranks())
}

/// Whether a note is of a collective that was left, where the rank is in this one, or in none.
pub(crate) fn is_left(tallies: &[Tally], present: Option<&Inside>, note: &Note) -> bool
    ensures { result ≡ was_left tallies.now (option_copied present.entry) note.now }
{
    let is_present = match present {
        Some(inside) => note.is_of(inside.context, inside.number),
        None => false,
    };
    note.number < count_in(tallies, note.context) && !is_present
}

/// One more note is kept, or none; there is room for it.
pub(crate) fn keep(kept: &mut Vec<Note>, note: Option<Note>)
    requires { vec_len kept.old + 1 ≤ vec_capacity kept.old }
    ensures items { kept.new.items ≡ kept_with kept.old.items note }
    ensures capacity { vec_capacity kept.old ≤ vec_capacity kept.new }
{
    if let Some(note) = note {
        kept.push(note).unwrap();
    }
}

/// What a step that was made ready leaves of the communicators, and with what the collective ends by it.
fn take_contexts(contexts: &mut Contexts, outcome: StepOutcome, drawn: u64) -> Option<Ending>
    requires held { 0 < contexts.old.more }
    requires limits { MeetsLimit contexts.old.state (record { outcome = outcome; drawn = drawn; messages = [] }) → ⊥ }
    ensures contexts { contexts.new.state ≡ contexts_after contexts.old.state drawn outcome }
    ensures ending { result ≡ ending_of contexts.old.state outcome }
{
    match outcome {
        StepOutcome::Stays | StepOutcome::Waits => None,
        StepOutcome::Breaks => Some(Ending::Mismatch),
        StepOutcome::Leaves(block) => {
            contexts.draw(drawn);
            Some(Ending::Left(block))
        }
        StepOutcome::GetsNull => {
            contexts.draw(drawn);
            Some(Ending::Comm(None))
        }
        StepOutcome::Gets(communicator) => {
            contexts.draw(drawn);
            Some(Ending::Comm(Some(contexts.install_reserved(communicator))))
        }
    }
}

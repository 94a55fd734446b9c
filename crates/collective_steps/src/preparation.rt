//! What a rank does of itself in a collective, made ready: it takes memory, and changes nothing.

ghost use Rattle.std.specs.Prelude.{◌≡◌, [], ◌++◌, IfErr, IfOk, IsOkUnless, Some, slice_get, if◌then◌else◌};
ghost use Rattle.std.specs.Option.{option_to_list};
ghost use Rattle.collective_steps.specs.Steps.{GetsNumbered, HasHeard, IsCarriedOut, IsDecided, IsHeard, IsLacking};
ghost use Rattle.collective_steps.specs.Steps.{IsSplit, LacksFor, Prepared, barrier_step, copy_step};
ghost use Rattle.collective_steps.specs.Steps.{difference_messages, made_step, mine, outcome_of, to_others, passed_on};
ghost use Rattle.collective_steps.specs.Steps.{warned, word_messages, words_given};
ghost use Rattle.collective_messages.specs.Verdicts.{is_at, verdict};
ghost use Rattle.collective_steps.specs.declared.step.StepOutcome.TheVariants as outcomes;
ghost use Rattle.collective_messages.specs.declared.message.MessageContent.TheVariants as given;
ghost use Rattle.collective_messages.specs.declared.verdict.Verdict.TheVariants as verdicts;

use crate::contents::{ToAll, groups_to_others, mine, same_to_others};
use crate::data_movement::{
    allreduce_step, bcast_step, elements_to_others, gather_step, reduce_step, scatter_with,
};
use crate::entry_word::word;
use crate::split::{made_by, plan_of};
use crate::step::{Step, StepOutcome};
use collective_messages::{
    CollectiveMessage, CollectiveRefusal, Entry, Inside, Note, NoteContent, Verdict, is_at,
};
use collective_progress::{Seat, is_like};
use context_agreement::{Communicator, Context, Contexts};
use datatypes::Buffer;
use groups::Group;
use std::alloc::{AllocError, Global};
use vocabulary::Endpoint;

/// A step that gives no context and tells nobody.
pub(crate) fn silent_step(alloc: Global, outcome: StepOutcome) -> Step
    ensures { result ≡ record { outcome = outcome; drawn = 0; messages = [] } }
{
    Step {
        outcome,
        drawn: 0,
        messages: Vec::new(alloc),
    }
}

/// The same words to each other member, or want of memory.
fn tell_others(
    alloc: Global,
    own: Endpoint,
    inside: &Inside,
    ranks: &[u16],
    words: ToAll,
) -> Result<Vec<CollectiveMessage>, CollectiveRefusal>
    ensures ok { IfOk result (λ messages. messages.items ≡ to_others own inside.now (λ r. words_given words) ranks.now) }
    ensures err { IsOkUnless result CollectiveRefusal.OutOfMemory }
{
    match same_to_others(alloc, own, inside, ranks, words) {
        Ok(messages) => Ok(messages),
        Err(_) => Err(CollectiveRefusal::OutOfMemory),
    }
}

/// A communicator with a group like this one.
fn with_group_of(context: Context, group: &Group) -> Result<Communicator, CollectiveRefusal>
    ensures ok { IfOk result (λ made. made ≡ record { context = context; group = group.now }) }
    ensures err { IsOkUnless result CollectiveRefusal.OutOfMemory }
{
    match group.try_clone() {
        Ok(group) => Ok(Communicator { context, group }),
        Err(_) => Err(CollectiveRefusal::OutOfMemory),
    }
}

/// What member 0 does once all have entered a barrier.
fn barrier_step(alloc: Global, own: Endpoint, inside: &Inside) -> Result<Step, CollectiveRefusal>
    ensures ok { IfOk result (λ step. step ≡ barrier_step own inside.now) }
    ensures err { IsOkUnless result CollectiveRefusal.OutOfMemory }
{
    match tell_others(alloc, own, inside, inside.role.onward(), ToAll::AllEntered) {
        Ok(messages) => Ok(Step {
            outcome: StepOutcome::Leaves(None),
            drawn: 0,
            messages,
        }),
        Err(refused) => Err(refused),
    }
}

/// What member 0 does once all have entered a copy.
fn copy_step(
    alloc: Global,
    own: Endpoint,
    inside: &Inside,
    contexts: &Contexts,
    group: &Group,
) -> Result<Step, CollectiveRefusal>
    ensures ok { IfOk result (λ step. step ≡ copy_step own inside.now contexts.now.state group.now) }
    ensures err { IfErr result (IsLacking contexts.now.state 1) }
{
    let Some(context) = contexts.context_after(0) else {
        return Err(CollectiveRefusal::Limit);
    };
    let words = ToAll::Context(context.number());
    let Ok(messages) = tell_others(alloc, own, inside, group.ranks(), words) else {
        return Err(CollectiveRefusal::OutOfMemory);
    };
    let Ok(communicator) = with_group_of(context, group) else {
        return Err(CollectiveRefusal::OutOfMemory);
    };
    Ok(Step {
        outcome: StepOutcome::Gets(communicator),
        drawn: 1,
        messages,
    })
}

/// What becomes of a rank among the communicators that were made.
fn outcome_among(made: &[Communicator], rank: u16) -> Result<StepOutcome, CollectiveRefusal>
    ensures ok { IfOk result (λ outcome. outcome ≡ outcome_of (mine rank made.now)) }
    ensures err { IsOkUnless result CollectiveRefusal.OutOfMemory }
{
    let Some(communicator) = mine(made, rank) else {
        return Ok(StepOutcome::GetsNull);
    };
    match with_group_of(communicator.context, &communicator.group) {
        Ok(communicator) => Ok(StepOutcome::Gets(communicator)),
        Err(refused) => Err(refused),
    }
}

/// What member 0 does with the communicators that it made of a plan.
fn made_step(
    alloc: Global,
    own: Endpoint,
    inside: &Inside,
    ranks: &[u16],
    made: &[Communicator],
) -> Result<Step, CollectiveRefusal>
    ensures ok { IfOk result (λ step. step ≡ made_step own inside.now ranks.now made.now) }
    ensures err { IsOkUnless result CollectiveRefusal.OutOfMemory }
{
    let Ok(messages) = groups_to_others(alloc, own, inside, ranks, made) else {
        return Err(CollectiveRefusal::OutOfMemory);
    };
    match outcome_among(made, own.rank) {
        Ok(outcome) => Ok(Step {
            outcome,
            drawn: made.len() as u64,
            messages,
        }),
        Err(refused) => Err(refused),
    }
}

/// What member 0 does once all have entered a split.
fn split_step(
    alloc: Global,
    seat: &Seat,
    contexts: &Contexts,
    group: &Group,
) -> Result<Step, CollectiveRefusal>
    ensures ok { IfOk result (IsSplit seat.now.own seat.now.inside.now contexts.now.state group.now seat.now.notes.now) }
    ensures err { IfErr result
        (LacksFor contexts.now.state
        (IsSplit seat.now.own seat.now.inside.now contexts.now.state group.now seat.now.notes.now)) }
{
    let Ok(plan) = plan_of(alloc, seat, group) else {
        return Err(CollectiveRefusal::OutOfMemory);
    };
    match made_by(alloc, contexts, group, &plan) {
        Ok(made) => made_step(alloc, seat.own, seat.inside, group.ranks(), &made),
        Err(refused) => Err(refused),
    }
}

/// What becomes of a rank that was told with what it leaves.
fn outcome_of_note(
    alloc: Global,
    said: &NoteContent,
    group: &Group,
) -> Result<StepOutcome, CollectiveRefusal>
    ensures ok { IfOk result (HasHeard group.now said.now) }
    ensures err { IsOkUnless result CollectiveRefusal.OutOfMemory }
{
    match said {
        NoteContent::RecordsDiffer | NoteContent::Choice(_) => Ok(StepOutcome::Stays),
        NoteContent::Nothing(_) => Ok(StepOutcome::Leaves(None)),
        NoteContent::Elements(_, block) => gets_block(alloc, block),
        NoteContent::NullCommunicator => Ok(StepOutcome::GetsNull),
        NoteContent::Context(number) => new_communicator(*number, group),
        NoteContent::NewGroup(number, members) => new_communicator(*number, members),
    }
}

/// The rank gets a copy of these elements.
fn gets_block(alloc: Global, block: &Buffer) -> Result<StepOutcome, CollectiveRefusal>
    ensures ok { IfOk result (λ outcome. outcome ≡ outcomes.Leaves (Some block.now)) }
    ensures err { IsOkUnless result CollectiveRefusal.OutOfMemory }
{
    match block.try_clone(alloc) {
        Ok(block) => Ok(StepOutcome::Leaves(Some(block))),
        Err(_) => Err(CollectiveRefusal::OutOfMemory),
    }
}

/// The rank gets a communicator with a group like this one, and the context that this number stands for.
fn new_communicator(number: u64, group: &Group) -> Result<StepOutcome, CollectiveRefusal>
    ensures ok { IfOk result (GetsNumbered number group.now) }
    ensures err { IsOkUnless result CollectiveRefusal.OutOfMemory }
{
    match with_group_of(Context::from_number(number), group) {
        Ok(communicator) => Ok(StepOutcome::Gets(communicator)),
        Err(refused) => Err(refused),
    }
}

/// What a rank tells on of what it was told: in a barrier that all have entered, in a broadcast the elements.
fn passed_on(
    alloc: Global,
    own: Endpoint,
    inside: &Inside,
    said: &NoteContent,
) -> Result<Vec<CollectiveMessage>, AllocError>
    ensures { IfOk result (λ messages. messages.items ≡ passed_on own inside.now inside.now.entry said.now) }
{
    match (&inside.entry, said) {
        (Entry::Barrier, NoteContent::Nothing(_)) => {
            same_to_others(alloc, own, inside, inside.role.onward(), ToAll::AllEntered)
        }
        (Entry::Bcast(_, mine), NoteContent::Elements(_, block)) => {
            if !is_like(mine.buffer(), block) {
                return Ok(Vec::new(alloc));
            }
            elements_to_others(alloc, own, inside, inside.role.onward(), block)
        }
        _ => Ok(Vec::new(alloc)),
    }
}

/// What a rank does that was told with what it leaves, by a note.
fn leaving_step(
    alloc: Global,
    own: Endpoint,
    inside: &Inside,
    group: &Group,
    note: &Note,
) -> Result<Step, CollectiveRefusal>
    ensures ok { IfOk result (IsHeard own inside.now group.now (Some note.now)) }
    ensures err { IsOkUnless result CollectiveRefusal.OutOfMemory }
{
    let Ok(messages) = passed_on(alloc, own, inside, &note.said) else {
        return Err(CollectiveRefusal::OutOfMemory);
    };
    match outcome_of_note(alloc, &note.said, group) {
        Ok(outcome) => Ok(Step {
            outcome,
            drawn: 0,
            messages,
        }),
        Err(refused) => Err(refused),
    }
}

/// What a rank does that was told with what it leaves, by the note at a place.
fn leaving_step_at(
    alloc: Global,
    seat: &Seat,
    group: &Group,
    place: usize,
) -> Result<Step, CollectiveRefusal>
    ensures ok { IfOk result
        (IsHeard seat.now.own seat.now.inside.now group.now (slice_get seat.now.notes.now place)) }
    ensures err { IsOkUnless result CollectiveRefusal.OutOfMemory }
{
    match seat.notes.get(place) {
        Some(note) => leaving_step(alloc, seat.own, seat.inside, group, note),
        None => Ok(silent_step(alloc, StepOutcome::Stays)),
    }
}

/// That records differ, to the one right above, if anybody.
fn warn_above(
    alloc: Global,
    own: Endpoint,
    inside: &Inside,
    above: Option<u16>,
) -> Result<Vec<CollectiveMessage>, AllocError>
    ensures { IfOk result (λ messages. messages.items ≡
        to_others own inside.now (λ r. given.RecordsDiffer) (option_to_list above)) }
{
    match above {
        Some(above) => same_to_others(alloc, own, inside, &[above], ToAll::RecordsDiffer),
        None => Ok(Vec::new(alloc)),
    }
}

/// That records differ, to all others, where the rank found it.
fn warn_all(
    alloc: Global,
    own: Endpoint,
    inside: &Inside,
    ranks: &[u16],
    found: bool,
) -> Result<Vec<CollectiveMessage>, AllocError>
    ensures { IfOk result (λ messages. messages.items ≡
        to_others own inside.now (λ r. given.RecordsDiffer) (if found then ranks.now else [])) }
{
    if !found {
        return Ok(Vec::new(alloc));
    }
    same_to_others(alloc, own, inside, ranks, ToAll::RecordsDiffer)
}

/// That records differ, in a reduction over the tree by rank: to the one right above, or by member 0 to the root.
fn warn_upwards(
    alloc: Global,
    own: Endpoint,
    inside: &Inside,
    ranks: &[u16],
) -> Result<Vec<CollectiveMessage>, AllocError>
    ensures { IfOk result (λ messages. messages.items ≡
        to_others own inside.now (λ r. given.RecordsDiffer)
        (if is_at own inside.now.incarnation ranks.now 0 then inside.now.role.onward else
        option_to_list inside.now.role.above)) }
{
    if !is_at(own, inside.incarnation, ranks, 0) {
        return warn_above(alloc, own, inside, inside.role.above());
    }
    let onward = inside.role.onward();
    same_to_others(alloc, own, inside, onward, ToAll::RecordsDiffer)
}

/// What a rank tells of a difference: all others, where it found it and all wait for all; in a broadcast those right
/// below it, and in a reduction over a tree the one right above it, or by member 0 the root.
fn warnings(
    alloc: Global,
    own: Endpoint,
    inside: &Inside,
    ranks: &[u16],
    found: bool,
) -> Result<Vec<CollectiveMessage>, AllocError>
    ensures { IfOk result (λ messages. messages.items ≡
        to_others own inside.now (λ r. given.RecordsDiffer) (warned own inside.now ranks.now found inside.now.entry)) }
{
    match &inside.entry {
        Entry::Barrier | Entry::Allreduce(..) | Entry::Dup | Entry::Split(_) => {
            warn_all(alloc, own, inside, ranks, found)
        }
        Entry::Bcast(..) => same_to_others(
            alloc,
            own,
            inside,
            inside.role.onward(),
            ToAll::RecordsDiffer,
        ),
        Entry::Gather(..) | Entry::Scatter(..) => Ok(Vec::new(alloc)),
        Entry::Reduce(operation, _, block) => {
            if !operation.is_associative_on(block.buffer().basic()) {
                return Ok(Vec::new(alloc));
            }
            warn_upwards(alloc, own, inside, ranks)
        }
    }
}

/// A rank leaves with 12, and tells of it.
fn mismatch_step(alloc: Global, seat: &Seat, ranks: &[u16]) -> Result<Step, CollectiveRefusal>
    ensures ok { IfOk result
        (λ step. step ≡
        record {
          outcome = outcomes.Breaks;
          drawn = 0;
          messages =
              difference_messages seat.now.own seat.now.inside.now ranks.now seat.now.notes.now;
        }) }
    ensures err { IsOkUnless result CollectiveRefusal.OutOfMemory }
{
    let found = seat.progress.has_found_difference(seat.inside, seat.notes);
    match warnings(alloc, seat.own, seat.inside, ranks, found) {
        Ok(messages) => Ok(Step {
            outcome: StepOutcome::Breaks,
            drawn: 0,
            messages,
        }),
        Err(_) => Err(CollectiveRefusal::OutOfMemory),
    }
}

/// What the one in the middle does once all have entered.
fn decision_step(
    alloc: Global,
    seat: &Seat,
    contexts: &Contexts,
    group: &Group,
) -> Result<Step, CollectiveRefusal>
    ensures ok { IfOk result
        (IsDecided seat.now.own seat.now.inside.now contexts.now.state group.now seat.now.notes.now
        seat.now.inside.now.entry) }
    ensures err { IfErr result
        (LacksFor contexts.now.state
        (IsDecided seat.now.own seat.now.inside.now contexts.now.state group.now seat.now.notes.now
        seat.now.inside.now.entry)) }
{
    let ranks = group.ranks();
    match &seat.inside.entry {
        Entry::Barrier => barrier_step(alloc, seat.own, seat.inside),
        Entry::Bcast(_, block) => bcast_step(alloc, seat.own, seat.inside, block.buffer()),
        Entry::Gather(root, block) => gather_step(alloc, seat, ranks, *root, block.buffer()),
        Entry::Scatter(rooted, all) => { scatter_with(alloc, seat, group, *rooted, all.as_ref()) }
        Entry::Reduce(op, root, block) => {
            let is_root = is_at(seat.own, seat.inside.incarnation, ranks, *root);
            reduce_step(alloc, seat, is_root, *op, block.buffer())
        }
        Entry::Allreduce(op, block) => allreduce_step(alloc, seat, *op, block.buffer()),
        Entry::Dup => copy_step(alloc, seat.own, seat.inside, contexts, group),
        Entry::Split(_) => split_step(alloc, seat, contexts, group),
    }
}

/// A step that tells this message before all others.
fn with_first(step: Step, first: Option<CollectiveMessage>) -> Result<Step, CollectiveRefusal>
    ensures ok { IfOk result (λ told. told ≡ record step { messages = option_to_list first ++ step.messages }) }
    ensures err { IsOkUnless result CollectiveRefusal.OutOfMemory }
{
    let Some(first) = first else {
        return Ok(step);
    };
    let Step {
        outcome,
        drawn,
        mut messages,
    } = step;
    if messages.insert(0, first).is_err() {
        return Err(CollectiveRefusal::OutOfMemory);
    }
    Ok(Step {
        outcome,
        drawn,
        messages,
    })
}

/// A rank waits to be told, and tells its word.
fn waiting_step(alloc: Global, seat: &Seat) -> Result<Step, CollectiveRefusal>
    ensures ok { IfOk result
        (λ step. step ≡
        record {
          outcome = outcomes.Waits;
          drawn = 0;
          messages =
              word_messages seat.now.own seat.now.inside.now seat.now.notes.now;
        }) }
    ensures err { IsOkUnless result CollectiveRefusal.OutOfMemory }
{
    let Ok(first) = word(alloc, seat) else {
        return Err(CollectiveRefusal::OutOfMemory);
    };
    match with_first(silent_step(alloc, StepOutcome::Waits), first) {
        Ok(step) => Ok(step),
        Err(refused) => Err(refused),
    }
}

/// What a rank does that decides: its word, and then what it does once all have entered for whom it waits.
fn deciding_step(
    alloc: Global,
    seat: &Seat,
    contexts: &Contexts,
    group: &Group,
) -> Result<Step, CollectiveRefusal>
    ensures ok { IfOk result
        (IsCarriedOut seat.now.own seat.now.inside.now contexts.now.state group.now seat.now.notes.now
        verdicts.Decides) }
    ensures err { IfErr result
        (LacksFor contexts.now.state
        (IsCarriedOut seat.now.own seat.now.inside.now contexts.now.state group.now seat.now.notes.now
        verdicts.Decides)) }
{
    let Ok(first) = word(alloc, seat) else {
        return Err(CollectiveRefusal::OutOfMemory);
    };
    match decision_step(alloc, seat, contexts, group) {
        Ok(step) => with_first(step, first),
        Err(refused) => Err(refused),
    }
}

/// What a rank does that was told with what it leaves: its word, unless it was told before, and what it tells on.
fn result_step(
    alloc: Global,
    seat: &Seat,
    group: &Group,
    place: usize,
) -> Result<Step, CollectiveRefusal>
    ensures ok { IfOk result (λ step. (s : Prepared) ×
        IsHeard seat.now.own seat.now.inside.now group.now (slice_get seat.now.notes.now place) s ×
        (step ≡ record s {
          messages = word_messages seat.now.own seat.now.inside.now seat.now.notes.now ++
              s.messages;
        })) }
    ensures err { IsOkUnless result CollectiveRefusal.OutOfMemory }
{
    let Ok(first) = word(alloc, seat) else {
        return Err(CollectiveRefusal::OutOfMemory);
    };
    match leaving_step_at(alloc, seat, group, place) {
        Ok(step) => with_first(step, first),
        Err(refused) => Err(refused),
    }
}

/// What the rank at `own` does of itself in a collective of a communicator with this group.
pub(crate) fn next_step(
    alloc: Global,
    seat: &Seat,
    contexts: &Contexts,
    group: &Group,
) -> Result<Step, CollectiveRefusal>
    ensures ok { IfOk result
        (IsCarriedOut seat.now.own seat.now.inside.now contexts.now.state group.now seat.now.notes.now
        (verdict seat.now.own seat.now.inside.now seat.now.notes.now)) }
    ensures err { IfErr result
        (LacksFor contexts.now.state
        (IsCarriedOut seat.now.own seat.now.inside.now contexts.now.state group.now seat.now.notes.now
        (verdict seat.now.own seat.now.inside.now seat.now.notes.now))) }
{
    match seat.judge() {
        Verdict::Stays => Ok(silent_step(alloc, StepOutcome::Stays)),
        Verdict::Breaks => mismatch_step(alloc, seat, group.ranks()),
        Verdict::Waits => waiting_step(alloc, seat),
        Verdict::Decides => deciding_step(alloc, seat, contexts, group),
        Verdict::Hears(place) => result_step(alloc, seat, group, place),
    }
}

//! The calls that a rank's statements make, with what they print.

ghost use Rattle.std.specs.Prelude.{◌≡◌, IfErr, IfOk, OnOk, option_map};
ghost use Rattle.simulation.specs.Beginnings.{ActBegins, AskBegins, BreaksOff, CallMade, CallsBegin};
ghost use Rattle.simulation.specs.Beginnings.{FollowingBegins, FurtherBegins};
ghost use Rattle.simulation.specs.Parts.{standing, taken_lines};
ghost use Rattle.simulation.specs.StepLines.{refused_lines, stepped_lines};
ghost use Rattle.simulation.specs.Output.{CutsOff, Prints};
ghost use Rattle.simulation.specs.RankAnswers.{entry_in, heeded, is_silent, IsMade, made_in, reply_in, takes_back, with_names};
ghost use Rattle.simulation.specs.Turns.{ActRuns, AskRuns, CallRuns, CallsRun, FollowingRuns, FurtherRuns, TakenGives};

use crate::SimulateError;
use crate::event_printing::{print_refused, print_stepped, print_told};
use crate::ranks::RankNames;
use engine::Reply;
use interpreter::{NextStep, PendingCall};
use line_diagnostics::LineFault;
use script_calls::Pending;
use statements::Action;
use std::alloc::AllocError;
use std::io::Write;
use world::{Event, Failed, HistoryEntry, Stepped, World};

/// What became of a statement.
#[derive(Drop)]
pub enum Acted {
    /// It is done.
    Done,
    /// It can't be followed, for this reason; none where memory is wanting to tell it.
    Faulty(Option<LineFault>),
}

/// Whether what a call answers isn't printed by itself: it is one question of a statement that prints one line, or
/// none.
fn is_silent(pending: &Pending) -> bool
    ensures { result ≡ is_silent pending.now }
{
    matches!(
        pending,
        Pending::AskingRank(_)
            | Pending::AskingSize(_)
            | Pending::Seating(_, _)
            | Pending::Oversized
    )
}

/// What the history has of a step.
pub fn entry_in(world: &World, stepped: Stepped) -> Option<&HistoryEntry>
    ensures { entry_in world.now stepped ≡ option_map (λ entry. entry.now) result }
{
    world.history().get(stepped.place)
}

/// What the call of a step replied.
fn reply_in(world: &World, stepped: Stepped) -> Option<&Reply>
    ensures { option_map (λ r. r.now) result ≡ reply_in (entry_in world.now stepped) }
{
    match entry_in(world, stepped) {
        Some(entry) => entry.reply.as_ref(),
        None => None,
    }
}

/// The names of a rank take what the call of a step answered, which was for this. The only error is want of memory.
fn hear_reply(
    names: &mut RankNames,
    world: &World,
    stepped: Stepped,
    pending: Pending,
) -> Result<NextStep, AllocError>
    ensures { IfOk result (λ heard. IsMade (made_in world.now stepped pending names.old) heard names.new) }
{
    match reply_in(world, stepped) {
        Some(reply) => names.hear_reply(pending, reply),
        None => {
            drop(pending);
            Ok(NextStep::Nothing)
        }
    }
}

/// The further call that follows from an answer, if one does.
pub fn next_of(heard: NextStep) -> Option<PendingCall>
    ensures { result ≡ (heeded heard).next }
{
    match heard {
        NextStep::Call(asking) => Some(asking),
        other => {
            drop(other);
            None
        }
    }
}

/// What is told of an answer, where its event isn't printed by itself.
fn print_heard<W: Write>(heard: &NextStep, out: &mut W) -> Result<(), SimulateError>
    ensures ok { OnOk result (Prints (W.contents out.old) (W.contents out.new) (heeded heard.now).told) }
    ensures err { IfErr result (λ e. e ≡ SimulateError.Output) }
{
    match heard {
        NextStep::Told(told) => Ok(print_told(told, out)?),
        NextStep::Nothing | NextStep::Call(_) => Ok(()),
    }
}

/// A question that was answered: what is told of it is printed, and the names of its rank take it.
#[tactic(auto, using(crate::proofs::CallLaws::question_made, crate::proofs::PrintLaws::cuts_before, crate::proofs::PrintLaws::cuts_output))]
fn on_question<W: Write>(
    names: &mut RankNames,
    world: &World,
    stepped: Stepped,
    pending: Pending,
    out: &mut W,
) -> Result<Option<PendingCall>, SimulateError>
    ensures ok { IfOk result (λ next.
        Prints (W.contents out.old) (W.contents out.new) (made_in world.now stepped pending names.old).0.told
        × (next ≡ (made_in world.now stepped pending names.old).0.next)
        × (names.new ≡ (made_in world.now stepped pending names.old).1)) }
    ensures err { IfErr result (λ e. CutsOff e (W.contents out.old) (W.contents out.new)
        (made_in world.now stepped pending names.old).0.told) }
{
    let heard = hear_reply(names, world, stepped, pending)?;
    if let Err(e) = print_heard(&heard, out) {
        drop(heard);
        return Err(e);
    }
    Ok(next_of(heard))
}

/// A call that was taken: what it answered is printed, and its rank's names take it. Answers the further call that
/// follows.
#[tactic(auto, using(crate::proofs::CallLaws::question_taken, crate::proofs::CallLaws::step_taken, crate::proofs::CallLaws::question_cut, crate::proofs::CallLaws::step_cut, crate::proofs::PrintLaws::cuts_behind))]
fn on_called<W: Write>(
    names: &mut RankNames,
    world: &World,
    stepped: Stepped,
    pending: Pending,
    out: &mut W,
) -> Result<Option<PendingCall>, SimulateError>
    ensures ok { IfOk result (λ next. TakenGives world.now stepped pending names.old (W.contents out.old)
        (W.contents out.new) next names.new) }
    ensures err { IfErr result (λ e. CutsOff e (W.contents out.old) (W.contents out.new) (taken_lines
        (is_silent pending) (made_in world.now stepped pending names.old).0.told (stepped_lines world.now stepped))) }
{
    if is_silent(&pending) {
        return on_question(names, world, stepped, pending, out);
    }
    if let Err(e) = print_stepped(names.names.allocator(), world, stepped, out) {
        drop(pending);
        return Err(e);
    }
    let heard = hear_reply(names, world, stepped, pending)?;
    Ok(next_of(heard))
}

/// The names of a rank take a refused event back: a call, whose buffer, if it has one, is here again; any other changes
/// nothing. The only error is want of memory.
fn take_back(names: &mut RankNames, pending: &Pending, event: Event) -> Result<(), AllocError>
    ensures { OnOk result (names.new ≡ with_names names.old (takes_back pending.now event names.old.names)) }
{
    match event {
        Event::Call(_, call) => names.take_back(pending, call),
        other => Ok(drop(other)),
    }
}

/// A call that was refused: its buffer, if it has one, is here again. A communicator that was made has a rank in it, so
/// that it can't be asked is for want of memory.
#[tactic(auto, using(crate::proofs::PrintLaws::cuts_before, crate::proofs::PrintLaws::cuts_output, crate::proofs::PrintLaws::cuts_behind))]
fn on_refused<W: Write>(
    names: &mut RankNames,
    world: &World,
    failed: Failed,
    pending: &Pending,
    out: &mut W,
) -> Result<(), SimulateError>
    ensures prints { OnOk result (Prints (W.contents out.old) (W.contents out.new) (refused_lines world.now failed)) }
    ensures names { OnOk result
        (names.new ≡ with_names names.old (takes_back pending.now failed.event names.old.names)) }
    ensures err { IfErr result (λ e.
        CutsOff e (W.contents out.old) (W.contents out.new) (refused_lines world.now failed)) }
{
    if let Pending::Seating(_, _) = pending {
        drop(failed);
        return Err(SimulateError::OutOfMemory);
    }
    if let Err(e) = print_refused(world, &failed, out) {
        drop(failed);
        return Err(SimulateError::from(e));
    }
    Ok(take_back(names, pending, failed.event)?)
}

/// One call of a statement. Answers the further one that the statement makes, if it makes one.
#[tactic(auto, using(crate::proofs::CallLaws::call_taken, crate::proofs::CallLaws::call_refused, crate::proofs::StopLaws::taken_breaks, crate::proofs::StopLaws::refused_breaks))]
fn call_once<W: Write>(
    world: &mut World,
    rank: u16,
    names: &mut RankNames,
    asking: PendingCall,
    out: &mut W,
) -> Result<Option<PendingCall>, SimulateError>
    ensures ok { IfOk result (λ next. CallRuns rank asking (standing world.old names.old) (W.contents out.old)
        (W.contents out.new) next (standing world.new names.new)) }
    ensures err { IfErr result (λ e. BreaksOff e (λ part. CallMade rank asking (standing world.old names.old) part)
        (W.contents out.old) (W.contents out.new)) }
{
    let PendingCall { call, pending } = asking;
    match world.step(Event::Call(rank, call)) {
        Ok(stepped) => on_called(names, world, stepped, pending, out),
        Err(failed) => {
            let over = on_refused(names, world, failed, &pending, out);
            drop(pending);
            match over {
                Ok(()) => Ok(None),
                Err(e) => Err(e),
            }
        }
    }
}

/// The further call of a statement, if there is one; none follows behind it.
#[tactic(auto, using(crate::proofs::CallLaws::further_none, crate::proofs::CallLaws::further_one))]
fn call_further<W: Write>(
    world: &mut World,
    rank: u16,
    names: &mut RankNames,
    next: Option<PendingCall>,
    out: &mut W,
) -> Result<(), SimulateError>
    ensures ok { OnOk result (FurtherRuns rank next (standing world.old names.old) (W.contents out.old)
        (W.contents out.new) (standing world.new names.new)) }
    ensures err { IfErr result (λ e. BreaksOff e (λ part. FurtherBegins rank next (standing world.old names.old) part)
        (W.contents out.old) (W.contents out.new)) }
{
    if let Some(asking) = next {
        drop(call_once(world, rank, names, asking, out)?);
    }
    Ok(())
}

/// The calls of a statement, of which there are two at most.
#[tactic(auto, using(crate::proofs::CallLaws::calls_both, crate::proofs::StopLaws::first_breaks, crate::proofs::StopLaws::second_breaks))]
fn call_both<W: Write>(
    world: &mut World,
    rank: u16,
    names: &mut RankNames,
    asking: PendingCall,
    out: &mut W,
) -> Result<(), SimulateError>
    ensures ok { OnOk result (CallsRun rank asking (standing world.old names.old) (W.contents out.old)
        (W.contents out.new) (standing world.new names.new)) }
    ensures err { IfErr result (λ e. BreaksOff e (λ part. CallsBegin rank asking (standing world.old names.old) part)
        (W.contents out.old) (W.contents out.new)) }
{
    let next = call_once(world, rank, names, asking, out)?;
    call_further(world, rank, names, next, out)
}

/// The calls that follow from the answer of a blocked call, if any do.
#[tactic(auto, using(crate::proofs::CallLaws::following_none, crate::proofs::CallLaws::following_some))]
pub fn call_following<W: Write>(
    world: &mut World,
    rank: u16,
    names: &mut RankNames,
    next: Option<PendingCall>,
    out: &mut W,
) -> Result<(), SimulateError>
    ensures ok { OnOk result (FollowingRuns rank next (standing world.old names.old) (W.contents out.old)
        (W.contents out.new) (standing world.new names.new)) }
    ensures err { IfErr result (λ e. BreaksOff e (λ part. FollowingBegins rank next (standing world.old names.old) part)
        (W.contents out.old) (W.contents out.new)) }
{
    match next {
        Some(asking) => call_both(world, rank, names, asking, out),
        None => Ok(()),
    }
}

/// What comes next of a statement is done, if it can be followed.
#[tactic(auto, using(crate::proofs::CallLaws::asked_nothing, crate::proofs::CallLaws::asked_told, crate::proofs::CallLaws::asked_calls, crate::proofs::CallLaws::asked_faulty, crate::proofs::StopLaws::ask_breaks, crate::proofs::BreakLaws::breaks_output))]
fn ask<W: Write>(
    world: &mut World,
    rank: u16,
    names: &mut RankNames,
    asked: Option<NextStep>,
    out: &mut W,
) -> Result<Acted, SimulateError>
    ensures ok { IfOk result (λ acted. AskRuns rank asked (standing world.old names.old) (W.contents out.old)
        (W.contents out.new) acted (standing world.new names.new)) }
    ensures err { IfErr result (λ e. BreaksOff e (λ part. AskBegins rank asked (standing world.old names.old) part)
        (W.contents out.old) (W.contents out.new)) }
{
    match asked {
        Some(NextStep::Nothing) => Ok(Acted::Done),
        Some(NextStep::Call(asking)) => {
            call_both(world, rank, names, asking, out)?;
            Ok(Acted::Done)
        }
        Some(NextStep::Told(told)) => {
            let printed = print_told(&told, out);
            drop(told);
            printed?;
            Ok(Acted::Done)
        }
        None => Ok(Acted::Faulty(None)),
    }
}

/// What a statement of a rank asks for is done, if it can be followed.
#[tactic(auto, using(crate::proofs::CallLaws::act_lacks, crate::proofs::CallLaws::act_asks, crate::proofs::StopLaws::act_first, crate::proofs::StopLaws::act_breaks))]
pub fn act<W: Write>(
    world: &mut World,
    rank: u16,
    names: &mut RankNames,
    action: Action,
    out: &mut W,
) -> Result<Acted, SimulateError>
    ensures ok { IfOk result (λ acted. ActRuns rank action (standing world.old names.old) (W.contents out.old)
        (W.contents out.new) acted (standing world.new names.new)) }
    ensures err { IfErr result (λ e. BreaksOff e (λ part. ActBegins rank action (standing world.old names.old) part)
        (W.contents out.old) (W.contents out.new)) }
{
    if let Some(fault) = names.lack_of(&action) {
        drop(action);
        return Ok(Acted::Faulty(Some(fault)));
    }
    let asked = names.act(action)?;
    ask(world, rank, names, asked, out)
}

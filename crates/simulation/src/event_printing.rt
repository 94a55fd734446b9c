//! What a step of the world prints.

ghost use Rattle.std.specs.Prelude.{◌≡◌, ◌∷◌, ◌++◌, ◌+◌, ◌-◌, ◌≤◌, ◌^◌, [], IfErr, OnOk, slice_get, Some};
ghost use Rattle.simulation.specs.Output.{CutsOff, Prints};
ghost use Rattle.simulation.specs.StepLines.{answered_line, completed_lines, emitted_lines, entry_lines, lines_at};
ghost use Rattle.simulation.specs.StepLines.{lines_between, refused_lines, reset_lines, stepped_lines, told_lines};

use crate::{
    SimulateError, print_completion, print_datagram, print_position, print_refusal, print_reply,
    print_taken,
};
use engine::{Completion, Reply};
use interpreter::Told;
use std::alloc::Global;
use std::io;
use std::io::Write;
use world::{Failed, HistoryEntry, Stepped, World};

/// The datagram of this number, if there is one.
fn print_at<W: Write>(world: &World, number: usize, out: &mut W) -> io::Result<()>
    ensures { OnOk result
        (Prints (W.contents out.old) (W.contents out.new) (lines_at number (slice_get world.now.datagrams number))) }
{
    match world.datagram(number) {
        Some((_rank, bytes)) => print_datagram(number, bytes, out),
        None => Ok(()),
    }
}

/// The datagrams from this number on, below that one.
#[tactic(auto, using(crate::proofs::PrintLaws::between_none, crate::proofs::PrintLaws::between_more, crate::proofs::PrintLaws::prints_more, crate::proofs::PrintLaws::prints_none))]
fn print_between<W: Write>(world: &World, first: usize, end: usize, out: &mut W) -> io::Result<()>
    requires { first ≤ end }
    ensures { OnOk result
        (Prints (W.contents out.old) (W.contents out.new) (lines_between world.now.datagrams first end)) }
{
    for number in first..end {
        print_at(world, number, out)?;
    }
    Ok(())
}

/// So many datagrams that a world emitted, from this number on.
fn print_emitted<W: Write>(world: &World, first: usize, count: usize, out: &mut W) -> io::Result<()>
    ensures { OnOk result
        (Prints (W.contents out.old) (W.contents out.new) (emitted_lines world.now.datagrams first count)) }
{
    print_between(world, first, first.saturating_add(count), out)
}

/// What an event answered: a call's reply, or that it was taken.
fn print_answered<W: Write>(
    alloc: Global,
    reply: &Option<Reply>,
    out: &mut W,
) -> Result<(), SimulateError>
    ensures ok { OnOk result (Prints (W.contents out.old) (W.contents out.new) (answered_line reply.now ∷ [])) }
    ensures err { IfErr result (λ e. CutsOff e (W.contents out.old) (W.contents out.new) (answered_line reply.now ∷ [])) }
{
    match reply {
        Some(reply) => print_reply(alloc, reply, out),
        None => Ok(print_taken(out)?),
    }
}

/// The answer of a call of this rank that was blocked, if it is ready now.
fn print_completed<W: Write>(
    alloc: Global,
    rank: u16,
    completion: &Option<Completion>,
    out: &mut W,
) -> Result<(), SimulateError>
    ensures ok { OnOk result (Prints (W.contents out.old) (W.contents out.new) (completed_lines rank completion.now)) }
    ensures err { IfErr result
        (λ e. CutsOff e (W.contents out.old) (W.contents out.new) (completed_lines rank completion.now)) }
{
    match completion {
        Some(completion) => print_completion(alloc, rank, completion, out),
        None => Ok(()),
    }
}

/// What an event answered, what it emitted, and the answer of a blocked call.
#[tactic(auto, using(crate::proofs::PrintLaws::prints_more, crate::proofs::PrintLaws::cuts_line, crate::proofs::PrintLaws::cuts_output))]
fn print_entry<W: Write>(
    alloc: Global,
    world: &World,
    entry: &HistoryEntry,
    stepped: Stepped,
    out: &mut W,
) -> Result<(), SimulateError>
    ensures ok { OnOk result (Prints (W.contents out.old) (W.contents out.new)
        (entry_lines entry.now (emitted_lines world.now.datagrams stepped.first stepped.count))) }
    ensures err { IfErr result (λ e. CutsOff e (W.contents out.old) (W.contents out.new)
        (entry_lines entry.now (emitted_lines world.now.datagrams stepped.first stepped.count))) }
{
    print_answered(alloc, &entry.reply, out)?;
    print_emitted(world, stepped.first, stepped.count, out)?;
    print_completed(alloc, entry.endpoint.rank, &entry.completion, out)
}

/// What is printed of a step that was taken.
pub fn print_stepped<W: Write>(
    alloc: Global,
    world: &World,
    stepped: Stepped,
    out: &mut W,
) -> Result<(), SimulateError>
    ensures ok { OnOk result (Prints (W.contents out.old) (W.contents out.new) (stepped_lines world.now stepped)) }
    ensures err { IfErr result (λ e.
        CutsOff e (W.contents out.old) (W.contents out.new) (stepped_lines world.now stepped)) }
{
    match world.history().get(stepped.place) {
        Some(entry) => print_entry(alloc, world, entry, stepped, out),
        None => Ok(()),
    }
}

/// The reset that went out with a refusal, if one did.
fn print_reset<W: Write>(world: &World, reset: Option<usize>, out: &mut W) -> io::Result<()>
    ensures { OnOk result (Prints (W.contents out.old) (W.contents out.new) (reset_lines world.now reset)) }
{
    match reset {
        Some(number) => print_emitted(world, number, 1, out),
        None => Ok(()),
    }
}

/// What is printed of an event that was refused.
pub fn print_refused<W: Write>(world: &World, failed: &Failed, out: &mut W) -> io::Result<()>
    ensures { OnOk result (Prints (W.contents out.old) (W.contents out.new) (refused_lines world.now failed.now)) }
{
    print_refusal(failed.refused.number(), out)?;
    print_reset(world, failed.reset, out)
}

/// What is told of the answers to questions that aren't printed by themselves.
pub fn print_told<W: Write>(told: &Told, out: &mut W) -> io::Result<()>
    ensures { OnOk result (Prints (W.contents out.old) (W.contents out.new) (told_lines told.now)) }
{
    match told {
        Told::Position(rank, size) => print_position(*rank, *size, out),
        Told::Error(number) => print_refusal(*number, out),
        Told::Errors(_)
        | Told::Pending
        | Told::NoMessage
        | Told::Members(_)
        | Told::Comparison(_) => Ok(()),
    }
}

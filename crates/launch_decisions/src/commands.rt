//! The commands of programs and of keepers.

ghost use Rattle.std.specs.Prelude.{◌≡◌, ◌∷◌, ◌≤◌, IfOk};
ghost use Rattle.launch_keeper.specs.Roles.{keeper_words};
ghost use Rattle.process_commands.specs.Commands.{IsCommandOf};
ghost use Rattle.launch_decisions.specs.Starts.{IsStarted, ArePrograms};

use crate::start::Start;
use launch_keeper::{Word, Words, keeper_words};
use process_commands::{add_arguments, command_of, set_variables};
use std::alloc::{AllocError, Global};
use std::io;
use std::process::Command;

/// The command of a start: its words, and its place in the environment; `None` for a rank that the plan lacks.
pub fn start_command(alloc: Global, start: &Start, words: &Words) -> io::Result<Command>
    ensures { IfOk result (λ command. IsStarted start.now words.now command) }
{
    let mut command = command_of(alloc, words.as_slice())?;
    set_variables(alloc, &mut command, &start.variables(alloc)?)?;
    Ok(command)
}

/// The command that starts this program as the keeper of a rank.
fn keeper_command(alloc: Global, itself: &str, rank: u16, words: &[Word]) -> io::Result<Command>
    ensures { IfOk result (λ command. IsCommandOf (itself.now ∷ keeper_words rank words.now) command) }
{
    let mut command = Command::new(alloc, itself)?;
    let arguments = keeper_words(alloc, rank, words)?;
    add_arguments(&mut command, arguments.as_slice())?;
    Ok(command)
}

#[tactic(auto, using(crate::proofs::RankLaws::programs_more))]
/// The commands that start this program as the keepers of so many ranks, in rank order.
pub fn keeper_commands(
    alloc: Global,
    itself: &str,
    size: u16,
    words: &[Word],
) -> io::Result<Vec<Command>>
    ensures { IfOk result (λ commands. ArePrograms itself.now words.now size commands.items) }
{
    let mut commands = Vec::new(alloc);
    for rank in 0..size {
        let command = keeper_command(alloc, itself, rank, words)?;
        commands.push(command).map_err(AllocError::from)?;
    }
    Ok(commands)
}

//! The commands of ranks.

ghost use Rattle.std.specs.Prelude.{IfOk, OnOk};
ghost use Rattle.std.specs.Process.{SameProgramAndArgs};
ghost use Rattle.process_commands.specs.Commands.{Sets};
ghost use Rattle.run_plan.specs.Commands.{setting_at, settings_at, IsRankCommand};

use crate::reading::setting_places;
use crate::sets::program_words;
use launch_decisions::Start;
use launch_keeper::{Word, Words};
use process_commands::{command_of, set_text, set_variables};
use std::alloc::Global;
use std::io;
use std::process::Command;

/// Lets a command set the variable whose name stands at this place, in front of its value.
fn set_at(command: &mut Command, words: &[Word], place: usize) -> io::Result<()>
    ensures call { OnOk result (SameProgramAndArgs command.old command.new) }
    ensures set { OnOk result (Sets command.old (setting_at words.now place) command.new) }
{
    let Some(name) = words.get(place) else {
        return Ok(());
    };
    let Some(value) = words.get(place + 1) else {
        return Ok(());
    };
    set_text(command, name, value)
}

/// Lets a command set the variables whose names stand at these places.
#[tactic(auto, using(crate::proofs::CommandLaws::said_both, crate::proofs::CommandLaws::left_more))]
fn set_all(command: &mut Command, words: &[Word], places: &[usize]) -> io::Result<()>
    ensures call { OnOk result (SameProgramAndArgs command.old command.new) }
    ensures set { OnOk result (Sets command.old (settings_at words.now places.now) command.new) }
{
    for place in places {
        set_at(command, words, *place)?;
    }
    Ok(())
}

/// The command of a rank's start, whose words are those of the launch: the program with its own arguments, the variables
/// that the words of `mpirun` set, and behind them those that tell the rank its place. An error where a word isn't UTF-8,
/// or memory is wanting.
#[tactic(auto, using(crate::proofs::CommandLaws::is_rank_command))]
pub fn rank_command(
    alloc: Global,
    start: &Start,
    launched: &Words,
    words: &[Word],
    has_patience: bool,
) -> io::Result<Command>
    ensures { IfOk result (λ command. IsRankCommand start.now launched.now words.now has_patience command) }
{
    let own = program_words(alloc, launched.as_slice(), has_patience)?;
    let mut command = command_of(alloc, own.as_slice())?;
    set_all(&mut command, words, &setting_places(alloc, words)?)?;
    set_variables(alloc, &mut command, &start.variables(alloc)?)?;
    Ok(command)
}

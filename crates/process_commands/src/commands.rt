//! Commands, as the words that start programs.

ghost use Rattle.std.specs.Prelude.{◌≡◌, ◌∷◌, ◌++◌, [], ℕ, List, IfOk, OnOk};
ghost use Rattle.std.specs.Process.{command_args, command_program, command_var};
ghost use Rattle.process_commands.specs.Commands.{IsCommandOf, SaysNothing};

use crate::text::text_of;
use launch_keeper::Word;
use std::alloc::Global;
use std::io;
use std::io::ErrorKind;
use std::process::Command;

/// Adds one argument to a command.
fn add_argument(command: &mut Command, word: &Word) -> io::Result<()>
    ensures program { OnOk result (command_program command.new ≡ command_program command.old) }
    ensures arguments { OnOk result (command_args command.new ≡ command_args command.old ++ word.now ∷ []) }
    ensures variables { OnOk result ((name : List ℕ) → command_var command.new name ≡ command_var command.old name) }
{
    let text = text_of(word)?;
    let _added = command.arg(text)?;
    Ok(())
}

/// Adds these arguments to a command, in their order.
pub fn add_arguments(command: &mut Command, words: &[Word]) -> io::Result<()>
    ensures program { OnOk result (command_program command.new ≡ command_program command.old) }
    ensures arguments { OnOk result (command_args command.new ≡ command_args command.old ++ words.now) }
    ensures variables { OnOk result ((name : List ℕ) → command_var command.new name ≡ command_var command.old name) }
{
    for word in words {
        add_argument(command, word)?;
    }
    Ok(())
}

/// The command of these words: the first is the program, the others are its arguments. It says nothing of the
/// environment. An error where there is no word, a word isn't UTF-8, or memory is wanting.
pub fn command_of(alloc: Global, words: &[Word]) -> io::Result<Command>
    ensures words { IfOk result (λ command. IsCommandOf words.now command) }
    ensures variables { IfOk result (λ command. SaysNothing command) }
{
    let Some((program, arguments)) = words.split_first() else {
        return Err(io::Error::from(ErrorKind::InvalidInput));
    };
    let mut command = Command::new(alloc, text_of(program)?)?;
    add_arguments(&mut command, arguments)?;
    Ok(command)
}

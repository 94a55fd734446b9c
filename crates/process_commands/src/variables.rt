//! Commands and the environment of the programs that they start.

ghost use Rattle.std.specs.Prelude.{◌≡◌, ◌∷◌, [], map, OnOk};
ghost use Rattle.std.specs.Process.{SameProgramAndArgs};
ghost use Rattle.rank_environment.specs.Variables.{variable_text};
ghost use Rattle.process_commands.specs.Commands.{Sets};

use crate::text::text_of;
use launch_keeper::Word;
use rank_environment::Variable;
use std::alloc::Global;
use std::io;
use std::process::Command;

/// Lets the command set one variable.
#[tactic(auto, using(crate::proofs::VariableLaws::one_set))]
fn set_variable(alloc: Global, command: &mut Command, variable: &Variable) -> io::Result<()>
    ensures call { OnOk result (SameProgramAndArgs command.old command.new) }
    ensures set { OnOk result (Sets command.old (variable_text variable.now ∷ []) command.new) }
{
    let value = variable.value;
    let text = format!(in alloc; "{value}")?;
    let _set = command.env(variable.name, text.as_str())?;
    Ok(())
}

/// Lets the command set these variables, in their order, beside those that its program inherits.
pub fn set_variables(alloc: Global, command: &mut Command, variables: &[Variable]) -> io::Result<()>
    ensures call { OnOk result (SameProgramAndArgs command.old command.new) }
    ensures set { OnOk result (Sets command.old (map variable_text variables.now) command.new) }
{
    for variable in variables {
        set_variable(alloc, command, variable)?;
    }
    Ok(())
}

/// Lets the command set the variable of this name to this value.
#[tactic(auto, using(crate::proofs::VariableLaws::one_set))]
pub fn set_text(command: &mut Command, name: &Word, value: &Word) -> io::Result<()>
    ensures call { OnOk result (SameProgramAndArgs command.old command.new) }
    ensures set { OnOk result (Sets command.old ((name.now, value.now) ∷ []) command.new) }
{
    let (name, value) = (text_of(name)?, text_of(value)?);
    let _set = command.env(name, value)?;
    Ok(())
}

//! The options of the rank program.

ghost use Rattle.std.specs.Prelude.{◌≡◌, IfOk};
ghost use Rattle.clap.specs.Words.{app_of, with_rule};
ghost use Rattle.rank_settings.specs.Program.{option_rule, rank_program};

use clap::{Arg, ArgAction, Command};
use std::alloc::{AllocError, Global};

/// Adds `--name VALUE`.
fn with_option<'a>(
    command: Command<'a>,
    alloc: Global,
    name: &'a str,
    required: bool,
) -> Result<Command<'a>, AllocError>
    ensures { IfOk result (λ c. app_of c ≡ with_rule (app_of command.entry) (option_rule name.entry.now required)) }
{
    let option = Arg::new(alloc, name)
        .long(name)
        .required(required)
        .action(ArgAction::Set);
    command.arg(option)
}

/// `rank_main --rank r --size n --inc i --job j --port p [--patience ms] [--hosts A,B,..] FILE`, the options in any order.
pub(crate) fn rank_program<'a>(alloc: Global) -> Result<Command<'a>, AllocError>
    ensures { IfOk result (λ c. app_of c ≡ rank_program) }
{
    let program = Command::new(alloc, "rank_main");
    let program = with_option(program, alloc, "rank", true)?;
    let program = with_option(program, alloc, "size", true)?;
    let program = with_option(program, alloc, "inc", true)?;
    let program = with_option(program, alloc, "job", true)?;
    let program = with_option(program, alloc, "port", true)?;
    let program = with_option(program, alloc, "patience", false)?;
    let program = with_option(program, alloc, "hosts", false)?;
    program.arg(Arg::new(alloc, "FILE").required(true))
}

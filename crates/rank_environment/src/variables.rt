//! The variables that a launcher sets.

ghost use Rattle.std.specs.Prelude.{◌≡◌, [], ◌∷◌, ◌++◌, map, IfOk, OnOk};
ghost use Rattle.rank_environment.specs.Variables.{variable_text, variables_of};

use crate::place::RankPlace;
use std::alloc::{AllocError, Global};

/// A variable of an environment whose value is a number, spelled in decimal digits without leading zeros.
#[derive(Clone, Copy, Debug)]
pub struct Variable {
    /// The variable's name.
    pub name: &'static str,
    /// Its value.
    pub value: u64,
}

/// Adds a variable of this name and value.
fn push(variables: &mut Vec<Variable>, name: &'static str, value: u64) -> Result<(), AllocError>
    ensures { OnOk result (variables.new.items ≡ variables.old.items ++ (record { name = name.entry; value = value }) ∷ []) }
{
    variables.push(Variable { name, value })?;
    Ok(())
}

/// The variables that tell a rank its place: `KOMBAZILY_RANK`, `KOMBAZILY_SIZE`, `KOMBAZILY_INCARNATION`,
/// `KOMBAZILY_JOB` and `KOMBAZILY_PORT`, which is the port of rank 0, and `KOMBAZILY_PATIENCE` where the launch says how
/// long a rank waits. Only want of memory is an error.
pub fn variables_of(alloc: Global, place: RankPlace) -> Result<Vec<Variable>, AllocError>
    ensures { IfOk result (λ variables. map variable_text variables.items ≡ variables_of place) }
{
    let mut variables = Vec::new(alloc);
    push(&mut variables, "KOMBAZILY_RANK", u64::from(place.rank))?;
    push(&mut variables, "KOMBAZILY_SIZE", u64::from(place.size))?;
    push(
        &mut variables,
        "KOMBAZILY_INCARNATION",
        u64::from(place.incarnation),
    )?;
    push(&mut variables, "KOMBAZILY_JOB", place.job)?;
    push(&mut variables, "KOMBAZILY_PORT", u64::from(place.base_port))?;
    if let Some(patience) = place.patience {
        push(&mut variables, "KOMBAZILY_PATIENCE", u64::from(patience))?;
    }
    Ok(variables)
}

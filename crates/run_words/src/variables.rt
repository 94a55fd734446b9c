//! Variables that are handed on or set: `-x NAME`, `-x NAME=VALUE`.

ghost use Rattle.std.specs.Prelude.{◌≡◌, ◌++◌, ◌∷◌, [], OnOk};
ghost use Rattle.std.specs.Str.{bytes_eq};
ghost use Rattle.std.specs.Option.{option_copied};
ghost use Rattle.run_words.specs.Pieces.{behind_equals, setting_words, value_of, variable_words};

use crate::symbol::{OwnOption, before_equals, equals_place};
use launch_keeper::{Word, Words};
use std::alloc::{AllocError, Global};

/// A variable of an environment.
#[derive(Drop)]
pub struct Variable {
    /// Its name.
    pub name: Word,
    /// Its value.
    pub value: Word,
}

fn is(word: &[u8], name: &[u8]) -> bool
    ensures { result ≡ bytes_eq word.now name.now }
{
    word == name
}

/// The value of the first of these variables that has this name.
fn value_of<'a>(variables: &'a [Variable], name: &[u8]) -> Option<&'a [u8]>
    ensures { option_copied result ≡ value_of name.now variables.now }
{
    for variable in variables {
        if is(variable.name.as_bytes(), name) {
            return Some(variable.value.as_bytes());
        }
    }
    None
}

/// What stands behind the byte at this place.
fn behind_equals(word: &[u8], place: usize) -> &[u8]
    ensures { result.now ≡ behind_equals place word.now }
{
    let (_, from) = word.split_at(place.min(word.len()));
    let (_, behind) = from.split_at(from.len().min(1));
    behind
}

pub(crate) fn push_bytes(alloc: Global, words: &mut Words, bytes: &[u8]) -> Result<(), AllocError>
    ensures { OnOk result (words.new ≡ words.old ++ bytes.now ∷ []) }
{
    words.push(Word::from_slice(alloc, bytes)?)?;
    Ok(())
}

/// Adds the option that sets a variable.
fn push_setting(
    alloc: Global,
    words: &mut Words,
    name: &[u8],
    value: &[u8],
) -> Result<(), AllocError>
    ensures { OnOk result (words.new ≡ words.old ++ setting_words name.now value.now) }
{
    push_bytes(alloc, words, OwnOption::Variable.name())?;
    push_bytes(alloc, words, name)?;
    push_bytes(alloc, words, value)
}

/// Adds the option that sets the variable of a word: `NAME=VALUE`, or the name of one of these variables. Nothing for
/// any other name.
pub(crate) fn push_variable(
    alloc: Global,
    words: &mut Words,
    variables: &[Variable],
    word: &[u8],
) -> Result<(), AllocError>
    ensures { OnOk result (words.new ≡ words.old ++ variable_words variables.now word.now) }
{
    if let Some(place) = equals_place(word) {
        return push_setting(
            alloc,
            words,
            before_equals(word),
            behind_equals(word, place),
        );
    }
    match value_of(variables, word) {
        Some(value) => push_setting(alloc, words, word, value),
        None => Ok(()),
    }
}

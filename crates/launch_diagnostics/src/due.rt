//! What may stand at a place of the launcher's words.

ghost use Rattle.std.specs.Prelude.{◌≡◌, ◌≤◌, length, slice_get};
ghost use Rattle.std.specs.Option.{option_copied};
ghost use Rattle.std.specs.Str.{bytes_eq};
ghost use Rattle.launch_diagnostics.specs.Dues.{set_due, value_due, due_by, word_before, due_at};

use crate::fault::refusal_of;
use launch_keeper::Word;
use launch_plan::LaunchRefusal;
use std::alloc::Global;
use std::fmt;

/// What may stand at a place of the launcher's words: what the words in front of it lack.
#[derive(Clone, Copy, Debug, PartialEq, Eq)]
pub enum Due {
    /// An own option or `-configfile`, or the first set.
    OptionOrSet,
    /// A set, behind a `:`.
    Set,
    /// A number between these two, themselves included: the value of an option.
    Number(u64, u64),
    /// The name of a configuration file.
    File,
    /// The program of a set.
    Program,
    /// No word.
    Nothing,
}

fn is(word: &[u8], name: &[u8]) -> bool
    ensures { result ≡ bytes_eq word.now name.now }
{
    word == name
}

/// What is due where a set is missing behind this word.
fn set_due(before: Option<&[u8]>) -> Due
    ensures { result ≡ set_due (option_copied before.entry) }
{
    match before {
        Some(word) if is(word, b":") => Due::Set,
        _ => Due::OptionOrSet,
    }
}

/// The value that is due behind this option (MPI 3.1, 8.8 has `-n` and `-configfile`; the others are the launcher's
/// own).
fn value_due(option: &[u8]) -> Due
    ensures { result ≡ value_due option.now }
{
    if is(option, b"-configfile") {
        Due::File
    } else if is(option, b"-n") {
        Due::Number(1, 1_024)
    } else if is(option, b"-job") {
        Due::Number(0, u64::MAX)
    } else if is(option, b"-baseport") {
        Due::Number(1, 65_535)
    } else if is(option, b"-restart") {
        Due::Number(0, 65_535)
    } else {
        Due::Number(1, 3_600_000)
    }
}

/// What is due behind words that are refused so, and whose last this is.
fn due_by(refused: Option<LaunchRefusal>, before: Option<&[u8]>) -> Due
    ensures { result ≡ due_by refused (option_copied before.entry) }
{
    match refused {
        Some(LaunchRefusal::NoSet) => set_due(before),
        Some(LaunchRefusal::WrongValue) => value_due(before.unwrap_or(b"")),
        Some(LaunchRefusal::NoProgram) => Due::Program,
        _ => Due::Nothing,
    }
}

/// The word at this place.
pub(crate) fn word_at(words: &[Word], place: usize) -> Option<&[u8]>
    ensures { option_copied result ≡ slice_get words.now place }
{
    match words.get(place) {
        Some(word) => Some(word.as_bytes()),
        None => None,
    }
}

/// The word in front of this place, if there is one.
pub(crate) fn word_before(words: &[Word], place: usize) -> Option<&[u8]>
    ensures { option_copied result ≡ word_before words.now place }
{
    if place == 0 {
        return None;
    }
    word_at(words, place - 1)
}

/// What may stand at this place: what the words in front of it lack.
pub(crate) fn due_at(alloc: Global, words: &[Word], config: Option<&[u8]>, place: usize) -> Due
    requires { place ≤ length words.now }
    ensures { result ≡ due_at words.now (option_copied config.entry) place }
{
    due_by(
        refusal_of(alloc, &words[..place], config),
        word_before(words, place),
    )
}

impl fmt::Display for Due {
    ghost use Rattle.std.specs.Prelude.{Some};
    ghost use Rattle.launch_diagnostics.specs.Dues.{due_text};

    ghost output = { λ d. Some (due_text d) };

    fn fmt<W: fmt::Write>(&self, f: &mut fmt::Formatter<W>) -> fmt::Result {
        match self {
            Due::OptionOrSet => f.write_str(
                "a set (-n N PROGRAM ..) or an option not yet given (-job, -baseport, -restart, -patience, -configfile)",
            ),
            Due::Set => f.write_str("a set (-n N PROGRAM ..)"),
            Due::Number(least, greatest) => write!(f, "a number from {least} to {greatest}"),
            Due::File => f.write_str("the name of a file with one set (-n N PROGRAM ..) a line"),
            Due::Program => f.write_str("a program"),
            Due::Nothing => f.write_str("no word"),
        }
    }
}

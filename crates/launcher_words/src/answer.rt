//! What a launcher answers.

ghost use Rattle.std.specs.Prelude.{◌≡◌};
ghost use Rattle.std.specs.Option.{option_copied};
ghost use Rattle.launcher_words.specs.Answers.{answer_in, separator, is_said, is_version, may_be_said, version_text};
ghost use Rattle.launcher_words.specs.Words.{value_of};

use crate::words::{is, value_of};

/// How a rank and its launcher speak: versions of the process management interface of MPICH.
#[derive(Clone, Copy, Debug, PartialEq, Eq)]
pub enum Wire {
    /// PMI-1: lines of words with blanks between them.
    Lines,
    /// PMI-2: records of a length and words with `;` between them.
    Records,
}

/// What an answer is.
#[derive(Clone, Copy, Debug, PartialEq, Eq)]
pub enum Answer {
    /// That to what was asked, which was done.
    Given,
    /// That to what was asked, which failed.
    Failed,
    /// None to what was asked.
    Other,
}

impl Wire {
    /// The byte between two words.
    pub fn separator(self) -> u8
        ensures { result ≡ separator self }
    {
        match self {
            Wire::Lines => b' ',
            Wire::Records => b';',
        }
    }

    /// The version's number, as the first line tells it.
    fn version(self) -> &'static [u8]
        ensures { result.now ≡ version_text self }
    {
        match self {
            Wire::Lines => b"1",
            Wire::Records => b"2",
        }
    }
}

/// Whether this is said.
fn is_said(value: Option<&[u8]>, text: &[u8]) -> bool
    ensures { result ≡ is_said (option_copied value.entry) text.now }
{
    match value {
        Some(value) => is(value, text),
        None => false,
    }
}

/// Whether nothing is said, or this.
fn may_be_said(value: Option<&[u8]>, text: &[u8]) -> bool
    ensures { result ≡ may_be_said (option_copied value.entry) text.now }
{
    match value {
        Some(value) => is(value, text),
        None => true,
    }
}

/// What a line or a record is, where this command is to be answered: the answer has the command as its word `cmd`, and
/// what it tells failed where there is a word `rc` that isn't 0, or a word `found` that isn't `TRUE`.
pub fn answer_in(line: &[u8], command: &[u8], wire: Wire) -> Answer
    ensures { result ≡ answer_in command.now (separator wire) line.now }
{
    let end = wire.separator();
    if !is_said(value_of(line, b"cmd", end), command) {
        return Answer::Other;
    }
    if may_be_said(value_of(line, b"rc", end), b"0")
        && may_be_said(value_of(line, b"found", end), b"TRUE")
    {
        Answer::Given
    } else {
        Answer::Failed
    }
}

/// Whether a launcher that was asked to speak this way says that it does: the first line, which has the same form for
/// both, is the answer to `init` and names the version.
pub fn is_version(line: &[u8], wire: Wire) -> bool
    ensures { result ≡ is_version wire line.now }
{
    answer_in(line, b"response_to_init", Wire::Lines) == Answer::Given
        && is_said(value_of(line, b"pmi_version", b' '), wire.version())
}

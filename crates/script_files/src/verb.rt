//! The first word of a line that only scripts have.

ghost use Rattle.std.specs.Prelude.{◌≡◌};
ghost use Rattle.script_files.specs.LineWords.{verb_of};

use tokens::is;

/// What a line that only scripts have says, by its first word.
#[derive(Clone, Copy)]
pub(crate) enum ScriptVerb {
    /// `on`
    On,
    /// `send`
    Send,
    /// `recv`
    Recv,
    /// `print`
    Print,
    /// `status`
    Status,
    /// `count`
    Count,
    /// `say`
    Say,
    /// `fail`
    Fail,
}

/// What the first word says, if only scripts have it.
#[tactic(auto, unfolding(crate::specs::LineWords::verb_of))]
pub(crate) fn verb_of(word: &[u8]) -> Option<ScriptVerb>
    ensures { result ≡ verb_of word.now }
{
    if is(word, b"on") {
        Some(ScriptVerb::On)
    } else if is(word, b"send") {
        Some(ScriptVerb::Send)
    } else if is(word, b"recv") {
        Some(ScriptVerb::Recv)
    } else if is(word, b"print") {
        Some(ScriptVerb::Print)
    } else if is(word, b"status") {
        Some(ScriptVerb::Status)
    } else if is(word, b"count") {
        Some(ScriptVerb::Count)
    } else if is(word, b"say") {
        Some(ScriptVerb::Say)
    } else if is(word, b"fail") {
        Some(ScriptVerb::Fail)
    } else {
        None
    }
}

//! Which words are verbs of statements.

ghost use Rattle.std.specs.Prelude.{◌≡◌};
ghost use Rattle.line_diagnostics.specs.Faults.{is_action_verb, is_communicator_verb, is_event_verb};
ghost use Rattle.line_diagnostics.specs.Faults.{is_only_script_verb, is_script_verb};

use tokens::is;

/// Whether the word is the verb of what a rank does with a communicator as a whole.
#[tactic(auto, unfolding(statements::specs::Words::communicator_verb_of))]
fn is_communicator_verb(word: &[u8]) -> bool
    ensures { result ≡ is_communicator_verb word.now }
{
    is(word, b"barrier")
        || is(word, b"bcast")
        || is(word, b"gather")
        || is(word, b"scatter")
        || is(word, b"reduce")
        || is(word, b"allreduce")
        || is(word, b"dup")
        || is(word, b"split")
        || is(word, b"who")
        || is(word, b"members")
        || is(word, b"compare")
}

/// Whether the word is the verb of what a rank does in a file of events and in a script.
#[tactic(auto, unfolding(statements::specs::Words::verb_of))]
pub(crate) fn is_action_verb(word: &[u8]) -> bool
    ensures { result ≡ is_action_verb word.now }
{
    is(word, b"buf")
        || is(word, b"type")
        || is(word, b"isend")
        || is(word, b"irecv")
        || is(word, b"wait")
        || is(word, b"test")
        || is(word, b"cancel")
        || is(word, b"waitany")
        || is(word, b"waitall")
        || is(word, b"issend")
        || is(word, b"iprobe")
        || is(word, b"improbe")
        || is(word, b"mrecv")
        || is_communicator_verb(word)
}

/// Whether the word is the verb of a statement that only scripts have.
#[tactic(auto, unfolding(script_files::specs::LineWords::verb_of))]
fn is_only_script_verb(word: &[u8]) -> bool
    ensures { result ≡ is_only_script_verb word.now }
{
    is(word, b"on")
        || is(word, b"send")
        || is(word, b"recv")
        || is(word, b"print")
        || is(word, b"status")
        || is(word, b"count")
        || is(word, b"say")
        || is(word, b"fail")
}

/// Whether the word is the verb of a script's statement.
pub(crate) fn is_script_verb(word: &[u8]) -> bool
    ensures { result ≡ is_script_verb word.now }
{
    is_only_script_verb(word) || is_action_verb(word)
}

/// Whether the word is the verb of a statement that only files of events have.
#[tactic(auto, unfolding(event_files::specs::LineWords::verb_of))]
pub(crate) fn is_event_verb(word: &[u8]) -> bool
    ensures { result ≡ is_event_verb word.now }
{
    is(word, b"world")
        || is(word, b"deliver")
        || is(word, b"tick")
        || is(word, b"stray")
        || is(word, b"restart")
}

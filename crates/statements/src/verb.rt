//! The first word of what a rank does.

ghost use Rattle.std.specs.Prelude.{◌≡◌};
ghost use Rattle.statements.specs.Words.{communicator_verb_of, verb_of};

use tokens::is;

/// What a rank does, by its first word.
#[derive(Clone, Copy)]
pub(crate) enum Verb {
    /// `buf`
    Buffer,
    /// `type`
    Layout,
    /// `isend`
    Isend,
    /// `issend`
    Issend,
    /// `irecv`
    Irecv,
    /// `iprobe`
    Iprobe,
    /// `improbe`
    Improbe,
    /// `mrecv`
    Mrecv,
    /// `wait`
    Wait,
    /// `test`
    Test,
    /// `cancel`
    Cancel,
    /// `waitany`
    Waitany,
    /// `waitall`
    Waitall,
    /// `barrier`
    Barrier,
    /// `bcast`
    Bcast,
    /// `gather`
    Gather,
    /// `scatter`
    Scatter,
    /// `reduce`
    Reduce,
    /// `allreduce`
    Allreduce,
    /// `dup`
    Dup,
    /// `split`
    Split,
    /// `who`
    Who,
    /// `members`
    Members,
    /// `compare`
    Compare,
}

/// What the first word says that a rank does with a communicator as a whole.
#[tactic(auto, unfolding(crate::specs::Words::communicator_verb_of))]
fn communicator_verb_of(word: &[u8]) -> Option<Verb>
    ensures { result ≡ communicator_verb_of word.now }
{
    if is(word, b"barrier") {
        Some(Verb::Barrier)
    } else if is(word, b"bcast") {
        Some(Verb::Bcast)
    } else if is(word, b"gather") {
        Some(Verb::Gather)
    } else if is(word, b"scatter") {
        Some(Verb::Scatter)
    } else if is(word, b"reduce") {
        Some(Verb::Reduce)
    } else if is(word, b"allreduce") {
        Some(Verb::Allreduce)
    } else if is(word, b"dup") {
        Some(Verb::Dup)
    } else if is(word, b"split") {
        Some(Verb::Split)
    } else if is(word, b"who") {
        Some(Verb::Who)
    } else if is(word, b"members") {
        Some(Verb::Members)
    } else if is(word, b"compare") {
        Some(Verb::Compare)
    } else {
        None
    }
}

/// What the first word says.
#[tactic(auto, unfolding(crate::specs::Words::verb_of))]
pub(crate) fn verb_of(word: &[u8]) -> Option<Verb>
    ensures { result ≡ verb_of word.now }
{
    if is(word, b"buf") {
        Some(Verb::Buffer)
    } else if is(word, b"type") {
        Some(Verb::Layout)
    } else if is(word, b"isend") {
        Some(Verb::Isend)
    } else if is(word, b"irecv") {
        Some(Verb::Irecv)
    } else if is(word, b"wait") {
        Some(Verb::Wait)
    } else if is(word, b"test") {
        Some(Verb::Test)
    } else if is(word, b"cancel") {
        Some(Verb::Cancel)
    } else if is(word, b"waitany") {
        Some(Verb::Waitany)
    } else if is(word, b"waitall") {
        Some(Verb::Waitall)
    } else if is(word, b"issend") {
        Some(Verb::Issend)
    } else if is(word, b"iprobe") {
        Some(Verb::Iprobe)
    } else if is(word, b"improbe") {
        Some(Verb::Improbe)
    } else if is(word, b"mrecv") {
        Some(Verb::Mrecv)
    } else {
        communicator_verb_of(word)
    }
}

//! The rules on what a rank enters a collective with.

ghost use Rattle.std.specs.Prelude.{◌≡◌};
ghost use Rattle.vocabulary.specs.MessageLimits.{limit_of};
ghost use Rattle.collective_progress.specs.Rules.{block_bytes, block_limit, is_other_type, is_rooted, is_undefined, is_wrong_total};
ghost use Rattle.collective_progress.specs.Rules.{number_of_rule, rule_broken};
ghost use Rattle.payload.specs.Spellings.{elements_of};

use collective_messages::{Entry, root_of};
use payload::{RECORD_BYTES, Record};
use vocabulary::MessageLimit;

/// A rule that what a rank enters with breaks.
#[derive(Clone, Copy, Debug, PartialEq, Eq)]
pub enum Rule {
    /// The root of a scatter hands in elements of another type than its blocks have (MPI 3.1, 5.6): error 2.
    WrongType,
    /// A block has too many bytes, or the root of a scatter hands in another number of elements than a block for each
    /// member has (MPI 3.1, 5.6): error 1.
    WrongCount,
    /// The communicator has no member of the root's rank: error 7.
    NoRoot,
    /// The operation isn't defined on the type (MPI 3.1, 5.9.2): error 9.
    NotDefined,
}

impl Rule {
    /// The number that a call answers.
    pub fn number(self) -> u8
        ensures { result ≡ number_of_rule self }
    {
        match self {
            Rule::WrongType => 2,
            Rule::WrongCount => 1,
            Rule::NoRoot => 7,
            Rule::NotDefined => 9,
        }
    }
}

/// Whether the elements of a scatter are of another type than its blocks.
fn is_other_type(entry: &Entry) -> bool
    ensures { result ≡ is_other_type entry.now }
{
    match entry {
        Entry::Scatter(rooted, Some(all)) => all.basic() != rooted.elements.basic,
        _ => false,
    }
}

/// How many bytes one member's block has.
fn block_bytes(entered: Record) -> u64
    ensures { result ≡ block_bytes (elements_of entered) }
{
    match entered.elements() {
        Some(elements) => u64::from(elements.count) * u64::from(elements.basic.size()),
        None => 0,
    }
}

/// How many bytes a member's block has at most (our own): with its record it goes in one message.
fn block_limit(limit: MessageLimit) -> u64
    ensures { result ≡ block_limit (limit_of limit) }
{
    u64::from(limit.bytes()) - RECORD_BYTES as u64
}

/// Whether the elements of a scatter are another number than a block for each of so many members has.
fn is_wrong_total(entry: &Entry, size: u32) -> bool
    ensures { result ≡ is_wrong_total size entry.now }
{
    match entry {
        Entry::Scatter(rooted, Some(all)) => {
            all.len() as u64 != u64::from(size) * u64::from(rooted.elements.count)
        }
        Entry::Scatter(rooted, None) => size != 0 && rooted.elements.count != 0,
        _ => false,
    }
}

/// Whether a collective has a root.
fn is_rooted(entry: &Entry) -> bool
    ensures { result ≡ is_rooted entry.now }
{
    match entry {
        Entry::Bcast(..) | Entry::Gather(..) | Entry::Scatter(..) | Entry::Reduce(..) => true,
        Entry::Barrier | Entry::Allreduce(..) | Entry::Dup | Entry::Split(_) => false,
    }
}

/// Whether the operation isn't defined on the type.
fn is_undefined(entry: &Entry) -> bool
    ensures { result ≡ is_undefined entry.now }
{
    match entry {
        Entry::Reduce(operation, _, block) | Entry::Allreduce(operation, block) => {
            !operation.is_defined_on(block.buffer().basic())
        }
        _ => false,
    }
}

/// The first rule that what a rank enters a communicator of so many members with breaks, of 2, 1, 7 and 9, in a job
/// whose messages have at most so many bytes. The rules on a scatter's elements hold of its root alone: `is_root` says
/// whether the rank is the member with the root's rank.
///
/// That an earlier call is blocked (6) and that there is no such communicator (4) come before these, that a member is
/// known at another incarnation (11) and the limits (13) behind them.
pub fn rule_broken(entry: &Entry, is_root: bool, size: u32, limit: MessageLimit) -> Option<Rule>
    ensures { result ≡ rule_broken (limit_of limit) is_root size entry.now }
{
    if is_root && is_other_type(entry) {
        return Some(Rule::WrongType);
    }
    let entered = entry.record();
    if block_bytes(entered) > block_limit(limit) || (is_root && is_wrong_total(entry, size)) {
        return Some(Rule::WrongCount);
    }
    if is_rooted(entry) && root_of(entered) >= size {
        return Some(Rule::NoRoot);
    }
    if is_undefined(entry) {
        return Some(Rule::NotDefined);
    }
    None
}

//! Which word of the rank program is at fault.

ghost use Rattle.std.specs.Prelude.{◌≡◌, ◌≤◌, ◌↔◌, ℕ, IfSome};
ghost use Rattle.rank_settings.specs.Faults.{IsAtFault, range_of};
ghost use Rattle.rank_settings.specs.Settings.{ArePorts};

use numerals::number_between;
use rank_addresses::is_host_list;
use std::convert::AsStr;
use std::fmt;

/// What may stand where a word is at fault.
#[derive(Clone, Copy, Debug, PartialEq, Eq)]
pub enum Wanted {
    /// A number between these, themselves included.
    Number(u64, u64),
    /// So many IPv4 addresses, with a comma between each two.
    Addresses(u64),
    /// An option that doesn't stand before it, or the script, once.
    OptionOrScript,
}

impl fmt::Display for Wanted {
    ghost use Rattle.std.specs.Prelude.{Some};
    ghost use Rattle.rank_settings.specs.Faults.{wanted_text};

    ghost output = { λ w. Some (wanted_text w) };

    fn fmt<W: fmt::Write>(&self, f: &mut fmt::Formatter<W>) -> fmt::Result {
        match self {
            Wanted::Number(low, high) => write!(f, "a number from {low} to {high}"),
            Wanted::Addresses(count) => {
                write!(
                    f,
                    "a list of {count} IPv4 addresses, one a rank, with commas between them"
                )
            }
            Wanted::OptionOrScript => f.write_str(
                "one of --rank, --size, --inc, --job, --port, --patience and --hosts, each once, or one script",
            ),
        }
    }
}

/// A word that is at fault, and what may stand in its place.
#[derive(Clone, Copy, Debug)]
pub struct WordFault<'a> {
    /// The word.
    pub word: &'a str,
    /// What may stand in its place.
    pub wanted: Wanted,
}

/// Between which numbers the value of this option lies.
#[tactic(auto, unfolding(crate::specs::Faults::range_of))]
fn range_of(option: &str) -> Option<(u64, u64)>
    ensures { result ≡ range_of option.now }
{
    match option {
        "--rank" => Some((0, 1_023)),
        "--size" => Some((1, 1_024)),
        "--inc" => Some((0, 65_535)),
        "--job" => Some((0, u64::MAX)),
        "--port" => Some((1, 65_535)),
        "--patience" => Some((1, 3_600_000)),
        _ => None,
    }
}

/// The fault of a value that is to lie between these numbers.
fn value_fault<'a>(word: &'a str, low: u64, high: u64) -> Option<WordFault<'a>>
    ensures { IfSome result (λ fault. IsAtFault fault.word.now fault.wanted) }
{
    match number_between(word.as_bytes(), low, high) {
        Some(_) => None,
        None => Some(WordFault {
            word,
            wanted: Wanted::Number(low, high),
        }),
    }
}

/// A word as it stands, or its front where `=` and a value stand behind an option.
fn front_of(word: &str) -> &str {
    match word.split_once('=') {
        Some((front, _)) => front,
        None => word,
    }
}

/// Whether an option stands among the words before the one at this place.
fn is_repeated<S: AsStr>(words: &[S], place: usize, option: &str) -> bool {
    words
        .iter()
        .take(place)
        .any(|one| front_of(one.as_str()) == option)
}

/// What the value of an option has to be, as far as it alone can tell.
#[derive(Clone, Copy)]
enum Value {
    /// A number between these.
    Number(u64, u64),
    /// Addresses.
    Addresses,
}

/// What the value of this option has to be.
fn value_kind(option: &str) -> Option<Value> {
    if option == "--hosts" {
        return Some(Value::Addresses);
    }
    let (low, high) = range_of(option)?;
    Some(Value::Number(low, high))
}

/// The fault of a value of this kind, as far as it alone can tell: that of addresses depends on how many ranks there are.
fn lone_fault<'a>(word: &'a str, kind: Value) -> Option<WordFault<'a>>
    ensures { IfSome result (λ fault. IsAtFault fault.word.now fault.wanted) }
{
    match kind {
        Value::Number(low, high) => value_fault(word, low, high),
        Value::Addresses => None,
    }
}

/// What a word stands for where an option or the script may stand.
enum Position<'a> {
    /// An option whose value is the next word, and what that has to be.
    Option(Value),
    /// An option with its value behind `=`.
    Valued(&'a str, Value),
    /// The script.
    Script,
    /// Nothing.
    Fault,
}

/// What the word at this place stands for, where no value does.
fn standing_of<'a, S: AsStr>(
    words: &[S],
    place: usize,
    word: &'a str,
    has_script: bool,
) -> Position<'a> {
    match value_kind(front_of(word)) {
        Some(_) if is_repeated(words, place, front_of(word)) => Position::Fault,
        Some(kind) => match word.split_once('=') {
            Some((_, value)) => Position::Valued(value, kind),
            None => Position::Option(kind),
        },
        None if has_script || word.starts_with('-') => Position::Fault,
        None => Position::Script,
    }
}

/// The first word, from the left, that no option and no value in its range may be. Behind `--` none is looked at.
fn scanned_fault<'a, S: AsStr>(words: &'a [S]) -> Option<WordFault<'a>>
    ensures { IfSome result (λ fault. IsAtFault fault.word.now fault.wanted) }
{
    let mut due = None;
    let mut has_script = false;
    for (place, word) in words.iter().enumerate().skip(1) {
        let word = word.as_str();
        if let Some(kind) = due.take() {
            if let Some(fault) = lone_fault(word, kind) {
                return Some(fault);
            }
            continue;
        }
        if word == "--" {
            return None;
        }
        match standing_of(words, place, word, has_script) {
            Position::Option(kind) => due = Some(kind),
            Position::Valued(value, kind) => {
                if let Some(fault) = lone_fault(value, kind) {
                    return Some(fault);
                }
            }
            Position::Script => has_script = true,
            Position::Fault => {
                return Some(WordFault {
                    word,
                    wanted: Wanted::OptionOrScript,
                });
            }
        }
    }
    None
}

/// The value of this option: behind `=`, or the next word.
fn value_of<'a, S: AsStr>(words: &'a [S], option: &str) -> Option<&'a str> {
    let place = words
        .iter()
        .position(|word| front_of(word.as_str()) == option)?;
    match words.get(place)?.as_str().split_once('=') {
        Some((_, value)) => Some(value),
        None => Some(words.get(place.checked_add(1)?)?.as_str()),
    }
}

/// From which port to which one a rank's own lies, so that the ports of all ranks are 1 to 65,535. It takes no memory.
fn port_bounds(rank: u64, size: u64) -> (u64, u64)
    requires rank { rank ≤ 1023 }
    requires size { size ≤ 1024 }
    ensures { (port : ℕ) → ArePorts rank size port ↔ ((result.0 ≤ port) × (port ≤ result.1)) }
{
    (rank + 1, 65_536 + rank - size)
}

/// The fault of hosts, where they are given, that are no list of so many addresses.
fn hosts_fault<'a, S: AsStr>(words: &'a [S], size: u64) -> Option<WordFault<'a>>
    ensures { IfSome result (λ fault. IsAtFault fault.word.now fault.wanted) }
{
    let word = value_of(words, "--hosts")?;
    if is_host_list(word.as_bytes(), size) {
        return None;
    }
    Some(WordFault {
        word,
        wanted: Wanted::Addresses(size),
    })
}

/// A rank that isn't below the size, a port by which some rank has none from 1 to 65,535, or hosts that aren't an
/// address for each rank.
fn bounds_fault<'a, S: AsStr>(words: &'a [S]) -> Option<WordFault<'a>>
    ensures { IfSome result (λ fault. IsAtFault fault.word.now fault.wanted) }
{
    let rank_word = value_of(words, "--rank")?;
    let port_word = value_of(words, "--port")?;
    let size = number_between(value_of(words, "--size")?.as_bytes(), 1, 1_024)?;
    let rank = number_between(rank_word.as_bytes(), 0, 1_023)?;
    if let Some(fault) = value_fault(rank_word, 0, size - 1) {
        return Some(fault);
    }
    let (least, greatest) = port_bounds(rank, size);
    if let Some(fault) = value_fault(port_word, least, greatest) {
        return Some(fault);
    }
    hosts_fault(words, size)
}

/// The word that is at fault where `settings_of` refuses these words with 64, and what may stand in its place: from the
/// left the first that is no option, no value in its option's range and not the script, or that stands twice; else a
/// rank that isn't below the size, a port by which some rank has none, or hosts that aren't an address for each rank.
/// None where words are missing.
pub fn fault_in<'a, S: AsStr>(words: &'a [S]) -> Option<WordFault<'a>>
    ensures { IfSome result (λ fault. IsAtFault fault.word.now fault.wanted) }
{
    match scanned_fault(words) {
        Some(fault) => Some(fault),
        None => bounds_fault(words),
    }
}

/// Whether a word behind the first one asks how the program is called: `--help`, `-h` or `--version`.
pub fn asks_for_help<S: AsStr>(words: &[S]) -> bool {
    words.iter().skip(1).any(|word| matches!(word.as_str(), "--help" | "-h" | "--version"))
}

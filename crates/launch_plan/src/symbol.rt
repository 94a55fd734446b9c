//! What a word is where an option may stand.

ghost use Rattle.std.specs.Prelude.{◌≡◌};
ghost use Rattle.std.specs.Str.{bytes_eq};
ghost use Rattle.launch_plan.specs.Symbols.{symbol_of, is_left_out, is_separator, least_of, greatest_of};

/// The launcher's own options, which have a value each.
#[derive(Clone, Copy)]
pub(crate) enum OwnOption {
    /// `-job`: the job's number.
    Job,
    /// `-baseport`: the port of rank 0.
    BasePort,
    /// `-restart`: how often a rank may be started again.
    Restart,
    /// `-patience`: how long the ranks wait, in milliseconds.
    Patience,
}

impl OwnOption {
    /// The option's least value.
    pub(crate) fn least(self) -> u64
        ensures { result ≡ least_of self }
    {
        match self {
            OwnOption::Job | OwnOption::Restart => 0,
            OwnOption::BasePort | OwnOption::Patience => 1,
        }
    }

    /// The option's greatest value.
    pub(crate) fn greatest(self) -> u64
        ensures { result ≡ greatest_of self }
    {
        match self {
            OwnOption::Job => u64::MAX,
            OwnOption::BasePort | OwnOption::Restart => 65_535,
            OwnOption::Patience => 3_600_000,
        }
    }
}

/// What a word is where an option may stand.
#[derive(Clone, Copy)]
pub(crate) enum Symbol {
    /// One of the launcher's own options.
    Own(OwnOption),
    /// `-configfile`.
    File,
    /// `-n`.
    Count,
    /// One of the options of MPI 3.1, 8.8 that this launcher leaves out.
    LeftOut,
    /// Another word that begins with `-`.
    Unknown,
    /// `:`.
    Separator,
    /// Any other word, the empty one too: a program.
    Program,
}

fn is(word: &[u8], name: &[u8]) -> bool
    ensures { result ≡ bytes_eq word.now name.now }
{
    word == name
}

/// Whether the word is `:`, which stands between two sets.
pub(crate) fn is_separator(word: &[u8]) -> bool
    ensures { result ≡ is_separator word.now }
{
    is(word, b":")
}

fn is_left_out(word: &[u8]) -> bool
    ensures { result ≡ is_left_out word.now }
{
    is(word, b"-soft")
        || is(word, b"-host")
        || is(word, b"-arch")
        || is(word, b"-wdir")
        || is(word, b"-path")
        || is(word, b"-file")
}

/// What the word is where an option may stand.
#[tactic(auto, unfolding(crate::specs::Symbols::symbol_of))]
pub(crate) fn symbol_of(word: &[u8]) -> Symbol
    ensures { result ≡ symbol_of word.now }
{
    if is(word, b"-job") {
        Symbol::Own(OwnOption::Job)
    } else if is(word, b"-baseport") {
        Symbol::Own(OwnOption::BasePort)
    } else if is(word, b"-restart") {
        Symbol::Own(OwnOption::Restart)
    } else if is(word, b"-patience") {
        Symbol::Own(OwnOption::Patience)
    } else if is(word, b"-configfile") {
        Symbol::File
    } else if is(word, b"-n") {
        Symbol::Count
    } else if is_left_out(word) {
        Symbol::LeftOut
    } else if !word.is_empty() && word[0] == b'-' {
        Symbol::Unknown
    } else if is_separator(word) {
        Symbol::Separator
    } else {
        Symbol::Program
    }
}

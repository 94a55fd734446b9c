//! What a word is where an option may stand.

ghost use Rattle.std.specs.Prelude.{◌≡◌};
ghost use Rattle.std.specs.Str.{bytes_eq};
ghost use Rattle.run_plan.specs.Symbols.{least_of, greatest_of, number_option, symbol_of, text_option};

/// An option whose value is a number.
#[derive(Clone, Copy, Debug, PartialEq, Eq)]
pub enum NumberOption {
    /// `-job`: the job's number.
    Job,
    /// `-baseport`: the port of rank 0.
    BasePort,
    /// `-restart`: how often a rank may be started again.
    Restart,
    /// `-patience`: how long a rank waits, in milliseconds.
    Patience,
    /// `-timeout`: how long the job may take, in seconds.
    Timeout,
    /// `-frame`: how many bytes of data a frame has at most.
    Frame,
    /// `-ppn`: how many ranks each host takes.
    PerHost,
}

impl NumberOption {
    /// The option's least value.
    pub(crate) fn least(self) -> u64
        ensures { result ≡ least_of self }
    {
        match self {
            NumberOption::Job | NumberOption::Restart => 0,
            NumberOption::Frame => 1_024,
            _ => 1,
        }
    }

    /// The option's greatest value.
    pub(crate) fn greatest(self) -> u64
        ensures { result ≡ greatest_of self }
    {
        match self {
            NumberOption::Job => u64::MAX,
            NumberOption::BasePort | NumberOption::Restart => 65_535,
            NumberOption::Patience => 3_600_000,
            NumberOption::Timeout => 31_536_000,
            NumberOption::Frame => 61_440,
            NumberOption::PerHost => 1_024,
        }
    }
}

/// An option whose value is a text.
#[derive(Clone, Copy, Debug, PartialEq, Eq)]
pub enum TextOption {
    /// `-wdir`: the folder in which the ranks start.
    Folder,
    /// `-hostfile`: the file of hosts.
    HostFile,
    /// `-host`: the hosts.
    Hosts,
    /// `-launcher`: the words that start a program on another host.
    Launcher,
}

/// What a word is where an option may stand.
#[derive(Clone, Copy, Debug)]
pub(crate) enum Symbol {
    /// An option whose value is a number.
    Number(NumberOption),
    /// `-prefix`.
    Prefix,
    /// `-keep-going`.
    KeepGoing,
    /// `-oversubscribe`.
    Oversubscribe,
    /// An option whose value is a text.
    Text(TextOption),
    /// `-env`.
    Variable,
    /// `-n` or `-np`: the first set begins.
    Set,
    /// Any other word.
    Other,
}

fn is(word: &[u8], name: &[u8]) -> bool
    ensures { result ≡ bytes_eq word.now name.now }
{
    word == name
}

/// The option of this name whose value is a number.
#[tactic(auto, unfolding(crate::specs::Symbols::number_option))]
fn number_option(word: &[u8]) -> Option<NumberOption>
    ensures { result ≡ number_option word.now }
{
    if is(word, b"-job") {
        Some(NumberOption::Job)
    } else if is(word, b"-baseport") {
        Some(NumberOption::BasePort)
    } else if is(word, b"-restart") {
        Some(NumberOption::Restart)
    } else if is(word, b"-patience") {
        Some(NumberOption::Patience)
    } else if is(word, b"-timeout") {
        Some(NumberOption::Timeout)
    } else if is(word, b"-frame") {
        Some(NumberOption::Frame)
    } else if is(word, b"-ppn") {
        Some(NumberOption::PerHost)
    } else {
        None
    }
}

/// The option of this name whose value is a text.
#[tactic(auto, unfolding(crate::specs::Symbols::text_option))]
fn text_option(word: &[u8]) -> Option<TextOption>
    ensures { result ≡ text_option word.now }
{
    if is(word, b"-wdir") {
        Some(TextOption::Folder)
    } else if is(word, b"-hostfile") {
        Some(TextOption::HostFile)
    } else if is(word, b"-host") {
        Some(TextOption::Hosts)
    } else if is(word, b"-launcher") {
        Some(TextOption::Launcher)
    } else {
        None
    }
}

/// What the word is where an option may stand.
#[tactic(auto, unfolding(crate::specs::Symbols::symbol_of))]
pub(crate) fn symbol_of(word: &[u8]) -> Symbol
    ensures { result ≡ symbol_of word.now }
{
    if let Some(option) = number_option(word) {
        return Symbol::Number(option);
    }
    if let Some(option) = text_option(word) {
        return Symbol::Text(option);
    }
    if is(word, b"-prefix") {
        Symbol::Prefix
    } else if is(word, b"-keep-going") {
        Symbol::KeepGoing
    } else if is(word, b"-oversubscribe") {
        Symbol::Oversubscribe
    } else if is(word, b"-env") {
        Symbol::Variable
    } else if is(word, b"-n") || is(word, b"-np") {
        Symbol::Set
    } else {
        Symbol::Other
    }
}

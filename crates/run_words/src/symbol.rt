//! What a word is where an option may stand.

ghost use Rattle.std.specs.Prelude.{◌≡◌};
ghost use Rattle.std.specs.Str.{bytes_eq};
ghost use Rattle.std.specs.Char.{is_ascii_digit};
ghost use Rattle.std.specs.List.{position_from};
ghost use Rattle.run_words.specs.Symbols.{before_digit, before_equals, flag_option, host_option, idle_values, is_dashed};
ghost use Rattle.run_words.specs.Symbols.{is_equals, is_idle_flag, is_idle_pair, is_idle_setting, is_known};
ghost use Rattle.run_words.specs.Symbols.{is_of_set, known_symbol, number_option, one_dash, other_option, own_name};
ghost use Rattle.run_words.specs.Symbols.{other_symbol, own_option, symbol_of, text_option, unknown_symbol, value_count};

/// An option that has an effect, whatever it is called.
#[derive(Clone, Copy, Debug, PartialEq, Eq)]
pub(crate) enum OwnOption {
    /// The job's number.
    Job,
    /// The port of rank 0.
    BasePort,
    /// How often a rank may be started again.
    Restart,
    /// How long a rank waits.
    Patience,
    /// How long the job may take.
    Timeout,
    /// How long its frames are.
    Frame,
    /// How many ranks each host takes.
    PerHost,
    /// The rank stands in front of each line.
    Prefix,
    /// The other ranks go on when one has failed.
    KeepGoing,
    /// Hosts take more ranks than their slots.
    Oversubscribe,
    /// The folder in which the ranks start.
    Folder,
    /// The file of hosts.
    HostFile,
    /// The hosts themselves.
    Hosts,
    /// The words that start a program on a host.
    Launcher,
    /// A variable with its value.
    Variable,
}

/// What a word is where an option may stand.
#[derive(Clone, Copy, Debug)]
pub(crate) enum Symbol {
    /// An option that has an effect.
    Own(OwnOption),
    /// An option with so many values that is taken and has no effect.
    Idle(u8),
    /// How many processes of the set's program there are.
    Count,
    /// A variable is handed on, or set.
    Export,
    /// What has no effect is told.
    Verbose,
    /// The sets stand in a file.
    File,
    /// No option stands behind this word.
    OptionsEnd,
    /// How the program is used is asked for.
    Usage,
    /// Its version is asked for.
    Version,
    /// `:`, which stands between sets.
    Separator,
    /// The name of an option and its value in one word.
    Joined,
    /// Another word that begins with `-`.
    Unknown,
    /// Any other word: a program.
    Program,
}

impl OwnOption {
    /// The one name by which `run_plan` knows it.
    #[tactic(auto, unfolding(crate::specs::Symbols::own_name))]
    pub(crate) fn name(self) -> &'static [u8]
        ensures { result.now ≡ own_name self }
    {
        match self {
            OwnOption::Job => b"-job",
            OwnOption::BasePort => b"-baseport",
            OwnOption::Restart => b"-restart",
            OwnOption::Patience => b"-patience",
            OwnOption::Timeout => b"-timeout",
            OwnOption::Frame => b"-frame",
            OwnOption::PerHost => b"-ppn",
            OwnOption::Prefix => b"-prefix",
            OwnOption::KeepGoing => b"-keep-going",
            OwnOption::Oversubscribe => b"-oversubscribe",
            OwnOption::Folder => b"-wdir",
            OwnOption::HostFile => b"-hostfile",
            OwnOption::Hosts => b"-host",
            OwnOption::Launcher => b"-launcher",
            OwnOption::Variable => b"-env",
        }
    }

    /// How many values stand behind it.
    pub(crate) fn value_count(self) -> u8
        ensures { result ≡ value_count self }
    {
        match self {
            OwnOption::Prefix | OwnOption::KeepGoing | OwnOption::Oversubscribe => 0,
            OwnOption::Variable => 2,
            _ => 1,
        }
    }

    /// Whether it is an option of its set alone where others have it behind `-n`.
    pub(crate) fn is_of_set(self) -> bool
        ensures { result ≡ is_of_set self }
    {
        matches!(
            self,
            OwnOption::Folder | OwnOption::Hosts | OwnOption::Variable
        )
    }
}

fn is(word: &[u8], name: &[u8]) -> bool
    ensures { result ≡ bytes_eq word.now name.now }
{
    word == name
}

/// The option of this name whose value is a number.
#[tactic(auto, unfolding(crate::specs::Symbols::number_option))]
fn number_option(word: &[u8]) -> Option<OwnOption>
    ensures { result ≡ number_option word.now }
{
    if is(word, b"-job") {
        Some(OwnOption::Job)
    } else if is(word, b"-baseport") {
        Some(OwnOption::BasePort)
    } else if is(word, b"-restart") {
        Some(OwnOption::Restart)
    } else if is(word, b"-patience") {
        Some(OwnOption::Patience)
    } else if is(word, b"-timeout") {
        Some(OwnOption::Timeout)
    } else if is(word, b"-frame") {
        Some(OwnOption::Frame)
    } else {
        None
    }
}

/// The option of this name that says where ranks are.
#[tactic(auto, unfolding(crate::specs::Symbols::host_option))]
fn host_option(word: &[u8]) -> Option<OwnOption>
    ensures { result ≡ host_option word.now }
{
    if is(word, b"-hostfile") || is(word, b"-machinefile") || is(word, b"-f") {
        Some(OwnOption::HostFile)
    } else if is(word, b"-host") || is(word, b"-hosts") || is(word, b"-H") {
        Some(OwnOption::Hosts)
    } else if is(word, b"-ppn")
        || is(word, b"-perhost")
        || is(word, b"-npernode")
        || is(word, b"-N")
    {
        Some(OwnOption::PerHost)
    } else {
        None
    }
}

/// The option of this name whose value is a text, or two.
#[tactic(auto, unfolding(crate::specs::Symbols::text_option))]
fn text_option(word: &[u8]) -> Option<OwnOption>
    ensures { result ≡ text_option word.now }
{
    if is(word, b"-wdir") || is(word, b"-wd") {
        Some(OwnOption::Folder)
    } else if is(word, b"-launcher") {
        Some(OwnOption::Launcher)
    } else if is(word, b"-env") || is(word, b"-genv") {
        Some(OwnOption::Variable)
    } else {
        None
    }
}

/// The option of this name without a value.
#[tactic(auto, unfolding(crate::specs::Symbols::flag_option))]
fn flag_option(word: &[u8]) -> Option<OwnOption>
    ensures { result ≡ flag_option word.now }
{
    if is(word, b"-prefix")
        || is(word, b"-l")
        || is(word, b"-tag-output")
        || is(word, b"-prepend-rank")
    {
        Some(OwnOption::Prefix)
    } else if is(word, b"-keep-going") {
        Some(OwnOption::KeepGoing)
    } else if is(word, b"-oversubscribe") {
        Some(OwnOption::Oversubscribe)
    } else {
        None
    }
}

/// The option of this name that no number follows.
fn other_option(word: &[u8]) -> Option<OwnOption>
    ensures { result ≡ other_option word.now }
{
    if let Some(option) = text_option(word) {
        return Some(option);
    }
    flag_option(word)
}

/// The option of this name that has an effect.
fn own_option(word: &[u8]) -> Option<OwnOption>
    ensures { result ≡ own_option word.now }
{
    if let Some(option) = number_option(word) {
        return Some(option);
    }
    if let Some(option) = host_option(word) {
        return Some(option);
    }
    other_option(word)
}

/// Whether this is an option without value that has no effect.
#[tactic(auto, unfolding(crate::specs::Symbols::is_idle_flag))]
fn is_idle_flag(word: &[u8]) -> bool
    ensures { result ≡ is_idle_flag word.now }
{
    is(word, b"-abort")
        || is(word, b"-allow-run-as-root")
        || is(word, b"-report-bindings")
        || is(word, b"-q")
        || is(word, b"-quiet")
        || is(word, b"-envall")
        || is(word, b"-genvall")
}

/// Whether this is an option with one value that has no effect.
#[tactic(auto, unfolding(crate::specs::Symbols::is_idle_setting))]
fn is_idle_setting(word: &[u8]) -> bool
    ensures { result ≡ is_idle_setting word.now }
{
    is(word, b"-bind-to") || is(word, b"-map-by") || is(word, b"-rank-by")
}

/// Whether this is an option with two values that has no effect.
#[tactic(auto, unfolding(crate::specs::Symbols::is_idle_pair))]
fn is_idle_pair(word: &[u8]) -> bool
    ensures { result ≡ is_idle_pair word.now }
{
    is(word, b"-mca") || is(word, b"-gmca")
}

/// How many values the option of this name has, where it is taken and has no effect.
fn idle_values(word: &[u8]) -> Option<u8>
    ensures { result ≡ idle_values word.now }
{
    if is_idle_flag(word) {
        Some(0)
    } else if is_idle_setting(word) {
        Some(1)
    } else if is_idle_pair(word) {
        Some(2)
    } else {
        None
    }
}

/// What a word is that names none of the other options.
#[tactic(auto, unfolding(crate::specs::Symbols::other_symbol))]
fn other_symbol(word: &[u8]) -> Option<Symbol>
    ensures { result ≡ other_symbol word.now }
{
    if is(word, b"-n") || is(word, b"-np") || is(word, b"-c") {
        Some(Symbol::Count)
    } else if is(word, b"-x") {
        Some(Symbol::Export)
    } else if is(word, b"-v") || is(word, b"-verbose") {
        Some(Symbol::Verbose)
    } else if is(word, b"-configfile") {
        Some(Symbol::File)
    } else if is(word, b"--") {
        Some(Symbol::OptionsEnd)
    } else if is(word, b"-help") || is(word, b"-h") {
        Some(Symbol::Usage)
    } else if is(word, b"-version") || is(word, b"-V") {
        Some(Symbol::Version)
    } else {
        None
    }
}

/// What a word of this name is, where an option has it.
fn known_symbol(word: &[u8]) -> Option<Symbol>
    ensures { result ≡ known_symbol word.now }
{
    if let Some(option) = own_option(word) {
        return Some(Symbol::Own(option));
    }
    if let Some(count) = idle_values(word) {
        return Some(Symbol::Idle(count));
    }
    other_symbol(word)
}

/// Whether the word begins with `-`.
fn is_dashed(word: &[u8]) -> bool
    ensures { result ≡ is_dashed word.now }
{
    !word.is_empty() && word[0] == b'-'
}

/// The word with one dash in front of a name where it has two.
fn one_dash(word: &[u8]) -> &[u8]
    ensures { result.now ≡ one_dash word.now }
{
    let (_, behind) = word.split_at(word.len().min(1));
    if is_dashed(word) && is_dashed(behind) && word.len() > 2 {
        return behind;
    }
    word
}

/// The place of the first `=`.
pub(crate) fn equals_place(word: &[u8]) -> Option<usize>
    ensures { result ≡ position_from is_equals 0 word.now }
{
    word.iter().position(|byte| *byte == b'=')
}

/// What stands in front of the first `=`; nothing where there is none.
pub(crate) fn before_equals(word: &[u8]) -> &[u8]
    ensures { result.now ≡ before_equals word.now }
{
    let place = equals_place(word).unwrap_or(0);
    let (front, _) = word.split_at(place.min(word.len()));
    front
}

/// The place of the first digit.
fn digit_place(word: &[u8]) -> Option<usize>
    ensures { result ≡ position_from is_ascii_digit 0 word.now }
{
    word.iter().position(|byte| byte.is_ascii_digit())
}

/// What stands in front of the first digit; nothing where there is none.
fn before_digit(word: &[u8]) -> &[u8]
    ensures { result.now ≡ before_digit word.now }
{
    let place = digit_place(word).unwrap_or(0);
    let (front, _) = word.split_at(place.min(word.len()));
    front
}

/// Whether an option has this name, with one dash in front of it or two.
pub(crate) fn is_known(word: &[u8]) -> bool
    ensures { result ≡ is_known word.now }
{
    known_symbol(one_dash(word)).is_some()
}

/// What a word is that no option has as its name.
#[tactic(auto, unfolding(crate::specs::Symbols::unknown_symbol))]
fn unknown_symbol(word: &[u8]) -> Symbol
    ensures { result ≡ unknown_symbol word.now }
{
    if is(word, b":") {
        Symbol::Separator
    } else if !is_dashed(word) {
        Symbol::Program
    } else if is_known(before_equals(word)) || is_known(before_digit(word)) {
        Symbol::Joined
    } else {
        Symbol::Unknown
    }
}

/// What the word is where an option may stand.
pub(crate) fn symbol_of(word: &[u8]) -> Symbol
    ensures { result ≡ symbol_of word.now }
{
    match known_symbol(one_dash(word)) {
        Some(symbol) => symbol,
        None => unknown_symbol(word),
    }
}

//! The words of the program.

ghost use Rattle.std.specs.Prelude.{◌≤◌, IfSome};

use crate::exploring::Extent;
use clap::builder::ValueParser;
use clap::{Arg, ArgAction, ArgMatches, Command};
use numerals::number_between;
use std::alloc::{AllocError, Global};

/// What the program does.
const ABOUT: &str =
    "Plays a script under many schedules, and tells the results, the deadlocks and what else can go wrong";

/// What its statuses mean.
const STATUSES: &str = "\
mpiexplore --version says which program it is.
Status: 0 where no schedule that was played has an error, a request or a message that is left over, or a rank that isn't
through; 1 where one has, or the script is faulty; 2 where the words are wrong, 3 where the output fails, 6 for want of
memory.";

/// How sends are played.
#[derive(Clone, Copy, Debug, PartialEq, Eq)]
pub enum Sends {
    /// As the script has them.
    AsWritten,
    /// Each as a synchronous one.
    Synchronous,
    /// First as the script has them, and where no rank waits for ever then each as a synchronous one.
    Both,
}

/// What the words ask for.
#[derive(Clone, Copy, Debug)]
pub struct Settings<'a> {
    /// How many ranks there are: 1 to 1,024.
    pub size: u16,
    /// How many plays there are at most in order, and then at random.
    pub most: u64,
    /// From what the random ones begin.
    pub seed: u64,
    /// How many results are told at most.
    pub results: u64,
    /// Whether only what can go wrong is searched for, and not each result.
    pub findings: bool,
    /// How many states of all ranks together are visited at most, where not only findings are searched for.
    pub states: u64,
    /// How sends are played.
    pub sends: Sends,
    /// Of which result the events are printed, and nothing else; none: the report is printed.
    pub events: Option<u64>,
    /// The folder into which the events of each result are written, if they are.
    pub folder: Option<&'a str>,
    /// The name of the script's file.
    pub file: &'a str,
}

impl Settings<'_> {
    /// How far the script is explored.
    pub fn extent(&self) -> Extent {
        Extent {
            size: self.size,
            most: self.most,
            seed: self.seed,
            results: self.results,
            findings: self.findings,
            states: self.states as usize,
        }
    }
}

fn number_option<'a>(
    alloc: Global,
    name: &'a str,
    value: &'a str,
    low: u64,
    high: u64,
    help: &'a str,
) -> Arg<'a> {
    Arg::new(alloc, name)
        .long(name)
        .value_name(value)
        .value_parser(ValueParser::unsigned(low, high))
        .action(ArgAction::Set)
        .help(help)
}

/// The options that say how far the search goes.
fn with_search<'a>(command: Command<'a>, alloc: Global) -> Result<Command<'a>, AllocError> {
    let size = number_option(alloc, "ranks", "N", 1, 1_024, "How many ranks there are")
        .short('n')
        .required(true);
    let most = number_option(
        alloc,
        "most",
        "K",
        1,
        1_000_000_000,
        "How many plays there are at most in order, and then at random where those are not all",
    )
    .default_value("10000");
    let seed = number_option(
        alloc,
        "seed",
        "S",
        0,
        u64::MAX,
        "From what random choices begin; the same number gives the same",
    )
    .default_value("1");
    let states = number_option(
        alloc,
        "states",
        "K",
        0,
        1_000_000_000,
        "How many states that the ranks can come to together are visited at most, so that no end is left out",
    )
    .default_value("50000");
    command.arg(size)?.arg(most)?.arg(seed)?.arg(states)
}

/// The options that say which results are told.
fn with_results<'a>(command: Command<'a>, alloc: Global) -> Result<Command<'a>, AllocError> {
    let results = number_option(
        alloc,
        "results",
        "K",
        1,
        1_000_000_000,
        "How many results are told at most, first those in which something is wrong",
    )
    .default_value("10");
    let events = number_option(
        alloc,
        "events",
        "R",
        1,
        1_000_000_000,
        "Print nothing but result R as a file of events, which mpisim runs and mpidraw draws",
    );
    command.arg(results)?.arg(events)
}

fn flag<'a>(alloc: Global, name: &'a str, help: &'a str) -> Arg<'a> {
    Arg::new(alloc, name)
        .long(name)
        .action(ArgAction::SetTrue)
        .help(help)
}

fn with_sends<'a>(command: Command<'a>, alloc: Global) -> Result<Command<'a>, AllocError> {
    let synchronous = flag(
        alloc,
        "synchronous",
        "Play every send and isend as a synchronous one, which ends once its message is received",
    );
    let both = flag(
        alloc,
        "both",
        "Play the script as it is, and where no rank waits for ever then with synchronous sends too",
    );
    let findings = flag(
        alloc,
        "findings",
        "Search for what can go wrong alone, and not for each result: far fewer plays",
    );
    command.arg(synchronous)?.arg(both)?.arg(findings)
}

/// `mpiexplore -n N [--most K] [--seed S] [--states K] [--results K] [--findings] [--synchronous|--both] [--events R]
/// [--out FOLDER] SCRIPT`
pub fn explore_program<'a>(alloc: Global) -> Result<Command<'a>, AllocError> {
    let command = Command::new(alloc, "mpiexplore")
        .about(ABOUT)
        .after_help(STATUSES);
    let command = with_search(command, alloc)?;
    let command = with_results(command, alloc)?;
    let command = with_sends(command, alloc)?;
    let folder = Arg::new(alloc, "out")
        .long("out")
        .value_name("FOLDER")
        .action(ArgAction::Set)
        .help(
            "Write each result into this folder, which has to be there, as a file of events, result1.txt and so on, and as a picture, result1.svg",
        );
    let file = Arg::new(alloc, "SCRIPT")
        .required(true)
        .help("The script that all ranks run");
    command.arg(folder)?.arg(file)
}

/// Whether the words, of which the first is the program's name, ask for nothing but which program it is.
pub(crate) fn asks_version(words: &[String]) -> bool {
    match words.get(1) {
        Some(word) => words.len() == 2 && matches!(word.as_str(), "--version" | "-V"),
        None => false,
    }
}

fn number(matches: &ArgMatches<'_>, name: &str, high: u64) -> Option<u64>
    ensures { IfSome result (λ n. n ≤ high) }
{
    number_between(matches.get_str(name)?.as_bytes(), 0, high)
}

fn sends_in(matches: &ArgMatches<'_>) -> Sends {
    if matches.get_flag("both") {
        Sends::Both
    } else if matches.get_flag("synchronous") {
        Sends::Synchronous
    } else {
        Sends::AsWritten
    }
}

/// What the words that were taken ask for; none where a number has a zero in front.
pub fn settings_in<'a>(matches: &ArgMatches<'a>) -> Option<Settings<'a>> {
    let events = match matches.get_str("events") {
        Some(text) => Some(number_between(text.as_bytes(), 1, 1_000_000_000)?),
        None => None,
    };
    Some(Settings {
        size: number(matches, "ranks", 1_024)? as u16,
        most: number(matches, "most", 1_000_000_000)?,
        seed: number(matches, "seed", u64::MAX)?,
        results: number(matches, "results", 1_000_000_000)?,
        findings: matches.get_flag("findings"),
        states: number(matches, "states", 1_000_000_000)?,
        sends: sends_in(matches),
        events,
        folder: matches.get_str("out"),
        file: matches.get_str("SCRIPT")?,
    })
}

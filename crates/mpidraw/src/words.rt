//! The words of the program.

use crate::telling::{refused, unwritten};
use clap::{Arg, ArgAction, ArgMatches, Command, value_parser};
use script_pictures::Shown;
use std::alloc::{AllocError, Global};

/// Which program it is.
const VERSION: &str = "mpidraw (Kombazily) 0.1.0";

/// How many characters a row has where the words don't say it.
const USUAL_WIDTH: usize = 80;

/// In which form a file is drawn.
#[derive(Clone, Copy, Debug, PartialEq, Eq)]
pub enum Form {
    /// As SVG.
    Svg,
    /// In characters, with rows of so many.
    Text(usize),
}

/// What a file is.
#[derive(Clone, Copy, Debug, PartialEq, Eq)]
pub enum Source {
    /// A file of events.
    Events,
    /// A script that so many ranks run, and what is drawn of its datagrams.
    Script(u16, Shown),
}

/// What the words ask for.
#[derive(Clone, Copy, Debug)]
pub struct Settings<'a> {
    /// In which form to draw.
    pub form: Form,
    /// What the file is.
    pub source: Source,
    /// The name of the file.
    pub file: &'a str,
}

/// What is to be done by the words.
#[derive(Clone, Copy, Debug)]
pub enum Words<'a> {
    /// A file is to be drawn.
    Draw(Settings<'a>),
    /// Nothing: what there was to say is said, and this is the status.
    Over(u8),
}

/// The program with the options that say in which form to draw.
fn with_forms<'a>(alloc: Global) -> Result<Command<'a>, AllocError> {
    let svg = Arg::new(alloc, "svg")
        .long("svg")
        .action(ArgAction::SetTrue)
        .help("Draw as SVG, for a browser (the default)")
        .conflicts_with("text")?;
    let text = Arg::new(alloc, "text")
        .long("text")
        .action(ArgAction::SetTrue)
        .help("Draw in characters, for a terminal");
    let width = Arg::new(alloc, "width")
        .long("width")
        .value_name("W")
        .value_parser(value_parser!(u16).range(20..=10_000))
        .help("How many characters a row has with --text, 20 to 10000; usually 80");
    Command::new(alloc, "mpidraw")
        .about("Draws what a file of events or a script does, as a sequence diagram")
        .after_help("mpidraw --version says which program it is.")
        .arg(svg)?
        .arg(text)?
        .arg(width)
}

/// The options of the program, and the file.
fn program<'a>(alloc: Global) -> Result<Command<'a>, AllocError> {
    let ranks = Arg::new(alloc, "ranks")
        .short('n')
        .long("ranks")
        .value_name("N")
        .value_parser(value_parser!(u16).range(1..=1_024))
        .help("FILE is a script: draw one play of it at so many ranks, 1 to 1024");
    let datagrams = Arg::new(alloc, "datagrams")
        .long("datagrams")
        .action(ArgAction::SetTrue)
        .help(
            "Draw each datagram of a script with its number, acknowledgements too, in place of the messages",
        );
    let file = Arg::new(alloc, "FILE")
        .required(true)
        .help("A file of events, or a script with --ranks");
    with_forms(alloc)?.arg(ranks)?.arg(datagrams)?.arg(file)
}

/// What the matches ask for.
fn settings_in<'a>(matches: &ArgMatches<'a>) -> Option<Settings<'a>> {
    let file = matches.get_str("FILE")?;
    let width = match matches.get_one::<u16>("width") {
        Some(width) => usize::from(width),
        None => USUAL_WIDTH,
    };
    let form = if matches.get_flag("text") {
        Form::Text(width)
    } else {
        Form::Svg
    };
    let shown = if matches.get_flag("datagrams") {
        Shown::Datagrams
    } else {
        Shown::Messages
    };
    let source = match matches.get_one::<u16>("ranks") {
        Some(size) => Source::Script(size, shown),
        None => Source::Events,
    };
    Some(Settings { form, source, file })
}

/// Says that memory is wanting, and answers the status.
fn out_of_memory<'a>(rt: &impl Eprint) -> Words<'a> {
    Words::Over(refused(rt, 14, None))
}

/// Whether the words, of which the first is the program's name, ask for nothing but which program it is.
fn asks_version(words: &[String]) -> bool {
    match words.get(1) {
        Some(word) => words.len() == 2 && matches!(word.as_str(), "--version" | "-V"),
        None => false,
    }
}

/// What the words ask for. Help and the version are printed, and what is wrong is told.
pub fn words_of<'a>(rt: &(impl Print + Eprint + AllocGlobal), words: &'a [String]) -> Words<'a> {
    if asks_version(words) {
        return match println!(rt; "{VERSION}") {
            Ok(()) => Words::Over(0),
            Err(error) => Words::Over(unwritten(rt, &error)),
        };
    }
    let Ok(program) = program(rt.alloc()) else {
        return out_of_memory(rt);
    };
    match program.try_get_matches_from(words) {
        Ok(matches) => match settings_in(&matches) {
            Some(settings) => Words::Draw(settings),
            None => Words::Over(2),
        },
        Err(error) => {
            let told = error.print(rt);
            let status = error.exit_code();
            match (told, status) {
                (Err(lost), _) => Words::Over(unwritten(rt, &lost)),
                (Ok(()), 0) => Words::Over(0),
                (Ok(()), _) => Words::Over(2),
            }
        }
    }
}

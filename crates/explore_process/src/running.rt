//! Running the program.

use crate::exploring::{Explored, Progress, explore};
use crate::faults::{tell, tell_faulty, tell_file, tell_unwritten};
use crate::summary::{summary_of, summary_of_synchronous, told_at_once};
use crate::synchronous::PlayedText;
use crate::words::{Sends, Settings, asks_version, explore_program, settings_in};
use crate::writing::{print, write_results};
use clap::error::ErrorKind as Mistake;
use play_findings::Report;
use std::io::ErrorKind;
use std::rt::{Env, Files};
use std::time::{Clock, Instant};
use std::{env, fs};
use stepped_plays::PlayError;

/// Something was found, or the script is faulty or can't be read.
const FOUND: u8 = 1;

/// The words are wrong.
const WORDS: u8 = 2;

/// The output failed.
pub(crate) const OUTPUT: u8 = 3;

/// Memory was refused.
pub(crate) const MEMORY: u8 = 6;

/// After how many seconds it is told how far the search has come.
const PATIENCE: u64 = 1;

/// Who tells a terminal how far a search has come, about once a second, and standard output what it found, where it
/// takes long.
struct Teller<'a, R: Print + Eprint + AllocGlobal + Clock> {
    rt: &'a R,
    start: Option<Instant>,
    told: u64,
    listens: bool,
    failed: Option<u8>,
}

impl<'a, R: Print + Eprint + AllocGlobal + Clock> Drop for Teller<'a, R> {
    fn drop(self) {
        let Self {
            rt: _,
            start: _,
            told: _,
            listens: _,
            failed: _,
        } = self;
    }
}

impl<'a, R: Print + Eprint + AllocGlobal + Clock> Progress for Teller<'a, R> {
    fn tell(&mut self, plays: u64, results: usize) {
        if let Some(start) = &self.start {
            if let Ok(passed) = start.elapsed(self.rt) {
                let seconds = passed.as_secs();
                if seconds >= self.told.saturating_add(PATIENCE) {
                    self.told = seconds;
                    let _ = eprintln!(self.rt; "mpiexplore: {plays} plays, {results} different");
                }
            }
        }
    }

    fn listens(&self) -> bool {
        self.listens
    }

    fn found(&mut self, number: usize, plays: u64, report: &Report) {
        let printed = match told_at_once(self.rt.alloc(), number, plays, report) {
            Ok(text) => print(self.rt, text.as_slice()),
            Err(_) => Err(MEMORY),
        };
        if let Err(status) = printed {
            self.failed = Some(status);
        }
    }
}

/// Prints the events of one result alone.
fn print_events<R: Print + Eprint>(rt: &R, explored: &Explored, number: u64) -> Result<(), u8> {
    let count = explored.results.len();
    let place = usize::try_from(number)
        .unwrap_or(usize::MAX)
        .wrapping_sub(1);
    match explored.results.get(place) {
        Some(found) => print(rt, found.report.events.as_slice()),
        None => {
            let _ = eprintln!(rt; "mpiexplore: there is no result {number}, but {count}");
            Err(WORDS)
        }
    }
}

fn print_found<R: Files + Print + Eprint + AllocGlobal>(
    rt: &R,
    settings: &Settings<'_>,
    script: &PlayedText<'_>,
    explored: &Explored,
) -> Result<(), u8> {
    if let Some(folder) = settings.folder {
        write_results(rt, folder, settings.size, script, explored)?;
    }
    if let Some(number) = settings.events {
        return print_events(rt, explored, number);
    }
    match summary_of(rt.alloc(), settings.size, explored) {
        Ok(text) => print(rt, text.as_slice()),
        Err(_) => Err(MEMORY),
    }
}

/// Tells where the folder of `--out` isn't there, before anything is explored: none is made.
fn need_folder<R: Files + Eprint>(rt: &R, settings: &Settings<'_>) -> Result<(), u8> {
    let Some(folder) = settings.folder else {
        return Ok(());
    };
    match fs::metadata(rt, folder) {
        Ok(found) if found.is_dir() => Ok(()),
        _ => {
            tell_file(
                rt,
                59,
                folder,
                "written: --out needs a folder that is there",
            );
            Err(OUTPUT)
        }
    }
}

fn read_text<R: Files + Eprint + AllocGlobal>(
    rt: &R,
    settings: &Settings<'_>,
) -> Result<Vec<u8>, u8> {
    match fs::read(rt, settings.file) {
        Ok(text) => Ok(text),
        Err(error) => {
            if error.kind() == ErrorKind::OutOfMemory {
                return Err(MEMORY);
            }
            tell_file(rt, 59, settings.file, "read");
            Err(FOUND)
        }
    }
}

fn explored_of<R: Print + Eprint + AllocGlobal + Clock>(
    rt: &R,
    settings: &Settings<'_>,
    script: &PlayedText<'_>,
    tells: bool,
    listens: bool,
) -> Result<Explored, u8> {
    let start = if tells { Instant::now(rt).ok() } else { None };
    let mut teller = Teller {
        rt,
        start,
        told: 0,
        listens,
        failed: None,
    };
    match explore(rt.alloc(), script, settings.extent(), &mut teller) {
        Ok(explored) => match teller.failed {
            Some(status) => Err(status),
            None => Ok(explored),
        },
        Err(PlayError::Line(line)) => {
            tell_faulty(rt, script.written(), script.line(line));
            Err(FOUND)
        }
        Err(_) => Err(MEMORY),
    }
}

/// Explores a script with synchronous sends that ends otherwise, prints what goes wrong then, and answers whether
/// nothing does.
fn is_safe<R: Print + Eprint + AllocGlobal + Clock>(
    rt: &R,
    settings: &Settings<'_>,
    text: &[u8],
    is_well: bool,
    tells: bool,
) -> Result<bool, u8> {
    let Ok(script) = PlayedText::with_synchronous_sends(rt.alloc(), text) else {
        return Err(MEMORY);
    };
    let explored = explored_of(rt, settings, &script, tells, false)?;
    match summary_of_synchronous(rt.alloc(), settings.size, &explored, is_well) {
        Ok(page) => print(rt, page.as_slice())?,
        Err(_) => return Err(MEMORY),
    }
    Ok(explored.is_well())
}

/// Explores what these settings ask for, and answers the status.
fn run_settings<R: Files + Print + Eprint + AllocGlobal + Clock>(
    rt: &R,
    settings: &Settings<'_>,
    tells: bool,
) -> Result<u8, u8> {
    let text = read_text(rt, settings)?;
    need_folder(rt, settings)?;
    let script = if settings.sends == Sends::Synchronous {
        match PlayedText::with_synchronous_sends(rt.alloc(), &text) {
            Ok(script) => script,
            Err(_) => return Err(MEMORY),
        }
    } else {
        PlayedText::as_written(&text)
    };
    let explored = explored_of(rt, settings, &script, tells, settings.events.is_none())?;
    print_found(rt, settings, &script, &explored)?;
    let goes_on = settings.sends == Sends::Both && settings.events.is_none();
    let is_well = explored.is_well();
    let is_safe = !goes_on
        || explored.has_deadlock
        || is_safe(rt, settings, &text, is_well, tells)?;
    Ok(if is_safe && is_well { 0 } else { FOUND })
}

/// Prints which program it is, and answers the status.
fn print_version<R: Print + Eprint>(rt: &R) -> u8 {
    match print(rt, b"mpiexplore (Kombazily) 0.1.0\n") {
        Ok(()) => 0,
        Err(status) => status,
    }
}

/// Tells that the words are wrong, or how the program is called where they ask for that.
fn misused<R: Print + Eprint>(rt: &R, error: &clap::Error) -> u8 {
    match error.kind() {
        Mistake::OutOfMemory => MEMORY,
        _ => {
            if error.use_stderr() {
                tell(rt, 64, None);
            }
            match error.print(rt) {
                Ok(()) => { if error.use_stderr() { WORDS } else { 0 } }
                Err(lost) => {
                    tell_unwritten(rt, &lost);
                    OUTPUT
                }
            }
        }
    }
}

/// Runs the program with these words, the first of which is its name, and answers its status. Where it `tells`, the
/// standard error is told once a second how far the search has come.
pub fn run_words<R: Files + Print + Eprint + AllocGlobal + Clock>(
    rt: &R,
    words: &[String],
    tells: bool,
) -> u8 {
    if asks_version(words) {
        return print_version(rt);
    }
    let Ok(program) = explore_program(rt.alloc()) else {
        return MEMORY;
    };
    let matches = match program.try_get_matches_from(words) {
        Ok(matches) => matches,
        Err(error) => return misused(rt, &error),
    };
    match settings_in(&matches) {
        Some(settings) => match run_settings(rt, &settings, tells) {
            Ok(status) => status,
            Err(status) => {
                if status == MEMORY {
                    tell(rt, 14, None);
                }
                status
            }
        },
        None => {
            tell(rt, 64, None);
            WORDS
        }
    }
}

/// Runs the program with the words of this process, and answers its status.
pub fn run<R: Env + Files + Print + Eprint + AllocGlobal + Clock>(rt: &R, tells: bool) -> u8 {
    let words = match env::args(rt) {
        Ok(words) => words.collect::<Vec<String>>(rt.alloc()),
        Err(error) => {
            if error.kind() == ErrorKind::OutOfMemory {
                return MEMORY;
            }
            tell(rt, 64, None);
            return WORDS;
        }
    };
    match words {
        Ok(words) => run_words(rt, words.as_slice(), tells),
        Err(_) => MEMORY,
    }
}

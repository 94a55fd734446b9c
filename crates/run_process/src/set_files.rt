//! The sets of a file of `-configfile`: its words, or which line of it is at fault.

use crate::job::FAILED;
use crate::own_words::{MOST_RANKS, REFUSED, shown};
use crate::setup::{behind_name, tell_as_own};
use launch_diagnostics::explain;
use launch_keeper::{Word, Words};
use launch_plan::planning::plan;
use launch_plan::{LaunchRefusal, spelled_out};
use process_commands::text_of;
use std::alloc::{AllocError, Global};
use std::fs;
use std::rt::Files;

/// A set of a file with a fault.
#[derive(Drop)]
struct FaultySet {
    /// The number of its first line, from 1 on.
    line: usize,
    /// Its line, with those in which it goes on.
    text: Vec<u8>,
}

/// The words that name a file of sets.
fn naming(alloc: Global, name: &Word) -> Result<Words, AllocError> {
    let mut words = Words::new(alloc);
    for word in ["-configfile".as_bytes(), name.as_bytes()] {
        words.push(Word::from_slice(alloc, word)?)?;
    }
    Ok(words)
}

/// Whether a line of a file goes on in the next one, where it begins a set or a set goes on in it: a comment doesn't.
fn goes_on(begins: bool, line: &[u8]) -> bool {
    line.ends_with(b"\\") && !(begins && line.starts_with(b"#"))
}

/// Whether a file of this text alone has a set with a fault.
fn has_fault(alloc: Global, naming: &[Word], text: &[u8]) -> bool {
    match plan(alloc, naming, Some(text)) {
        Ok(_) | Err(LaunchRefusal::NoSet | LaunchRefusal::OutOfMemory) => false,
        Err(_) => true,
    }
}

/// The first set of a file with a fault of its own.
fn faulty_set(
    alloc: Global,
    naming: &[Word],
    bytes: &[u8],
) -> Result<Option<FaultySet>, AllocError> {
    let mut text = Vec::new(alloc);
    let mut first = 1;
    for (place, line) in bytes.split(|byte| *byte == b'\n').enumerate() {
        let begins = text.is_empty();
        if begins {
            first = place.saturating_add(1);
        }
        text.extend_from_slice(line)?;
        text.extend_from_slice(b"\n")?;
        if goes_on(begins, line) {
            continue;
        }
        if has_fault(alloc, naming, &text) {
            return Ok(Some(FaultySet { line: first, text }));
        }
        text.clear();
    }
    if has_fault(alloc, naming, &text) {
        return Ok(Some(FaultySet { line: first, text }));
    }
    Ok(None)
}

/// The words of a set's text behind another set, as which they are judged: no option may stand there.
fn words_behind_set(alloc: Global, naming: &[Word], text: &[u8]) -> Result<Words, AllocError> {
    let mut words = Words::new(alloc);
    for word in ["-n", "1", "PROGRAM", ":"] {
        words.push(Word::from_slice(alloc, word.as_bytes())?)?;
    }
    let set = spelled_out(alloc, naming, Some(text))?;
    words.extend(alloc, set.as_slice())?;
    Ok(words)
}

/// Tells what is wrong with a set of a file.
fn tell_set<R: Eprint + AllocGlobal>(rt: &R, naming: &[Word], name: &Word, set: &FaultySet) {
    let alloc = rt.alloc();
    let (name, number) = (shown(name), set.line);
    let Ok(words) = words_behind_set(alloc, naming, &set.text) else {
        return;
    };
    match explain(alloc, words.as_slice(), None) {
        Some(told) => {
            if let Ok(line) = format!(in alloc; "{told}") {
                let behind = behind_name(line.as_str());
                let _ = eprintln!(rt; "mpirun: {name} line {number}{behind}");
            }
        }
        None => {
            let _ = eprintln!(rt; "mpirun: {name} line {number}: ':': a line has one set");
        }
    }
}

/// Tells why a file of sets is refused, or can't be read.
fn tell_refusal<R: Eprint + AllocGlobal>(
    rt: &R,
    naming: &[Word],
    name: &Word,
    file: Option<&[u8]>,
) {
    let alloc = rt.alloc();
    if let Some(bytes) = file {
        if let Ok(Some(set)) = faulty_set(alloc, naming, bytes) {
            tell_set(rt, naming, name, &set);
            return;
        }
    }
    if let Some(told) = explain(alloc, naming, file) {
        if let Ok(line) = format!(in alloc; "{told}") {
            tell_as_own(rt, line.as_str());
        }
    }
}

/// The sets that stand in a file; tells why there are none.
pub fn sets_of_file<R: Files + Eprint + AllocGlobal>(rt: &R, name: &Word) -> Result<Words, u8> {
    let alloc = rt.alloc();
    let naming = naming(alloc, name).map_err(|_| FAILED)?;
    let file = match text_of(name) {
        Ok(text) => fs::read(rt, text).ok(),
        Err(_) => None,
    };
    let file = file.as_deref();
    match plan(alloc, naming.as_slice(), file) {
        Ok(_) => spelled_out(alloc, naming.as_slice(), file).map_err(|_| FAILED),
        Err(LaunchRefusal::OverLimit) => {
            let _ = eprintln!(rt; "mpirun: more than {MOST_RANKS} ranks");
            Err(REFUSED)
        }
        Err(_) => {
            tell_refusal(rt, naming.as_slice(), name, file);
            Err(REFUSED)
        }
    }
}

//! Explores the scripts that it is given one after the other, each behind its number of ranks, and prints what is
//! told of each: worked rows as data. Behind the word `both` each is explored with synchronous sends too, and behind
//! `findings` for what can go wrong alone.
//!
//! Status 0 where each script could be read and explored, else 1.
#![tactic(auto)]

use explore_process::{
    Explored, Extent, PlayedText, Progress, explore, summary_of, summary_of_synchronous,
};
use play_findings::Report;
use std::alloc::{AllocError, Global};
use std::io::{BufWriter, Write};
use std::process::ExitCode;
use std::rt::{Env, Files};
use std::{env, fs, io};

/// Nobody is told how far a search has come.
#[derive(Drop)]
struct Silent {}

impl Progress for Silent {
    fn tell(&mut self, _plays: u64, _results: usize) {}

    fn listens(&self) -> bool {
        false
    }

    fn found(&mut self, _number: usize, _plays: u64, _report: &Report) {}
}

/// How a script is explored.
#[derive(Clone, Copy, PartialEq, Eq)]
enum Manner {
    /// For each result, as it is.
    AsWritten,
    /// For each result, as it is and with synchronous sends.
    Both,
    /// For what can go wrong alone.
    Findings,
}

/// What is explored of a script at so many ranks; none where it can't be.
fn explored_of(
    alloc: Global,
    size: u16,
    script: &PlayedText<'_>,
    manner: Manner,
) -> Option<Explored> {
    let extent = Extent {
        size,
        most: 1_000,
        seed: 1,
        results: 4,
        findings: manner == Manner::Findings,
        states: 50_000,
    };
    explore(alloc, script, extent, &mut Silent {}).ok()
}

/// Prints this page, or that there is none.
fn print<W: Write>(
    out: &mut W,
    page: Option<Result<Vec<u8>, AllocError>>,
) -> Result<(), io::Error> {
    match page {
        Some(Ok(page)) => out.write_all(page.as_slice()),
        Some(Err(_)) => writeln!(out, "refused 14"),
        None => writeln!(out, "it was not explored"),
    }
}

/// Explores one script, and prints its name and what is told of it.
fn run<W: Write>(
    rt: &(impl Files + AllocGlobal),
    out: &mut W,
    size: u16,
    name: &str,
    manner: Manner,
) -> Result<(), io::Error> {
    let alloc = rt.alloc();
    let text = fs::read(rt, name)?;
    writeln!(out, "== {name}")?;
    let explored = explored_of(alloc, size, &PlayedText::as_written(&text), manner);
    let is_well = explored.as_ref().is_some_and(Explored::is_well);
    print(
        out,
        explored.map(|explored| summary_of(alloc, size, &explored)),
    )?;
    if manner == Manner::Both {
        let script = PlayedText::with_synchronous_sends(alloc, &text)?;
        let explored = explored_of(alloc, size, &script, manner);
        print(
            out,
            explored.map(|explored| summary_of_synchronous(alloc, size, &explored, is_well)),
        )?;
    }
    Ok(())
}

fn run_all(rt: &(impl Env + Files + Print + AllocGlobal)) -> Result<(), io::Error> {
    let mut out = BufWriter::new(rt.alloc(), io::writer(rt))?;
    let mut size = None;
    let mut manner = Manner::AsWritten;
    for word in env::args(rt)?.skip(1) {
        match size {
            Some(count) => {
                run(rt, &mut out, count, word.as_str(), manner)?;
                size = None;
            }
            None => {
                match word.as_str() {
                    "both" => manner = Manner::Both,
                    "findings" => manner = Manner::Findings,
                    number => size = number.parse::<u16>().ok(),
                }
            }
        }
    }
    out.flush()
}

fn main(rt: HostRuntime) -> ExitCode {
    match run_all(&rt) {
        Ok(()) => ExitCode::from(0),
        Err(_) => ExitCode::from(1),
    }
}

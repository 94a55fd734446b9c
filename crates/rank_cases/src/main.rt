//! Worked rows of ranks and of the launcher as processes: starts them, and prints what each printed and how it ended.
//!
//! The gate runs a program alone, away from all others. So this one is the launcher, a keeper and a rank too, by the
//! very libraries of `mpiexec` and `rank_main`, and starts itself; its first word says what it is, and without words it
//! runs the rows.
#![tactic(auto)]

mod launch_fault_rows;
mod ports;
mod process;
mod rank_fault_rows;
mod rows;

use crate::rows::run_rows;
use launch_keeper::Word;
use std::alloc::AllocError;
use std::net::Net;
use std::os::fd::AsRawFd;
use std::process::{ExitCode, OpenProcess, Processes};
use std::rt::{Env, Files};
use std::sync::Wait;
use std::time::Clock;
use std::{env, io};

/// Runs the launcher, or a keeper, with these words.
fn run_launcher<
    R: Net
        + Env
        + Files
        + Print
        + Eprint
        + AllocGlobal
        + Clock
        + Processes<Started: OpenProcess<Stdout: AsRawFd>>,
>(rt: &R, texts: &[String]) -> io::Result<u8> {
    let mut words = Vec::new(rt.alloc());
    for text in texts {
        let word = Word::from_slice(rt.alloc(), text.as_bytes())?;
        words.push(word).map_err(AllocError::from)?;
    }
    Ok(launch_process::run_words(rt, &words))
}

/// Does what the words ask for, the first of which is the program's name, and answers the status.
fn run<
    R: Net
        + Wait
        + Env
        + Files
        + Print
        + Eprint
        + AllocGlobal
        + Clock
        + Processes<Started: OpenProcess<Stdout: AsRawFd>>,
>(rt: &R, words: &[String]) -> io::Result<u8> {
    let Some((_program, behind)) = words.split_first() else {
        return Ok(1);
    };
    let Some((first, rest)) = behind.split_first() else {
        run_rows(rt)?;
        launch_fault_rows::run_rows(rt)?;
        return Ok(0);
    };
    match first.as_str() {
        "launch" => run_launcher(rt, rest),
        "-keeper" => run_launcher(rt, behind),
        "rank" => Ok(rank_process::run_words(rt, behind)),
        _ => Ok(rank_process::run_words(rt, words)),
    }
}

fn main(rt: HostRuntime) -> io::Result<ExitCode> {
    let words = env::args(&rt)?.collect::<Vec<String>>(rt.alloc())?;
    Ok(ExitCode::from(run(&rt, words.as_slice())?))
}

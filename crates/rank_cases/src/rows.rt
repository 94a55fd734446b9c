//! The rows.

use crate::ports::free_ports;
use crate::process::{show, start};
use crate::rank_fault_rows::run_rank_faults;
use std::io::Write;
use std::net::Net;
use std::process::{Child, Processes};
use std::rt::{Env, Files};
use std::time::Clock;
use std::{env, io};

/// Starts a rank of a job at a port, with more words behind.
fn start_rank<R: AllocGlobal + Processes>(
    rt: &R,
    itself: &str,
    (rank, size): (&str, &str),
    port: u16,
    more: &[&str],
) -> io::Result<Child<R::Started>> {
    let port = format!(in rt.alloc(); "{port}")?;
    let words = [
        "rank",
        "--rank",
        rank,
        "--size",
        size,
        "--inc",
        "0",
        "--job",
        "1",
        "--port",
        port.as_str(),
    ];
    start(rt, itself, &words, more)
}

/// Two ranks of a script, each started by itself.
fn run_pair<R: Net + Clock + Print + AllocGlobal + Processes>(
    rt: &R,
    itself: &str,
    title: &str,
    file: &str,
) -> io::Result<()> {
    let mut out = io::writer(rt);
    writeln!(out, "== {title}")?;
    let port = free_ports(rt)?;
    let first = start_rank(rt, itself, ("0", "2"), port, &[file])?;
    let second = start_rank(rt, itself, ("1", "2"), port.saturating_add(1), &[file])?;
    show(rt.alloc(), &mut out, "rank 0", first)?;
    show(rt.alloc(), &mut out, "rank 1", second)
}

/// Rank 0 of two alone.
fn run_alone<R: Net + Clock + Print + AllocGlobal + Processes>(
    rt: &R,
    itself: &str,
    title: &str,
    more: &[&str],
) -> io::Result<()> {
    let mut out = io::writer(rt);
    writeln!(out, "== {title}")?;
    let port = free_ports(rt)?;
    let rank = start_rank(rt, itself, ("0", "2"), port, more)?;
    show(rt.alloc(), &mut out, "rank 0", rank)
}

/// This program with just these words.
fn run_words<R: Print + AllocGlobal + Processes>(
    rt: &R,
    itself: &str,
    title: &str,
    words: &[&str],
) -> io::Result<()> {
    let mut out = io::writer(rt);
    writeln!(out, "== {title}")?;
    let process = start(rt, itself, words, &[])?;
    show(rt.alloc(), &mut out, "process", process)
}

/// The launcher, with ports that nobody has.
fn run_launch<R: Net + Clock + Print + AllocGlobal + Processes>(
    rt: &R,
    itself: &str,
    title: &str,
    words: &[&str],
) -> io::Result<()> {
    let mut out = io::writer(rt);
    writeln!(out, "== {title}")?;
    let port = format!(in rt.alloc(); "{}", free_ports(rt)?)?;
    let launcher = start(rt, itself, &["launch", "-baseport", port.as_str()], words)?;
    show(rt.alloc(), &mut out, "launcher", launcher)
}

/// Ranks that are started by themselves.
fn run_ranks<R: Net + Clock + Print + AllocGlobal + Processes>(
    rt: &R,
    itself: &str,
) -> io::Result<()> {
    run_pair(rt, itself, "two ranks play ping-pong", "pingpong.txt")?;
    run_alone(
        rt,
        itself,
        "a rank that nobody answers",
        &["--patience", "500", "pingpong.txt"],
    )?;
    run_alone(rt, itself, "a script with a faulty line", &["faulty.txt"])?;
    run_alone(
        rt,
        itself,
        "a script that is faulty when it is reached",
        &["unset.txt"],
    )?;
    run_alone(rt, itself, "messages that are taken out", &["messages.txt"])?;
    run_alone(rt, itself, "a file that isn't there", &["nothere.txt"])?;
    run_words(rt, itself, "no words", &["rank"])?;
    run_rank_faults(rt, itself)
}

/// Ranks that fail under the launcher.
fn run_failing<R: Net + Clock + Print + AllocGlobal + Processes>(
    rt: &R,
    itself: &str,
) -> io::Result<()> {
    run_launch(
        rt,
        itself,
        "a rank that fails is started anew",
        &["-restart", "1", "-n", "1", itself, "up.txt"],
    )?;
    run_launch(
        rt,
        itself,
        "a rank that fails and isn't started anew",
        &["-n", "1", itself, "up.txt"],
    )?;
    run_launch(
        rt,
        itself,
        "who waits for a rank that is started anew is told",
        &["-restart", "1", "-n", "2", itself, "anew.txt"],
    )?;
    run_launch(
        rt,
        itself,
        "a rank fails with a large message on its way, and is started anew",
        &["-restart", "1", "-n", "2", itself, "dies.txt"],
    )
}

/// Ranks under the launcher.
fn run_launches<R: Net + Clock + Print + AllocGlobal + Processes>(
    rt: &R,
    itself: &str,
) -> io::Result<()> {
    run_launch(
        rt,
        itself,
        "two ranks under the launcher, at one time",
        &["-patience", "5000", "-n", "2", itself, "pingpong.txt"],
    )?;
    run_failing(rt, itself)?;
    run_launch(
        rt,
        itself,
        "a program that isn't there",
        &["-n", "1", "./nothere"],
    )?;
    run_words(
        rt,
        itself,
        "the words that programs get",
        &[
            "launch",
            "-job",
            "5",
            "-baseport",
            "61000",
            "-n",
            "1",
            "echo",
            "hi",
            ":",
            "-n",
            "1",
            "echo",
            "ho",
        ],
    )
}

/// Ranks in communicators of their own, under the launcher.
fn run_groups<R: Net + Clock + Print + AllocGlobal + Processes>(
    rt: &R,
    itself: &str,
) -> io::Result<()> {
    run_launch(rt, itself, "two groups", &["-n", "4", itself, "groups.txt"])?;
    run_launch(
        rt,
        itself,
        "collectives",
        &["-n", "4", itself, "collectives.txt"],
    )?;
    run_launch(
        rt,
        itself,
        "a member of a communicator is started anew",
        &["-restart", "1", "-n", "2", itself, "anew_group.txt"],
    )
}

/// Runs all rows.
pub fn run_rows<R: Net + Clock + Env + Files + Print + AllocGlobal + Processes>(
    rt: &R,
) -> io::Result<()> {
    let itself = env::current_exe(rt)?;
    run_ranks(rt, itself.as_str())?;
    run_launches(rt, itself.as_str())?;
    run_groups(rt, itself.as_str())
}

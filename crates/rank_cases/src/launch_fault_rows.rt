//! Rows of what the launcher and its keepers tell on the standard error.

use crate::ports::free_ports;
use crate::process::{show, start};
use std::io::Write;
use std::net::{Ipv4Addr, Net, SocketAddr, TcpListener};
use std::process::Processes;
use std::rt::{Env, Files};
use std::time::Clock;
use std::{env, io};

/// Words that are refused, a row each.
const REFUSED: [&[&str]; 35] = [
    &[],
    &["-job", "5"],
    &[":"],
    &["-n", "1", "a", ":"],
    &["-n", "1", "a", ":", ":", "-n", "1", "b"],
    &["-np", "2", "a"],
    &["--help"],
    &["-n", "1", "-h"],
    &["-job", "1", "--version"],
    &["-job", "1", "-job", "2", "-n", "1", "a"],
    &["-n", "1", "-job", "1", "a"],
    &["-n", "1", "a", ":", "-job", "1", "-n", "1", "b"],
    &["-configfile", "sets.txt", "x"],
    &["-n", "0", "a"],
    &["-n", "1025", "a"],
    &["-n"],
    &["-n", ":", "a"],
    &["-job"],
    &["-job", "18446744073709551616", "-n", "1", "a"],
    &["-job", "-n", "1", "a"],
    &["-baseport", "65536", "-n", "1", "a"],
    &["-restart", "65536", "-n", "1", "a"],
    &["-patience", "3600001", "-n", "1", "a"],
    &["-configfile"],
    &["a", "-n", "1"],
    &["-n", "1", "a", ":", "b"],
    &["-n", "2"],
    &["-n", "1", ":", "-n", "1", "b"],
    &["-n", "1000", "a", ":", "-n", "25", "b"],
    &["-baseport", "65000", "-n", "600", "a"],
    &["-baseport", "65535", "-n", "2", "a"],
    &["-n", "1", "-host", "h", "a"],
    &["-configfile", "nothere.txt"],
    &["-configfile", "empty_sets.txt"],
    &["-configfile", "faulty_sets.txt", "x"],
];

/// The launcher with just these words.
fn run_refused<R: Print + AllocGlobal + Processes>(
    rt: &R,
    itself: &str,
    words: &[&str],
) -> io::Result<()> {
    let mut out = io::writer(rt);
    write!(out, "== refused:")?;
    for word in words {
        write!(out, " {word}")?;
    }
    writeln!(out)?;
    let launcher = start(rt, itself, &["launch"], words)?;
    show(rt.alloc(), &mut out, "launcher", launcher)
}

/// The launcher with these words behind its port.
fn run_at<R: Print + AllocGlobal + Processes>(
    rt: &R,
    itself: &str,
    port: u16,
    words: &[&str],
) -> io::Result<()> {
    let port = format!(in rt.alloc(); "{port}")?;
    let launcher = start(rt, itself, &["launch", "-baseport", port.as_str()], words)?;
    show(rt.alloc(), &mut io::writer(rt), "launcher", launcher)
}

/// The launcher with these words, at ports that nobody has.
fn run_failing<R: Net + Clock + Print + AllocGlobal + Processes>(
    rt: &R,
    itself: &str,
    title: &str,
    words: &[&str],
) -> io::Result<()> {
    writeln!(io::writer(rt), "== {title}")?;
    run_at(rt, itself, free_ports(rt)?, words)
}

/// The port of the row with a base port that is held, which the row prints.
const BUSY_PORT: u16 = 61_100;

/// The launcher at a base port that another launch holds.
fn run_beside_another<R: Net + Clock + Print + AllocGlobal + Processes>(
    rt: &R,
    itself: &str,
) -> io::Result<()> {
    writeln!(io::writer(rt), "== a base port that another launch holds")?;
    let _held = TcpListener::bind(rt, SocketAddr::from((Ipv4Addr::LOCALHOST, BUSY_PORT)))?;
    run_at(rt, itself, BUSY_PORT, &["-n", "1", "echo", "hi"])
}

/// Programs that fail, each of which the launcher tells.
fn run_failures<R: Net + Clock + Print + AllocGlobal + Processes>(
    rt: &R,
    itself: &str,
) -> io::Result<()> {
    for status in ["1", "2", "3", "4", "5", "6", "7"] {
        run_failing(
            rt,
            itself,
            "a status of rank_main",
            &["-n", "1", "./rank_main", status],
        )?;
    }
    for (title, program, last) in [
        ("a status of another program", "./ends_with", "4"),
        ("a signal", "./ends_with", "signal"),
        ("a program that can't be started", "./nothere", "0"),
    ] {
        run_failing(
            rt,
            itself,
            title,
            &["-restart", "1", "-n", "1", program, last],
        )?;
    }
    run_beside_another(rt, itself)
}

/// Runs all rows.
pub fn run_rows<R: Net + Clock + Env + Files + Print + AllocGlobal + Processes>(
    rt: &R,
) -> io::Result<()> {
    let itself = env::current_exe(rt)?;
    for words in &REFUSED {
        run_refused(rt, itself.as_str(), words)?;
    }
    run_failures(rt, itself.as_str())
}

//! What a rank tells on its standard error where it ends otherwise than its script does.

use crate::ports::{free_ports, socket_at};
use crate::process::{show, start};
use std::io;
use std::io::Write;
use std::net::Net;
use std::process::{Output, Processes};
use std::time::Clock;

/// Scripts that are faulty as they are read.
const FAULTY: [(&str, &str); 6] = [
    ("a tab in a script", "tab.txt"),
    ("a letter of no ASCII in a script", "accent.txt"),
    ("a word that is no statement", "verb.txt"),
    ("a word too few", "few.txt"),
    ("a line that is told in part", "long.txt"),
    ("a key above 32 bits", "key.txt"),
];

/// Scripts that are faulty when a line is reached.
const REACHED: [(&str, &str); 4] = [
    ("a buffer that is lent", "lent.txt"),
    ("a request that isn't set", "request.txt"),
    ("a communicator that isn't set", "communicator.txt"),
    ("no buffer at the root", "root.txt"),
];

/// Words of the program that are wrong.
const WORDS: [(&str, &[&str]); 6] = [
    ("a rank that is no number", &["--rank", "one"]),
    ("an option that isn't there", &["--ranks", "1"]),
    ("an option that stands twice", &["--inc", "0", "--inc", "1"]),
    ("two scripts", &["up.txt", "up.txt"]),
    (
        "a rank that is the size",
        &[
            "--rank", "2", "--size", "2", "--inc", "0", "--job", "1", "--port", "47000", "up.txt",
        ],
    ),
    ("a word for help", &["--help"]),
];

/// Rank 0 of two alone, at ports that nobody has.
fn run_alone<R: Net + Clock + Print + AllocGlobal + Processes>(
    rt: &R,
    itself: &str,
    title: &str,
    more: &[&str],
) -> io::Result<()> {
    let mut out = io::writer(rt);
    writeln!(out, "== {title}")?;
    let port = format!(in rt.alloc(); "{}", free_ports(rt)?)?;
    let words = [
        "rank",
        "--rank",
        "0",
        "--size",
        "2",
        "--inc",
        "0",
        "--job",
        "1",
        "--port",
        port.as_str(),
    ];
    let rank = start(rt, itself, &words, more)?;
    show(rt.alloc(), &mut out, "rank 0", rank)
}

/// Prints how a rank ended whose port was taken: `P` stands for the port.
fn show_taken<W: Write>(out: &mut W, ran: &Output, told: &str) -> io::Result<()> {
    match ran.status.code() {
        Some(code) => writeln!(out, "rank 0: status {code}")?,
        None => writeln!(out, "rank 0: no status")?,
    }
    if ran.stderr.as_slice() == told.as_bytes() {
        return writeln!(out, "errors: rank_main: rank 0: port P can't be used");
    }
    out.write_all(b"errors: ")?;
    out.write_all(&ran.stderr)
}

/// A rank whose port is taken.
fn run_at_a_taken_port<R: Net + Clock + Print + AllocGlobal + Processes>(
    rt: &R,
    itself: &str,
) -> io::Result<()> {
    let mut out = io::writer(rt);
    writeln!(out, "== a port that is taken")?;
    let port = free_ports(rt)?;
    let _taken = socket_at(rt, port)?;
    let port = format!(in rt.alloc(); "{port}")?;
    let words = [
        "rank",
        "--rank",
        "0",
        "--size",
        "1",
        "--inc",
        "0",
        "--job",
        "1",
        "--port",
        port.as_str(),
        "up.txt",
    ];
    let told = format!(in rt.alloc(); "rank_main: rank 0: port {port} can't be used\n")?;
    let ran = start(rt, itself, &words, &[])?.wait_with_output(rt.alloc())?;
    show_taken(&mut out, &ran, told.as_str())
}

/// Runs the rows.
pub fn run_rank_faults<R: Net + Clock + Print + AllocGlobal + Processes>(
    rt: &R,
    itself: &str,
) -> io::Result<()> {
    for (title, file) in FAULTY {
        run_alone(rt, itself, title, &[file])?;
    }
    for (title, file) in REACHED {
        run_alone(rt, itself, title, &[file])?;
    }
    run_alone(
        rt,
        itself,
        "a script that ends, and what it sent isn't acknowledged",
        &["--patience", "300", "sent.txt"],
    )?;
    for (title, words) in WORDS {
        let mut out = io::writer(rt);
        writeln!(out, "== {title}")?;
        let process = start(rt, itself, &["rank"], words)?;
        show(rt.alloc(), &mut out, "process", process)?;
    }
    run_at_a_taken_port(rt, itself)
}

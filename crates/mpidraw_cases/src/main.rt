//! Draws the files of events that it is given one after the other, and one play of each script, in front of which
//! stands its number of ranks, as SVG and in rows of 80 characters: worked rows as data.
//!
//! Status 0 where each file could be read, drawn and printed, else 1.
#![tactic(auto)]

use run_drawings::{Picture, svg_of, text_of};
use run_recording::record;
use script_pictures::{ScriptPicture, Shown, round_picture_of};
use std::alloc::Global;
use std::io::{BufWriter, Write};
use std::process::ExitCode;
use std::rt::{Env, Files};
use std::{env, fs, io};

/// Draws a picture, in both forms.
fn draw<W: Write>(alloc: Global, picture: &Picture, out: &mut W) -> io::Result<()> {
    let rows = text_of(alloc, picture, 80)?;
    let svg = svg_of(alloc, picture)?;
    out.write_all(rows.as_bytes())?;
    out.write_all(svg.as_bytes())
}

/// Draws what a file of events did, and prints how it ended.
fn draw_events<W: Write>(alloc: Global, text: &[u8], out: &mut W) -> io::Result<()> {
    match record(alloc, text) {
        Ok(recording) => {
            draw(alloc, &recording.picture, out)?;
            match recording.stopped {
                Some(_) => writeln!(out, "stopped"),
                None => writeln!(out, "ended"),
            }
        }
        Err(_) => writeln!(out, "not run"),
    }
}

/// Draws one play of a script at so many ranks.
fn draw_script<W: Write>(alloc: Global, text: &[u8], size: u16, out: &mut W) -> io::Result<()> {
    let Ok(play) = round_picture_of(alloc, text, size, Shown::Messages) else {
        return writeln!(out, "not played");
    };
    let ScriptPicture {
        picture,
        unfollowed,
    } = play;
    draw(alloc, &picture, out)?;
    match unfollowed {
        Some(at) => {
            let line = at.line;
            writeln!(out, "line {line} wasn't followed")
        }
        None => Ok(()),
    }
}

/// Draws one file, which is a script where it has a number of ranks, behind its name.
fn run<W: Write>(
    rt: &(impl Files + AllocGlobal),
    out: &mut W,
    size: Option<u16>,
    name: &str,
) -> io::Result<()> {
    let text = fs::read(rt, name)?;
    writeln!(out, "== {name}")?;
    match size {
        Some(size) => draw_script(rt.alloc(), &text, size, out),
        None => draw_events(rt.alloc(), &text, out),
    }
}

fn run_all(rt: &(impl Env + Files + Print + AllocGlobal)) -> io::Result<()> {
    let mut out = BufWriter::new(rt.alloc(), io::writer(rt))?;
    let mut size = None;
    for word in env::args(rt)?.skip(1) {
        match word.as_str().parse::<u16>() {
            Ok(number) => size = Some(number),
            Err(_) => run(rt, &mut out, size.take(), word.as_str())?,
        }
    }
    out.flush()
}

fn main(rt: HostRuntime) -> ExitCode {
    match run_all(&rt) {
        Ok(()) => ExitCode::from(0),
        Err(_) => ExitCode::from(1),
    }
}

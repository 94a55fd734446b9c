//! Draws what a file of events or a script does, as a sequence diagram.
//!
//! `mpidraw [--svg | --text] [--width W] [--ranks N [--datagrams]] FILE`. Status 0 where the file ran to its end; 1 with
//! `mpidraw: refused N line L` on standard error where a line is faulty (51), and with `mpidraw: refused N` where the
//! file can't be read (59) or for want of memory (14); 2 where the words are wrong, or an SVG would go to a terminal; 3
//! where the output fails. What ran before a line that can't be followed is drawn. With `--ranks N` the file is a
//! script, of which one play is drawn.
#![tactic(auto)]

mod telling;
mod words;

use crate::telling::{faulty_events, faulty_script, is_no_terminals, refused, unread, unwritten};
use crate::words::{Form, Settings, Source, Words, words_of};
use run_drawings::{Picture, svg_of, text_of};
use run_recording::{Recording, record};
use script_pictures::{ScriptPicture, Shown, Unfollowed, round_picture_of};
use simulation::{SimulateError, Stopped};
use std::alloc::{AllocError, Global};
use std::io::{ErrorKind, IsTerminal, Write};
use std::process::ExitCode;
use std::rt::{Env, Files};
use std::{env, fs, io};
use stepped_plays::PlayError;

/// The picture in the form that is asked for.
fn drawing_of(alloc: Global, picture: &Picture, form: Form) -> Result<String, AllocError> {
    match form {
        Form::Svg => svg_of(alloc, picture),
        Form::Text(width) => text_of(alloc, picture, width),
    }
}

/// Says why the file was not drawn to its end, and answers the status.
fn told_of(rt: &(impl Eprint + AllocGlobal), text: &[u8], stopped: Stopped) -> u8 {
    match stopped.error {
        SimulateError::Line(line) => faulty_events(rt, text, line, stopped.fault),
        SimulateError::OutOfMemory => refused(rt, 14, None),
        SimulateError::Output => 3,
    }
}

/// Writes a drawing, and answers the status.
fn write_drawing(rt: &(impl Print + Eprint), drawing: Result<String, AllocError>) -> u8 {
    let Ok(drawing) = drawing else {
        return refused(rt, 14, None);
    };
    match io::writer(rt).write_all(drawing.as_bytes()) {
        Ok(()) => 0,
        Err(error) => unwritten(rt, &error),
    }
}

/// Writes what a file of events did, tells why it stopped, if it did, and answers the status.
fn draw(
    rt: &(impl Print + Eprint + AllocGlobal),
    text: &[u8],
    recording: Recording,
    form: Form,
) -> u8 {
    let Recording { picture, stopped } = recording;
    let status = write_drawing(rt, drawing_of(rt.alloc(), &picture, form));
    match stopped {
        Some(stopped) if status == 0 => told_of(rt, text, stopped),
        other => {
            drop(other);
            status
        }
    }
}

/// Draws what a file of events does, and answers the status.
fn draw_events(rt: &(impl Print + Eprint + AllocGlobal), text: &[u8], form: Form) -> u8 {
    match record(rt.alloc(), text) {
        Ok(recording) => draw(rt, text, recording, form),
        Err(stopped) => told_of(rt, text, stopped),
    }
}

/// Draws a play of a script, tells which line of it couldn't be followed, if there is one, and answers the status.
fn draw_play(
    rt: &(impl Print + Eprint + AllocGlobal),
    text: &[u8],
    play: ScriptPicture,
    form: Form,
) -> u8 {
    let ScriptPicture {
        picture,
        unfollowed,
    } = play;
    let status = write_drawing(rt, drawing_of(rt.alloc(), &picture, form));
    match unfollowed {
        Some(Unfollowed { line, fault }) if status == 0 => {
            faulty_script(rt, text, line, Some(fault))
        }
        other => {
            drop(other);
            status
        }
    }
}

/// Draws one play of a script at so many ranks, and answers the status.
fn draw_script(
    rt: &(impl Print + Eprint + AllocGlobal),
    text: &[u8],
    size: u16,
    shown: Shown,
    form: Form,
) -> u8 {
    match round_picture_of(rt.alloc(), text, size, shown) {
        Ok(play) => draw_play(rt, text, play, form),
        Err(PlayError::Line(line)) => faulty_script(rt, text, line, None),
        Err(PlayError::Size) => refused(rt, 13, None),
        Err(PlayError::OutOfMemory) => refused(rt, 14, None),
    }
}

/// Draws the file that the settings name, and answers the status.
fn run(rt: &(impl Files + Print + Eprint + AllocGlobal), settings: &Settings<'_>) -> u8 {
    let text = match fs::read(rt, settings.file) {
        Ok(text) => text,
        Err(e) if e.kind() == ErrorKind::OutOfMemory => return refused(rt, 14, None),
        Err(_) => return unread(rt, settings.file),
    };
    match settings.source {
        Source::Events => draw_events(rt, &text, settings.form),
        Source::Script(size, shown) => draw_script(rt, &text, size, shown, settings.form),
    }
}

/// Follows the words of the program, whose output goes to a terminal or not, and answers the status.
fn run_words(rt: &(impl Env + Files + Print + Eprint + AllocGlobal), to_terminal: bool) -> u8 {
    let words = match env::args(rt) {
        Ok(words) => words,
        Err(e) if e.kind() == ErrorKind::OutOfMemory => return refused(rt, 14, None),
        Err(_) => return refused(rt, 59, None),
    };
    let Ok(words) = words.collect::<Vec<String>>(rt.alloc()) else {
        return refused(rt, 14, None);
    };
    match words_of(rt, &words) {
        Words::Draw(settings) if to_terminal && settings.form == Form::Svg => is_no_terminals(rt),
        Words::Draw(settings) => run(rt, &settings),
        Words::Over(status) => status,
    }
}

fn main(rt: HostRuntime) -> ExitCode {
    let to_terminal = rt.stdout().is_terminal();
    ExitCode::from(run_words(&rt, to_terminal))
}

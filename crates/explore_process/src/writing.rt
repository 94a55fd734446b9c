//! What is written: on standard output, and into a folder.

use crate::exploring::{Explored, ToldResult};
use crate::faults::{tell_file, tell_unwritten};
use crate::running::{MEMORY, OUTPUT};
use crate::synchronous::PlayedText;
use run_drawings::svg_of;
use script_pictures::{Shown, picture_of};
use std::alloc::Global;
use std::io::Write;
use std::rt::Files;
use std::{fs, io};
use stepped_plays::PlayError;

/// Prints a text.
pub(crate) fn print<R: Print + Eprint>(rt: &R, text: &[u8]) -> Result<(), u8> {
    let mut out = io::writer(rt);
    match out.write_all(text) {
        Ok(()) => Ok(()),
        Err(error) => {
            tell_unwritten(rt, &error);
            Err(OUTPUT)
        }
    }
}

fn write_file<R: Files + Eprint>(rt: &R, name: &str, text: &[u8]) -> Result<(), u8> {
    match fs::write(rt, name, text) {
        Ok(()) => Ok(()),
        Err(_) => {
            tell_file(rt, 59, name, "written");
            Err(OUTPUT)
        }
    }
}

/// The picture of a result, as SVG.
fn drawing_of(
    alloc: Global,
    size: u16,
    script: &PlayedText<'_>,
    found: &ToldResult,
) -> Result<String, PlayError> {
    let schedule = found.schedule.as_slice();
    let drawn = picture_of(alloc, script.text(), size, schedule, Shown::Messages)?;
    Ok(svg_of(alloc, &drawn.picture)?)
}

/// Writes a result as a file of events and as a picture.
fn write_result<R: Files + Eprint + AllocGlobal>(
    rt: &R,
    folder: &str,
    number: usize,
    found: &ToldResult,
    drawing: &str,
) -> Result<(), u8> {
    let Ok(name) = format!(in rt.alloc(); "{folder}/result{number}.txt") else {
        return Err(MEMORY);
    };
    write_file(rt, name.as_str(), found.report.events.as_slice())?;
    let Ok(name) = format!(in rt.alloc(); "{folder}/result{number}.svg") else {
        return Err(MEMORY);
    };
    write_file(rt, name.as_str(), drawing.as_bytes())
}

/// Writes each result that is told into the folder, as a file of events and as a picture.
pub(crate) fn write_results<R: Files + Eprint + AllocGlobal>(
    rt: &R,
    folder: &str,
    size: u16,
    script: &PlayedText<'_>,
    explored: &Explored,
) -> Result<(), u8> {
    for (place, found) in explored.results.iter().enumerate() {
        let Ok(drawing) = drawing_of(rt.alloc(), size, script, found) else {
            return Err(MEMORY);
        };
        write_result(rt, folder, place + 1, found, drawing.as_str())?;
    }
    Ok(())
}

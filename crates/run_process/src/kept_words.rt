//! The words by which a keeper on another host starts a rank's program: those of the command that would start it here.

use launch_keeper::{Word, Words};
use numerals::number_between;
use process_commands::{command_of, set_text, text_of};
use std::alloc::{AllocError, Global};
use std::io;
use std::io::ErrorKind;
use std::process::Command;

fn push(alloc: Global, words: &mut Words, text: &str) -> io::Result<()> {
    let word = Word::from_slice(alloc, text.as_bytes())?;
    words.push(word).map_err(AllocError::from)?;
    Ok(())
}

/// The words of a command that starts in this folder: the folder, how many variables it sets, the name and the value of
/// each, the program and its arguments.
pub fn words_of(alloc: Global, folder: &str, command: &Command) -> io::Result<Words> {
    let mut settings = Words::new(alloc);
    let mut count = 0u64;
    for (name, value) in command.get_envs() {
        if let Some(value) = value {
            push(alloc, &mut settings, name)?;
            push(alloc, &mut settings, value)?;
            count = count.saturating_add(1);
        }
    }
    let mut words = Words::new(alloc);
    push(alloc, &mut words, folder)?;
    let number = Word::from_number(alloc, count)?;
    words.push(number).map_err(AllocError::from)?;
    words.extend(alloc, settings.as_slice())?;
    push(alloc, &mut words, command.get_program())?;
    for argument in command.get_args() {
        push(alloc, &mut words, argument)?;
    }
    Ok(words)
}

/// The error of words that no launcher hands over.
fn faulty() -> io::Error {
    io::Error::from(ErrorKind::InvalidInput)
}

/// The command of such words.
pub fn command_by(alloc: Global, words: &[Word]) -> io::Result<Command> {
    let (Some(folder), Some(number)) = (words.get(0), words.get(1)) else {
        return Err(faulty());
    };
    let Some(count) = number_between(number.as_bytes(), 0, 65_535) else {
        return Err(faulty());
    };
    let (_, behind) = words.split_at(2);
    let place = (count as usize).saturating_mul(2);
    if behind.len() <= place {
        return Err(faulty());
    }
    let (settings, own) = behind.split_at(place);
    let mut command = command_of(alloc, own)?;
    let mut left = settings;
    for _ in 0..count {
        let [name, value, rest @ ..] = left else {
            break;
        };
        set_text(&mut command, name, value)?;
        left = rest;
    }
    let _set = command.current_dir(text_of(folder)?)?;
    Ok(command)
}

//! Why a program couldn't be started, by what stands under its name.

use process_commands::StartFault;
use std::process::Command;
use std::rt::Files;
use std::{fs, io};

/// What stands under the name of a program, from the folder on in which it is to start.
#[derive(Clone, Copy, PartialEq, Eq)]
enum Standing {
    /// Nothing, or nothing that can be looked at.
    Nothing,
    /// A file.
    File,
    /// A folder.
    Folder,
}

/// What is known of a command's program before it is started.
#[derive(Clone, Copy)]
pub struct Sought {
    /// Whether its name says where it is; else it is searched in `PATH`.
    has_path: bool,
    standing: Standing,
}

/// What stands at a path.
fn standing_at<R: Files>(rt: &R, path: &str) -> Standing {
    match fs::metadata(rt, path) {
        Ok(found) if found.is_dir() => Standing::Folder,
        Ok(_) => Standing::File,
        Err(_) => Standing::Nothing,
    }
}

/// What stands under the name of a command's program; nothing where the folder isn't there in which it is to start.
fn standing_of<R: Files + AllocGlobal>(rt: &R, command: &Command) -> Standing {
    let program = command.get_program();
    let Some(folder) = command.get_current_dir() else {
        return standing_at(rt, program);
    };
    let folder = folder.as_os_str();
    if program.starts_with('/') {
        return match fs::metadata(rt, folder) {
            Ok(_) => standing_at(rt, program),
            Err(_) => Standing::Nothing,
        };
    }
    match format!(in rt.alloc(); "{folder}/{program}") {
        Ok(path) => standing_at(rt, path.as_str()),
        Err(_) => Standing::Nothing,
    }
}

/// Why a program can't be started, at whose start this error came.
pub fn fault_of(error: &io::Error) -> StartFault {
    let number = error.raw_os_error().unwrap_or(0);
    StartFault::of_number(u8::try_from(number).unwrap_or(0))
}

impl Sought {
    /// What is known of a command's program.
    pub fn by<R: Files + AllocGlobal>(rt: &R, command: &Command) -> Sought {
        Sought {
            has_path: command.get_program().contains('/'),
            standing: standing_of(rt, command),
        }
    }

    /// Why it can't be started, where this error came.
    pub fn fault(self, error: &io::Error) -> StartFault {
        match (self.standing, fault_of(error)) {
            (Standing::Folder, _) if self.has_path => StartFault::Folder,
            (Standing::File, StartFault::NoSuchFile) if self.has_path => StartFault::NoInterpreter,
            (Standing::File, StartFault::NoSuchFile) => StartFault::OutsidePath,
            (_, fault) => fault,
        }
    }
}

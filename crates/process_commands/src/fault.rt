//! Why a program can't be started.

ghost use Rattle.std.specs.Prelude.{◌≡◌};
ghost use Rattle.process_commands.specs.Faults.{fault_of, fault_number};

use std::fmt;

/// Why a program can't be started.
#[derive(Clone, Copy, Debug, PartialEq, Eq)]
pub enum StartFault {
    /// There is no such file, or the folder isn't there in which it is to start.
    NoSuchFile,
    /// The file is there, and what its first line, or its header, names as its interpreter isn't.
    NoInterpreter,
    /// There is no such file in `PATH`, and one of its name in the folder in which it is to start.
    OutsidePath,
    /// The file may not be run.
    MayNotRun,
    /// It is a folder.
    Folder,
    /// It is no program of this system.
    NoProgram,
    /// No more processes may run.
    TooManyProcesses,
    /// No more files may be open.
    TooManyFiles,
    /// Memory is wanting.
    NoMemory,
    /// The words and the environment are too long together.
    TooLong,
    /// Another reason.
    Other,
}

impl StartFault {
    /// The reason that an error of the system stands for (`errno`, where that is below 200; 21 for a folder), or one of
    /// those that the launcher itself found.
    pub fn of_number(number: u8) -> StartFault
        ensures { result ≡ fault_of number }
    {
        match number {
            2 | 20 => StartFault::NoSuchFile,
            1 | 13 => StartFault::MayNotRun,
            21 => StartFault::Folder,
            8 => StartFault::NoProgram,
            11 => StartFault::TooManyProcesses,
            23 | 24 => StartFault::TooManyFiles,
            12 => StartFault::NoMemory,
            7 => StartFault::TooLong,
            200 => StartFault::NoInterpreter,
            201 => StartFault::OutsidePath,
            _ => StartFault::Other,
        }
    }

    /// A number that stands for the reason, 0 for another one.
    pub fn number(self) -> u8
        ensures { result ≡ fault_number self }
    {
        match self {
            StartFault::NoSuchFile => 2,
            StartFault::MayNotRun => 13,
            StartFault::Folder => 21,
            StartFault::NoProgram => 8,
            StartFault::TooManyProcesses => 11,
            StartFault::TooManyFiles => 24,
            StartFault::NoMemory => 12,
            StartFault::TooLong => 7,
            StartFault::NoInterpreter => 200,
            StartFault::OutsidePath => 201,
            StartFault::Other => 0,
        }
    }
}

/// In words, in brackets behind a blank; nothing for another reason.
impl fmt::Display for StartFault {
    ghost use Rattle.std.specs.Prelude.{Some};
    ghost use Rattle.process_commands.specs.Faults.{reason_text};

    ghost output = { λ f. Some (reason_text f) };

    fn fmt<W: fmt::Write>(&self, f: &mut fmt::Formatter<W>) -> fmt::Result {
        f.write_str(match self {
            StartFault::NoSuchFile => " (no such file or folder)",
            StartFault::NoInterpreter => " (the file is there, its interpreter isn't)",
            StartFault::OutsidePath =>
                " (no such file or folder; with ./ in front the one here is taken)",
            StartFault::MayNotRun => " (it may not be run)",
            StartFault::Folder => " (it is a folder)",
            StartFault::NoProgram => " (it is no program)",
            StartFault::TooManyProcesses => " (no more processes may run: ulimit -u)",
            StartFault::TooManyFiles => " (no more files may be open: ulimit -n)",
            StartFault::NoMemory => " (no memory is left)",
            StartFault::TooLong => " (its words and its environment are too long)",
            StartFault::Other => "",
        })
    }
}

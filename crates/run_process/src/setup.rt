//! What is the same of all ranks of a job: the options, the folder, the variables.

use crate::job_hosts::JobHosts;
use crate::keeper::KEEPER;
use crate::kept_words::words_of;
use crate::wish::Front;
use host_keepers::message_text;
use launch_decisions::Start;
use launch_keeper::Word;
use process_commands::{command_of, text_of};
use run_plan::{RunOptions, launcher_words, rank_command, set_frame, set_hosts};
use start_marks::{MarkFile, VARIABLE};
use std::alloc::Global;
use std::io;
use std::io::ErrorKind;
use std::process::{Command, Stdio};

/// The variable that tells C programs how much may wait that no rank has asked for.
pub const UNASKED: &str = "KOMBAZILY_UNASKED";

/// How long the name is with which lines of the launcher begin that speak of `mpiexec`.
const OTHER_NAME: usize = 7;

/// The program whose ranks tell where they stand once their standard input ends, where the environment asks for that.
const SCRIPT_PROGRAM: &str = "rank_main";

/// What asks for that.
const STOPS_WITH_INPUT: &str = "RANK_STOPS_WITH_INPUT";

/// Whether this program runs a rank of a script.
fn is_script_program(program: &str) -> bool {
    match program.rsplit_once('/') {
        Some((_, name)) => name == SCRIPT_PROGRAM,
        None => program == SCRIPT_PROGRAM,
    }
}

/// What is the same of all ranks of a job.
#[derive(Clone, Copy)]
pub struct Setup<'a> {
    /// The words of `mpirun`.
    pub words: &'a [Word],
    /// Its options.
    pub options: RunOptions,
    /// What is known of the process that the user started.
    pub front: Front,
    /// The hosts of its ranks, where they aren't all this machine.
    pub hosts: Option<&'a JobHosts>,
    /// The words that start a keeper on a host, where `-launcher` isn't given.
    pub usual_launcher: &'a str,
    /// The name of this program's file.
    pub itself: &'a str,
    /// The folder in which this process is.
    pub folder: &'a str,
    /// What its environment says of [`UNASKED`], if it does.
    pub unasked: Option<&'a str>,
    /// The marks of its ranks, where all are started on this machine without help.
    pub marks: Option<MarkFile>,
}

/// What stands in a line behind the name of the other launcher, with which it begins.
pub fn behind_name(line: &str) -> &str {
    match line.split_at_checked(OTHER_NAME) {
        Some((_, behind)) => behind,
        None => line,
    }
}

/// Tells a line, which begins with the name of the other launcher, under this one's name.
pub fn tell_as_own(rt: &impl Eprint, line: &str) {
    let behind = behind_name(line);
    let _ = eprintln!(rt; "mpirun{behind}");
}

impl<'a> Setup<'a> {
    /// Tells a line of a launcher.
    pub fn tell(&self, rt: &impl Eprint, line: &str) {
        tell_as_own(rt, line);
    }

    /// Lets a command start in the folder of `-wdir`.
    fn set_folder(&self, command: &mut Command) -> io::Result<()> {
        if let Some(place) = self.options.folder {
            if let Some(folder) = self.words.get(place) {
                let _set = command.current_dir(text_of(folder)?)?;
            }
        }
        Ok(())
    }

    /// The text of an option, the place of whose word this is.
    fn text_at(&self, place: Option<usize>) -> Option<&'a str> {
        text_of(self.words.get(place?)?).ok()
    }

    /// What a rank's start says of the program, wherever that is started: its own words, the variables of `-env`, and
    /// its place.
    fn own_command(&self, alloc: Global, start: &Start) -> io::Result<Command> {
        let Some(words) = start.words(alloc)? else {
            return Err(io::Error::from(ErrorKind::InvalidInput));
        };
        let has_patience = self.options.patience.is_some();
        let mut command = rank_command(alloc, start, &words, self.words, has_patience)?;
        match self.hosts {
            Some(hosts) => set_hosts(alloc, &mut command, &hosts.list)?,
            None => {
                let _removed = command.env_remove("KOMBAZILY_HOSTS")?;
            }
        }
        if let Some(bytes) = self.options.frame {
            set_frame(alloc, &mut command, bytes)?;
        }
        if let Some(text) = self.unasked {
            let _set = command.env(UNASKED, text)?;
        }
        Ok(command)
    }

    /// The folder in which ranks start on other hosts: that of `-wdir`, from this process's own on.
    fn far_folder(&self, alloc: Global) -> io::Result<String> {
        let own = self.folder;
        match self.text_at(self.options.folder) {
            Some(folder) if folder.starts_with('/') => Ok(format!(in alloc; "{folder}")?),
            Some(folder) => Ok(format!(in alloc; "{own}/{folder}")?),
            None => Ok(format!(in alloc; "{own}")?),
        }
    }

    /// What is handed to the keeper of a rank's start.
    pub fn message(&self, alloc: Global, start: &Start) -> io::Result<Vec<u8>> {
        let command = self.own_command(alloc, start)?;
        let folder = self.far_folder(alloc)?;
        let words = words_of(alloc, folder.as_str(), &command)?;
        Ok(message_text(alloc, words.as_slice())?)
    }

    /// The command that starts a keeper on this host, but for its standard output.
    pub fn keeper_command(&self, alloc: Global, host: &Word) -> io::Result<Command> {
        let text = self
            .text_at(self.options.launcher)
            .unwrap_or(self.usual_launcher);
        let words = launcher_words(alloc, text.as_bytes(), host.as_bytes())?;
        let mut command = command_of(alloc, words.as_slice())?;
        command.arg(self.itself)?;
        command.arg(KEEPER)?;
        let _removed = command.env_remove(VARIABLE)?;
        command.stdin(Stdio::piped());
        command.stderr(Stdio::piped());
        Ok(command)
    }

    /// The command of a rank's start on this machine, but for its standard output.
    pub fn command(&self, alloc: Global, rank: usize, start: &Start) -> io::Result<Command> {
        let mut command = self.own_command(alloc, start)?;
        self.set_folder(&mut command)?;
        match self.marks {
            Some(marks) => {
                let _set = command.env(VARIABLE, marks.name(alloc)?.as_str())?;
            }
            None => {
                let _removed = command.env_remove(VARIABLE)?;
            }
        }
        if is_script_program(command.get_program()) {
            let _set = command.env(STOPS_WITH_INPUT, "1")?;
            command.stdin(Stdio::piped());
        } else if rank == 0 {
            command.stdin(Stdio::inherit());
        } else {
            command.stdin(Stdio::null());
        }
        command.stderr(Stdio::piped());
        Ok(command)
    }
}

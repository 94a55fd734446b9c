//! The options of `mpirun`, as far as they were given.

ghost use Rattle.std.specs.Prelude.{◌≡◌, ◌≤◌};
ghost use Rattle.run_plan.specs.Symbols.{greatest_of};
ghost use Rattle.run_plan.specs.Readings.{has_text, nothing_given, is_given, with_number, with_text};

use crate::symbol::{NumberOption, TextOption};

/// The options that were given.
#[derive(Clone, Copy, Debug)]
pub struct RunOptions {
    /// The number of the job, of `-job`.
    pub job: Option<u64>,
    /// The port of rank 0, of `-baseport`; that of rank r is r above it.
    pub base_port: Option<u16>,
    /// How often a rank may be started again, of `-restart`.
    pub restarts: Option<u16>,
    /// How long the ranks wait, in milliseconds, of `-patience`.
    pub patience: Option<u32>,
    /// How long the job may take, in seconds, of `-timeout`.
    pub timeout: Option<u32>,
    /// How many bytes of data a frame of the job has at most, of `-frame`: a multiple of 8.
    pub frame: Option<u32>,
    /// How many ranks each host takes, of `-ppn`.
    pub per_host: Option<u16>,
    /// Whether `[r] ` stands before each line of rank r: `-prefix`.
    pub marks_lines: bool,
    /// Whether the other ranks go on once one has failed: `-keep-going`.
    pub keeps_going: bool,
    /// Whether hosts take more ranks than their slots: `-oversubscribe`.
    pub oversubscribes: bool,
    /// The place of the word, among all words, that names the folder in which the ranks start: of `-wdir`.
    pub folder: Option<usize>,
    /// The place of the word that names the file of hosts: of `-hostfile`.
    pub host_file: Option<usize>,
    /// The place of the word that lists hosts: of `-host`.
    pub hosts: Option<usize>,
    /// The place of the word that says how a program is started on another host: of `-launcher`.
    pub launcher: Option<usize>,
}

impl RunOptions {
    /// No option was given.
    pub(crate) fn none() -> RunOptions
        ensures { result ≡ nothing_given }
    {
        RunOptions {
            job: None,
            base_port: None,
            restarts: None,
            patience: None,
            timeout: None,
            frame: None,
            per_host: None,
            marks_lines: false,
            keeps_going: false,
            oversubscribes: false,
            folder: None,
            host_file: None,
            hosts: None,
            launcher: None,
        }
    }

    /// Whether this option was given.
    pub(crate) fn has(&self, option: NumberOption) -> bool
        ensures { result ≡ is_given option self.now }
    {
        match option {
            NumberOption::Job => self.job.is_some(),
            NumberOption::BasePort => self.base_port.is_some(),
            NumberOption::Restart => self.restarts.is_some(),
            NumberOption::Patience => self.patience.is_some(),
            NumberOption::Timeout => self.timeout.is_some(),
            NumberOption::Frame => self.frame.is_some(),
            NumberOption::PerHost => self.per_host.is_some(),
        }
    }

    /// Whether this option was given.
    pub(crate) fn has_text(&self, option: TextOption) -> bool
        ensures { result ≡ has_text option self.now }
    {
        match option {
            TextOption::Folder => self.folder.is_some(),
            TextOption::HostFile => self.host_file.is_some(),
            TextOption::Hosts => self.hosts.is_some(),
            TextOption::Launcher => self.launcher.is_some(),
        }
    }

    /// With the text at this place as the value of the option.
    pub(crate) fn with_text(self, option: TextOption, place: usize) -> RunOptions
        ensures { result ≡ with_text option self place }
    {
        match option {
            TextOption::Folder => RunOptions {
                folder: Some(place),
                ..self
            },
            TextOption::HostFile => RunOptions {
                host_file: Some(place),
                ..self
            },
            TextOption::Hosts => RunOptions {
                hosts: Some(place),
                ..self
            },
            TextOption::Launcher => RunOptions {
                launcher: Some(place),
                ..self
            },
        }
    }

    /// With this value of the option, which lies in its range.
    pub(crate) fn with(self, option: NumberOption, number: u64) -> RunOptions
        requires { number ≤ greatest_of option }
        ensures { result ≡ with_number option self number }
    {
        match option {
            NumberOption::Job => RunOptions {
                job: Some(number),
                ..self
            },
            NumberOption::BasePort => RunOptions {
                base_port: Some(number as u16),
                ..self
            },
            NumberOption::Restart => RunOptions {
                restarts: Some(number as u16),
                ..self
            },
            NumberOption::Patience => RunOptions {
                patience: Some(number as u32),
                ..self
            },
            NumberOption::Timeout => RunOptions {
                timeout: Some(number as u32),
                ..self
            },
            NumberOption::Frame => RunOptions {
                frame: Some(number as u32),
                ..self
            },
            NumberOption::PerHost => RunOptions {
                per_host: Some(number as u16),
                ..self
            },
        }
    }
}

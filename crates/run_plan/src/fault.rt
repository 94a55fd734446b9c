//! Why the words of `mpirun` can't be followed.

use std::fmt;

/// What may stand at a place of the words.
#[derive(Clone, Copy, Debug, PartialEq, Eq)]
pub enum Wanted {
    /// Nothing: the option was given before.
    Once,
    /// The first set.
    Set,
    /// A number between these two, themselves included.
    Number(u64, u64),
    /// A multiple of 8 from 1,024 to 61,440.
    Frame,
    /// The name of a folder.
    Folder,
    /// The name of a file of hosts.
    HostFile,
    /// Hosts, with commas between them.
    Hosts,
    /// Words that start a program on a host.
    Launcher,
    /// The name of a variable.
    Name,
    /// The value of a variable.
    Value,
}

/// The first word, from the left, that may not stand where it does, or that is missing.
#[derive(Clone, Copy, Debug, PartialEq, Eq)]
pub struct RunFault {
    /// How many words stand in front of it: all of them where it is missing.
    pub place: usize,
    /// What may stand there.
    pub wanted: Wanted,
}

impl fmt::Display for Wanted {
    ghost use Rattle.std.specs.Prelude.{Some};
    ghost use Rattle.run_plan.specs.Texts.{wanted_text};

    ghost output = { λ w. Some (wanted_text w) };

    fn fmt<W: fmt::Write>(&self, f: &mut fmt::Formatter<W>) -> fmt::Result {
        match self {
            Wanted::Once => f.write_str("another option than one that was given before"),
            Wanted::Set => f.write_str("a program (-n N PROGRAM ..)"),
            Wanted::Number(least, greatest) => write!(f, "a number from {least} to {greatest}"),
            Wanted::Frame => f.write_str("a multiple of 8 from 1024 to 61440"),
            Wanted::Folder => f.write_str("the name of a folder"),
            Wanted::HostFile => f.write_str("the name of a file of hosts"),
            Wanted::Hosts => f.write_str("hosts, with commas between them"),
            Wanted::Launcher => {
                f.write_str("words that start a program on a host, one of them {host}")
            }
            Wanted::Name => f.write_str("the name of a variable, without = and not KOMBAZILY_.."),
            Wanted::Value => f.write_str("the value of a variable"),
        }
    }
}

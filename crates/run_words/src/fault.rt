//! Why the words of `mpirun` can't be followed.

use std::fmt;

/// What is wrong with a word.
#[derive(Clone, Copy, Debug, PartialEq, Eq)]
pub enum Trouble {
    /// Nothing: it asks how the program is used.
    Usage,
    /// Nothing: it asks for the program's version.
    Version,
    /// No option has this name.
    NoOption,
    /// An option has what stands in front of its `=` as its name.
    Joined,
    /// It may stand in front of the first `-n` alone.
    InFront,
    /// The set has a number of processes.
    Again,
    /// A program may stand there.
    Program,
    /// No word may stand behind the name of a file of sets.
    Further,
    /// The words end where a value has to stand.
    Missing,
}

/// The first word, from the left, that can't be followed, or that is missing.
#[derive(Clone, Copy, Debug, PartialEq, Eq)]
pub struct WordFault {
    /// How many words stand in front of it: all of them where it is missing.
    pub place: usize,
    /// What is wrong with it.
    pub trouble: Trouble,
}

impl fmt::Display for Trouble {
    ghost use Rattle.std.specs.Prelude.{Some};
    ghost use Rattle.run_words.specs.Texts.{trouble_text};

    ghost output = { λ t. Some (trouble_text t) };

    fn fmt<W: fmt::Write>(&self, f: &mut fmt::Formatter<W>) -> fmt::Result {
        f.write_str(match self {
            Trouble::Usage => "it asks how the program is used",
            Trouble::Version => "it asks for the version",
            Trouble::NoOption => "no such option",
            Trouble::Joined => "no such option: a value is a word of its own, behind its option",
            Trouble::InFront => "this option stands in front of the first -n, for all ranks",
            Trouble::Again => "the set has a number of processes",
            Trouble::Program => "a program may stand here",
            Trouble::Further => "no word may stand behind the name of a file of sets",
            Trouble::Missing => "a value is missing",
        })
    }
}

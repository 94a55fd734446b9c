//! The texts of statuses and counts.

use std::fmt;
use vocabulary::{Source, Status};

/// A source as it is written: a wildcard is `any`, the null process `null`.
#[derive(Clone, Copy)]
pub struct SourceText {
    /// The source.
    pub source: Source,
}

impl fmt::Display for SourceText {
    ghost use Rattle.std.specs.Prelude.{Some};
    ghost use Rattle.printed_lines.specs.Answers.{source_text};

    ghost output = { λ s. Some (source_text s.source) };

    fn fmt<W: fmt::Write>(&self, f: &mut fmt::Formatter<W>) -> fmt::Result {
        match self.source {
            Source::Any => f.write_str("any"),
            Source::Null => f.write_str("null"),
            Source::Rank(rank) => write!(f, "{rank}"),
        }
    }
}

/// A tag as it is written: a wildcard is `any`.
#[derive(Clone, Copy)]
pub struct TagText {
    /// The tag; none is the wildcard.
    pub tag: Option<u32>,
}

impl fmt::Display for TagText {
    ghost use Rattle.std.specs.Prelude.{Some};
    ghost use Rattle.printed_lines.specs.Answers.{tag_text};

    ghost output = { λ t. Some (tag_text t.tag) };

    fn fmt<W: fmt::Write>(&self, f: &mut fmt::Formatter<W>) -> fmt::Result {
        match self.tag {
            None => f.write_str("any"),
            Some(tag) => write!(f, "{tag}"),
        }
    }
}

/// `source S tag T count C`: a status as it is written.
#[derive(Clone, Copy)]
pub struct StatusText {
    /// The status.
    pub status: Status,
}

impl fmt::Display for StatusText {
    ghost use Rattle.std.specs.Prelude.{Some};
    ghost use Rattle.printed_lines.specs.Answers.{status_text};

    ghost output = { λ s. Some (status_text s.status) };

    fn fmt<W: fmt::Write>(&self, f: &mut fmt::Formatter<W>) -> fmt::Result {
        let source = SourceText {
            source: self.status.source,
        };
        let tag = TagText {
            tag: self.status.tag,
        };
        let count = self.status.count;
        write!(f, "source {source} tag {tag} count {count}")
    }
}

/// A message that was taken out, as it is written: its number in the order of requests and messages, or `null`.
#[derive(Clone, Copy)]
struct SerialText {
    serial: Option<u64>,
}

impl fmt::Display for SerialText {
    ghost use Rattle.std.specs.Prelude.{Some};
    ghost use Rattle.printed_lines.specs.Answers.{serial_text};

    ghost output = { λ s. Some (serial_text s.serial) };

    fn fmt<W: fmt::Write>(&self, f: &mut fmt::Formatter<W>) -> fmt::Result {
        match self.serial {
            None => f.write_str("null"),
            Some(serial) => write!(f, "{serial}"),
        }
    }
}

/// `message M source S tag T count C`: a message that was taken out, and its status, as they are written (MPI 3.1,
/// 3.8.2).
#[derive(Clone, Copy)]
pub struct MessageText {
    /// Its number in the order of requests and messages; none: that of the null process.
    pub serial: Option<u64>,
    /// Its status.
    pub status: Status,
}

impl fmt::Display for MessageText {
    ghost use Rattle.std.specs.Prelude.{Some};
    ghost use Rattle.printed_lines.specs.Answers.{message_text};

    ghost output = { λ m. Some (message_text m.serial m.status) };

    fn fmt<W: fmt::Write>(&self, f: &mut fmt::Formatter<W>) -> fmt::Result {
        let serial = SerialText {
            serial: self.serial,
        };
        let status = StatusText {
            status: self.status,
        };
        write!(f, "message {serial} {status}")
    }
}

/// How many copies of a layout were received, as it is written: a number, or `undefined` where what came is no whole
/// number of copies (MPI 3.1, 3.2.5).
#[derive(Clone, Copy)]
pub struct CountText {
    /// How many copies; none: no whole number of them.
    pub copies: Option<u64>,
}

impl fmt::Display for CountText {
    ghost use Rattle.std.specs.Prelude.{Some};
    ghost use Rattle.printed_lines.specs.Answers.{count_text};

    ghost output = { λ c. Some (count_text c.copies) };

    fn fmt<W: fmt::Write>(&self, f: &mut fmt::Formatter<W>) -> fmt::Result {
        match self.copies {
            None => f.write_str("undefined"),
            Some(copies) => write!(f, "{copies}"),
        }
    }
}

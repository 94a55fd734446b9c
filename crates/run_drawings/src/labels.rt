//! The texts that stand in a drawing.

use printed_lines::LoadText;
use std::fmt;

/// Bytes as they stand in an SVG: `&`, `<` and `>` by their names, and `?` for what isn't printable ASCII.
#[derive(Clone, Copy)]
pub(crate) struct Escaped<'a> {
    pub bytes: &'a [u8],
}

/// The byte as it stands in an SVG.
#[derive(Clone, Copy)]
struct EscapedByte {
    byte: u8,
}

impl fmt::Display for EscapedByte {
    ghost use Rattle.std.specs.Prelude.{Some};
    ghost use Rattle.run_drawings.specs.Labels.{escaped_byte};

    ghost output = { λ e. Some (escaped_byte e.byte) };

    fn fmt<W: fmt::Write>(&self, f: &mut fmt::Formatter<W>) -> fmt::Result {
        match self.byte {
            b'&' => f.write_str("&amp;"),
            b'<' => f.write_str("&lt;"),
            b'>' => f.write_str("&gt;"),
            b' '..=b'~' => {
                let character = char::from(self.byte);
                write!(f, "{character}")
            }
            _ => f.write_str("?"),
        }
    }
}

impl<'a> fmt::Display for Escaped<'a> {
    ghost use Rattle.std.specs.Prelude.{Some};
    ghost use Rattle.run_drawings.specs.Labels.{escaped};

    ghost output = { λ e. Some (escaped e.bytes.now) };

    fn fmt<W: fmt::Write>(&self, f: &mut fmt::Formatter<W>) -> fmt::Result {
        for byte in self.bytes {
            let escaped = EscapedByte { byte: *byte };
            write!(f, "{escaped}")?;
        }
        Ok(())
    }
}

/// The first bytes of a text as they stand in an SVG, and ` ..` where it has more.
#[derive(Clone, Copy)]
pub(crate) struct Shortened<'a> {
    pub bytes: &'a [u8],
    pub most: usize,
}

impl<'a> fmt::Display for Shortened<'a> {
    ghost use Rattle.std.specs.Prelude.{Some};
    ghost use Rattle.run_drawings.specs.Labels.{shortened};

    ghost output = { λ s. Some (shortened s.bytes.now s.most) };

    fn fmt<W: fmt::Write>(&self, f: &mut fmt::Formatter<W>) -> fmt::Result {
        if self.bytes.len() <= self.most {
            return Escaped { bytes: self.bytes }.fmt(f);
        }
        let (bytes, _) = self.bytes.split_at(self.most);
        let first = Escaped { bytes };
        write!(f, "{first} ..")
    }
}

/// What stands on an arrow: its words, or where there are none `D: KIND SEQ`.
#[derive(Clone, Copy)]
struct ArrowFront<'a> {
    number: usize,
    load: LoadText,
    words: &'a [u8],
}

impl<'a> fmt::Display for ArrowFront<'a> {
    ghost use Rattle.std.specs.Prelude.{Some};
    ghost use Rattle.run_drawings.specs.Labels.{arrow_front};

    ghost output = { λ a. Some (arrow_front a.number a.load a.words.now) };

    fn fmt<W: fmt::Write>(&self, f: &mut fmt::Formatter<W>) -> fmt::Result {
        if !self.words.is_empty() {
            return Escaped { bytes: self.words }.fmt(f);
        }
        let number = self.number;
        let load = &self.load;
        write!(f, "{number}: {load}")
    }
}

/// The words of an arrow or `D: KIND SEQ`, and ` again` where it is a frame that went out before.
#[derive(Clone, Copy)]
pub(crate) struct ArrowLabel<'a> {
    pub number: usize,
    pub load: LoadText,
    pub words: &'a [u8],
    pub is_resent: bool,
}

impl<'a> fmt::Display for ArrowLabel<'a> {
    ghost use Rattle.std.specs.Prelude.{Some};
    ghost use Rattle.run_drawings.specs.Labels.{arrow_label_text};

    ghost output = { λ a. Some (arrow_label_text a.number a.load a.words.now a.is_resent) };

    fn fmt<W: fmt::Write>(&self, f: &mut fmt::Formatter<W>) -> fmt::Result {
        let front = ArrowFront {
            number: self.number,
            load: self.load,
            words: self.words,
        };
        if self.is_resent {
            return write!(f, "{front} again");
        }
        front.fmt(f)
    }
}

/// What stands where datagram D comes: the words of its arrow, or where there are none `D`.
#[derive(Clone, Copy)]
struct ArrivalFront<'a> {
    number: usize,
    words: &'a [u8],
}

impl<'a> fmt::Display for ArrivalFront<'a> {
    ghost use Rattle.std.specs.Prelude.{Some};
    ghost use Rattle.run_drawings.specs.Labels.{arrival_front};

    ghost output = { λ a. Some (arrival_front a.number a.words.now) };

    fn fmt<W: fmt::Write>(&self, f: &mut fmt::Formatter<W>) -> fmt::Result {
        if !self.words.is_empty() {
            return Escaped { bytes: self.words }.fmt(f);
        }
        let number = self.number;
        write!(f, "{number}")
    }
}

/// The words of an arrow or `D`, and with what datagram D was refused behind it.
#[derive(Clone, Copy)]
pub(crate) struct RefusalLabel<'a> {
    pub number: usize,
    pub words: &'a [u8],
    pub answer: &'a [u8],
}

impl<'a> fmt::Display for RefusalLabel<'a> {
    ghost use Rattle.std.specs.Prelude.{Some};
    ghost use Rattle.run_drawings.specs.Labels.{refusal_label_text};

    ghost output = { λ r. Some (refusal_label_text r.number r.words.now r.answer.now) };

    fn fmt<W: fmt::Write>(&self, f: &mut fmt::Formatter<W>) -> fmt::Result {
        let front = ArrivalFront {
            number: self.number,
            words: self.words,
        };
        if self.answer.is_empty() {
            return front.fmt(f);
        }
        let answer = Escaped { bytes: self.answer };
        write!(f, "{front}: {answer}")
    }
}

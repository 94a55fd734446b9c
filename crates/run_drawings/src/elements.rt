//! The elements of an SVG, one a line.

ghost use Rattle.std.specs.Prelude.{◌≡◌};
ghost use Rattle.run_drawings.specs.Elements.{anchor, answer_class, call_class, ink_class, label_class};

use crate::labels::{ArrowLabel, Shortened};
use crate::layout::{MOST_SHOWN, Point};
use crate::picture::Tone;
use std::fmt;

impl fmt::Display for Point {
    ghost use Rattle.std.specs.Prelude.{Some};
    ghost use Rattle.run_drawings.specs.Elements.{point_text};

    ghost output = { λ p. Some (point_text p) };

    fn fmt<W: fmt::Write>(&self, f: &mut fmt::Formatter<W>) -> fmt::Result {
        let x = self.x;
        let y = self.y;
        write!(f, "{x},{y}")
    }
}

/// What a straight line shows.
#[derive(Clone, Copy, Debug, PartialEq, Eq)]
pub(crate) enum Ink {
    /// A rank that is there.
    Life,
    /// A rank that has ended.
    Over,
    /// A rank that is blocked.
    Blocked,
    /// A rank that waits for ever.
    Stuck,
    /// The line of life breaks off.
    Break,
    /// Something happens at a rank.
    Event,
    /// Something fails at a rank.
    Failure,
    /// A rank ends.
    End,
    /// A datagram comes and is taken.
    Taken,
    /// A datagram comes and is refused.
    Refused,
    /// A datagram never comes.
    Lost,
    /// A rank waits for another one.
    Awaits,
    /// The way of a rank's wait for itself, but for its end.
    Turn,
}

impl Ink {
    /// The name of its class.
    fn class(self) -> &'static str
        ensures { result.now ≡ ink_class self }
    {
        match self {
            Ink::Life => "life",
            Ink::Over => "over",
            Ink::Blocked => "blocked",
            Ink::Stuck => "stuck",
            Ink::Break => "break",
            Ink::Event => "event",
            Ink::Failure => "fault",
            Ink::End => "end",
            Ink::Taken => "taken",
            Ink::Refused => "refused",
            Ink::Lost => "lost",
            Ink::Awaits => "awaits",
            Ink::Turn => "turn",
        }
    }
}

/// A straight line.
#[derive(Clone, Copy, Debug, PartialEq, Eq)]
pub(crate) struct Stroke {
    pub ink: Ink,
    pub from: Point,
    pub to: Point,
}

impl fmt::Display for Stroke {
    ghost use Rattle.std.specs.Prelude.{Some};
    ghost use Rattle.run_drawings.specs.Elements.{stroke_text};

    ghost output = { λ s. Some (stroke_text s) };

    fn fmt<W: fmt::Write>(&self, f: &mut fmt::Formatter<W>) -> fmt::Result {
        let class = self.ink.class();
        let from = &self.from;
        let to = &self.to;
        write!(f, "<path class=\"{class}\" d=\"M{from} L{to}\"/>")
    }
}

impl Tone {
    /// The name of the class of a call that stands alone.
    fn call_class(self) -> &'static str
        ensures { result.now ≡ call_class self }
    {
        match self {
            Tone::Plain => "call",
            Tone::Prints => "printed",
            Tone::Fails => "failure",
        }
    }

    /// The name of the class of an answer.
    fn answer_class(self) -> &'static str
        ensures { result.now ≡ answer_class self }
    {
        match self {
            Tone::Plain => "answer",
            Tone::Prints => "printed",
            Tone::Fails => "failure",
        }
    }
}

/// An answer behind an arrow.
#[derive(Clone, Copy)]
struct AnswerSpan<'a> {
    answer: &'a [u8],
    tone: Tone,
}

impl<'a> fmt::Display for AnswerSpan<'a> {
    ghost use Rattle.std.specs.Prelude.{Some};
    ghost use Rattle.run_drawings.specs.Elements.{answer_span};

    ghost output = { λ a. Some (answer_span a.answer.now a.tone) };

    fn fmt<W: fmt::Write>(&self, f: &mut fmt::Formatter<W>) -> fmt::Result {
        let class = self.tone.answer_class();
        let answer = Shortened {
            bytes: self.answer,
            most: MOST_SHOWN,
        };
        write!(f, "<tspan class=\"{class}\">&#8594; {answer}</tspan>")
    }
}

/// What a text is.
#[derive(Clone, Copy)]
pub(crate) enum Label<'a> {
    /// The name of a rank.
    Rank(usize),
    /// What was called or what happened.
    Call(&'a [u8], Tone),
    /// What was called, and what it answered.
    Answered(&'a [u8], &'a [u8], Tone),
    /// What an earlier call answered.
    Answer(&'a [u8], Tone),
    /// What an arrow stands for.
    Arrow(ArrowLabel<'a>),
    /// With what a datagram was refused.
    Refusal(&'a [u8]),
}

impl<'a> fmt::Display for Label<'a> {
    ghost use Rattle.std.specs.Prelude.{Some};
    ghost use Rattle.run_drawings.specs.Elements.{label_text};

    ghost output = { λ l. Some (label_text l) };

    fn fmt<W: fmt::Write>(&self, f: &mut fmt::Formatter<W>) -> fmt::Result {
        match self {
            Label::Rank(rank) => write!(f, "rank {rank}"),
            Label::Call(bytes, _) | Label::Refusal(bytes) => {
                let text = Shortened {
                    bytes,
                    most: MOST_SHOWN,
                };
                text.fmt(f)
            }
            Label::Answered(call, answer, tone) => {
                let call = Shortened {
                    bytes: call,
                    most: MOST_SHOWN,
                };
                let answer = AnswerSpan {
                    answer,
                    tone: *tone,
                };
                write!(f, "{call} {answer}")
            }
            Label::Answer(answer, tone) => {
                let answer = AnswerSpan {
                    answer,
                    tone: *tone,
                };
                answer.fmt(f)
            }
            Label::Arrow(arrow) => arrow.fmt(f),
        }
    }
}

/// Where a text stands to its place.
#[derive(Clone, Copy, Debug, PartialEq, Eq)]
pub(crate) enum Side {
    /// It begins there.
    Right,
    /// It ends there.
    Left,
    /// Its middle is there.
    Middle,
}

impl Side {
    /// The value of `text-anchor`.
    fn anchor(self) -> &'static str
        ensures { result.now ≡ anchor self }
    {
        match self {
            Side::Right => "start",
            Side::Left => "end",
            Side::Middle => "middle",
        }
    }
}

/// A text at its place.
#[derive(Clone, Copy)]
pub(crate) struct Text<'a> {
    pub side: Side,
    pub at: Point,
    pub label: Label<'a>,
}

/// `x="X" y="Y"`: the attributes of a place.
#[derive(Clone, Copy)]
struct Coordinates {
    at: Point,
}

impl fmt::Display for Coordinates {
    ghost use Rattle.std.specs.Prelude.{Some};
    ghost use Rattle.run_drawings.specs.Elements.{coordinates_text};

    ghost output = { λ c. Some (coordinates_text c.at) };

    #[tactic(auto, unfolding(crate::specs::Elements::coordinates_text))]
    fn fmt<W: fmt::Write>(&self, f: &mut fmt::Formatter<W>) -> fmt::Result {
        let x = self.at.x;
        let y = self.at.y;
        write!(f, "x=\"{x}\" y=\"{y}\"")
    }
}

/// `text-anchor="SIDE"`: the attribute that says where a text stands to its place.
#[derive(Clone, Copy)]
struct Anchor {
    side: Side,
}

impl fmt::Display for Anchor {
    ghost use Rattle.std.specs.Prelude.{Some};
    ghost use Rattle.run_drawings.specs.Elements.{anchor_text};

    ghost output = { λ a. Some (anchor_text a.side) };

    fn fmt<W: fmt::Write>(&self, f: &mut fmt::Formatter<W>) -> fmt::Result {
        let anchor = self.side.anchor();
        write!(f, "text-anchor=\"{anchor}\"")
    }
}

/// The attributes of a text that say where it stands.
#[derive(Clone, Copy)]
struct Stand {
    at: Point,
    side: Side,
}

impl fmt::Display for Stand {
    ghost use Rattle.std.specs.Prelude.{Some};
    ghost use Rattle.run_drawings.specs.Elements.{stand_text};

    ghost output = { λ s. Some (stand_text s.at s.side) };

    fn fmt<W: fmt::Write>(&self, f: &mut fmt::Formatter<W>) -> fmt::Result {
        let coordinates = Coordinates { at: self.at };
        let anchor = Anchor { side: self.side };
        write!(f, "{coordinates} {anchor}")
    }
}

impl<'a> Label<'a> {
    /// The name of its class.
    fn class(&self) -> &'static str
        ensures { result.now ≡ label_class self.now }
    {
        match self {
            Label::Rank(_) => "rank",
            Label::Call(_, tone) => tone.call_class(),
            Label::Answered(_, _, _) | Label::Answer(_, _) => "call",
            Label::Arrow(_) => "datagram",
            Label::Refusal(_) => "refusal",
        }
    }
}

impl<'a> fmt::Display for Text<'a> {
    ghost use Rattle.std.specs.Prelude.{Some};
    ghost use Rattle.run_drawings.specs.Elements.{text_text};

    ghost output = { λ t. Some (text_text t) };

    fn fmt<W: fmt::Write>(&self, f: &mut fmt::Formatter<W>) -> fmt::Result {
        let class = self.label.class();
        let stand = Stand {
            at: self.at,
            side: self.side,
        };
        let label = &self.label;
        write!(f, "<text class=\"{class}\" {stand}>{label}</text>")
    }
}

/// One element of a drawing.
#[derive(Clone, Copy)]
pub(crate) enum Element<'a> {
    /// A straight line.
    Stroke(Stroke),
    /// A text.
    Text(Text<'a>),
}

impl<'a> fmt::Display for Element<'a> {
    ghost use Rattle.std.specs.Prelude.{Some};
    ghost use Rattle.run_drawings.specs.Elements.{element_text};

    ghost output = { λ e. Some (element_text e) };

    fn fmt<W: fmt::Write>(&self, f: &mut fmt::Formatter<W>) -> fmt::Result {
        match self {
            Element::Stroke(stroke) => stroke.fmt(f),
            Element::Text(text) => text.fmt(f),
        }
    }
}

//! The texts of datagrams that went out.

use datagram::{Content, Frame};
use std::fmt;
use vocabulary::Endpoint;

/// `S.I`: an endpoint as it is written, its rank and its incarnation.
#[derive(Clone, Copy)]
pub struct EndpointText {
    /// The endpoint.
    pub endpoint: Endpoint,
}

impl fmt::Display for EndpointText {
    ghost use Rattle.std.specs.Prelude.{Some};
    ghost use Rattle.printed_lines.specs.Answers.{endpoint_text};

    ghost output = { λ e. Some (endpoint_text e.endpoint) };

    fn fmt<W: fmt::Write>(&self, f: &mut fmt::Formatter<W>) -> fmt::Result {
        let rank = self.endpoint.rank;
        let incarnation = self.endpoint.incarnation;
        write!(f, "{rank}.{incarnation}")
    }
}

/// What a datagram carries.
#[derive(Clone, Copy)]
pub enum FrameKind {
    /// A message with its data: `EAGER`.
    Eager,
    /// The announcement of a long message: `RTS`.
    Rts,
    /// The answer to an announcement: `CTS`.
    Cts,
    /// A part of a long message: `DATA`.
    Data,
    /// An acknowledgement: `ACK`.
    Ack,
    /// A reset: `RESET`.
    Reset,
}

impl FrameKind {
    ghost use Rattle.std.specs.Prelude.{◌≡◌};
    ghost use Rattle.datagram.specs.Spellings.{content_text};
    ghost use Rattle.printed_lines.specs.Answers.{kind_text};
    ghost use Rattle.printed_lines.specs.FrameKinds.{kind_of_body};

    /// What a datagram of this content carries.
    pub fn of(content: &Content<'_>) -> FrameKind
        ensures { result ≡ kind_of_body (content_text content.now) }
    {
        match content {
            Content::Frame(Frame::Eager(_)) => FrameKind::Eager,
            Content::Frame(Frame::RequestToSend(_)) => FrameKind::Rts,
            Content::Frame(Frame::ClearToSend(_)) => FrameKind::Cts,
            Content::Frame(Frame::Data(_)) => FrameKind::Data,
            Content::Ack(_) => FrameKind::Ack,
            Content::Reset => FrameKind::Reset,
        }
    }

    /// The word of this kind.
    fn word(self) -> &'static str
        ensures { result.now ≡ kind_text self }
    {
        match self {
            FrameKind::Eager => "EAGER",
            FrameKind::Rts => "RTS",
            FrameKind::Cts => "CTS",
            FrameKind::Data => "DATA",
            FrameKind::Ack => "ACK",
            FrameKind::Reset => "RESET",
        }
    }
}

impl fmt::Display for FrameKind {
    ghost use Rattle.std.specs.Prelude.{Some};
    ghost use Rattle.printed_lines.specs.Answers.{kind_text};

    ghost output = { λ k. Some (kind_text k) };

    fn fmt<W: fmt::Write>(&self, f: &mut fmt::Formatter<W>) -> fmt::Result {
        f.write_str(self.word())
    }
}

/// `S.I>T.J`: from where and to where a datagram goes.
#[derive(Clone, Copy)]
pub struct RouteText {
    /// From where.
    pub source: Endpoint,
    /// To where.
    pub target: Endpoint,
}

impl fmt::Display for RouteText {
    ghost use Rattle.std.specs.Prelude.{Some};
    ghost use Rattle.printed_lines.specs.Answers.{route_text};

    ghost output = { λ r. Some (route_text r) };

    fn fmt<W: fmt::Write>(&self, f: &mut fmt::Formatter<W>) -> fmt::Result {
        let source = EndpointText {
            endpoint: self.source,
        };
        let target = EndpointText {
            endpoint: self.target,
        };
        write!(f, "{source}>{target}")
    }
}

/// `KIND SEQ`: a datagram's kind and sequence.
#[derive(Clone, Copy)]
pub struct LoadText {
    /// What it carries.
    pub kind: FrameKind,
    /// Its sequence.
    pub sequence: u64,
}

impl fmt::Display for LoadText {
    ghost use Rattle.std.specs.Prelude.{Some};
    ghost use Rattle.printed_lines.specs.Answers.{load_text};

    ghost output = { λ l. Some (load_text l) };

    fn fmt<W: fmt::Write>(&self, f: &mut fmt::Formatter<W>) -> fmt::Result {
        let kind = &self.kind;
        let sequence = self.sequence;
        write!(f, "{kind} {sequence}")
    }
}

/// `+D S.I>T.J KIND SEQ`: a datagram that went out.
#[derive(Clone, Copy)]
pub struct EmissionText {
    /// Its number in the world.
    pub datagram: usize,
    /// From where and to where it goes.
    pub route: RouteText,
    /// What it carries.
    pub load: LoadText,
}

impl fmt::Display for EmissionText {
    ghost use Rattle.std.specs.Prelude.{Some};
    ghost use Rattle.printed_lines.specs.Answers.{emission_text};

    ghost output = { λ e. Some (emission_text e) };

    fn fmt<W: fmt::Write>(&self, f: &mut fmt::Formatter<W>) -> fmt::Result {
        let datagram = self.datagram;
        let route = &self.route;
        let load = &self.load;
        write!(f, "+{datagram} {route} {load}")
    }
}

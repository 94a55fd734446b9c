//! What of a datagram concerns a collective.

ghost use Rattle.std.specs.Prelude.{◌≡◌, option_map};
ghost use Rattle.datagram.specs.Spellings.{eager_text, frame_text, request_text};
ghost use Rattle.sessions.specs.HeardBytes.{word_text};
ghost use Rattle.engine.specs.Datagrams.{announcement_on, is_from_collective, is_to_collective, notice_in};
ghost use Rattle.engine.specs.Datagrams.{notice_of_frame, notice_of_message, notice_text};

use datagram::{ClearToSend, Data, Eager, Frame, Plane, RequestToSend};
use point_to_point::Core;
use sessions::{Heard, LinkEvent};

/// What concerns a collective.
#[derive(Clone, Copy)]
pub enum Notice<'a> {
    /// A message whose payload stands in a frame.
    Message(Eager<'a>),
    /// The announcement of a payload that is too long for a frame.
    Announcement(RequestToSend),
    /// The answer to a payload that this rank announced.
    Answer(ClearToSend),
    /// Data of a payload that comes to this rank.
    Piece(Data<'a>),
}

/// The message of a collective that stands in an eager frame, if it is one.
fn notice_of_message<'a>(message: Eager<'a>) -> Option<Notice<'a>>
    ensures { option_map notice_text result ≡ notice_of_message message.entry.plane (eager_text message.entry) }
{
    match message.plane {
        Plane::Collective => Some(Notice::Message(message)),
        Plane::PointToPoint => None,
    }
}

/// The payload of a collective that is announced, if it is one.
fn announcement_on<'a>(request: RequestToSend) -> Option<Notice<'a>>
    ensures { option_map notice_text result ≡ announcement_on request.plane (request_text request) }
{
    match request.plane {
        Plane::Collective => Some(Notice::Announcement(request)),
        Plane::PointToPoint => None,
    }
}

/// Whether the transfer to the rank that has this number is of a collective: with a lesson none is.
fn is_to_collective(core: &Core, lesson: bool, rank: u16, transfer: u32) -> bool
    ensures { result ≡ is_to_collective lesson core.now.payloads.state rank transfer }
{
    if lesson {
        return false;
    }
    core.transfers().is_announced(rank, transfer)
}

/// Whether the transfer from the rank that has this number is of a collective: with a lesson none is.
fn is_from_collective(core: &Core, lesson: bool, rank: u16, transfer: u32) -> bool
    ensures { result ≡ is_from_collective lesson core.now.payloads.state rank transfer }
{
    if lesson {
        return false;
    }
    core.transfers().is_coming(rank, transfer)
}

/// What of a frame concerns a collective. Answers and data don't say so: the number of their transfer tells.
fn notice_of_frame<'a>(core: &Core, lesson: bool, rank: u16, frame: Frame<'a>) -> Option<Notice<'a>>
    ensures { option_map notice_text result ≡ notice_of_frame lesson core.now.payloads.state rank (frame_text frame.entry) }
{
    match frame {
        Frame::Eager(message) => notice_of_message(message),
        Frame::RequestToSend(request) => announcement_on(request),
        Frame::ClearToSend(answer) => {
            if is_to_collective(core, lesson, rank, answer.transfer) {
                Some(Notice::Answer(answer))
            } else {
                None
            }
        }
        Frame::Data(piece) => {
            if is_from_collective(core, lesson, rank, piece.transfer) {
                Some(Notice::Piece(piece))
            } else {
                None
            }
        }
    }
}

/// What of a word that is heard concerns a collective, if it does.
pub(crate) fn notice_in<'a>(core: &Core, heard: Heard<'a>) -> Option<Notice<'a>>
    ensures { option_map notice_text result
        ≡ notice_in heard.entry.lesson core.now.payloads.state heard.entry.source.rank (word_text heard.entry.word) }
{
    match heard.word {
        LinkEvent::Hands(frame) => { notice_of_frame(core, heard.lesson, heard.source.rank, frame) }
        LinkEvent::Follows(frame) => {
            notice_of_frame(core, heard.lesson, heard.source.rank, frame)
        }
        LinkEvent::Acknowledges(..)
        | LinkEvent::Repeats
        | LinkEvent::Holds(_)
        | LinkEvent::Nothing => None,
    }
}

//! How an engine takes datagrams in.

ghost use Rattle.std.specs.Prelude.{◌≡◌, ◌≤◌, ◌<◌, ◌+◌, ◌*◌, length, IfErr, None, OnErr, OnOk, Some};
ghost use Rattle.datagram.specs.Spellings.{eager_text};
ghost use Rattle.point_to_point_calls.specs.FrameNews.{frame_option, news_text};
ghost use Rattle.point_to_point.specs.Arrivals.{CanTake, news_fault};
ghost use Rattle.sessions.specs.Windows.{StaysWithin};
ghost use Rattle.sessions.specs.HeardBytes.{heard_text, word_text, CanHear, WordFits};
ghost use Rattle.sessions.specs.Events.{after_event, event_limit};
ghost use Rattle.engine_calls.specs.Refusals.{fault_of_sessions};
ghost use Rattle.engine.specs.Datagrams.{DatagramGives, HeardGives, NewsGives, SourceIsKnown, RefusedDatagramLeaves};
ghost use Rattle.engine.specs.Datagrams.{form_fault, frame_in, hold_fault, news_of, received, replies, says_nothing};
ghost use Rattle.engine.specs.Datagrams.{whole_in};
ghost use Rattle.engine.specs.Parts.{PartsGive};

use crate::engine::Engine;
use crate::notice_kinds::{Notice, notice_in};
use crate::notices::{ReceivedPayload, ending_or, learn, lesson_in};
use crate::parts::Parts;
use collectives::Ending;
use datagram::{Eager, Frame, Plane};
use engine_calls::of_sessions;
use payload::read_payload;
use point_to_point::{Core, News, PreparedNews, Refusal};
use sessions::{Heard, LinkEvent, Sessions};
use std::alloc::Global;

/// The frame that is handed up, if one is.
fn frame_in<'a>(word: LinkEvent<'a>) -> Option<Frame<'a>>
    ensures { frame_option result ≡ frame_in (word_text word.entry) }
{
    match word {
        LinkEvent::Hands(frame) => Some(frame),
        LinkEvent::Follows(frame) => Some(frame),
        LinkEvent::Acknowledges(..) => None,
        LinkEvent::Repeats => None,
        LinkEvent::Holds(_) => None,
        LinkEvent::Nothing => None,
    }
}

/// Whether it says nothing new: no lesson and no word.
pub(crate) fn says_nothing(heard: Heard<'_>) -> bool
    ensures { result ≡ says_nothing heard.entry.lesson (word_text heard.entry.word) }
{
    if heard.lesson {
        return false;
    }
    match heard.word {
        LinkEvent::Nothing => true,
        LinkEvent::Hands(_) => false,
        LinkEvent::Acknowledges(..) => false,
        LinkEvent::Repeats => false,
        LinkEvent::Holds(_) => false,
        LinkEvent::Follows(_) => false,
    }
}

/// The fault of a payload by its form: that of a collective's message has one (30).
fn form_fault(message: Eager<'_>) -> Option<Refusal>
    ensures { result ≡ form_fault message.entry.plane message.entry.elements.now }
{
    match message.plane {
        Plane::PointToPoint => None,
        Plane::Collective => match read_payload(message.elements) {
            Ok(_) => None,
            Err(_) => Some(Refusal::BadFrame),
        },
    }
}

/// The rule that a word breaks by the frame that is to be held: the form of a collective's message (30). All else of it
/// is judged when its turn comes.
pub(crate) fn hold_fault(word: LinkEvent<'_>) -> Option<Refusal>
    ensures { result ≡ hold_fault (word_text word.entry) }
{
    match word {
        LinkEvent::Holds(early) => match early.frame {
            Frame::Eager(message) => form_fault(message),
            Frame::RequestToSend(_) => None,
            Frame::ClearToSend(_) => None,
            Frame::Data(_) => None,
        },
        LinkEvent::Acknowledges(..) => None,
        LinkEvent::Repeats => None,
        LinkEvent::Hands(_) => None,
        LinkEvent::Follows(_) => None,
        LinkEvent::Nothing => None,
    }
}

/// What of it concerns the core.
pub(crate) fn news_of<'a>(heard: Heard<'a>) -> News<'a>
    ensures { news_text result ≡ news_of (heard_text heard.entry) }
{
    News {
        source: heard.source,
        lesson: heard.lesson,
        frame: frame_in(heard.word),
    }
}

/// The payload of a collective that stands in a frame.
fn received_in(message: Eager<'_>) -> ReceivedPayload<'_>
    ensures { received result ≡ whole_in (eager_text message.entry) }
{
    ReceivedPayload {
        context: message.context,
        number: message.tag,
        bytes: message.elements,
    }
}

/// The sessions take in what is heard, which breaks no rule and meets no limit, and send the frames that the core calls
/// for; or there is no memory (14), and nothing changes.
fn carry_out(
    core: &Core,
    sessions: &mut Sessions,
    heard: Heard<'_>,
    ready: &PreparedNews,
) -> Result<(), Refusal>
    requires can { CanHear sessions.old (Some (heard_text heard)) }
    requires place { core.now.state.place ≡ sessions.old.place }
    requires allowed { news_fault core.now.state (news_of (heard_text heard)) ≡ None }
    requires ready { CanTake core.now (news_of (heard_text heard)) ready.now }
    requires limit { event_limit sessions.old (Some (heard_text heard)) (replies core.now.state (heard_text heard)) ≡
        None }
    ensures ok { OnOk result
        (sessions.new ≡
        after_event sessions.old (Some (heard_text heard.entry)) (replies core.now.state (heard_text heard.entry))) }
    ensures unchanged { OnErr result (sessions.new ≡ sessions.old) }
    ensures err { IfErr result (λ e. e ≡ Refusal.OutOfMemory) }
    ensures within { OnOk result (StaysWithin (Some (heard_text heard.entry)) sessions.old sessions.new) }
    ensures placed { sessions.new.place ≡ sessions.old.place }
{
    let frames = core.frames_for(news_of(heard), ready)?;
    match sessions.carry_out_judged(Some(heard), &frames) {
        Ok(()) => Ok(()),
        Err(_) => Err(Refusal::OutOfMemory),
    }
}

/// The limit that what is heard meets: of its own number, or of the frames that the core calls for. It takes no memory.
pub(crate) fn limit_of_news(core: &Core, sessions: &Sessions, heard: Heard<'_>) -> Option<Refusal>
    requires { CanHear sessions.now (Some (heard_text heard)) }
    ensures { result ≡ fault_of_sessions
        (event_limit sessions.now (Some (heard_text heard.entry)) (replies core.now.state (heard_text heard.entry))) }
{
    let count = core.frame_count(news_of(heard));
    match sessions.limit_of_replies(heard, count) {
        Some(limit) => Some(of_sessions(limit)),
        None => None,
    }
}

impl Parts {
    /// Takes in what is heard and concerns no collective, or refuses it. Answered is with what a collective ends by it,
    /// by a lesson.
    fn take_news(&mut self, heard: Heard<'_>) -> Result<Option<Ending>, Refusal>
        requires can { CanHear self.old.sessions (Some (heard_text heard)) }
        requires fits { WordFits (word_text heard.word) }
        ensures exact { PartsGive (λ e r f. NewsGives e (heard_text heard.entry) r f) self.old result self.new }
        ensures within { OnOk result (StaysWithin (Some (heard_text heard.entry)) self.old.sessions self.new.sessions) }
    {
        if says_nothing(heard) {
            return Ok(None);
        }
        if let Some(fault) = hold_fault(heard.word) {
            return Err(fault);
        }
        let news = news_of(heard);
        if let Some(fault) = self.core.fault_of_news(news) {
            return Err(fault);
        }
        if let Some(limit) = limit_of_news(&self.core, &self.sessions, heard) {
            return Err(limit);
        }
        let ready = self.core.prepare_news(news)?;
        carry_out(&self.core, &mut self.sessions, heard, &ready)?;
        self.core.take_news(news, ready);
        Ok(learn(&mut self.communicators, lesson_in(heard)))
    }

    /// Takes in what is heard, or refuses it. Answered is with what a collective ends by it.
    fn hear(&mut self, alloc: Global, heard: Heard<'_>) -> Result<Option<Ending>, Refusal>
        requires can { CanHear self.old.sessions (Some (heard_text heard)) }
        requires fits { WordFits (word_text heard.word) }
        requires there { heard.source.rank < self.old.sessions.place.size }
        ensures exact { PartsGive (λ e r f. HeardGives e (heard_text heard.entry) r f) self.old result self.new }
        ensures within { OnOk result (StaysWithin (Some (heard_text heard.entry)) self.old.sessions self.new.sessions) }
    {
        match notice_in(&self.core, heard) {
            Some(Notice::Message(message)) => self.take_message(alloc, heard, received_in(message)),
            Some(Notice::Announcement(request)) => self.take_announcement(alloc, heard, request),
            Some(Notice::Answer(answer)) => match self.take_answer(alloc, heard, answer) {
                Ok(()) => Ok(None),
                Err(refused) => Err(refused),
            },
            Some(Notice::Piece(piece)) => self.take_piece(alloc, heard, piece),
            None => self.take_news(heard),
        }
    }
}

impl Engine {
    /// Takes in what is heard, or refuses it. With what a collective ends by it is kept until that is handed out. No
    /// blocked call is answered yet.
    #[tactic(auto, using(crate::proofs::TurnLaws::heard_stays))]
    pub(crate) fn take_heard(&mut self, heard: Heard<'_>) -> Result<(), Refusal>
        requires can { CanHear self.old.sessions (Some (heard_text heard)) }
        requires fits { WordFits (word_text heard.word) }
        requires there { heard.source.rank < self.old.sessions.place.size }
        ensures exact { HeardGives self.old (heard_text heard.entry) result self.new }
        ensures within { OnOk result (StaysWithin (Some (heard_text heard.entry)) self.old.sessions self.new.sessions) }
        ensures placed { self.new.sessions.place ≡ self.old.sessions.place }
    {
        let ending = self.parts.hear(self.alloc, heard)?;
        let before = self.ended.take();
        self.ended = ending_or(ending, before);
        Ok(())
    }

    /// Takes a datagram in.
    ///
    /// Refused is the first that holds of: 21 to 25 and 30 (the bytes spell no datagram), 26 (another job), 27 (for
    /// another rank or a later incarnation of this one, or from no other rank of the job), 28 (from a former
    /// incarnation of its source), 29 (for a former incarnation of this rank: where the datagram is no reset itself,
    /// one reset goes out to its source), 31 (a number outside the window), 30 (a message of a collective that can't be
    /// read, or carries what doesn't fit its record; an announcement under another number than the next of its session,
    /// or one of a payload of a collective as of a synchronous send; an answer to a transfer that is not offered, or
    /// 'drop' to a payload of a collective, which no engine answers; data that are not due), 13 and 14. With the last
    /// data of a payload its message is judged, as if it stood in a frame. A refusal changes nothing, but for that
    /// reset; without memory for the reset it is 14.
    ///
    /// A frame that comes before its turn is held, up to 63 behind the next one. Of such a frame only the form of a
    /// collective's message is judged at once (30); all else is judged when its turn comes. Once the next frame is
    /// taken in, those that are held behind it follow one by one, as if each had come then, but for two things: one
    /// that meets 13 or 14 stays held, and is taken in when it comes again; one that meets 30 isn't held any more, and
    /// its sender sends it again. Nothing follows either, and neither is acknowledged. Of what goes out the
    /// acknowledgement stands first, and says what was reached and what is held; what else goes out stands by rising
    /// rank and, for one rank, by its numbers. A blocked call is answered once, at the end of all that: a waitany then
    /// with the lowest index that is ready. Links are this project's own; MPI 3.1 has none.
    ///
    /// A message of a collective is kept until the rank has entered that collective; then, or where it has, the rank
    /// does of itself all that follows, the others are told, and a rank that is thereby through leaves.
    ///
    /// A payload of a collective of more than 1,024 bytes is announced first. The announcement is answered at once,
    /// whether or not the rank has entered the collective or left it; its data go out on the answer, in frames of 1,024
    /// bytes, at most 1,024 of them, and with the last of them the message is taken in. Answers and data are told from
    /// those of point to point by their transfer number, which both kinds share.
    ///
    /// An announcement of a large message that a receive waits for is answered: its data are to come where the receive
    /// has their type and places for them, and else the message is used up without them. Data that are asked for go out
    /// in frames of 1,024 bytes, at most 1,024 of them.
    ///
    /// A datagram from a later incarnation of its source than the known one teaches it, before the datagram is
    /// handled. Both directions of the session start anew, so of a frame or an acknowledgement only number 0 is within
    /// the window; receives that name the rank or collect from it end as replaced, with their buffers as they were, and
    /// so do sends that wait for its answer; messages from its former incarnations that were not received are dropped,
    /// with what came of those of which some data came; and a collective that the rank is in with a former one among
    /// its members ends with 11. A reset that teaches nothing changes nothing. MPI 3.1 has no restarts of a rank: these
    /// rules are this project's own. What is not refused leaves its source known at the incarnation in its header.
    pub fn on_datagram(&mut self, bytes: &[u8]) -> Result<(), Refusal>
        ensures exact { DatagramGives self.old bytes.now result self.new }
        ensures known { OnOk result (SourceIsKnown self.new bytes.now) }
        ensures unchanged { RefusedDatagramLeaves result self.old self.new }
        ensures few { length self.new.sessions.out ≤ length self.old.sessions.out + 65 * self.old.sessions.place.size }
        ensures placed { self.new.sessions.place ≡ self.old.sessions.place }
        ensures core_placed { self.new.core.place ≡ self.old.core.place }
    {
        // The place shows that there is a known incarnation for each rank.
        let _place = self.parts.sessions.place();
        match self.parts.sessions.judge(bytes) {
            Ok(heard) => {
                let taken = self.take_in(heard);
                // The parts show that the core has the place of the sessions.
                let _parts = &self.parts;
                taken
            }
            Err(unheard) => Err(of_sessions(self.parts.sessions.refuse(unheard))),
        }
    }
}

//! How a rank takes in messages of collectives, and lessons that end one.

ghost use Rattle.std.specs.Prelude.{◌≡◌, ◌≤◌, All, IfErr, IfOk, None, OnErr, OnOk, Some};
ghost use Rattle.collective_messages.specs.Messages.{IsFitting};
ghost use Rattle.collectives.specs.Calls.{after_lesson};
ghost use Rattle.engine.specs.JobPayloads.{payload_in};
ghost use Rattle.payload.specs.Spellings.{payload_text};
ghost use Rattle.sessions.specs.Windows.{StaysWithin};
ghost use Rattle.sessions.specs.HeardBytes.{CanHear, heard_text};
ghost use Rattle.engine.specs.Datagrams.{lesson_in, received};
ghost use Rattle.engine.specs.Parts.{MessageGives, PartsGive, TellingGives, state_of};
ghost use Rattle.engine_calls.specs.EngineState.{or_before};
ghost use Rattle.engine_calls.specs.Steps.{ending_met};

use crate::parts::Parts;
use collective_messages::{Address, CollectiveMessage, names_beyond};
use collectives::Ending;
use communicators::Communicators;
use engine_calls::{of_collectives, send_step};
use payload::{Payload, read_payload};
use point_to_point::{News, Refusal};
use sessions::Heard;
use std::alloc::Global;
use vocabulary::Endpoint;

/// Who teaches the rank its incarnation, if what is heard is a lesson.
pub(crate) fn lesson_in(heard: Heard<'_>) -> Option<Endpoint>
    ensures { result ≡ lesson_in (heard_text heard.entry) }
{
    if heard.lesson {
        Some(heard.source)
    } else {
        None
    }
}

/// The communicators learn the lesson, if there is one; a collective that has a former incarnation among its members
/// ends.
pub(crate) fn learn(communicators: &mut Communicators, lesson: Option<Endpoint>) -> Option<Ending>
    ensures collective { communicators.new.collective.state ≡
        after_lesson communicators.old.collective.state communicators.old.contexts.state lesson }
    ensures notes { communicators.new.collective.more_notes ≡ communicators.old.collective.more_notes }
    ensures contexts { communicators.new.contexts ≡ communicators.old.contexts }
    ensures ending { result ≡ ending_met communicators.old.collective.state communicators.old.contexts.state lesson }
{
    match lesson {
        Some(source) => communicators.learn(source.rank, source.incarnation),
        None => None,
    }
}

/// An ending, or one that came before.
pub(crate) fn ending_or(ending: Option<Ending>, before: Option<Ending>) -> Option<Ending>
    ensures { result ≡ or_before ending before }
{
    match ending {
        Some(ending) => Some(ending),
        None => before,
    }
}

/// What the bytes of a message say in a job of so many ranks. It is refused with 30 where they can't be read, or name a
/// rank that isn't there.
pub(crate) fn read(bytes: &[u8], size: u16) -> Result<Payload<'_>, Refusal>
    ensures ok { IfOk result (λ p. payload_in size bytes.now ≡ Some (payload_text p)) }
    ensures err { IfErr result (λ e. (e ≡ Refusal.BadFrame) × (payload_in size bytes.now ≡ None)) }
{
    match read_payload(bytes) {
        Ok(payload) => {
            if names_beyond(payload, size) {
                Err(Refusal::BadFrame)
            } else {
                Ok(payload)
            }
        }
        Err(_) => Err(Refusal::BadFrame),
    }
}

/// A payload of a collective that has come, in a frame or in pieces.
#[derive(Clone, Copy)]
pub struct ReceivedPayload<'a> {
    /// The context of the communicator.
    pub context: u64,
    /// The number of the collective on the communicator.
    pub number: u32,
    /// Its bytes.
    pub bytes: &'a [u8],
}

impl Parts {
    /// What is heard is taken in without its frame, and the others are told by these messages; those that are too long
    /// for a frame are announced and kept. Refused is 13 and 14; then nothing changes.
    fn carry_out_notices(
        &mut self,
        alloc: Global,
        heard: Heard<'_>,
        messages: &[CollectiveMessage],
    ) -> Result<(), Refusal>
        requires can { CanHear self.old.sessions (Some (heard_text heard)) }
        requires fits { All IsFitting messages.now }
        ensures exact { TellingGives self.old (heard_text heard.entry) messages.now result self.new }
        ensures unchanged { OnErr result (state_of self.new ≡ state_of self.old) }
        ensures communicators { self.new.communicators ≡ self.old.communicators }
        ensures coming { self.old.core.payloads.more_coming ≤ self.new.core.payloads.more_coming }
        ensures within { OnOk result (StaysWithin (Some (heard_text heard.entry)) self.old.sessions self.new.sessions) }
    {
        let news = News {
            source: heard.source,
            lesson: heard.lesson,
            frame: None,
        };
        let prepared = self.core.prepare_news(news)?;
        let announced = send_step(
            alloc,
            &mut self.core,
            &mut self.sessions,
            Some(heard),
            messages,
        )?;
        self.core.take_news(news, prepared);
        self.core.announce_payloads(announced);
        Ok(())
    }

    /// Takes in a message of a collective: it is read and made ready with all that follows, the others are told, and
    /// only then the lesson is learnt and the message taken. Answered is with what a collective ends by it. Refused is
    /// 30, 13 and 14; then nothing changes.
    pub(crate) fn take_message(
        &mut self,
        alloc: Global,
        heard: Heard<'_>,
        message: ReceivedPayload<'_>,
    ) -> Result<Option<Ending>, Refusal>
        requires can { CanHear self.old.sessions (Some (heard_text heard)) }
        ensures exact { PartsGive (MessageGives (heard_text heard.entry) (received message.entry)) self.old result
            self.new }
        ensures unchanged { OnErr result (state_of self.new ≡ state_of self.old) }
        ensures coming { self.old.core.payloads.more_coming ≤ self.new.core.payloads.more_coming }
        ensures within { OnOk result (StaysWithin (Some (heard_text heard.entry)) self.old.sessions self.new.sessions) }
    {
        let payload = read(message.bytes, self.sessions.place().size)?;
        let address = Address {
            sender: heard.source,
            context: message.context,
            number: message.number,
        };
        let lesson = lesson_in(heard);
        let ready = match self.communicators.prepare_message(lesson, address, payload) {
            Ok(ready) => ready,
            Err(refused) => return Err(of_collectives(refused)),
        };
        match self.carry_out_notices(alloc, heard, ready.messages()) {
            Ok(()) => {
                let replaced = learn(&mut self.communicators, lesson);
                let left = self.communicators.on_message(ready);
                Ok(ending_or(left, replaced))
            }
            Err(refused) => {
                drop(ready);
                Err(refused)
            }
        }
    }
}

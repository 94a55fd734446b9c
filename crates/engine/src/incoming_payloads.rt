//! How payloads of collectives come in pieces.

ghost use Rattle.std.specs.Prelude.{◌≡◌, ◌≤◌, ◌<◌, [], true, false, length, IfErr, None, OnErr, OnOk, Option, Some};
ghost use Rattle.collective_steps.specs.declared.step.Ending.{Ending};
ghost use Rattle.datagram.specs.Spellings.{data_text};
ghost use Rattle.point_to_point_calls.specs.Refusals.{IsRefusal};
ghost use Rattle.rendezvous.specs.PayloadState.{is_due};
ghost use Rattle.sessions.specs.Windows.{StaysWithin};
ghost use Rattle.sessions.specs.HeardBytes.{heard_text, CanHear};
ghost use Rattle.sessions.specs.Events.{after_event, event_limit};
ghost use Rattle.engine_calls.specs.Refusals.{fault_of_sessions};
ghost use Rattle.engine.specs.Datagrams.{PieceGives, PieceGivesBy, received};
ghost use Rattle.engine.specs.Parts.{LastPieceGives, PartsGive, engine_with};

use crate::notices::ReceivedPayload;
use crate::outgoing_payloads::{carry_out, limit_of};
use crate::parts::Parts;
use collectives::Ending;
use datagram::Data;
use point_to_point::{Core, Refusal};
use rendezvous::WholePayload;
use sessions::{Heard, Sessions};
use std::alloc::Global;

/// The sessions take in a piece that is due and isn't the last one. Refused is 13 where they meet their limit, and 14;
/// then nothing changes.
fn take_in(sessions: &mut Sessions, heard: Heard<'_>) -> Result<(), Refusal>
    requires { CanHear sessions.old (Some (heard_text heard)) }
    ensures none { OnOk result (fault_of_sessions (event_limit sessions.old (Some (heard_text heard.entry)) []) ≡ None) }
    ensures ok { OnOk result (sessions.new ≡ after_event sessions.old (Some (heard_text heard.entry)) []) }
    ensures err { IfErr result (IsRefusal (fault_of_sessions (event_limit sessions.old (Some (heard_text heard.entry)) []))) }
    ensures unchanged { OnErr result (sessions.new ≡ sessions.old) }
    ensures within { OnOk result (StaysWithin (Some (heard_text heard.entry)) sessions.old sessions.new) }
    ensures placed { sessions.new.place ≡ sessions.old.place }
{
    if let Some(limit) = limit_of(sessions, heard, 0) {
        return Err(limit);
    }
    carry_out(sessions, heard, &[])
}

/// Whether a piece is the next one of a payload that comes from the rank.
pub(crate) fn is_due(core: &Core, rank: u16, piece: Data<'_>) -> bool
    ensures { result ≡
        is_due core.now.payloads.state rank piece.entry.transfer piece.entry.offset piece.entry.bytes.now }
{
    core.transfers()
        .payload_is_due(rank, piece.transfer, piece.offset, piece.bytes)
}

/// What a payload says that has come whole.
fn received_whole(whole: &WholePayload) -> ReceivedPayload<'_>
    ensures { received result ≡ whole.now.whole }
{
    ReceivedPayload {
        context: whole.context(),
        number: whole.number(),
        bytes: whole.bytes(),
    }
}

impl Parts {
    /// Takes in the message of a payload that was taken out with its last piece. Answered is with what a collective
    /// ends by it. Refused is 30, 13 and 14; then the payload is put back, and nothing else changes.
    fn take_last(
        &mut self,
        alloc: Global,
        heard: Heard<'_>,
        whole: WholePayload,
    ) -> Result<Option<Ending>, Refusal>
        requires can { CanHear self.old.sessions (Some (heard_text heard)) }
        requires place { whole.place ≤ length self.old.core.payloads.state.coming }
        requires room { 0 < self.old.core.payloads.more_coming }
        ensures exact { PartsGive (LastPieceGives (heard_text heard.entry) whole) self.old result self.new }
        ensures within { OnOk result (StaysWithin (Some (heard_text heard.entry)) self.old.sessions self.new.sessions) }
    {
        let message = received_whole(&whole);
        match self.take_message(alloc, heard, message) {
            Ok(ending) => Ok(ending),
            Err(refused) => {
                self.core.put_back(whole);
                Err(refused)
            }
        }
    }

    /// Takes in a piece that is due and isn't the last one: it stands behind those that came before. Refused is 13 and
    /// 14; then nothing changes.
    fn take_next(&mut self, heard: Heard<'_>, piece: Data<'_>) -> Result<(), Refusal>
        requires can { CanHear self.old.sessions (Some (heard_text heard)) }
        requires due { is_due self.old.core.payloads.state heard.source.rank piece.transfer piece.offset piece.bytes.now ≡
            true }
        ensures exact { (before : Option Ending) →
            PieceGivesBy true None (engine_with self.old before) (heard_text heard.entry) (data_text piece.entry) result
            (engine_with self.new before) }
        ensures within { OnOk result (StaysWithin (Some (heard_text heard.entry)) self.old.sessions self.new.sessions) }
    {
        take_in(&mut self.sessions, heard)?;
        self.core.on_payload_data(heard.source.rank, piece.transfer, piece.offset, piece.bytes);
        Ok(())
    }

    /// Takes in data of a payload that comes: they stand behind those that came before, and with the last ones the
    /// message is taken in. Answered is with what a collective ends by it. Refused is 30 where they aren't due or the
    /// message isn't one, 13 and 14; then nothing changes.
    pub(crate) fn take_piece(
        &mut self,
        alloc: Global,
        heard: Heard<'_>,
        piece: Data<'_>,
    ) -> Result<Option<Ending>, Refusal>
        requires can { CanHear self.old.sessions (Some (heard_text heard)) }
        requires lesson { heard.lesson ≡ false }
        ensures exact { PartsGive
            (λ e r f. PieceGives e (heard_text heard.entry) (data_text piece.entry) r f) self.old result self.new }
        ensures within { OnOk result (StaysWithin (Some (heard_text heard.entry)) self.old.sessions self.new.sessions) }
    {
        // The place shows that the job has a rank at least.
        let _place = self.sessions.place();
        let rank = heard.source.rank;
        if !is_due(&self.core, rank, piece) {
            return Err(Refusal::BadFrame);
        }
        match self.core.take_whole(rank, piece.transfer, piece.bytes) {
            Some(whole) => self.take_last(alloc, heard, whole),
            None => match self.take_next(heard, piece) {
                Ok(()) => Ok(None),
                Err(refused) => Err(refused),
            },
        }
    }
}

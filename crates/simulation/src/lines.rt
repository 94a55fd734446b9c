//! What a file of events prints.

ghost use Rattle.std.specs.Prelude.{◌≡◌, ◌∷◌, [], map, IfErr, IfOk, OnOk};
ghost use Rattle.printed_lines.specs.Answers.{answer_text, outcome_text};
ghost use Rattle.printed_lines.specs.CommunicatorTexts.{position_text};
ghost use Rattle.datagram.specs.Spellings.{datagram_text};
ghost use Rattle.simulation.specs.Lines.{answer_line, compared, completion_line, datagram_lines, emission_of};
ghost use Rattle.simulation.specs.Lines.{ending_line, fact_line, match_line, outcome_line, outcomes_line};
ghost use Rattle.simulation.specs.Lines.{probe_line, refusal_line, reply_line, taken_line, told_line};
ghost use Rattle.simulation.specs.Output.{CutsOff, Prints};

use crate::error::SimulateError;
use collective_steps::Ending;
use communicators::CommunicatorComparison;
use datagram::Datagram;
use engine_calls::{Completion, Fact, Reply};
use printed_lines::{
    CommunicatorText, ComparisonText, EmissionText, FrameKind, LoadText, MembersText, MessageText,
    OutcomeText, PositionText, RouteText, StatusText,
};
use requests::{Answer, Outcome, Request};
use std::alloc::{AllocError, Global};
use std::io;
use std::io::Write;
use vocabulary::Status;

/// The text of an outcome.
fn outcome_text(outcome: &Outcome) -> OutcomeText<'_>
    ensures { outcome_text result ≡ outcome_line outcome.now }
{
    match outcome {
        Outcome::Sent => OutcomeText::Sent,
        Outcome::Received(status, buffer) => OutcomeText::Received(*status, buffer),
        Outcome::Ended(failure, status, buffer) => {
            OutcomeText::Ended(failure.number(), *status, buffer)
        }
        Outcome::Replaced(Some(buffer)) => OutcomeText::Lost(buffer),
        Outcome::Replaced(None) => OutcomeText::Failed(11),
        Outcome::Cancelled(buffer) => OutcomeText::Cancelled(buffer),
        Outcome::Empty => OutcomeText::Null,
    }
}

fn print_text<W: Write>(text: &printed_lines::AnswerText<'_>, out: &mut W) -> io::Result<()>
    ensures { OnOk result (Prints (W.contents out.old) (W.contents out.new) (answer_text text.now ∷ [])) }
{
    writeln!(out, "{text}")
}

/// The text of an answer, behind the rank that is called where one is named.
fn print_told<W: Write>(
    caller: Option<u16>,
    text: &printed_lines::AnswerText<'_>,
    out: &mut W,
) -> io::Result<()>
    ensures { OnOk result (Prints (W.contents out.old) (W.contents out.new) (told_line caller (answer_text text.now) ∷
        [])) }
{
    match caller {
        Some(rank) => writeln!(out, "{rank} {text}"),
        None => print_text(text, out),
    }
}

/// The texts of outcomes, in order. The only error is want of memory.
fn outcome_texts(alloc: Global, outcomes: &[Outcome]) -> Result<Vec<OutcomeText<'_>>, AllocError>
    ensures { IfOk result (λ texts. map outcome_text texts.items ≡ map outcome_line outcomes.now) }
{
    let mut texts = Vec::with_capacity(alloc, outcomes.len())?;
    for outcome in outcomes {
        texts.push(outcome_text(outcome)).map_err(AllocError::from)?;
    }
    Ok(texts)
}

/// How several operations ended.
#[tactic(auto, using(crate::proofs::OutcomeLaws::outcomes_same))]
fn print_outcomes<W: Write>(
    alloc: Global,
    caller: Option<u16>,
    outcomes: &[Outcome],
    out: &mut W,
) -> Result<(), SimulateError>
    ensures ok { OnOk result (Prints (W.contents out.old) (W.contents out.new) (told_line caller (outcomes_line outcomes.now) ∷
        [])) }
    ensures err { IfErr result
        (λ e. CutsOff e (W.contents out.old) (W.contents out.new) (told_line caller (outcomes_line outcomes.now) ∷
        [])) }
{
    let texts = outcome_texts(alloc, outcomes)?;
    print_told(
        caller,
        &printed_lines::AnswerText::All(texts.as_slice()),
        out,
    )?;
    Ok(())
}

/// The answer of a completing call.
fn print_answer<W: Write>(
    alloc: Global,
    caller: Option<u16>,
    answer: &Answer,
    out: &mut W,
) -> Result<(), SimulateError>
    ensures ok { OnOk result (Prints (W.contents out.old) (W.contents out.new) (told_line caller (answer_line answer.now) ∷
        [])) }
    ensures err { IfErr result
        (λ e. CutsOff e (W.contents out.old) (W.contents out.new) (told_line caller (answer_line answer.now) ∷ [])) }
{
    let text = match answer {
        Answer::One(outcome) => printed_lines::AnswerText::One(outcome_text(outcome)),
        Answer::Index(index, outcome) => {
            printed_lines::AnswerText::Index(*index, outcome_text(outcome))
        }
        Answer::IndexUndefined => printed_lines::AnswerText::IndexUndefined,
        Answer::All(outcomes) => {
            return print_outcomes(alloc, caller, outcomes.as_slice(), out);
        }
    };
    print_told(caller, &text, out)?;
    Ok(())
}

/// With what a collective ended.
fn ending_text(ending: &Ending) -> printed_lines::AnswerText<'_>
    ensures { answer_text result ≡ ending_line ending.now }
{
    match ending {
        Ending::Left(None) => printed_lines::AnswerText::Done,
        Ending::Left(Some(buffer)) => printed_lines::AnswerText::Data(buffer),
        Ending::Comm(place) => {
            printed_lines::AnswerText::Communicator(CommunicatorText { place: *place })
        }
        Ending::Replaced => printed_lines::AnswerText::One(OutcomeText::Failed(11)),
        Ending::Mismatch => printed_lines::AnswerText::One(OutcomeText::Failed(12)),
    }
}

/// The text of how two communicators compare.
fn compared(comparison: CommunicatorComparison) -> ComparisonText
    ensures { result ≡ compared comparison }
{
    match comparison {
        CommunicatorComparison::Ident => ComparisonText::Ident,
        CommunicatorComparison::Congruent => ComparisonText::Congruent,
        CommunicatorComparison::Similar => ComparisonText::Similar,
        CommunicatorComparison::Unequal => ComparisonText::Unequal,
    }
}

/// What is told of a communicator. A rank or a size is told with the other one alone: see `print_position`.
fn fact_text(fact: &Fact) -> printed_lines::AnswerText<'_>
    ensures { answer_text result ≡ fact_line fact.now }
{
    match fact {
        Fact::Number(_) => printed_lines::AnswerText::Done,
        Fact::Ranks(ranks) => printed_lines::AnswerText::Members(MembersText { ranks }),
        Fact::Compares(comparison) => {
            printed_lines::AnswerText::Comparison(compared(*comparison))
        }
    }
}

/// What a probe found (MPI 3.1, 3.8.1).
fn probe_text(found: &Option<Status>) -> printed_lines::AnswerText<'_>
    ensures { answer_text result ≡ probe_line found.now }
{
    match found {
        Some(status) => printed_lines::AnswerText::Probed(StatusText { status: *status }),
        None => printed_lines::AnswerText::Nothing,
    }
}

/// What a matching probe took out (MPI 3.1, 3.8.2).
fn match_text(found: &Option<(Option<Request>, Status)>) -> printed_lines::AnswerText<'_>
    ensures { answer_text result ≡ match_line found.now }
{
    match found {
        Some((message, status)) => {
            let serial = match message {
                Some(message) => Some(message.serial),
                None => None,
            };
            printed_lines::AnswerText::Matched(MessageText {
                serial,
                status: *status,
            })
        }
        None => printed_lines::AnswerText::Nothing,
    }
}

/// A rank in a communicator, and the communicator's size.
pub fn print_position<W: Write>(rank: usize, size: usize, out: &mut W) -> io::Result<()>
    ensures { OnOk result (Prints (W.contents out.old) (W.contents out.new) (position_text rank size ∷ [])) }
{
    let position = PositionText { rank, size };
    print_text(&printed_lines::AnswerText::Position(position), out)
}

/// The answer of a call of this rank that was blocked. Want of memory comes before anything is printed.
pub fn print_completion<W: Write>(
    alloc: Global,
    rank: u16,
    completion: &Completion,
    out: &mut W,
) -> Result<(), SimulateError>
    ensures ok { OnOk result (Prints (W.contents out.old) (W.contents out.new) (completion_line rank completion.now ∷ [])) }
    ensures err { IfErr result (λ e. CutsOff e (W.contents out.old) (W.contents out.new) (completion_line rank completion.now ∷
        [])) }
{
    match completion {
        Completion::Requests(answer) => print_answer(alloc, Some(rank), answer, out),
        Completion::Collective(ending) => { Ok(print_told(Some(rank), &ending_text(ending), out)?) }
    }
}

/// What a call answers. Want of memory comes before anything is printed.
pub fn print_reply<W: Write>(alloc: Global, reply: &Reply, out: &mut W) -> Result<(), SimulateError>
    ensures ok { OnOk result (Prints (W.contents out.old) (W.contents out.new) (reply_line reply.now ∷ [])) }
    ensures err { IfErr result (λ e. CutsOff e (W.contents out.old) (W.contents out.new) (reply_line reply.now ∷ [])) }
{
    let text = match reply {
        Reply::Started(request) => printed_lines::AnswerText::Started(request.serial),
        Reply::Done(answer) => return print_answer(alloc, None, answer, out),
        Reply::Pending => printed_lines::AnswerText::Pending,
        Reply::Accepted => printed_lines::AnswerText::Done,
        Reply::Blocked => printed_lines::AnswerText::Blocked,
        Reply::Left(ending) => ending_text(ending),
        Reply::Fact(fact) => fact_text(fact),
        Reply::Probed(status) => probe_text(status),
        Reply::Matched(found) => match_text(found),
        Reply::Refused(refused, _) => printed_lines::AnswerText::Refused(refused.number()),
    };
    print_text(&text, out)?;
    Ok(())
}

/// An event that is no call was taken.
pub fn print_taken<W: Write>(out: &mut W) -> io::Result<()>
    ensures { OnOk result (Prints (W.contents out.old) (W.contents out.new) (taken_line ∷ [])) }
{
    print_text(&printed_lines::AnswerText::Taken, out)
}

/// A refusal.
pub fn print_refusal<W: Write>(number: u8, out: &mut W) -> io::Result<()>
    ensures { OnOk result (Prints (W.contents out.old) (W.contents out.new) (refusal_line number ∷ [])) }
{
    print_text(&printed_lines::AnswerText::Refused(number), out)
}

/// The text of a datagram that was emitted, by its number.
fn emission_of(number: usize, datagram: &Datagram<'_>) -> EmissionText
    ensures { result ≡ emission_of number (datagram_text datagram.now) }
{
    EmissionText {
        datagram: number,
        route: RouteText {
            source: datagram.header.source,
            target: datagram.header.target,
        },
        load: LoadText {
            kind: FrameKind::of(&datagram.content),
            sequence: datagram.header.sequence,
        },
    }
}

/// A datagram that was emitted, by its number. Of bytes that are none, nothing is printed.
pub fn print_datagram<W: Write>(number: usize, bytes: &[u8], out: &mut W) -> io::Result<()>
    ensures { OnOk result (Prints (W.contents out.old) (W.contents out.new) (datagram_lines number bytes.now)) }
{
    let Ok(datagram) = datagram::read_form(bytes) else {
        return Ok(());
    };
    let emission = emission_of(number, &datagram);
    writeln!(out, "{emission}")
}

//! What calls answer, in words.

use crate::rank_lines::Manner;
use engine::{Answer, Buffer, Completion, Ending, Outcome, Reply, Source, Status};
use float_texts::ValueText;
use play_waits::{Page, add_source, add_tag};
use run_drawings::Tone;
use std::alloc::{AllocError, Global};
use world::HistoryEntry;

/// How many elements of a buffer are told at most.
const MOST_ELEMENTS: usize = 24;

/// An answer in words. One of no words isn't told.
#[derive(Drop)]
pub(crate) struct Worded {
    /// The words.
    pub words: Vec<u8>,
    /// Whether it is an error.
    pub tone: Tone,
}

fn tone_of(fails: bool) -> Tone {
    if fails { Tone::Fails } else { Tone::Plain }
}

/// Adds the first elements of a buffer, a space between two.
fn add_elements(alloc: Global, page: &mut Page, buffer: &Buffer) -> Result<(), AllocError> {
    let basic = buffer.basic();
    for place in 0..buffer.len().min(MOST_ELEMENTS) {
        let number = buffer.number(place);
        let element = ValueText { basic, number };
        let text = format!(in alloc; "{element}")?;
        if place > 0 {
            page.add(" ")?;
        }
        page.add(text.as_str())?;
    }
    if buffer.len() > MOST_ELEMENTS {
        page.add(" ..")?;
    }
    Ok(())
}

/// Adds `rank R tag T: `, or `null: ` of the null process.
fn add_sender(page: &mut Page, status: &Status) -> Result<(), AllocError> {
    if status.source == Source::Null {
        return page.add("null: ");
    }
    add_source(page, status.source)?;
    page.add(" ")?;
    add_tag(page, status.tag)?;
    page.add(": ")
}

fn add_error(page: &mut Page, number: u8) -> Result<(), AllocError> {
    page.add("error ")?;
    page.add_number(number as usize)
}

/// Adds how an operation ended. Of a receive that names its source and its tag these aren't told once more.
fn add_outcome(
    alloc: Global,
    page: &mut Page,
    outcome: &Outcome,
    manner: Manner,
) -> Result<(), AllocError> {
    match outcome {
        Outcome::Sent => page.add("sent"),
        Outcome::Received(status, buffer) => {
            if manner != Manner::ReceivesNamed {
                add_sender(page, status)?;
            }
            add_elements(alloc, page, buffer)
        }
        Outcome::Ended(failure, _, _) => add_error(page, failure.number()),
        Outcome::Replaced(_) => add_error(page, 11),
        Outcome::Cancelled(_) => page.add("cancelled"),
        Outcome::Empty => page.add("nothing"),
    }
}

fn is_failure(outcome: &Outcome) -> bool {
    matches!(outcome, Outcome::Ended(_, _, _) | Outcome::Replaced(_))
}

fn outcome_words(alloc: Global, outcome: &Outcome, manner: Manner) -> Result<Worded, AllocError> {
    let mut page = Page::new(alloc);
    add_outcome(alloc, &mut page, outcome, manner)?;
    Ok(Worded {
        words: page.into_text(),
        tone: tone_of(is_failure(outcome)),
    })
}

fn outcomes_words(
    alloc: Global,
    outcomes: &[Outcome],
    manner: Manner,
) -> Result<Worded, AllocError> {
    let mut page = Page::new(alloc);
    for outcome in outcomes {
        if !page.is_empty() {
            page.add("; ")?;
        }
        add_outcome(alloc, &mut page, outcome, manner)?;
    }
    Ok(Worded {
        words: page.into_text(),
        tone: tone_of(outcomes.iter().any(|outcome| is_failure(outcome))),
    })
}

fn plain(alloc: Global, words: &str) -> Result<Worded, AllocError> {
    Ok(Worded {
        words: Vec::from_slice(alloc, words.as_bytes())?,
        tone: Tone::Plain,
    })
}

/// `error N`
pub(crate) fn error_words(alloc: Global, number: u8) -> Result<Worded, AllocError> {
    let mut page = Page::new(alloc);
    add_error(&mut page, number)?;
    Ok(Worded {
        words: page.into_text(),
        tone: Tone::Fails,
    })
}

fn answer_words(alloc: Global, answer: &Answer, manner: Manner) -> Result<Worded, AllocError> {
    match answer {
        Answer::One(outcome) => outcome_words(alloc, outcome, manner),
        Answer::Index(place, outcome) => {
            let mut page = Page::new(alloc);
            page.add("index ")?;
            page.add_number(*place)?;
            page.add(": ")?;
            add_outcome(alloc, &mut page, outcome, manner)?;
            Ok(Worded {
                words: page.into_text(),
                tone: tone_of(is_failure(outcome)),
            })
        }
        Answer::IndexUndefined => plain(alloc, "no request"),
        Answer::All(outcomes) => outcomes_words(alloc, outcomes.as_slice(), manner),
    }
}

fn ending_words(alloc: Global, ending: &Ending) -> Result<Worded, AllocError> {
    match ending {
        Ending::Left(Some(buffer)) => {
            let mut page = Page::new(alloc);
            add_elements(alloc, &mut page, buffer)?;
            Ok(Worded {
                words: page.into_text(),
                tone: Tone::Plain,
            })
        }
        Ending::Left(None) | Ending::Comm(Some(_)) => plain(alloc, "done"),
        Ending::Comm(None) => plain(alloc, "no communicator"),
        Ending::Replaced => error_words(alloc, 11),
        Ending::Mismatch => error_words(alloc, 12),
    }
}

/// Of which message a probe tells.
fn found_words(alloc: Global, status: &Status) -> Result<Worded, AllocError> {
    let mut page = Page::new(alloc);
    add_sender(&mut page, status)?;
    page.add_number(usize::try_from(status.count).unwrap_or(usize::MAX))?;
    page.add(" elements")?;
    Ok(Worded {
        words: page.into_text(),
        tone: Tone::Plain,
    })
}

/// What a call replied at once. What a rank prints of it, it tells itself.
fn reply_words(alloc: Global, reply: &Reply, manner: Manner) -> Result<Worded, AllocError> {
    match reply {
        Reply::Done(Answer::One(Outcome::Sent)) if manner == Manner::Sends => plain(alloc, ""),
        Reply::Done(answer) => answer_words(alloc, answer, manner),
        Reply::Left(ending) => ending_words(alloc, ending),
        Reply::Probed(Some(status)) | Reply::Matched(Some((_, status))) => {
            found_words(alloc, status)
        }
        _ => plain(alloc, ""),
    }
}

/// What a blocked call answered.
fn completion_words(
    alloc: Global,
    completion: &Completion,
    manner: Manner,
) -> Result<Worded, AllocError> {
    match completion {
        Completion::Requests(answer) => answer_words(alloc, answer, manner),
        Completion::Collective(ending) => ending_words(alloc, ending),
    }
}

/// What a rank learnt in an event: the answer to a call, or to one that was blocked; of no words where it learnt
/// nothing.
pub(crate) fn words_of(
    alloc: Global,
    entry: &HistoryEntry,
    manner: Manner,
) -> Result<Worded, AllocError> {
    match (&entry.completion, &entry.reply) {
        (Some(completion), _) => completion_words(alloc, completion, manner),
        (None, Some(reply)) => reply_words(alloc, reply, manner),
        (None, None) => plain(alloc, ""),
    }
}

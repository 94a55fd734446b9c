//! What stands beside the lines of life of an SVG.

ghost use Rattle.std.specs.Prelude.{◌≡◌};
ghost use Rattle.run_drawings.specs.Elements.{label_class, label_text};
ghost use Rattle.run_drawings.specs.Layout.{below, right_of};
ghost use Rattle.run_drawings.specs.Notes.{mark, mark_ink, note_class, note_label};
ghost use Rattle.run_drawings.specs.declared.elements.Side.TheVariants as sides;

use crate::elements::{Element, Ink, Label, Side, Stroke, Text};
use crate::layout::{Layout, Point};
use crate::picture::{Arrow, Change, Delivery, Note, Picture, Row, Tone};
use std::alloc::AllocError;

/// The text of a note.
fn label_of<'a>(note: &'a Note) -> Label<'a>
    ensures text { label_text result ≡ note_label note.now.call.items note.now.answer.items note.now.tone }
    ensures class { label_class result ≡ note_class note.now.answer.items note.now.tone }
{
    if note.answer.is_empty() {
        Label::Call(&note.call, note.tone)
    } else if note.call.is_empty() {
        Label::Answer(&note.answer, note.tone)
    } else {
        Label::Answered(&note.call, &note.answer, note.tone)
    }
}

/// The text of a note, to the right of its rank's line of life.
fn text_of<'a>(here: Point, note: &'a Note) -> Text<'a>
    ensures side { result.side ≡ sides.Right }
    ensures place { result.at ≡ below (right_of here 10) 4 }
    ensures text { label_text result.label ≡ note_label note.now.call.items note.now.answer.items note.now.tone }
    ensures class { label_class result.label ≡ note_class note.now.answer.items note.now.tone }
{
    Text {
        side: Side::Right,
        at: here.right(10).below(4),
        label: label_of(note),
    }
}

/// What the mark of a note shows.
fn mark_ink(note: &Note) -> Ink
    ensures { result ≡ mark_ink note.now.tone note.now.change }
{
    match (note.tone, note.change) {
        (Tone::Fails, _) => Ink::Failure,
        (_, Change::Ends) => Ink::End,
        _ => Ink::Event,
    }
}

/// The mark of a note, across its rank's line of life.
fn mark_of(here: Point, note: &Note) -> Stroke
    ensures { result ≡ mark here note.now.tone note.now.change }
{
    Stroke {
        ink: mark_ink(note),
        from: here.left(5),
        to: here.right(5),
    }
}

/// Adds a note.
fn add_note<'a>(
    here: Point,
    note: &'a Note,
    elements: &mut Vec<Element<'a>>,
) -> Result<(), AllocError> {
    elements.push(Element::Stroke(mark_of(here, note)))?;
    elements
        .push(Element::Text(text_of(here, note)))
        .map_err(AllocError::from)
}

/// With what a datagram was refused, beyond the line of life to which it came.
fn refusal_of<'a>(layout: &Layout, arrow: &Arrow, row: usize, delivery: &'a Delivery) -> Text<'a> {
    let here = layout.at(arrow.target.rank, row).below(4);
    let label = Label::Refusal(&delivery.answer);
    if arrow.source.rank < arrow.target.rank {
        Text {
            side: Side::Right,
            at: here.right(8),
            label,
        }
    } else {
        Text {
            side: Side::Left,
            at: here.left(8),
            label,
        }
    }
}

/// Adds what a row tells of itself.
fn add_row<'a>(
    layout: &Layout,
    picture: &'a Picture,
    place: usize,
    row: &'a Row,
    elements: &mut Vec<Element<'a>>,
) -> Result<(), AllocError> {
    match row {
        Row::Told(note) if matches!(note.change, Change::StartsAnew(_)) => elements
            .push(Element::Text(text_of(layout.at(note.rank, place), note)))
            .map_err(AllocError::from),
        Row::Told(note) => add_note(layout.at(note.rank, place), note, elements),
        Row::Delivered(delivery) if !delivery.answer.is_empty() => {
            match picture.arrows.get(delivery.datagram) {
                Some(arrow) => elements
                    .push(Element::Text(refusal_of(layout, arrow, place, delivery)))
                    .map_err(AllocError::from),
                None => Ok(()),
            }
        }
        Row::Outside(text) => elements
            .push(Element::Text(Text {
                side: Side::Right,
                at: layout.at(0, place).right(10).below(4),
                label: Label::Refusal(text),
            }))
            .map_err(AllocError::from),
        _ => Ok(()),
    }
}

/// Adds what stands beside the lines of life of a picture.
pub(crate) fn add_notes<'a>(
    layout: &Layout,
    picture: &'a Picture,
    elements: &mut Vec<Element<'a>>,
) -> Result<(), AllocError> {
    for (place, row) in picture.rows.iter().enumerate() {
        add_row(layout, picture, place, row, elements)?;
    }
    Ok(())
}

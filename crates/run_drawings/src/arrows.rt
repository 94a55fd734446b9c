//! The arrows of an SVG.

ghost use Rattle.std.specs.Prelude.{◌≡◌, ◌++◌, OnOk, codes};
ghost use Rattle.run_drawings.specs.Elements.{label_class, label_text};
ghost use Rattle.run_drawings.specs.Labels.{arrow_label_text};
ghost use Rattle.run_drawings.specs.Strokes.{datagram_place, datagram_side, lost_stroke, stroke_to, strokes_of};

use crate::elements::{Element, Ink, Label, Side, Stroke, Text};
use crate::labels::ArrowLabel;
use crate::layout::Layout;
use crate::picture::{Arrival, Arrow, Picture};
use std::alloc::AllocError;

/// The arrow from where a datagram was emitted to a place where it was delivered.
fn stroke_to(layout: &Layout, arrow: &Arrow, arrival: Arrival) -> Stroke
    ensures { result ≡ stroke_to layout.now arrow.now arrival }
{
    Stroke {
        ink: if arrival.is_taken {
            Ink::Taken
        } else {
            Ink::Refused
        },
        from: layout.at(arrow.source.rank, arrow.row),
        to: layout.at(arrow.target.rank, arrival.row),
    }
}

/// The arrow of a datagram that is lost: it ends on its way.
fn lost_stroke(layout: &Layout, arrow: &Arrow) -> Stroke
    ensures { result ≡ lost_stroke layout.now arrow.now }
{
    Stroke {
        ink: Ink::Lost,
        from: layout.at(arrow.source.rank, arrow.row),
        to: layout.lost_end(arrow.source.rank, arrow.target.rank, arrow.row),
    }
}

/// Adds an arrow for each place where a datagram was delivered, or the one of a lost one.
fn add_strokes<'a>(
    layout: &Layout,
    arrow: &Arrow,
    elements: &mut Vec<Element<'a>>,
) -> Result<(), AllocError>
    ensures { OnOk result (elements.new.items ≡ elements.old.items ++ strokes_of layout.now arrow.now) }
{
    if arrow.arrivals.is_empty() {
        return elements
            .push(Element::Stroke(lost_stroke(layout, arrow)))
            .map_err(AllocError::from);
    }
    for arrival in &arrow.arrivals {
        elements.push(Element::Stroke(stroke_to(layout, arrow, *arrival)))?;
    }
    Ok(())
}

/// What stands where a datagram was emitted, on the side to which it goes.
fn label_of<'a>(layout: &Layout, number: usize, arrow: &'a Arrow) -> Text<'a>
    ensures side { result.side ≡ datagram_side arrow.now }
    ensures place { result.at ≡ datagram_place layout.now arrow.now }
    ensures text { label_text result.label ≡
        arrow_label_text number arrow.now.load arrow.now.words.items arrow.now.is_resent }
    ensures class { label_class result.label ≡ codes "datagram" }
{
    let at = layout.at(arrow.source.rank, arrow.row).above(4);
    let label = Label::Arrow(ArrowLabel {
        number,
        load: arrow.load,
        words: &arrow.words,
        is_resent: arrow.is_resent,
    });
    if arrow.source.rank < arrow.target.rank {
        Text {
            side: Side::Right,
            at: at.right(8),
            label,
        }
    } else {
        Text {
            side: Side::Left,
            at: at.left(8),
            label,
        }
    }
}

/// Adds all arrows of a picture, and behind them what they carry.
pub(crate) fn add_arrows<'a>(
    layout: &Layout,
    picture: &'a Picture,
    elements: &mut Vec<Element<'a>>,
) -> Result<(), AllocError> {
    for arrow in &picture.arrows {
        add_strokes(layout, arrow, elements)?;
    }
    for (number, arrow) in picture.arrows.iter().enumerate() {
        elements.push(Element::Text(label_of(layout, number, arrow)))?;
    }
    Ok(())
}

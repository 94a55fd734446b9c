//! A cycle of an SVG: an arrow from each rank of it to those for which it waits.

ghost use Rattle.std.specs.Prelude.{◌≡◌, ◌++◌, ◌∷◌, [], OnOk};
ghost use Rattle.run_drawings.specs.Waits.{line, wait_strokes, waits_of};

use crate::elements::{Element, Ink, Label, Side, Stroke, Text};
use crate::layout::{Layout, Point};
use crate::picture::{CycleWait, Picture, Row, Tone};
use std::alloc::AllocError;

/// What stands beside the first arrow of a cycle, which is there to be explained.
pub(crate) const LEGEND: &str = "a cycle: each arrow leads from a rank to one for which it waits";

/// How long that arrow is.
const SAMPLE: usize = 40;

/// Adds a line.
fn push_stroke(
    ink: Ink,
    from: Point,
    to: Point,
    elements: &mut Vec<Element<'_>>,
) -> Result<(), AllocError>
    ensures { OnOk result (elements.new.items ≡ elements.old.items ++ line ink from to ∷ []) }
{
    elements
        .push(Element::Stroke(Stroke { ink, from, to }))
        .map_err(AllocError::from)
}

/// Adds the arrow from a rank to one for which it waits; where that is itself, it goes out and comes back.
fn add_strokes(
    layout: &Layout,
    rank: u16,
    row: usize,
    other: u16,
    elements: &mut Vec<Element<'_>>,
) -> Result<(), AllocError>
    ensures { OnOk result (elements.new.items ≡ elements.old.items ++ wait_strokes layout.now rank row other) }
{
    let here = layout.at(rank, row);
    if rank != other {
        return push_stroke(Ink::Awaits, here, layout.at(other, row), elements);
    }
    let out = here.right(24);
    push_stroke(Ink::Turn, here, out, elements)?;
    push_stroke(Ink::Turn, out, out.below(8), elements)?;
    push_stroke(Ink::Awaits, out.below(8), here.below(8), elements)
}

/// Adds the arrows from a rank to all for which it waits.
fn add_all_strokes(
    layout: &Layout,
    wait: &CycleWait,
    row: usize,
    elements: &mut Vec<Element<'_>>,
) -> Result<(), AllocError>
    ensures { OnOk result (elements.new.items ≡ elements.old.items ++ waits_of layout.now row wait.now) }
{
    for other in &wait.whom {
        add_strokes(layout, wait.rank, row, *other, elements)?;
    }
    Ok(())
}

/// For what a rank waits: beside the left end of its arrows.
fn words_of<'a>(layout: &Layout, wait: &'a CycleWait, row: usize) -> Text<'a> {
    let leftmost = wait
        .whom
        .iter()
        .fold(wait.rank, |left, other| left.min(*other));
    let distance = if wait.whom.contains(&wait.rank) {
        30
    } else {
        8
    };
    Text {
        side: Side::Right,
        at: layout.at(leftmost, row).right(distance).above(8),
        label: Label::Call(&wait.words, Tone::Fails),
    }
}

/// Adds an arrow of a cycle, and what it means.
fn add_legend<'a>(
    layout: &Layout,
    row: usize,
    elements: &mut Vec<Element<'a>>,
) -> Result<(), AllocError> {
    let from = layout.at(0, row).right(10).above(6);
    let to = from.right(SAMPLE);
    push_stroke(Ink::Awaits, from, to, elements)?;
    elements
        .push(Element::Text(Text {
            side: Side::Right,
            at: to.right(8).below(4),
            label: Label::Call(LEGEND.as_bytes(), Tone::Fails),
        }))
        .map_err(AllocError::from)
}

/// Adds who waits for whom in the cycle of a picture, if it has one.
pub(crate) fn add_waits<'a>(
    layout: &Layout,
    picture: &'a Picture,
    elements: &mut Vec<Element<'a>>,
) -> Result<(), AllocError> {
    for (place, row) in picture.rows.iter().enumerate() {
        match row {
            Row::Cycle => add_legend(layout, place, elements)?,
            Row::Waits(wait) => {
                add_all_strokes(layout, wait, place, elements)?;
                elements.push(Element::Text(words_of(layout, wait, place)))?;
            }
            _ => {}
        }
    }
    Ok(())
}

//! The lines of life of an SVG.

use crate::elements::{Element, Ink, Label, Side, Stroke, Text};
use crate::layout::{Layout, Point};
use crate::picture::{Change, Picture, Row};
use std::alloc::{AllocError, Global};

/// A rank's line of life as far as it is drawn.
#[derive(Clone, Copy)]
struct Life {
    /// Where what isn't drawn yet begins.
    since: Point,
    /// What is drawn there: a rank that is there, or one that has ended.
    line: Ink,
    /// What is drawn where it is blocked: that, or that it waits for ever.
    bar: Ink,
    /// Where the rank was blocked, while it is.
    blocked: Option<Point>,
}

fn add_stroke<'a>(
    elements: &mut Vec<Element<'a>>,
    ink: Ink,
    from: Point,
    to: Point,
) -> Result<(), AllocError> {
    elements
        .push(Element::Stroke(Stroke { ink, from, to }))
        .map_err(AllocError::from)
}

impl Life {
    /// The rank is blocked no longer.
    fn resume<'a>(
        &mut self,
        here: Point,
        elements: &mut Vec<Element<'a>>,
    ) -> Result<(), AllocError> {
        match self.blocked.take() {
            Some(since) => add_stroke(elements, self.bar, since, here),
            None => Ok(()),
        }
    }

    /// Nothing comes behind this place.
    fn end<'a>(&mut self, here: Point, elements: &mut Vec<Element<'a>>) -> Result<(), AllocError> {
        self.resume(here, elements)?;
        add_stroke(elements, self.line, self.since, here)
    }

    /// The line breaks off, and goes on below.
    fn start_anew<'a>(
        &mut self,
        here: Point,
        elements: &mut Vec<Element<'a>>,
    ) -> Result<(), AllocError> {
        let end = here.above(4);
        let start = here.below(4);
        self.end(end, elements)?;
        add_stroke(elements, Ink::Break, end.left(7), end.right(7))?;
        add_stroke(elements, Ink::Break, start.left(7), start.right(7))?;
        self.since = start;
        self.line = Ink::Life;
        Ok(())
    }

    /// The rank ends.
    fn stop<'a>(&mut self, here: Point, elements: &mut Vec<Element<'a>>) -> Result<(), AllocError> {
        self.end(here, elements)?;
        self.since = here;
        self.line = Ink::Over;
        Ok(())
    }

    /// What becomes of the line in a row.
    fn follow<'a>(
        &mut self,
        change: Change,
        here: Point,
        elements: &mut Vec<Element<'a>>,
    ) -> Result<(), AllocError> {
        match change {
            Change::Stays => Ok(()),
            Change::Blocks => {
                self.blocked = Some(here);
                Ok(())
            }
            Change::Resumes => self.resume(here, elements),
            Change::StartsAnew(_) => self.start_anew(here, elements),
            Change::Ends => self.stop(here, elements),
            Change::WaitsForEver => {
                self.bar = Ink::Stuck;
                Ok(())
            }
        }
    }
}

/// A line of life for each rank, of which nothing is drawn yet.
fn begun_lives(alloc: Global, layout: &Layout, size: u16) -> Result<Vec<Life>, AllocError> {
    let mut lives = Vec::new(alloc);
    for rank in 0..size {
        lives.push(Life {
            since: layout.top(rank),
            line: Ink::Life,
            bar: Ink::Blocked,
            blocked: None,
        })?;
    }
    Ok(lives)
}

/// Adds the lines of life of a picture, and the names of the ranks above them.
pub(crate) fn add_lives<'a>(
    alloc: Global,
    layout: &Layout,
    picture: &'a Picture,
    elements: &mut Vec<Element<'a>>,
) -> Result<(), AllocError> {
    let mut lives = begun_lives(alloc, layout, picture.size)?;
    for (place, row) in picture.rows.iter().enumerate() {
        if let Row::Told(note) = row {
            if let Some(life) = lives.get_mut(usize::from(note.rank)) {
                life.follow(note.change, layout.at(note.rank, place), elements)?;
            }
        }
    }
    for rank in 0..picture.size {
        if let Some(life) = lives.get_mut(usize::from(rank)) {
            life.end(layout.bottom(rank), elements)?;
        }
        elements.push(Element::Text(Text {
            side: Side::Middle,
            at: layout.top(rank).above(10),
            label: Label::Rank(usize::from(rank)),
        }))?;
    }
    Ok(())
}

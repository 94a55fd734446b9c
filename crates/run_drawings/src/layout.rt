//! Where things stand in an SVG, in pixels.

ghost use Rattle.std.specs.Prelude.{◌≡◌};
ghost use Rattle.run_drawings.specs.Layout.{above, at, below, left_of, lost_end, right_of};

use crate::picture::{Note, Picture, Row};

/// How far the first line of life is from the left edge.
const LEFT: usize = 100;
/// How far the first row is from the upper edge.
const TOP: usize = 64;
/// How far a row is from the next one.
const ROW: usize = 22;
/// How many pixels two characters take.
const TWO_CHARACTERS: usize = 15;
/// How many pixels the words on a cycle take, with the arrow in front of them.
const LEGEND_WIDTH: usize = 580;
/// How many bytes of a text are shown at most.
pub(crate) const MOST_SHOWN: usize = 64;

/// A place in the drawing: pixels from its left and its upper edge.
#[derive(Clone, Copy, Debug, PartialEq, Eq)]
pub(crate) struct Point {
    /// From the left edge.
    pub x: usize,
    /// From the upper edge.
    pub y: usize,
}

impl Point {
    /// The place that is so far to the right of this one.
    pub fn right(self, pixels: usize) -> Point
        ensures { result ≡ right_of self pixels }
    {
        Point {
            x: self.x.saturating_add(pixels),
            y: self.y,
        }
    }

    /// The place that is so far to the left of this one, at most at the edge.
    pub fn left(self, pixels: usize) -> Point
        ensures { result ≡ left_of self pixels }
    {
        Point {
            x: self.x.saturating_sub(pixels),
            y: self.y,
        }
    }

    /// The place that is so far below this one.
    pub fn below(self, pixels: usize) -> Point
        ensures { result ≡ below self pixels }
    {
        Point {
            x: self.x,
            y: self.y.saturating_add(pixels),
        }
    }

    /// The place that is so far above this one, at most at the edge.
    pub fn above(self, pixels: usize) -> Point
        ensures { result ≡ above self pixels }
    {
        Point {
            x: self.x,
            y: self.y.saturating_sub(pixels),
        }
    }
}

/// How the ranks and rows of a picture lie.
#[derive(Clone, Copy)]
pub(crate) struct Layout {
    /// How far a line of life is from the next one.
    pub column: usize,
    /// How much room there is to the right of the last one.
    pub margin: usize,
    /// How many ranks there are.
    pub size: usize,
    /// How many rows there are.
    pub rows: usize,
}

/// How many bytes of a note are shown.
fn shown_of(note: &Note) -> usize {
    let call = note.call.len().min(MOST_SHOWN);
    call.saturating_add(note.answer.len().min(MOST_SHOWN))
        .saturating_add(4)
}

/// How many bytes beside a line of life a row shows.
fn shown_in(row: &Row) -> usize {
    match row {
        Row::Told(note) => shown_of(note),
        Row::Waits(wait) => wait.words.len().min(MOST_SHOWN).saturating_add(4),
        _ => 0,
    }
}

/// How many pixels the longest text beside a line of life of a picture takes.
fn longest_of(picture: &Picture) -> usize {
    let mut longest = 8;
    for row in &picture.rows {
        longest = shown_in(row).max(longest);
    }
    longest.saturating_mul(TWO_CHARACTERS) / 2
}

/// How far what a picture says of all its ranks goes behind the first line of life.
fn whole_of(picture: &Picture) -> usize {
    if picture.rows.iter().any(|row| matches!(row, Row::Cycle)) {
        LEGEND_WIDTH
    } else {
        0
    }
}

impl Layout {
    /// The layout of a picture: a column has room for the longest note where few ranks leave room for that.
    pub fn of(picture: &Picture) -> Layout {
        let size = usize::from(picture.size);
        let most = if size <= 3 { 420 } else { 1_260 / size };
        let longest = longest_of(picture).saturating_add(20);
        let column = longest.min(most.max(150)).max(150);
        let columns = column.saturating_mul(size.saturating_sub(1));
        Layout {
            column,
            margin: longest
                .max(120)
                .max(whole_of(picture).saturating_sub(columns)),
            size,
            rows: picture.rows.len(),
        }
    }

    /// Where a rank's line of life meets a row.
    pub fn at(&self, rank: u16, row: usize) -> Point
        ensures { result ≡ at self.now rank row }
    {
        Point {
            x: usize::from(rank)
                .saturating_mul(self.column)
                .saturating_add(LEFT),
            y: row.saturating_mul(ROW).saturating_add(TOP),
        }
    }

    /// Where a rank's line of life begins.
    pub fn top(&self, rank: u16) -> Point {
        self.at(rank, 0).above(ROW)
    }

    /// Where a rank's line of life ends.
    pub fn bottom(&self, rank: u16) -> Point {
        self.at(rank, self.rows)
    }

    /// The lower right corner of the drawing.
    pub fn corner(&self) -> Point {
        Point {
            x: self
                .size
                .saturating_sub(1)
                .saturating_mul(self.column)
                .saturating_add(LEFT)
                .saturating_add(self.margin),
            y: self
                .rows
                .saturating_mul(ROW)
                .saturating_add(TOP)
                .saturating_add(ROW),
        }
    }

    /// Where the arrow of a lost datagram ends: half a column away from its source's line of life, towards its
    /// target's.
    pub fn lost_end(&self, from: u16, to: u16, row: usize) -> Point
        ensures { result ≡ lost_end self.now from to row }
    {
        let level = self.at(from, row).below(4);
        if from < to {
            level.right(self.column / 2)
        } else {
            level.left(self.column / 2)
        }
    }
}

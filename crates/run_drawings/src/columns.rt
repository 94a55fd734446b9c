//! Where things stand in a row of characters.

ghost use Rattle.std.specs.Prelude.{◌≡◌, ◌-◌};
ghost use Rattle.run_drawings.specs.Columns.{approach, between, departure, lost, arrival, place_of, tip, wait_span, without};

/// How many characters lie between two lines of life at least and at most, with one of the lines.
const LEAST_COLUMN: usize = 10;

const MOST_COLUMN: usize = 48;
/// How much shorter the arrow of a datagram is that is still on its way.
const GAP: usize = 3;

/// How the lines of life lie in a row.
#[derive(Clone, Copy)]
pub(crate) struct Columns {
    /// How far a line of life is from the next one.
    pub column: usize,
    /// How many characters a row has at most.
    pub width: usize,
}

/// Places of a row that follow one another: from the first on, before the end.
#[derive(Clone, Copy, Debug, PartialEq, Eq)]
pub(crate) struct Span {
    pub first: usize,
    pub end: usize,
}

impl Span {
    /// How many places it has.
    pub fn len(self) -> usize
        ensures { result ≡ self.end - self.first }
    {
        self.end.saturating_sub(self.first)
    }

    /// All but some places at its right end, or at its left one.
    pub fn without(self, places: usize, is_right: bool) -> Span
        ensures { result ≡ without self places is_right }
    {
        if is_right {
            Span {
                first: self.first,
                end: self.end.saturating_sub(places),
            }
        } else {
            Span {
                first: self.first.saturating_add(places),
                end: self.end,
            }
        }
    }

    /// Its last place on the right side, or on the left one.
    pub fn tip(self, is_right: bool) -> usize
        ensures { result ≡ tip self is_right }
    {
        if is_right {
            self.end.saturating_sub(1)
        } else {
            self.first
        }
    }
}

impl Columns {
    /// So many ranks in rows of this width. Where the ranks don't fit, a row is wider.
    pub fn of(size: u16, width: usize) -> Columns {
        let size = usize::from(size).max(1);
        let column = (width / size).min(MOST_COLUMN).max(LEAST_COLUMN);
        Columns {
            column,
            width: width.max(size.saturating_mul(column)),
        }
    }

    /// The place of a rank's line of life.
    pub fn place_of(&self, rank: u16) -> usize
        ensures { result ≡ place_of self.now rank }
    {
        usize::from(rank).saturating_mul(self.column)
    }

    /// The places between the lines of life of two ranks.
    pub fn between(&self, one: u16, other: u16) -> Span
        ensures { result ≡ between self.now one other }
    {
        Span {
            first: self.place_of(one.min(other)).saturating_add(1),
            end: self.place_of(one.max(other)),
        }
    }

    /// The places of an arrow that goes out: up to the other line of life, where it comes in this very row.
    pub fn departure(&self, from: u16, to: u16, is_direct: bool) -> Span
        ensures { result ≡ departure self.now from to is_direct }
    {
        let whole = self.between(from, to);
        if is_direct {
            whole
        } else {
            whole.without(GAP, from < to)
        }
    }

    /// The places of the arrow of a datagram that is lost: the first half of its way.
    pub fn lost(&self, from: u16, to: u16) -> Span
        ensures { result ≡ lost self.now from to }
    {
        let whole = self.between(from, to);
        whole.without(whole.len() / 2, from < to)
    }

    /// The places of an arrow that comes: the last half of its way.
    pub fn arrival(&self, from: u16, to: u16) -> Span
        ensures { result ≡ arrival self.now from to }
    {
        let whole = self.between(from, to);
        whole.without(whole.len() / 2, to < from)
    }

    /// The places of an arrow that comes and has words: all but some of its way.
    pub fn approach(&self, from: u16, to: u16) -> Span
        ensures { result ≡ approach self.now from to }
    {
        self.between(from, to).without(GAP, to < from)
    }

    /// The places of the arrow from a rank to one for which it waits: up to the other line of life, or where that is its
    /// own some places beside it.
    pub fn wait(&self, rank: u16, other: u16) -> Span
        ensures { result ≡ wait_span self.now rank other }
    {
        if rank == other {
            let place = self.place_of(rank);
            Span {
                first: place.saturating_add(1),
                end: place.saturating_add(4),
            }
        } else {
            self.between(rank, other)
        }
    }

    /// The places to the right of a line of life, but for the one that is next to it.
    pub fn right_of(&self, rank: u16) -> Span {
        Span {
            first: self.place_of(rank).saturating_add(2),
            end: self.width,
        }
    }

    /// The places beside a line of life for a text of this length: to the right of it, or to the left where only that
    /// has the room or has more of it.
    pub fn beside(&self, rank: u16, length: usize) -> Span {
        let right = self.right_of(rank);
        let left = Span {
            first: 2,
            end: self.place_of(rank).saturating_sub(1),
        };
        if length <= right.len() || left.len() <= right.len() {
            right
        } else {
            Span {
                first: left.end.saturating_sub(length).max(left.first),
                end: left.end,
            }
        }
    }
}

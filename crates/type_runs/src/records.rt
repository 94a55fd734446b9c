//! The records by which C keeps types: numbers alone.

ghost use Rattle.std.specs.Prelude.{◌≡◌, None, Some, pos, if◌then◌else◌};
ghost use Rattle.type_runs.specs.Records.{content_meant, meant};

use std::default::Default;
use type_maps::{Content, Span, Summary};

/// The numbers of a type map.
#[repr(C)]
#[derive(Clone, Copy, Default)]
pub struct TypeRecord {
    /// The bytes of data.
    pub size: u64,
    /// The elements of basic types.
    pub elements: u64,
    /// Where there are data: their lowest byte.
    pub true_lower: i64,
    /// Where there are data: the byte behind their highest one.
    pub true_upper: i64,
    /// Where there are markers of the lower bound: the lowest one.
    pub lower_mark: i64,
    /// Where there are markers of the upper bound: the highest one.
    pub upper_mark: i64,
    /// The lower bound.
    pub lower: i64,
    /// From one item to the next.
    pub extent: i64,
    /// The greatest alignment of a basic type; 1 where there is none.
    pub alignment: u32,
    /// Of how many kinds of basic types the elements are: 0 (there is none), 1 or 2 (several).
    pub kinds: u32,
    /// Where they are of one: its number.
    pub kind: u32,
    /// Whether there are elements.
    pub has_data: bool,
    /// Whether there are markers of the lower bound.
    pub has_lower: bool,
    /// Whether there are markers of the upper bound.
    pub has_upper: bool,
}

/// `count` pieces of data, the first one at `at`, each further one `stride` bytes behind the one before it.
#[repr(C)]
#[derive(Clone, Copy, Default)]
pub struct RunRecord {
    /// Where the first piece begins, in bytes.
    pub at: i64,
    /// The bytes of a piece.
    pub length: u64,
    /// How many pieces.
    pub count: u64,
    /// From one piece to the next, in bytes.
    pub stride: i64,
    /// 0: a piece is a row of bytes. Else the number of the body that it is.
    pub body: u64,
}

/// Which basic types there are.
fn content(kinds: u32, kind: u32) -> Content
    ensures { result ≡ content_meant kinds kind }
{
    if kinds == 0 {
        Content::Nothing
    } else if kinds == 1 {
        Content::One(kind)
    } else {
        Content::Mixed
    }
}

/// A marker, where there is one.
fn marked(is_there: bool, mark: i64) -> Option<i64>
    ensures { result ≡ (if is_there then Some mark else None) }
{
    if is_there { Some(mark) } else { None }
}

impl TypeRecord {
    /// What it tells of the map.
    pub(crate) fn summary(&self) -> Summary
        ensures { result ≡ meant self.now }
    {
        let span = if self.has_data {
            Some(Span {
                lower: self.true_lower,
                upper: self.true_upper,
            })
        } else {
            None
        };
        Summary {
            size: self.size,
            elements: self.elements,
            span,
            lower_mark: marked(self.has_lower, self.lower_mark),
            upper_mark: marked(self.has_upper, self.upper_mark),
            alignment: self.alignment,
            content: content(self.kinds, self.kind),
        }
    }

    /// The record that tells this, without bounds.
    pub(crate) fn of(summary: &Summary) -> TypeRecord
        ensures meant { meant result ≡ summary.now }
        ensures lower { result.lower ≡ pos 0 }
        ensures extent { result.extent ≡ pos 0 }
    {
        let span = summary.span.unwrap_or(Span { lower: 0, upper: 0 });
        let (kinds, kind) = match summary.content {
            Content::Nothing => (0, 0),
            Content::One(code) => (1, code),
            Content::Mixed => (2, 0),
        };
        TypeRecord {
            size: summary.size,
            elements: summary.elements,
            true_lower: span.lower,
            true_upper: span.upper,
            lower_mark: summary.lower_mark.unwrap_or(0),
            upper_mark: summary.upper_mark.unwrap_or(0),
            lower: 0,
            extent: 0,
            alignment: summary.alignment,
            kinds,
            kind,
            has_data: summary.span.is_some(),
            has_lower: summary.lower_mark.is_some(),
            has_upper: summary.upper_mark.is_some(),
        }
    }
}

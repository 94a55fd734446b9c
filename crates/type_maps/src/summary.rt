//! What a type map is told by.

ghost use Rattle.std.specs.Prelude.{◌≡◌, ◌<◌, ◌-ℤ◌};
ghost use Rattle.type_maps.specs.Maps.{map_of_basic};
ghost use Rattle.type_maps.specs.Refusals.{Fits, GivesIf, BoundsFit, MarkFits, PlacesFit, SpanFits, SummaryFits};
ghost use Rattle.type_maps.specs.Summaries as terms;

use crate::arithmetic::{count_product, count_sum, difference, sum};
use crate::basic::Basic;
use crate::places::{Places, Span};
use crate::refusal::Refusal;

/// Of which basic types a map's elements are.
#[derive(Clone, Copy)]
pub enum Content {
    /// There is no element.
    Nothing,
    /// All are of the basic type with this code.
    One(u32),
    /// They are of several basic types.
    Mixed,
}

/// The numbers of a type map by which its bounds and those of its copies are told.
#[derive(Clone, Copy)]
pub struct Summary {
    /// The bytes of data.
    pub size: u64,
    /// The elements of basic types.
    pub elements: u64,
    /// Where the data lie, where there are some.
    pub span: Option<Span>,
    /// The lowest marker of the lower bound, where there is one.
    pub lower_mark: Option<i64>,
    /// The highest marker of the upper bound, where there is one.
    pub upper_mark: Option<i64>,
    /// The greatest alignment of a basic type.
    pub alignment: u32,
    /// The basic types.
    pub content: Content,
}

/// The lesser of two numbers, where there are some.
fn lesser(one: Option<i64>, other: Option<i64>) -> Option<i64>
    ensures { result ≡ terms.lesser one other }
{
    match (one, other) {
        (None, found) => found,
        (found, None) => found,
        (Some(x), Some(y)) => Some(x.min(y)),
    }
}

/// The greater of two numbers, where there are some.
fn greater(one: Option<i64>, other: Option<i64>) -> Option<i64>
    ensures { result ≡ terms.greater one other }
{
    match (one, other) {
        (None, found) => found,
        (found, None) => found,
        (Some(x), Some(y)) => Some(x.max(y)),
    }
}

/// What has both spans in it.
fn joined_spans(one: Option<Span>, other: Option<Span>) -> Option<Span>
    ensures { result ≡ terms.joined_spans one other }
{
    match (one, other) {
        (None, found) => found,
        (found, None) => found,
        (Some(x), Some(y)) => Some(Span {
            lower: x.lower.min(y.lower),
            upper: x.upper.max(y.upper),
        }),
    }
}

/// The basic types of two lists of elements.
fn joined_content(one: Content, other: Content) -> Content
    ensures { result ≡ terms.joined_content one other }
{
    match (one, other) {
        (Content::Nothing, found) => found,
        (found, Content::Nothing) => found,
        (Content::One(a), Content::One(b)) if a == b => Content::One(a),
        _ => Content::Mixed,
    }
}

/// A marker, moved on.
fn raised(by: i64, mark: Option<i64>) -> Result<Option<i64>, Refusal>
    ensures { GivesIf (MarkFits (terms.raised by mark)) (terms.raised by mark) result }
{
    match mark {
        None => Ok(None),
        Some(x) => Ok(Some(sum(by, x)?)),
    }
}

/// What copies have in them whose places have this hull.
fn spread_span(by: Span, span: Option<Span>) -> Result<Option<Span>, Refusal>
    ensures { GivesIf (SpanFits (terms.spread_span by span)) (terms.spread_span by span) result }
{
    match span {
        None => Ok(None),
        Some(d) => {
            let lower = sum(by.lower, d.lower)?;
            let upper = sum(by.upper, d.upper)?;
            Ok(Some(Span { lower, upper }))
        }
    }
}

/// The least number of bytes that make a distance a multiple of the alignment.
fn padding(alignment: u32, distance: i64) -> u32
    ensures { result ≡ terms.padding alignment distance }
{
    if alignment == 0 {
        return 0;
    }
    let over = distance.rem_euclid(i64::from(alignment));
    (alignment - over.unsigned_abs() as u32) % alignment
}

impl Summary {
    /// What no element and no marker has.
    pub fn none() -> Summary
        ensures { result ≡ terms.no_summary }
    {
        Summary {
            size: 0,
            elements: 0,
            span: None,
            lower_mark: None,
            upper_mark: None,
            alignment: 1,
            content: Content::Nothing,
        }
    }

    /// What one element of a basic type has.
    pub(crate) fn of_basic(basic: Basic) -> Summary
        ensures { result ≡ terms.summary_of (map_of_basic basic) }
    {
        Summary {
            size: u64::from(basic.size),
            elements: 1,
            span: Some(Span {
                lower: 0,
                upper: i64::from(basic.size),
            }),
            lower_mark: None,
            upper_mark: None,
            alignment: basic.alignment.max(1),
            content: Content::One(basic.code),
        }
    }

    /// What a map and another one behind it have.
    ///
    /// Refused where the size or the number of elements isn't below 2^63.
    pub fn joined(&self, other: &Summary) -> Result<Summary, Refusal>
        ensures { GivesIf (SummaryFits (terms.joined_summaries self.now other.now))
            (terms.joined_summaries self.now other.now) result }
    {
        let size = count_sum(self.size, other.size)?;
        let elements = count_sum(self.elements, other.elements)?;
        Ok(Summary {
            size,
            elements,
            span: joined_spans(self.span, other.span),
            lower_mark: lesser(self.lower_mark, other.lower_mark),
            upper_mark: greater(self.upper_mark, other.upper_mark),
            alignment: self.alignment.max(other.alignment),
            content: joined_content(self.content, other.content),
        })
    }

    /// What so many copies have whose places have this hull.
    fn spread(&self, hull: Span, count: u64) -> Result<Summary, Refusal>
        ensures { GivesIf (SummaryFits (terms.spread hull count self.now)) (terms.spread hull count self.now) result }
    {
        let size = count_product(count, self.size)?;
        let elements = count_product(count, self.elements)?;
        let span = spread_span(hull, self.span)?;
        let lower_mark = raised(hull.lower, self.lower_mark)?;
        let upper_mark = raised(hull.upper, self.upper_mark)?;
        Ok(Summary {
            size,
            elements,
            span,
            lower_mark,
            upper_mark,
            alignment: self.alignment,
            content: self.content,
        })
    }

    /// What copies have.
    ///
    /// Refused where a place, the size, or where data or markers lie isn't within 64 bits.
    pub fn copied(&self, at: &Places) -> Result<Summary, Refusal>
        requires { 0 < at.now.count }
        ensures { GivesIf
            (PlacesFit at.now × SummaryFits (terms.copied_summary at.now.at at.now.count at.now.stride self.now))
            (terms.copied_summary at.now.at at.now.count at.now.stride self.now) result }
    {
        let hull = at.hull()?;
        self.spread(hull, at.count)
    }

    /// The lower bound.
    pub fn lower(&self) -> i64
        ensures { result ≡ terms.lower_bound self.now }
    {
        match self.lower_mark {
            Some(mark) => mark,
            None => match self.span {
                Some(span) => span.lower,
                None => 0,
            },
        }
    }

    /// Behind the last byte of data.
    pub(crate) fn data_upper(&self) -> i64
        ensures { result ≡ terms.data_upper self.now.span }
    {
        match self.span {
            Some(span) => span.upper,
            None => 0,
        }
    }

    /// The upper bound where no marker tells it.
    fn padded_upper(&self) -> Result<i64, Refusal>
        ensures { GivesIf
            (Fits (terms.data_upper self.now.span -ℤ terms.lower_bound self.now) × Fits (terms.padded_upper self.now))
            (terms.padded_upper self.now) result }
    {
        let upper = self.data_upper();
        let distance = difference(upper, self.lower())?;
        sum(upper, i64::from(padding(self.alignment, distance)))
    }

    /// The upper bound.
    pub(crate) fn upper(&self) -> Result<i64, Refusal>
        ensures { GivesIf (BoundsFit self.now) (terms.upper_bound self.now) result }
    {
        match self.upper_mark {
            Some(mark) => Ok(mark),
            None => self.padded_upper(),
        }
    }

    /// The extent.
    ///
    /// Refused where a bound or the extent isn't within 64 bits.
    pub fn extent(&self) -> Result<i64, Refusal>
        ensures { GivesIf (BoundsFit self.now) (terms.upper_bound self.now -ℤ terms.lower_bound self.now) result }
    {
        let upper = self.upper()?;
        difference(upper, self.lower())
    }
}

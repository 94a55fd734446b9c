//! How far the offsets of a layout reach, told without making them.

ghost use Rattle.std.specs.Prelude.{◌≡◌, ◌≤◌, ◌<◌, ◌+◌, ◌*◌, ◌^◌, nat_lt, if◌then◌else◌};
ghost use Rattle.derived_types.specs.Spans.{copied_span, vector_span, joined_near, unless_far, judged_span};

use crate::refusal::LayoutRefusal;

/// The most offsets that a layout may have.
const MOST_ENTRIES: u64 = 1_048_576;

/// The most that its highest offset and its extent may be.
const FARTHEST: u64 = 2_147_483_647;

/// How many offsets there are, and the lowest and the highest; all 0 where there is none.
#[derive(Clone, Copy, Debug, PartialEq, Eq)]
pub struct Span {
    /// How many offsets there are.
    pub entries: u64,
    /// The lowest offset, in elements.
    pub lowest: u64,
    /// The highest offset, in elements.
    pub highest: u64,
}

impl Span {
    /// The span of no offsets.
    pub const NONE: Span = Span {
        entries: 0,
        lowest: 0,
        highest: 0,
    };

    /// The span of so many copies, the first at a place that is counted in copies.
    #[tactic(auto, using(crate::proofs::SpanLaws::capped_place), unfolding(crate::specs::Spans::copied_span))]
    pub fn copies(self, first: u64, count: u64) -> Option<Span>
        requires order { self.lowest ≤ self.highest }
        requires near { self.highest ≤ 2147483647 }
        ensures { result ≡ unless_far (copied_span self first count) }
    {
        if self.entries == 0 || count == 0 {
            return Some(Span::NONE);
        }
        let extent = self.highest + 1 - self.lowest;
        let entries = count.saturating_mul(self.entries);
        let last = first.saturating_add(count - 1);
        let highest = last.saturating_mul(extent).saturating_add(self.highest);
        if entries > MOST_ENTRIES || highest > FARTHEST {
            return None;
        }
        let lowest = first * extent + self.lowest;
        Some(Span {
            entries,
            lowest,
            highest,
        })
    }

    /// The span of so many blocks of copies, where each block begins so many copies after the one
    /// before it.
    #[tactic(auto, unfolding(crate::specs::Spans::vector_span))]
    pub fn vector(self, count: u64, blocklength: u64, stride: u64) -> Option<Span>
        requires order { self.lowest ≤ self.highest }
        requires near { self.highest ≤ 2147483647 }
        ensures { result ≡ unless_far (vector_span self count blocklength stride) }
    {
        if self.entries == 0 || count == 0 || blocklength == 0 {
            return Some(Span::NONE);
        }
        let extent = self.highest + 1 - self.lowest;
        let entries = few_entries(count, blocklength, self.entries)?;
        let highest = near_place(count - 1, stride, blocklength - 1, extent, self.highest)?;
        Some(Span {
            entries,
            lowest: self.lowest,
            highest,
        })
    }

    /// The span, where it is within the limits on the entries and the highest offset.
    fn unless_far(self) -> Option<Span>
        ensures { result ≡ unless_far self }
    {
        if self.entries > MOST_ENTRIES || self.highest > FARTHEST {
            None
        } else {
            Some(self)
        }
    }

    /// The span of the offsets of both, where neither is too far, nor are they together.
    #[tactic(auto, unfolding(crate::specs::Spans::joined_span))]
    pub fn join(first: Option<Span>, second: Option<Span>) -> Option<Span>
        ensures { result ≡ joined_near first second }
    {
        let Some(first) = first else {
            return None;
        };
        let Some(second) = second else {
            return None;
        };
        let all = if first.entries == 0 {
            second
        } else if second.entries == 0 {
            first
        } else {
            Span {
                entries: first.entries.saturating_add(second.entries),
                lowest: first.lowest.min(second.lowest),
                highest: first.highest.max(second.highest),
            }
        };
        all.unless_far()
    }
}

/// The product, where it is within the limit on the entries.
#[tactic(auto, using(crate::proofs::SpanLaws::capped_count))]
fn few_entries(count: u64, blocklength: u64, entries: u64) -> Option<u64>
    requires { 1 ≤ entries }
    ensures { result ≡
        (if nat_lt 1048576 (count * blocklength * entries)
        then None
        else Some (count * blocklength * entries)) }
{
    let product = count.saturating_mul(blocklength).saturating_mul(entries);
    if product > MOST_ENTRIES {
        None
    } else {
        Some(product)
    }
}

/// An offset of a copy, where it is within the limit: so many strides and copies on.
#[tactic(auto, using(crate::proofs::SpanLaws::capped_vector))]
fn near_place(strides: u64, stride: u64, copies: u64, extent: u64, offset: u64) -> Option<u64>
    requires { 1 ≤ extent }
    ensures { result ≡
        (if nat_lt 2147483647 ((strides * stride + copies) * extent + offset)
        then None
        else Some ((strides * stride + copies) * extent + offset)) }
{
    let copy = strides.saturating_mul(stride).saturating_add(copies);
    let place = copy.saturating_mul(extent).saturating_add(offset);
    if place > FARTHEST { None } else { Some(place) }
}

/// The span of a layout, where no limit is passed.
#[tactic(auto, unfolding(crate::specs::Spans::judged_span))]
pub fn span_or_refusal(span: Option<Span>) -> Result<Span, LayoutRefusal>
    ensures { result ≡ judged_span span }
{
    match span {
        None => Err(LayoutRefusal::Limit),
        Some(span) => {
            if span.entries > 0 && span.highest.saturating_sub(span.lowest) >= FARTHEST {
                Err(LayoutRefusal::Limit)
            } else {
                Ok(span)
            }
        }
    }
}

//! Layouts: which places of a buffer hold data.

ghost use Rattle.std.specs.Prelude.{◌≡◌, ◌+◌, ◌*◌, ◌<◌, ◌≤◌, ◌^◌, ◌↔◌, ◌⊎◌, ◌∷◌, ◌++◌, ◌-◌, [], length, false, min};
ghost use Rattle.std.specs.Prelude.{nat_lt, ℕ, ◌≢◌, IfOk, IfErr, IfSome, IfNone, MatchResult};
ghost use Rattle.derived_types.specs.Layouts.{extent_of, places, contiguous_offsets, vector_offsets, indexed_offsets};
ghost use Rattle.derived_types.specs.Layouts.{is_beyond, has_repeats, LayoutGives, whole_copies};
ghost use Rattle.layouts.specs.Buffers.{room_for};
ghost use Rattle.derived_types.specs.Spans.{span_of, JudgesOffsets};

use crate::block::IndexedBlock;
use crate::construction::{append_blocks, append_copies, append_vector, occurs_twice};
use crate::refusal::LayoutRefusal;
use crate::span::{Span, span_or_refusal};
use alike::{Alike, are_alike};
use std::alloc::{AllocError, Global};
use std::marker::Model;
use vocabulary::BasicType;

/// A list of offsets in elements of one basic type, and its extent: the distance from one copy to
/// the next (MPI 3.1, 4.1.2 and 4.1.6).
///
/// A layout has at most 1,048,576 offsets; its extent and its highest offset are at most
/// 2,147,483,647.
#[derive(Debug, Drop)]
pub struct Layout {
    basic: BasicType,
    offsets: Vec<u32>,
    lowest: u32,
    highest: u32,
    repeats: bool,
}

impl Model for Layout {
    ghost use Rattle.derived_types.specs.Layouts.{Shape, IsKept};

    ghost Value = { Shape };

    ghost view = { λ l. record { basic = l.basic; offsets = l.offsets.items } };

    ghost invariant = { λ l. IsKept l.offsets.items l.lowest l.highest l.repeats };
}

impl Layout {
    /// The layout of one element of the basic type.
    ///
    /// Refused for want of memory alone.
    pub fn new(alloc: Global, basic: BasicType) -> Result<Layout, LayoutRefusal>
        ensures ok { IfOk result (λ layout. layout ≡ record { basic = basic; offsets = 0 ∷ [] }) }
        ensures err { IfErr result (λ refusal. refusal ≡ LayoutRefusal.OutOfMemory) }
    {
        let offsets = Vec::from_slice(alloc, &[0])?;
        Ok(Layout {
            basic,
            offsets,
            lowest: 0,
            highest: 0,
            repeats: false,
        })
    }

    /// A second layout of the same offsets.
    pub fn try_clone(&self, alloc: Global) -> Result<Layout, AllocError>
        ensures { IfOk result (λ copy. copy ≡ self.now) }
    {
        let offsets = Vec::from_slice(alloc, self.offsets.as_slice())?;
        Ok(Layout {
            basic: self.basic,
            offsets,
            lowest: self.lowest,
            highest: self.highest,
            repeats: self.repeats,
        })
    }

    /// The type of the elements.
    pub fn basic(&self) -> BasicType
        ensures { result ≡ self.now.basic }
    {
        self.basic
    }

    /// The offsets, in order.
    pub fn offsets(&self) -> &[u32]
        ensures { result.now ≡ self.now.offsets }
    {
        self.offsets.as_slice()
    }

    /// The distance from the lowest offset to the highest, both counted; 0 where there is none.
    pub fn extent(&self) -> u32
        ensures { result ≡ extent_of self.now.offsets }
    {
        if self.offsets.is_empty() {
            0
        } else {
            self.highest + 1 - self.lowest
        }
    }

    /// Whether an offset occurs twice, so that nothing can be received by this layout.
    pub fn has_repeats(&self) -> bool
        ensures { result ≡ has_repeats self.now.offsets }
    {
        self.repeats
    }

    /// How far the offsets reach.
    fn span(&self) -> Span
        ensures span { result ≡ span_of self.now.offsets }
        ensures order { result.lowest ≤ result.highest }
        ensures near { result.highest ≤ 2147483647 }
    {
        Span {
            entries: self.offsets.len() as u64,
            lowest: u64::from(self.lowest),
            highest: u64::from(self.highest),
        }
    }

    /// The layout of these offsets, which have this span.
    fn with_span(
        alloc: Global,
        basic: BasicType,
        offsets: Vec<u32>,
        span: Span,
    ) -> Result<Layout, AllocError>
        requires span { span ≡ span_of offsets.items }
        requires within { is_beyond offsets.items ≡ false }
        ensures { IfOk result (λ l. l ≡ record { basic = basic; offsets = offsets.items }) }
    {
        let repeats = occurs_twice(alloc, offsets.as_slice())?;
        Ok(Layout {
            basic,
            offsets,
            lowest: span.lowest as u32,
            highest: span.highest as u32,
            repeats,
        })
    }

    /// So many copies of this layout, one after the other.
    ///
    /// Refused where a limit of layouts is passed, and for want of memory.
    pub fn contiguous(&self, alloc: Global, count: u64) -> Result<Layout, LayoutRefusal>
        ensures { LayoutGives self.now.basic (contiguous_offsets count self.now.offsets) result }
    {
        match self.judge_contiguous(count) {
            Err(refusal) => Err(refusal),
            Ok(span) => or_refused(self.make_contiguous(alloc, count, span)),
        }
    }

    fn judge_contiguous(&self, count: u64) -> Result<Span, LayoutRefusal>
        ensures { JudgesOffsets (contiguous_offsets count self.now.offsets) result }
    {
        span_or_refusal(self.span().copies(0, count))
    }

    fn make_contiguous(&self, alloc: Global, count: u64, span: Span) -> Result<Layout, AllocError>
        requires span { span ≡ span_of (contiguous_offsets count self.now.offsets) }
        requires within { is_beyond (contiguous_offsets count self.now.offsets) ≡ false }
        ensures { IfOk result
            (λ l.
            l ≡
            record {
              basic = self.now.basic;
              offsets = contiguous_offsets count self.now.offsets;
            }) }
    {
        let mut offsets = Vec::with_capacity(alloc, span.entries as usize)?;
        if span.entries > 0 {
            let extent = u64::from(self.extent());
            append_copies(&mut offsets, self.offsets.as_slice(), extent, 0, count)?;
        }
        Layout::with_span(alloc, self.basic, offsets, span)
    }

    /// So many blocks of copies of this layout, `blocklength` copies in each; each block begins
    /// `stride` extents of this layout after the one before it.
    ///
    /// Refused where a limit of layouts is passed, and for want of memory.
    pub fn vector(
        &self,
        alloc: Global,
        count: u64,
        blocklength: u64,
        stride: u64,
    ) -> Result<Layout, LayoutRefusal>
        ensures { LayoutGives self.now.basic
            (vector_offsets count blocklength stride self.now.offsets) result }
    {
        match self.judge_vector(count, blocklength, stride) {
            Err(refusal) => Err(refusal),
            Ok(span) => { or_refused(self.make_vector(alloc, count, blocklength, stride, span)) }
        }
    }

    fn judge_vector(&self, count: u64, blocklength: u64, stride: u64) -> Result<Span, LayoutRefusal>
        ensures { JudgesOffsets (vector_offsets count blocklength stride self.now.offsets) result }
    {
        span_or_refusal(self.span().vector(count, blocklength, stride))
    }

    fn make_vector(
        &self,
        alloc: Global,
        count: u64,
        blocklength: u64,
        stride: u64,
        span: Span,
    ) -> Result<Layout, AllocError>
        requires span { span ≡ span_of (vector_offsets count blocklength stride self.now.offsets) }
        requires within { is_beyond (vector_offsets count blocklength stride self.now.offsets) ≡ false }
        ensures { IfOk result
            (λ l.
            l ≡
            record {
              basic = self.now.basic;
              offsets = vector_offsets count blocklength stride self.now.offsets;
            }) }
    {
        let mut offsets = Vec::with_capacity(alloc, span.entries as usize)?;
        if span.entries > 0 {
            let extent = u64::from(self.extent());
            let old = self.offsets.as_slice();
            append_vector(&mut offsets, old, extent, count, blocklength, stride)?;
        }
        Layout::with_span(alloc, self.basic, offsets, span)
    }

    /// Blocks of copies of this layout, in order; each begins at its own displacement, which is
    /// counted in extents of this layout.
    ///
    /// Refused where a limit of layouts is passed, and for want of memory.
    pub fn indexed(&self, alloc: Global, blocks: &[IndexedBlock]) -> Result<Layout, LayoutRefusal>
        ensures { LayoutGives self.now.basic (indexed_offsets blocks.now self.now.offsets) result }
    {
        match self.judge_indexed(blocks) {
            Err(refusal) => Err(refusal),
            Ok(span) => or_refused(self.make_indexed(alloc, blocks, span)),
        }
    }

    fn judge_indexed(&self, blocks: &[IndexedBlock]) -> Result<Span, LayoutRefusal>
        ensures { JudgesOffsets (indexed_offsets blocks.now self.now.offsets) result }
    {
        let old = self.span();
        let mut all = Some(Span::NONE);
        for block in blocks {
            all = Span::join(all, old.copies(block.displacement, block.length));
        }
        span_or_refusal(all)
    }

    fn make_indexed(
        &self,
        alloc: Global,
        blocks: &[IndexedBlock],
        span: Span,
    ) -> Result<Layout, AllocError>
        requires span { span ≡ span_of (indexed_offsets blocks.now self.now.offsets) }
        requires within { is_beyond (indexed_offsets blocks.now self.now.offsets) ≡ false }
        ensures { IfOk result
            (λ l.
            l ≡
            record {
              basic = self.now.basic;
              offsets = indexed_offsets blocks.now self.now.offsets;
            }) }
    {
        let mut offsets = Vec::with_capacity(alloc, span.entries as usize)?;
        if span.entries > 0 {
            let extent = u64::from(self.extent());
            append_blocks(&mut offsets, self.offsets.as_slice(), extent, blocks)?;
        }
        Layout::with_span(alloc, self.basic, offsets, span)
    }

    /// Whether a buffer of so many elements is too short for so many copies of this layout.
    #[tactic(auto, using(crate::proofs::TransferLaws::room_is))]
    pub fn is_too_long(&self, copies: u64, elements: usize) -> bool
        ensures { result ≡ nat_lt elements (room_for (places copies self.now.offsets)) }
    {
        if copies == 0 {
            return false;
        }
        if self.offsets.is_empty() {
            return false;
        }
        let extent = u64::from(self.extent());
        let last = (copies - 1)
            .saturating_mul(extent)
            .saturating_add(u64::from(self.highest));
        last >= elements as u64
    }

    /// How many places so many copies have, or the largest number where they have more.
    pub fn place_count(&self, copies: u64) -> u64
        ensures { result ≡ min (length (places copies self.now.offsets)) (2 ^ 64 - 1) }
    {
        copies.saturating_mul(self.offsets.len() as u64)
    }

    /// How many whole copies of this layout so many elements are, where they are a whole number of
    /// copies (MPI 3.1, 3.2.5, MPI_Get_count). Of a layout without offsets no elements are 0 copies,
    /// and more are none.
    pub fn get_count(&self, elements: u64) -> Option<u64>
        ensures count { result ≡ whole_copies elements (length self.now.offsets) }
        ensures whole { IfSome result (λ copies. elements ≡ copies * length self.now.offsets) }
        ensures undefined { IfNone result ((copies : ℕ) → elements ≢ copies * length self.now.offsets) }
    {
        copies_in(elements, self.offsets.len() as u64)
    }
}

/// How many whole copies of a layout with so many entries the elements are.
fn copies_in(elements: u64, entries: u64) -> Option<u64>
    ensures count { result ≡ whole_copies elements entries }
    ensures whole { IfSome result (λ copies. elements ≡ copies * entries) }
    ensures undefined { IfNone result ((copies : ℕ) → elements ≢ copies * entries) }
{
    if entries == 0 {
        if elements == 0 { Some(0) } else { None }
    } else if elements % entries == 0 {
        Some(elements / entries)
    } else {
        None
    }
}

/// A layout that was made, or the refusal for want of memory.
fn or_refused(made: Result<Layout, AllocError>) -> Result<Layout, LayoutRefusal>
    ensures { MatchResult made (λ layout. result ≡ Ok layout) (λ _. result ≡ Err LayoutRefusal.OutOfMemory) }
{
    match made {
        Ok(layout) => Ok(layout),
        Err(_) => Err(LayoutRefusal::OutOfMemory),
    }
}

impl Alike for Layout {
    fn stands_as(&self, other: &Self) -> bool {
        self.basic == other.basic && are_alike(&self.offsets, &other.offsets)
    }
}

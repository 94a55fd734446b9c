//! The words of what a rank entered and of what it waits for.

use crate::page::Page;
use payload::{Elements, Record};
use std::alloc::AllocError;
use vocabulary::{BasicType, Source};

fn name_of(basic: BasicType) -> &'static str {
    match basic {
        BasicType::Int8 => "int8",
        BasicType::Int16 => "int16",
        BasicType::Int32 => "int32",
        BasicType::Int64 => "int64",
        BasicType::Uint8 => "uint8",
        BasicType::Uint16 => "uint16",
        BasicType::Uint32 => "uint32",
        BasicType::Uint64 => "uint64",
        BasicType::Byte => "byte",
        BasicType::Float32 => "float32",
        BasicType::Float64 => "float64",
    }
}

fn elements_in(record: Record) -> Option<Elements> {
    match record {
        Record::Bcast(rooted)
        | Record::Gather(rooted)
        | Record::Scatter(rooted)
        | Record::Reduce(_, rooted) => Some(rooted.elements),
        Record::Allreduce(_, elements) => Some(elements),
        Record::Barrier | Record::Dup | Record::Split => None,
    }
}

/// Adds of which elements a collective is, where it is of any.
pub fn add_elements(page: &mut Page, record: Record) -> Result<(), AllocError> {
    if let Some(elements) = elements_in(record) {
        page.add(", of ")?;
        page.add_number(elements.count as usize)?;
        page.add(" ")?;
        page.add(name_of(elements.basic))?;
    }
    Ok(())
}

/// Adds `rank R` or `any rank`.
pub fn add_source(page: &mut Page, source: Source) -> Result<(), AllocError> {
    match source {
        Source::Any => page.add("any rank"),
        Source::Rank(rank) => page.add_rank(rank),
        Source::Null => page.add("null"),
    }
}

/// Adds `tag T` or `any tag`.
pub fn add_tag(page: &mut Page, tag: Option<u32>) -> Result<(), AllocError> {
    match tag {
        Some(tag) => {
            page.add("tag ")?;
            page.add_number(tag as usize)
        }
        None => page.add("any tag"),
    }
}

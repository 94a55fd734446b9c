//! What a datagram carries, in words.

use datagram::{Clearance, Content, Data, Eager, Frame, Plane, RequestToSend};
use payload::{PayloadContent, Record, read_payload};
use play_waits::{Page, add_tag};
use std::alloc::{AllocError, Global};
use vocabulary::BasicType;

fn name_of(basic: BasicType) -> &'static str {
    match basic {
        BasicType::Int8 => "int8",
        BasicType::Int16 => "int16",
        BasicType::Int32 => "int32",
        BasicType::Int64 => "int64",
        BasicType::Uint8 => "uint8",
        BasicType::Uint16 => "uint16",
        BasicType::Uint32 => "uint32",
        BasicType::Uint64 => "uint64",
        BasicType::Byte => "byte",
        BasicType::Float32 => "float32",
        BasicType::Float64 => "float64",
    }
}

/// Adds `C TYPE`.
fn add_count(page: &mut Page, count: u32, basic: BasicType) -> Result<(), AllocError> {
    page.add_number(count as usize)?;
    page.add(" ")?;
    page.add(name_of(basic))
}

/// Adds `tag T: C TYPE`.
fn add_message(page: &mut Page, tag: u32, count: u32, basic: BasicType) -> Result<(), AllocError> {
    add_tag(page, Some(tag))?;
    page.add(": ")?;
    add_count(page, count, basic)
}

fn collective_of(record: Record) -> &'static str {
    match record {
        Record::Barrier => "barrier",
        Record::Bcast(_) => "bcast",
        Record::Gather(_) => "gather",
        Record::Scatter(_) => "scatter",
        Record::Reduce(_, _) => "reduce",
        Record::Allreduce(_, _) => "allreduce",
        Record::Dup => "dup",
        Record::Split => "split",
    }
}

/// Adds of which collective it is, and its elements, if it has any.
fn add_collective(page: &mut Page, elements: &[u8]) -> Result<(), AllocError> {
    let Ok(payload) = read_payload(elements) else {
        return page.add("collective");
    };
    page.add(collective_of(payload.entered))?;
    if matches!(payload.part, PayloadContent::RecordsDiffer) {
        return page.add(": differs");
    }
    if let Some(elements) = payload.entered.elements() {
        page.add(": ")?;
        add_count(page, elements.count, elements.basic)?;
    }
    Ok(())
}

fn add_eager(page: &mut Page, eager: &Eager<'_>) -> Result<(), AllocError> {
    match eager.plane {
        Plane::PointToPoint => add_message(page, eager.tag, eager.count, eager.basic),
        Plane::Collective => add_collective(page, eager.elements),
    }
}

fn add_request(page: &mut Page, request: &RequestToSend) -> Result<(), AllocError> {
    page.add("RTS ")?;
    match request.plane {
        Plane::PointToPoint => add_message(page, request.tag, request.count, request.basic),
        Plane::Collective => page.add("of a collective"),
    }
}

fn add_clearance(page: &mut Page, clearance: Clearance) -> Result<(), AllocError> {
    page.add(match clearance {
        Clearance::Send => "CTS",
        Clearance::Drop => "CTS: not wanted",
    })
}

fn add_data(page: &mut Page, data: &Data<'_>) -> Result<(), AllocError> {
    page.add("DATA ")?;
    page.add_number(data.bytes.len())?;
    page.add(" bytes")
}

/// What a datagram carries: `tag T: C TYPE` of a message, the name of a collective, or the kind of a datagram that
/// serves a long message.
pub(crate) fn words_of(alloc: Global, content: &Content<'_>) -> Result<Vec<u8>, AllocError> {
    let mut page = Page::new(alloc);
    match content {
        Content::Frame(Frame::Eager(eager)) => add_eager(&mut page, eager)?,
        Content::Frame(Frame::RequestToSend(request)) => add_request(&mut page, request)?,
        Content::Frame(Frame::ClearToSend(clear)) => add_clearance(&mut page, clear.clearance)?,
        Content::Frame(Frame::Data(data)) => add_data(&mut page, data)?,
        Content::Ack(_) => page.add("ACK")?,
        Content::Reset => page.add("RESET")?,
    }
    Ok(page.into_text())
}

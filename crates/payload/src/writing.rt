//! Writing a payload.

ghost use Rattle.std.specs.Prelude.{◌≡◌, ◌+◌, ◌≤◌, ◌++◌, [], ◌∷◌, OnOk, OnErr, IsOkUnless, length, vec_len};
ghost use Rattle.std.specs.Prelude.{vec_capacity};
ghost use Rattle.std.specs.Int.{cast_unsigned, w32};
ghost use Rattle.byteorder.specs.Endian.{big_bytes};
ghost use Rattle.payload.specs.Spellings.{ChoiceText, part_text, part_spelling, phase_of, colour_spelling, payload_text};
ghost use Rattle.payload.specs.Spellings.{RecordIsWithin, ColourIsWithin, PartIsWithin, PartFits, PayloadFits};
ghost use Rattle.payload.specs.Spellings.{record_spelling, spelling};

use crate::kind::Phase;
use crate::payload::{Choice, Payload, PayloadContent};
use crate::record::{RECORD_BYTES, Record};
use crate::refusal::PayloadRefusal;
use byteorder::{BigEndian, ByteOrder};

/// Appends the number in one byte, where there is room.
fn put_u8(out: &mut Vec<u8>, number: u8)
    requires { vec_len out.old + 1 ≤ vec_capacity out.old }
    ensures items { out.new.items ≡ out.old.items ++ number ∷ [] }
    ensures len { vec_len out.new ≡ vec_len out.old + 1 }
    ensures room { vec_capacity out.old ≤ vec_capacity out.new }
{
    out.push(number).unwrap();
}

/// Appends the number in four bytes, the highest first, where there is room.
fn put_u32(out: &mut Vec<u8>, number: u32)
    requires { vec_len out.old + 4 ≤ vec_capacity out.old }
    ensures items { out.new.items ≡ out.old.items ++ big_bytes 4 number }
    ensures len { vec_len out.new ≡ vec_len out.old + 4 }
    ensures room { vec_capacity out.old ≤ vec_capacity out.new }
{
    let mut bytes = [0u8; 4];
    BigEndian::write_u32(&mut bytes, number);
    out.extend_from_slice(&bytes).unwrap();
}

/// Appends the number in eight bytes, the highest first, where there is room.
fn put_u64(out: &mut Vec<u8>, number: u64)
    requires { vec_len out.old + 8 ≤ vec_capacity out.old }
    ensures items { out.new.items ≡ out.old.items ++ big_bytes 8 number }
    ensures len { vec_len out.new ≡ vec_len out.old + 8 }
    ensures room { vec_capacity out.old ≤ vec_capacity out.new }
{
    let mut bytes = [0u8; 8];
    BigEndian::write_u64(&mut bytes, number);
    out.extend_from_slice(&bytes).unwrap();
}

/// Appends the record of a message of this phase, where there is room.
fn put_record(out: &mut Vec<u8>, entered: Record, phase: Phase)
    requires { vec_len out.old + 16 ≤ vec_capacity out.old }
    ensures items { out.new.items ≡ out.old.items ++ record_spelling entered phase }
    ensures width { RecordIsWithin entered }
    ensures len { vec_len out.new ≡ vec_len out.old + 16 }
    ensures room { vec_capacity out.old ≤ vec_capacity out.new }
{
    put_u8(out, entered.kind().code());
    put_u8(out, entered.operation_code());
    put_u8(out, entered.type_code());
    put_u8(out, phase.code());
    put_u32(out, entered.root_field());
    put_u32(out, entered.count_field());
    put_u32(out, 0);
}

/// Appends a colour, where there is room.
fn put_colour(out: &mut Vec<u8>, colour: Option<u32>)
    requires { vec_len out.old + 5 ≤ vec_capacity out.old }
    ensures items { out.new.items ≡ out.old.items ++ colour_spelling colour }
    ensures width { ColourIsWithin colour }
    ensures len { vec_len out.new ≡ vec_len out.old + 5 }
    ensures room { vec_capacity out.old ≤ vec_capacity out.new }
{
    match colour {
        Some(colour) => {
            put_u8(out, 1);
            put_u32(out, colour);
        }
        None => {
            put_u8(out, 0);
            put_u32(out, 0);
        }
    }
}

/// Appends what a member asks for in a split, where there is room.
fn put_choice(out: &mut Vec<u8>, choice: Choice)
    requires { vec_len out.old + 9 ≤ vec_capacity out.old }
    ensures items { out.new.items ≡
        out.old.items ++ colour_spelling choice.colour ++ big_bytes 4 (cast_unsigned w32 choice.key) }
    ensures width { PartIsWithin (ChoiceText choice) }
{
    put_colour(out, choice.colour);
    put_u32(out, choice.key.cast_unsigned());
}

/// Appends what a message carries, where there is room.
fn put_part(out: &mut Vec<u8>, part: PayloadContent)
    requires { vec_len out.old + length (part_spelling (part_text part)) ≤ vec_capacity out.old }
    ensures items { out.new.items ≡ out.old.items ++ part_spelling (part_text part.entry) }
    ensures width { PartIsWithin (part_text part.entry) }
{
    match part {
        PayloadContent::RecordsDiffer
        | PayloadContent::Nothing(_)
        | PayloadContent::NullCommunicator => {}
        PayloadContent::Elements(_, bytes) => out.extend_from_slice(bytes).unwrap(),
        PayloadContent::Context(context) => put_u64(out, context),
        PayloadContent::Choice(choice) => put_choice(out, choice),
        PayloadContent::NewGroup(group) => {
            put_u64(out, group.context);
            out.extend_from_slice(group.ranks).unwrap();
        }
    }
}

/// Appends the one spelling of the payload. The only refusal is want of memory, and then nothing was
/// appended. A payload can be written where its part fits its record (`Payload::fits`); what
/// `read_payload` answered does.
#[tactic(auto, unfolding(crate::specs::Spellings::spelling))]
pub fn write_payload(payload: &Payload, out: &mut Vec<u8>) -> Result<(), PayloadRefusal>
    requires { PartFits payload.now.entered (part_text payload.now.part) }
    ensures ok { OnOk result
        (out.new.items ≡ out.old.items ++ spelling (payload_text payload.now)) }
    ensures fits { OnOk result (PayloadFits (payload_text payload.now)) }
    ensures err { OnErr result (out.new.items ≡ out.old.items) }
    ensures memory { IsOkUnless result PayloadRefusal.OutOfMemory }
{
    let Payload { entered, part } = *payload;
    let Some(room) = part.byte_len().checked_add(RECORD_BYTES) else {
        return Err(PayloadRefusal::OutOfMemory);
    };
    out.reserve(room).map_err(|_| PayloadRefusal::OutOfMemory)?;
    put_record(out, entered, part.phase());
    put_part(out, part);
    Ok(())
}

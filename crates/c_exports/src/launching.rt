//! By which way a process has its place, what its launcher says, how long frames are, and what a socket keeps: functions
//! that C calls before it makes a rank.

ghost use Rattle.std.specs.Prelude.{◌≡◌, ◌⊎◌, MatchOption, None, Some, false, true, unwrap_or};
ghost use Rattle.c_rank.specs.Windows.{room_told};
ghost use Rattle.launcher_words.specs.Answers.{answer_in, is_version, separator};
ghost use Rattle.launcher_words.specs.Lengths.{record_length};
ghost use Rattle.launcher_words.specs.Places.{IsPlace, place_text};
ghost use Rattle.launcher_words.specs.Records.{IsPlaceOf, IsPut, answer_number, place_record, way_record};
ghost use Rattle.launcher_words.specs.Records.{wire_of_number};
ghost use Rattle.launcher_words.specs.Ways.{IsWay};
ghost use Rattle.launcher_words.specs.Words.{value_of};
ghost use Rattle.launcher_words.specs.declared.place.ToldPlace.{ToldPlace};
ghost use Rattle.launcher_words.specs.declared.way.Way.{Way};
ghost use Rattle.rank_environment.specs.Frames.{frame_of};

use launcher_words::{ToldPlace, ToldPlaceRecord, WayRecord, Wire};
use std::alloc::Global;

/// By which way a process has its place, by whether its words tell it and by its environment: its variables,
/// `NAME=value` each, with a byte 0 behind each.
#[unsafe(no_mangle)]
pub extern "C" fn kombazily_way(has_words: bool, environment: &[u8], way: &mut WayRecord)
    ensures { (found : Way) × IsWay has_words environment.now found × (way.new ≡ way_record found) }
{
    *way = launcher_words::way_of(has_words, environment).record();
}

/// How many bytes of data a frame has at most in a job of ranks at these addresses, by the text of `KOMBAZILY_FRAME`, if
/// it is told; 0 where that spells no number that a job may have.
#[unsafe(no_mangle)]
pub extern "C" fn kombazily_frame(is_told: bool, text: &[u8], addresses: &[u32]) -> u32
    ensures told { is_told ≡ true → result ≡ unwrap_or (frame_of (Some text.now) addresses.now) 0 }
    ensures usual { is_told ≡ false → result ≡ unwrap_or (frame_of None addresses.now) 0 }
{
    let told = if is_told { Some(text) } else { None };
    rank_environment::frame_of(told, addresses).unwrap_or(0)
}

/// How many bytes a rank is told that its socket keeps, in a job of so many ranks whose frames have so many bytes of data at
/// most, where the system says `kept`, or 0; 0: the rank has no windows.
#[unsafe(no_mangle)]
pub extern "C" fn kombazily_room(is_apart: bool, kept: u32, frame: u32, size: u16) -> u32
    ensures { result ≡ room_told is_apart kept frame size }
{
    c_rank::room_told(is_apart, kept, frame, size)
}

/// Copies the value of a key in a line of a launcher out: how many bytes it has. It is 0 where there is none, where it
/// is empty, and where it has more bytes than `into`.
#[unsafe(no_mangle)]
pub extern "C" fn kombazily_word(line: &[u8], key: &[u8], wire: u32, into: &mut [u8]) -> usize
    ensures { MatchOption (value_of key.now (separator (wire_of_number wire)) line.now)
        ((result ≡ 0) × (into.new ≡ into.old)) (λ value. IsPut value into.old into.new result) }
{
    let separator = Wire::of_number(wire).separator();
    match launcher_words::value_of(line, key, separator) {
        Some(value) => launcher_words::put(value, into),
        None => 0,
    }
}

/// What a line of a launcher is where this command is to be answered: 0 the answer, 1 one that tells a failure, 2
/// another line.
#[unsafe(no_mangle)]
pub extern "C" fn kombazily_answer(line: &[u8], command: &[u8], wire: u32) -> u32
    ensures { result ≡ answer_number (answer_in command.now (separator (wire_of_number wire)) line.now) }
{
    launcher_words::answer_in(line, command, Wire::of_number(wire)).number()
}

/// Whether a launcher's first line says that it speaks this version.
#[unsafe(no_mangle)]
pub extern "C" fn kombazily_speaks(line: &[u8], wire: u32) -> bool
    ensures { result ≡ is_version (wire_of_number wire) line.now }
{
    launcher_words::is_version(line, Wire::of_number(wire))
}

/// How many bytes follow in a record that begins so; 0 where none does.
#[unsafe(no_mangle)]
pub extern "C" fn kombazily_record_length(front: &[u8]) -> u64
    ensures { result ≡ unwrap_or (record_length front.now) 0 }
{
    launcher_words::record_length(front).unwrap_or(0)
}

/// Writes the text of a rank's place: how many bytes it has. It is 0 where `into` has fewer, and for want of memory.
#[unsafe(no_mangle)]
pub extern "C" fn kombazily_place_text(
    alloc: Global,
    told: &ToldPlaceRecord,
    into: &mut [u8],
) -> usize
    ensures { (place : ToldPlace) × IsPlaceOf told.now place ×
        (IsPut (place_text place) into.old into.new result ⊎ ((result ≡ 0) × (into.new ≡ into.old))) }
{
    match launcher_words::place_text(alloc, ToldPlace::of_record(*told)) {
        Ok(text) => launcher_words::put(&text, into),
        Err(_) => 0,
    }
}

/// Reads the text of the place of this rank: whether it is one. It is one just where it is what is written of some place
/// that the rank may tell.
#[unsafe(no_mangle)]
pub extern "C" fn kombazily_read_place(text: &[u8], rank: u16, told: &mut ToldPlaceRecord) -> bool
    ensures written { result ≡ true → (place : ToldPlace) × IsPlace rank place × (text.now ≡ place_text place) ×
        (told.new ≡ place_record place) }
    ensures read { (place : ToldPlace) → IsPlace rank place → text.now ≡ place_text place →
        (result ≡ true) × (told.new ≡ place_record place) }
    ensures refused { result ≡ false → told.new ≡ told.old }
{
    match launcher_words::read_place(text, rank) {
        Some(place) => {
            *told = place.record();
            true
        }
        None => false,
    }
}

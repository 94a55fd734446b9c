//! How long the frames of a job are: what a launcher tells, and what ranks take where none does.

ghost use Rattle.std.specs.Prelude.{◌≡◌, ◌≤◌, ◌==◌, IfSome};
ghost use Rattle.std.specs.List.{list_all};
ghost use Rattle.std.specs.Option.{option_copied};
ghost use Rattle.rank_environment.specs.Frames.{are_one, frame_in, frame_of, is_on_loopback, is_one_machine, usual_frame};

use numerals::number_between;

/// The least number of bytes of data that a frame has at most. Ranks that aren't on one machine have it where nothing is
/// told.
pub const LEAST_FRAME: u32 = 1_024;

/// The greatest such number. Ranks on one machine have it where nothing is told.
pub const GREATEST_FRAME: u32 = 61_440;

/// Such numbers are multiples of it: so many bytes the longest element has.
const ELEMENT: u32 = 8;

/// What all addresses of loopback begin with: 127.0.0.0/8.
const LOOPBACK: u32 = 127;

/// The most bytes of data of a frame as this text spells them, in decimal digits without leading zeros: from 1,024 to
/// 61,440, and a multiple of 8.
pub fn frame_in(text: &[u8]) -> Option<u32>
    ensures exact { result ≡ frame_in text.now }
    ensures greatest { IfSome result (λ n. n ≤ 61440) }
{
    let number = number_between(text, u64::from(LEAST_FRAME), u64::from(GREATEST_FRAME))?;
    if number % u64::from(ELEMENT) != 0 {
        return None;
    }
    Some(number as u32)
}

/// Whether an address is one of the machine's own alone: in 127.0.0.0/8. 10.0.0.1 is 0x0a000001.
fn is_on_loopback(address: u32) -> bool
    ensures { result ≡ is_on_loopback address }
{
    address / 16_777_216 == LOOPBACK
}

/// Whether all these are.
fn are_on_loopback(addresses: &[u32]) -> bool
    ensures { result ≡ list_all is_on_loopback addresses.now }
{
    addresses.iter().all(|address| is_on_loopback(*address))
}

/// Whether all these are this one.
fn are_at(place: u32, addresses: &[u32]) -> bool
    ensures { result ≡ list_all (λ address. address == place) addresses.now }
{
    addresses.iter().all(|address| *address == place)
}

/// Whether all these are the first one.
fn are_one(addresses: &[u32]) -> bool
    ensures { result ≡ are_one addresses.now }
{
    match addresses.split_first() {
        Some((first, others)) => are_at(*first, others),
        None => true,
    }
}

/// Whether ranks at these addresses are on one machine: all on loopback, or at one address.
fn is_one_machine(addresses: &[u32]) -> bool
    ensures { result ≡ is_one_machine addresses.now }
{
    are_on_loopback(addresses) || are_one(addresses)
}

/// The most bytes of data of a frame in a job of ranks at these addresses, where nothing is told: 61,440 where they are on
/// one machine, and else 1,024. All ranks know the same addresses, so they take the same.
fn usual_frame(addresses: &[u32]) -> u32
    ensures { result ≡ usual_frame addresses.now }
{
    if is_one_machine(addresses) {
        GREATEST_FRAME
    } else {
        LEAST_FRAME
    }
}

/// The most bytes of data of a frame in a job of ranks at these addresses: what the text of `KOMBAZILY_FRAME` spells, if
/// it is there, and else the usual number. `None` where the text spells none that a job may have.
pub fn frame_of(told: Option<&[u8]>, addresses: &[u32]) -> Option<u32>
    ensures { result ≡ frame_of (option_copied told.entry) addresses.now }
{
    match told {
        Some(text) => frame_in(text),
        None => Some(usual_frame(addresses)),
    }
}

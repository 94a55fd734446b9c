//! The bound as a text.

ghost use Rattle.std.specs.Prelude.{◌≡◌};
ghost use Rattle.std.specs.Option.{option_copied};
ghost use Rattle.unasked_sends.specs.Bounds.{bound_in, bound_of};

use numerals::number_between;

/// The bound where nothing is told: 4 MiB.
pub const USUAL_BOUND: u64 = 4_194_304;

/// The bound that nothing exceeds.
pub const NO_BOUND: u64 = u64::MAX;

/// What a text says of the bound: a number of bytes in decimal digits without leading zeros, or the word `none`.
fn bound_in(text: &[u8]) -> Option<u64>
    ensures { result ≡ bound_in text.now }
{
    if text == b"none".as_slice() {
        return Some(NO_BOUND);
    }
    number_between(text, 0, NO_BOUND)
}

/// The bound: what the text of `KOMBAZILY_UNASKED` says, if it is there, and else 4 MiB. `None` where the text is
/// neither a number of 64 bits, in decimal digits without leading zeros, nor the word `none`, which is the greatest one.
pub fn bound_of(told: Option<&[u8]>) -> Option<u64>
    ensures { result ≡ bound_of (option_copied told.entry) }
{
    match told {
        Some(text) => bound_in(text),
        None => Some(USUAL_BOUND),
    }
}

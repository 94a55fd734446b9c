//! What the bits of a float say (IEEE 754, 3.4).

ghost use Rattle.std.specs.Prelude.{◌≡◌, ◌≤◌, ◌+◌, ◌*◌, ◌^◌, length};
ghost use Rattle.std.specs.Float.Ieee.{binary32, binary64};
ghost use Rattle.float_texts.specs.Texts.{FitsRoom, digits_of, room_of};
ghost use Rattle.float_texts.specs.Values.{value_in, value_of};

use crate::digits::put_product;

/// The bits of a float.
#[derive(Clone, Copy)]
pub(crate) enum FloatBits {
    /// Of four bytes.
    Binary32(u64),
    /// Of eight bytes.
    Binary64(u64),
}

/// A number above zero: the significand, doubled so many times and halved so many times.
#[derive(Clone, Copy)]
pub(crate) struct Magnitude {
    pub(crate) significand: u64,
    pub(crate) doublings: usize,
    pub(crate) places: usize,
}

/// The value of a float.
#[derive(Clone, Copy)]
pub(crate) enum FloatValue {
    /// A NaN, whatever its sign and its payload.
    NotANumber,
    /// An infinity, and whether it is below zero.
    Infinity(bool),
    /// A zero, and whether it has the sign of the numbers below zero.
    Zero(bool),
    /// A number other than zero, and whether it is below zero.
    Finite(bool, Magnitude),
}

impl Magnitude {
    /// How many digits it has at most: 17 of the significand, and one for each doubling or place.
    pub(crate) fn digit_count(self) -> usize
        requires { room_of self ≤ 1100 }
        ensures { result ≡ room_of self }
    {
        17 + self.doublings + self.places
    }

    /// Writes its digits, the highest first; so many of them as it has places stand behind the point.
    pub(crate) fn put_digits(self, digits: &mut [u8])
        requires significand { self.significand ≤ 2 ^ 60 }
        requires room { length digits.old ≡ room_of self }
        ensures { digits.new ≡ digits_of self }
    {
        put_product(digits, self.significand, self.doublings, self.places);
        digits.reverse();
    }
}

impl FloatBits {
    /// The value of the float.
    pub(crate) fn value(self) -> FloatValue
        ensures value { result ≡ value_of self }
        ensures room { FitsRoom result }
    {
        match self {
            FloatBits::Binary32(bits) => value_32(bits),
            FloatBits::Binary64(bits) => value_64(bits),
        }
    }
}

/// The value of a float of eight bytes.
fn value_64(bits: u64) -> FloatValue
    ensures value { result ≡ value_in binary64 bits }
    ensures room { FitsRoom result }
{
    let negative = bits >= 0x8000_0000_0000_0000;
    let field = bits % 0x8000_0000_0000_0000 / 0x10_0000_0000_0000;
    let fraction = bits % 0x10_0000_0000_0000;
    if field == 2047 {
        if fraction == 0 {
            return FloatValue::Infinity(negative);
        }
        return FloatValue::NotANumber;
    }
    let leading = if field == 0 { 0 } else { 0x10_0000_0000_0000 };
    let significand = leading + fraction;
    if significand == 0 {
        return FloatValue::Zero(negative);
    }
    let scale = (field as usize).saturating_sub(1);
    let magnitude = Magnitude {
        significand,
        doublings: scale.saturating_sub(1074),
        places: 1074_usize.saturating_sub(scale),
    };
    FloatValue::Finite(negative, magnitude)
}

/// The value of a float of four bytes.
fn value_32(bits: u64) -> FloatValue
    ensures value { result ≡ value_in binary32 bits }
    ensures room { FitsRoom result }
{
    let negative = bits >= 0x8000_0000;
    let field = bits % 0x8000_0000 / 0x80_0000;
    let fraction = bits % 0x80_0000;
    if field == 255 {
        if fraction == 0 {
            return FloatValue::Infinity(negative);
        }
        return FloatValue::NotANumber;
    }
    let leading = if field == 0 { 0 } else { 0x80_0000 };
    let significand = leading + fraction;
    if significand == 0 {
        return FloatValue::Zero(negative);
    }
    let scale = (field as usize).saturating_sub(1);
    let magnitude = Magnitude {
        significand,
        doublings: scale.saturating_sub(149),
        places: 149_usize.saturating_sub(scale),
    };
    FloatValue::Finite(negative, magnitude)
}

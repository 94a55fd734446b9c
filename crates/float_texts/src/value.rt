//! An element as its value is written.

use crate::decimals::{BeforePoint, BehindPoint, Sign};
use crate::parts::{FloatBits, FloatValue};
use datatypes::Element;
use std::fmt;
use vocabulary::BasicType;

/// An element of a basic type as its value is written: integers and bytes in decimal digits; a float in decimal, in
/// full, as `1.5`, `-2000` and `-0`, or as `inf`, `-inf` and `nan`.
///
/// The text of a float is exact: it has all digits of the value, up to 1,074 behind the point. A NaN's sign and its
/// payload aren't shown.
#[derive(Clone, Copy, Debug, PartialEq, Eq)]
pub struct ValueText {
    /// The type of the element.
    pub basic: BasicType,
    /// The unsigned number that its bytes are, the highest byte first; of a float the number of its bits.
    pub number: u64,
}

impl fmt::Display for ValueText {
    ghost use Rattle.std.specs.Prelude.{Some};
    ghost use Rattle.float_texts.specs.Texts.{value_text};

    ghost output = { λ v. Some (value_text v.basic v.number) };

    #[tactic(auto, unfolding(crate::specs::Texts::float_text))]
    fn fmt<W: fmt::Write>(&self, f: &mut fmt::Formatter<W>) -> fmt::Result {
        let basic = self.basic;
        let number = self.number;
        match basic {
            BasicType::Float32 => FloatText {
                bits: FloatBits::Binary32(number),
            }
            .fmt(f),
            BasicType::Float64 => FloatText {
                bits: FloatBits::Binary64(number),
            }
            .fmt(f),
            _ => Element { basic, number }.fmt(f),
        }
    }
}

/// How many digits there is room for.
const ROOM: usize = 1100;

/// A float as its value is written.
#[derive(Clone, Copy)]
struct FloatText {
    bits: FloatBits,
}

impl fmt::Display for FloatText {
    ghost use Rattle.std.specs.Prelude.{Some};
    ghost use Rattle.float_texts.specs.Texts.{float_value_text};
    ghost use Rattle.float_texts.specs.Values.{value_of};

    ghost output = { λ t. Some (float_value_text (value_of t.bits)) };

    fn fmt<W: fmt::Write>(&self, f: &mut fmt::Formatter<W>) -> fmt::Result {
        match self.bits.value() {
            FloatValue::NotANumber => f.write_str("nan"),
            FloatValue::Infinity(negative) => {
                let sign = Sign { negative };
                write!(f, "{sign}inf")
            }
            FloatValue::Zero(negative) => {
                let sign = Sign { negative };
                write!(f, "{sign}0")
            }
            FloatValue::Finite(negative, magnitude) => {
                let mut room = [0; ROOM];
                let count = magnitude.digit_count();
                let (digits, _) = room.split_at_mut(count);
                magnitude.put_digits(digits);
                let (whole, fraction) = digits.split_at(count - magnitude.places);
                let sign = Sign { negative };
                let whole = BeforePoint { digits: whole };
                let fraction = BehindPoint { digits: fraction };
                write!(f, "{sign}{whole}{fraction}")
            }
        }
    }
}

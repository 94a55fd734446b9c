//! Digits as they are written: before the point, and behind it.

ghost use Rattle.std.specs.Prelude.{◌≡◌, ◌≤◌, length, reverse};
ghost use Rattle.std.specs.List.{take_while};
ghost use Rattle.float_texts.specs.Digits.{is_zero};

use std::fmt;

/// How many zeros stand in front.
fn leading_zeros(digits: &[u8]) -> usize
    ensures { result ≡ length (take_while is_zero digits.now) }
{
    digits.iter().take_while(|digit| **digit == 0).count()
}

/// How many zeros stand at the end.
fn closing_zeros(digits: &[u8]) -> usize
    ensures { result ≡ length (take_while is_zero (reverse digits.now)) }
{
    digits.iter().rev().take_while(|digit| **digit == 0).count()
}

/// Digits, one after the other.
#[derive(Clone, Copy)]
struct Digits<'a> {
    digits: &'a [u8],
}

impl<'a> fmt::Display for Digits<'a> {
    ghost use Rattle.std.specs.Prelude.{Some};
    ghost use Rattle.float_texts.specs.Digits.{digits_text};

    ghost output = { λ d. Some (digits_text d.digits.now) };

    fn fmt<W: fmt::Write>(&self, f: &mut fmt::Formatter<W>) -> fmt::Result {
        for digit in self.digits {
            write!(f, "{digit}")?;
        }
        Ok(())
    }
}

/// The digits before the point, of which those are written that aren't zeros in front; `0` where there are none.
#[derive(Clone, Copy)]
pub(crate) struct BeforePoint<'a> {
    /// The digits, the highest first.
    pub(crate) digits: &'a [u8],
}

impl<'a> fmt::Display for BeforePoint<'a> {
    ghost use Rattle.std.specs.Prelude.{Some};
    ghost use Rattle.float_texts.specs.Digits.{before_point, without_leading_zeros};

    ghost output = { λ b. Some (before_point (without_leading_zeros b.digits.now)) };

    fn fmt<W: fmt::Write>(&self, f: &mut fmt::Formatter<W>) -> fmt::Result {
        let zeros = leading_zeros(self.digits);
        let (_, digits) = self.digits.split_at(zeros);
        if digits.is_empty() {
            f.write_str("0")
        } else {
            Digits { digits }.fmt(f)
        }
    }
}

/// The digits behind the point, of which those are written that aren't zeros at the end; no point where there are none.
#[derive(Clone, Copy)]
pub(crate) struct BehindPoint<'a> {
    /// The digits, the highest first.
    pub(crate) digits: &'a [u8],
}

impl<'a> fmt::Display for BehindPoint<'a> {
    ghost use Rattle.std.specs.Prelude.{Some};
    ghost use Rattle.float_texts.specs.Digits.{behind_point, without_closing_zeros};

    ghost output = { λ b. Some (behind_point (without_closing_zeros b.digits.now)) };

    fn fmt<W: fmt::Write>(&self, f: &mut fmt::Formatter<W>) -> fmt::Result {
        let zeros = closing_zeros(self.digits);
        let (digits, _) = self.digits.split_at(self.digits.len() - zeros);
        if digits.is_empty() {
            return Ok(());
        }
        let digits = Digits { digits };
        write!(f, ".{digits}")
    }
}

/// The sign of a number below zero, which a zero and an infinity may have, too.
#[derive(Clone, Copy)]
pub(crate) struct Sign {
    /// Whether it is the sign of those below zero.
    pub(crate) negative: bool,
}

impl fmt::Display for Sign {
    ghost use Rattle.std.specs.Prelude.{Some};
    ghost use Rattle.float_texts.specs.Texts.{sign_text};

    ghost output = { λ s. Some (sign_text s.negative) };

    fn fmt<W: fmt::Write>(&self, f: &mut fmt::Formatter<W>) -> fmt::Result {
        if self.negative {
            f.write_str("-")
        } else {
            Ok(())
        }
    }
}

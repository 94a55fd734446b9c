//! Operations on floats, on the patterns of their bits. Each NaN that is made is the quiet one without a sign.

ghost use Rattle.std.specs.Prelude.{◌≡◌, ◌<◌, ◌^◌};
ghost use Rattle.std.specs.Float.Ieee.{add, binary32, binary64, mul, nan_bits};
ghost use Rattle.reductions.specs.Operations.{greater_by, in_floats, lesser_by, nan_above, nan_below, total_order};

use std::num::{
    f32_from_bits_with_nan, f32_to_bits_with_nan, f64_from_bits_with_nan, f64_to_bits_with_nan,
};

/// Whether a pattern of eight bytes is a NaN's.
#[inline(always)]
#[tactic(auto, using(crate::proofs::NanPatterns::nan_64))]
fn is_nan_64(bits: u64) -> bool
    ensures { result ≡ nan_bits binary64 bits }
{
    0x7ff0_0000_0000_0000 < bits % 0x8000_0000_0000_0000
}

/// Whether a pattern of four bytes is a NaN's.
#[inline(always)]
#[tactic(auto, using(crate::proofs::NanPatterns::nan_32))]
fn is_nan_32(bits: u64) -> bool
    requires { bits < 2 ^ 32 }
    ensures { result ≡ nan_bits binary32 bits }
{
    0x7f80_0000 < bits % 0x8000_0000
}

/// The place of a float of eight bytes in the order of IEEE 754, in which -0 stands below 0.
#[inline(always)]
fn place_64(bits: u64) -> u64
    ensures { result ≡ total_order binary64 bits }
{
    if bits < 0x8000_0000_0000_0000 {
        bits + 0x8000_0000_0000_0000
    } else {
        u64::MAX - bits
    }
}

/// The place of a float of four bytes in the order of IEEE 754, in which -0 stands below 0.
#[inline(always)]
fn place_32(bits: u64) -> u64
    requires { bits < 2 ^ 32 }
    ensures { result ≡ total_order binary32 bits }
{
    if bits < 0x8000_0000 {
        bits + 0x8000_0000
    } else {
        0xffff_ffff - bits
    }
}

/// The greater of two floats of eight bytes; a NaN, where one is a NaN.
#[inline(always)]
pub(crate) fn greater_64(first: u64, second: u64) -> u64
    ensures { result ≡ greater_by (nan_above binary64) first second }
{
    if is_nan_64(first) {
        first
    } else if is_nan_64(second) || place_64(first) < place_64(second) {
        second
    } else {
        first
    }
}

/// The lesser of two floats of eight bytes; a NaN, where one is a NaN.
#[inline(always)]
pub(crate) fn lesser_64(first: u64, second: u64) -> u64
    ensures { result ≡ lesser_by (nan_below binary64) first second }
{
    if is_nan_64(first) {
        first
    } else if is_nan_64(second) || place_64(second) < place_64(first) {
        second
    } else {
        first
    }
}

/// The greater of two floats of four bytes; a NaN, where one is a NaN.
#[inline(always)]
pub(crate) fn greater_32(first: u64, second: u64) -> u64
    requires first { first < 2 ^ 32 }
    requires second { second < 2 ^ 32 }
    ensures { result ≡ greater_by (nan_above binary32) first second }
{
    if is_nan_32(first) {
        first
    } else if is_nan_32(second) || place_32(first) < place_32(second) {
        second
    } else {
        first
    }
}

/// The lesser of two floats of four bytes; a NaN, where one is a NaN.
#[inline(always)]
pub(crate) fn lesser_32(first: u64, second: u64) -> u64
    requires first { first < 2 ^ 32 }
    requires second { second < 2 ^ 32 }
    ensures { result ≡ lesser_by (nan_below binary32) first second }
{
    if is_nan_32(first) {
        first
    } else if is_nan_32(second) || place_32(second) < place_32(first) {
        second
    } else {
        first
    }
}

/// The sum of two floats of eight bytes, rounded to the nearest.
#[inline(always)]
pub(crate) fn sum_64(first: u64, second: u64) -> u64
    ensures { result ≡ in_floats binary64 (add binary64) first second }
{
    f64_to_bits_with_nan(f64_from_bits_with_nan(first) + f64_from_bits_with_nan(second))
}

/// The sum of two floats of four bytes, rounded to the nearest.
#[inline(always)]
pub(crate) fn sum_32(first: u64, second: u64) -> u64
    requires first { first < 2 ^ 32 }
    requires second { second < 2 ^ 32 }
    ensures { result ≡ in_floats binary32 (add binary32) first second }
{
    let first = f32_from_bits_with_nan(first as u32);
    let second = f32_from_bits_with_nan(second as u32);
    u64::from(f32_to_bits_with_nan(first + second))
}

/// The product of two floats of eight bytes, rounded to the nearest.
#[inline(always)]
pub(crate) fn product_64(first: u64, second: u64) -> u64
    ensures { result ≡ in_floats binary64 (mul binary64) first second }
{
    f64_to_bits_with_nan(f64_from_bits_with_nan(first) * f64_from_bits_with_nan(second))
}

/// The product of two floats of four bytes, rounded to the nearest.
#[inline(always)]
pub(crate) fn product_32(first: u64, second: u64) -> u64
    requires first { first < 2 ^ 32 }
    requires second { second < 2 ^ 32 }
    ensures { result ≡ in_floats binary32 (mul binary32) first second }
{
    let first = f32_from_bits_with_nan(first as u32);
    let second = f32_from_bits_with_nan(second as u32);
    u64::from(f32_to_bits_with_nan(first * second))
}

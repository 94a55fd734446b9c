//! Numbers as their decimal digits, the lowest first.

ghost use Rattle.std.specs.Prelude.{◌≡◌, ◌≤◌, ◌+◌, ◌*◌, ◌^◌, ℕ};
ghost use Rattle.float_texts.specs.Digits.{AreDigitsOf};

/// Makes of the digits of a number those of so many times it, and of a number more.
#[tactic(auto, using(crate::proofs::Products::at_end, crate::proofs::Products::carry_small))]
fn multiply_and_add(digits: &mut [u8], factor: u64, more: u64)
    requires factor { factor ≤ 2 ^ 40 }
    requires more { more ≤ 2 ^ 60 }
    ensures { (number : ℕ) →
        AreDigitsOf number digits.old → AreDigitsOf (number * factor + more) digits.new }
{
    let mut carry = more;
    for place in 0..digits.len() {
        let product = u64::from(digits[place]) * factor + carry;
        digits[place] = (product % 10) as u8;
        carry = product / 10;
    }
}

/// Multiplies a number, given by its digits, by a factor so many times.
fn multiply_times(digits: &mut [u8], factor: u64, times: usize)
    requires { factor ≤ 2 ^ 40 }
    ensures { (number : ℕ) →
        AreDigitsOf number digits.old → AreDigitsOf (number * factor ^ times) digits.new }
{
    for _ in 0..times {
        multiply_and_add(digits, factor, 0);
    }
}

/// Multiplies a number, given by its digits, by a power of a small factor, whose eighth power is given.
fn multiply_by_power(digits: &mut [u8], factor: u64, eighth: u64, exponent: usize)
    requires factor { factor ≤ 2 ^ 40 }
    requires eighth { eighth ≤ 2 ^ 40 }
    requires is { eighth ≡ factor ^ 8 }
    ensures { (number : ℕ) →
        AreDigitsOf number digits.old → AreDigitsOf (number * factor ^ exponent) digits.new }
{
    multiply_times(digits, eighth, exponent / 8);
    multiply_times(digits, factor, exponent % 8);
}

/// Writes the last digits of a number, which is so small.
fn put_number(digits: &mut [u8], number: u64)
    requires { number ≤ 2 ^ 60 }
    ensures { AreDigitsOf number digits.new }
{
    digits.fill(0);
    multiply_and_add(digits, 0, number);
}

/// Writes the last digits of `number * 2 ^ doublings * 5 ^ places`.
pub(crate) fn put_product(digits: &mut [u8], number: u64, doublings: usize, places: usize)
    requires { number ≤ 2 ^ 60 }
    ensures { AreDigitsOf (number * 2 ^ doublings * 5 ^ places) digits.new }
{
    put_number(digits, number);
    multiply_by_power(digits, 2, 256, doublings);
    multiply_by_power(digits, 5, 390_625, places);
}

//! What the operators of expressions compute, on signed numbers of 64 bits.

ghost use Rattle.std.specs.Prelude.{◌≡◌, ◌<◌, ◌^◌, pos, ◌*ℤ◌};
ghost use Rattle.avr_text.specs.Arithmetic.{checked, sum_of, difference_of, product_of, quotient_of, remainder_of};
ghost use Rattle.avr_text.specs.Arithmetic.{shifted_left, shifted_right, or_of, xor_of, and_of, negated_of};
ghost use Rattle.avr_text.specs.Arithmetic.{complement_of, low_of, high_of};

use crate::values::ValueWhy;

pub fn sum(left: i64, right: i64) -> Result<i64, ValueWhy>
    ensures { result ≡ sum_of left right }
{
    left.checked_add(right).ok_or(ValueWhy::Overflow)
}

pub fn difference(left: i64, right: i64) -> Result<i64, ValueWhy>
    ensures { result ≡ difference_of left right }
{
    left.checked_sub(right).ok_or(ValueWhy::Overflow)
}

pub fn product(left: i64, right: i64) -> Result<i64, ValueWhy>
    ensures { result ≡ product_of left right }
{
    left.checked_mul(right).ok_or(ValueWhy::Overflow)
}

/// The quotient, toward 0.
pub fn quotient(left: i64, right: i64) -> Result<i64, ValueWhy>
    ensures { result ≡ quotient_of left right }
{
    if right == 0 {
        return Err(ValueWhy::ZeroDivisor);
    }
    left.checked_div(right).ok_or(ValueWhy::Overflow)
}

/// The remainder of that division: it has the dividend's sign.
pub fn remainder(left: i64, right: i64) -> Result<i64, ValueWhy>
    ensures { result ≡ remainder_of left right }
{
    if right == 0 {
        return Err(ValueWhy::ZeroDivisor);
    }
    if right == -1 {
        return Ok(0);
    }
    Ok(left % right)
}

/// A power of 2.
fn power_of_two(exponent: u32) -> i64
    requires { exponent < 63 }
    ensures { result ≡ pos (2 ^ exponent) }
{
    (1u64 << exponent) as i64
}

/// The number times 2^63, which is itself above every number of 64 bits.
fn shift_left_by_63(left: i64) -> Result<i64, ValueWhy>
    ensures { result ≡ checked (left *ℤ pos (2 ^ 63)) }
{
    if left == 0 {
        return Ok(0);
    }
    if left == -1 {
        return Ok(i64::MIN);
    }
    Err(ValueWhy::Overflow)
}

/// The number shifted to the left by 0 to 63 places, where no bit is lost.
pub fn shift_left(left: i64, right: i64) -> Result<i64, ValueWhy>
    ensures { result ≡ shifted_left left right }
{
    if right < 0 || right > 63 {
        return Err(ValueWhy::Overflow);
    }
    if right == 63 {
        return shift_left_by_63(left);
    }
    product(left, power_of_two(right as u32))
}

/// The number shifted to the right by 0 to 63 places: the sign stays.
pub fn shift_right(left: i64, right: i64) -> Result<i64, ValueWhy>
    ensures { result ≡ shifted_right left right }
{
    if right < 0 || right > 63 {
        return Err(ValueWhy::Overflow);
    }
    Ok(left >> right)
}

pub fn bit_or(left: i64, right: i64) -> i64
    ensures { result ≡ or_of left right }
{
    left | right
}

pub fn bit_xor(left: i64, right: i64) -> i64
    ensures { result ≡ xor_of left right }
{
    left ^ right
}

pub fn bit_and(left: i64, right: i64) -> i64
    ensures { result ≡ and_of left right }
{
    left & right
}

pub fn negated(value: i64) -> Result<i64, ValueWhy>
    ensures { result ≡ negated_of value }
{
    value.checked_neg().ok_or(ValueWhy::Overflow)
}

pub fn complement(value: i64) -> i64
    ensures { result ≡ complement_of value }
{
    !value
}

/// Bits 0 to 7.
pub fn low_byte(value: i64) -> i64
    ensures { result ≡ low_of value }
{
    value.rem_euclid(256)
}

/// Bits 8 to 15.
pub fn high_byte(value: i64) -> i64
    ensures { result ≡ high_of value }
{
    (value >> 8).rem_euclid(256)
}

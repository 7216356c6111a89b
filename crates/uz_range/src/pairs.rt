//! Pairs of registers in ranges.

ghost use Rattle.std.specs.Prelude.{◌≡◌, ◌<◌, ◌≤◌, ◌+◌, ◌*◌, ◌/◌, ◌%◌, ℕ};
ghost use Rattle.uz_core.specs.Arithmetic.{pair_sum_of, pair_difference_of};
ghost use Rattle.uz_schedule.specs.Ends.{hull as hull_of};
ghost use Rattle.uz_range.specs.Containment.{IsWithin, CoversWide};
ghost use Rattle.uz_range.specs.Rules.{pair_add_answer, pair_sub_answer, low_answer, high_answer};

use crate::answer::{WideRanged, exactly_wide, is_single_wide, wide_arithmetic};
use uz_core::{add16, sub16};
use uz_schedule::{Bit, Span, Wide};

/// A pair and a constant (ADIW, and the step of a pointer; AVR Instruction Set Manual). Where no sum of the range
/// reaches 65,536, or every one
/// does, the answer is the range of the sums with the carry known.
pub fn pair_add(a: Wide, k: u8) -> WideRanged
    ensures row { result ≡ pair_add_answer a k }
    ensures holds { (x : ℕ) → x < 65536 → IsWithin x a → CoversWide result (pair_sum_of x k) }
{
    pair_add_by_rule(a, k)
}

/// A pair less a constant (SBIW, and the step of a pointer; AVR Instruction Set Manual).
pub fn pair_sub(a: Wide, k: u8) -> WideRanged
    ensures row { result ≡ pair_sub_answer a k }
    ensures holds { (x : ℕ) → x < 65536 → IsWithin x a → CoversWide result (pair_difference_of x k) }
{
    pair_sub_by_rule(a, k)
}

/// The pairs whose bytes lie in two ranges: the least range that holds them all.
pub fn hull(low: Span, high: Span) -> Wide
    ensures row { result ≡ hull_of low high }
    ensures holds { (x y : ℕ) → IsWithin x low → IsWithin y high → IsWithin (y * 256 + x) result }
{
    uz_schedule::hull(low, high)
}

/// The low bytes of a range of pairs. They have the ends' low bytes where all pairs share one high byte, and else are every byte.
pub fn low(a: Wide) -> Span
    ensures row { result ≡ low_answer a }
    ensures holds { (x : ℕ) → IsWithin x a → IsWithin (x % 256) result }
{
    low_by_rule(a)
}

/// The high bytes of a range of pairs.
pub fn high(a: Wide) -> Span
    ensures row { result ≡ high_answer a }
    ensures holds { (x : ℕ) → IsWithin x a → IsWithin (x / 256) result }
{
    high_by_rule(a)
}

/// What [`pair_add`] answers.
fn pair_add_by_rule(a: Wide, k: u8) -> WideRanged
    ensures { result ≡ pair_add_answer a k }
{
    if is_single_wide(&a) {
        let (value, flags) = add16(a.lo(), k);
        return exactly_wide(value, flags);
    }
    let lo = a.lo() as u32 + k as u32;
    let hi = a.hi() as u32 + k as u32;
    if hi < 65536 {
        wide_arithmetic(lo as u16, hi as u16, Bit::Zero)
    } else if lo >= 65536 {
        wide_arithmetic((lo - 65536) as u16, (hi - 65536) as u16, Bit::One)
    } else {
        wide_arithmetic(0, 65535, Bit::Free)
    }
}

/// What [`pair_sub`] answers.
fn pair_sub_by_rule(a: Wide, k: u8) -> WideRanged
    ensures { result ≡ pair_sub_answer a k }
{
    if is_single_wide(&a) {
        let (value, flags) = sub16(a.lo(), k);
        return exactly_wide(value, flags);
    }
    let lo = a.lo() as u32 + 65536 - k as u32;
    let hi = a.hi() as u32 + 65536 - k as u32;
    if lo >= 65536 {
        wide_arithmetic((lo - 65536) as u16, (hi - 65536) as u16, Bit::Zero)
    } else if hi < 65536 {
        wide_arithmetic(lo as u16, hi as u16, Bit::One)
    } else {
        wide_arithmetic(0, 65535, Bit::Free)
    }
}

/// What [`low`] answers.
fn low_by_rule(a: Wide) -> Span
    ensures { result ≡ low_answer a }
{
    if a.lo() / 256 == a.hi() / 256 {
        Span::between((a.lo() % 256) as u8, (a.hi() % 256) as u8)
    } else {
        Span::between(0, 255)
    }
}

/// What [`high`] answers.
fn high_by_rule(a: Wide) -> Span
    ensures { result ≡ high_answer a }
{
    Span::between((a.lo() / 256) as u8, (a.hi() / 256) as u8)
}

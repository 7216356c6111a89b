//! Sums, differences and steps by one of bytes in ranges.

ghost use Rattle.std.specs.Prelude.{◌≡◌, ◌≤◌, ◌<◌, ℕ, Bool};
ghost use Rattle.uz_core.specs.Arithmetic.{AluResult, sum_of, difference_of, negation_of, increment_of, decrement_of, chained_result};
ghost use Rattle.uz_range.specs.Containment.{IsWithin, MayBe, Covers};
ghost use Rattle.uz_range.specs.Rules.{wrapped_sum, sum_answer, wrapped_difference, difference_answer, chained_zero};
ghost use Rattle.uz_range.specs.Rules.{chained_answer, negate_answer, step_up_answer, step_down_answer};

use crate::answer::{Ranged, arithmetic, exactly, is_fixed, is_set, is_single, least_of, most_of};
use uz_core::{add8, dec8, inc8, neg8, sub8};
use uz_schedule::{Bit, Span};

/// The sum of two bytes and a carry (ADD and ADC; AVR Instruction Set Manual). Where no sum of the ranges reaches 256,
/// or every one does, the
/// answer is the range of the sums (less 256) with the carry known; where only a part wraps, it is every byte.
pub fn sum(a: Span, b: Span, carry: Bit) -> Ranged
    ensures row { result ≡ sum_answer a b carry }
    ensures holds { (x y : ℕ) (c : Bool) → x < 256 → y < 256 → IsWithin x a → IsWithin y b → MayBe carry c → Covers result (sum_of x y c) }
{
    sum_by_rule(a, b, carry)
}

/// A byte less a byte and a borrow (SUB, SUBI, CP, CPI, and SBC, SBCI, CPC before [`chained`]; AVR Instruction Set
/// Manual). Where no difference
/// of the ranges falls below 0, or every one does, the answer is the range of the differences (plus 256) with the carry known.
pub fn difference(a: Span, b: Span, carry: Bit) -> Ranged
    ensures row { result ≡ difference_answer a b carry }
    ensures holds { (x y : ℕ) (c : Bool) → x < 256 → y < 256 → IsWithin x a → IsWithin y b → MayBe carry c
        → Covers result (difference_of x y c) }
{
    difference_by_rule(a, b, carry)
}

/// The zero flag of a difference with carry (CPC, SBC, SBCI; AVR Instruction Set Manual): it is set only where it was set before and the
/// result is 0. All else of the answer stays.
pub fn chained(before: Bit, r: Ranged) -> Ranged
    ensures row { result ≡ chained_answer before r }
    ensures holds { (o : AluResult) (z : Bool) → Covers r o → MayBe before z → Covers result (chained_result o z) }
{
    chained_by_rule(before, r)
}

/// 0 less a byte (NEG; AVR Instruction Set Manual). Where 0 isn't in the range the answer turns it round with the carry set.
pub fn negate(a: Span) -> Ranged
    ensures row { result ≡ negate_answer a }
    ensures holds { (x : ℕ) → x < 256 → IsWithin x a → Covers result (negation_of x) }
{
    negate_by_rule(a)
}

/// A byte and one (INC; AVR Instruction Set Manual). A range that holds 255 gives every byte.
pub fn step_up(a: Span) -> Ranged
    ensures row { result ≡ step_up_answer a }
    ensures holds { (x : ℕ) → IsWithin x a → Covers result (increment_of x) }
{
    step_up_by_rule(a)
}

/// A byte less one (DEC; AVR Instruction Set Manual). A range that holds 0 gives every byte.
pub fn step_down(a: Span) -> Ranged
    ensures row { result ≡ step_down_answer a }
    ensures holds { (x : ℕ) → x < 256 → IsWithin x a → Covers result (decrement_of x) }
{
    step_down_by_rule(a)
}

/// The answer of sums from lo to hi.
fn sum_between(lo: u16, hi: u16) -> Ranged
    requires ordered { lo ≤ hi }
    requires below { hi < 512 }
    ensures { result ≡ wrapped_sum lo hi }
{
    if hi < 256 {
        arithmetic(lo as u8, hi as u8, Bit::Zero)
    } else if lo >= 256 {
        arithmetic((lo - 256) as u8, (hi - 256) as u8, Bit::One)
    } else {
        arithmetic(0, 255, Bit::Free)
    }
}

/// What [`sum`] answers.
fn sum_by_rule(a: Span, b: Span, carry: Bit) -> Ranged
    ensures { result ≡ sum_answer a b carry }
{
    if is_single(&a) && is_single(&b) && is_fixed(carry) {
        let (value, flags) = add8(a.lo(), b.lo(), is_set(carry));
        return exactly(value, flags);
    }
    let lo = a.lo() as u16 + b.lo() as u16 + least_of(carry);
    let hi = a.hi() as u16 + b.hi() as u16 + most_of(carry);
    sum_between(lo, hi)
}

/// The answer of differences whose ends are moved up by 256.
fn difference_between(lo: u16, hi: u16) -> Ranged
    requires ordered { lo ≤ hi }
    requires below { hi < 512 }
    ensures { result ≡ wrapped_difference lo hi }
{
    if lo >= 256 {
        arithmetic((lo - 256) as u8, (hi - 256) as u8, Bit::Zero)
    } else if hi < 256 {
        arithmetic(lo as u8, hi as u8, Bit::One)
    } else {
        arithmetic(0, 255, Bit::Free)
    }
}

/// What [`difference`] answers.
fn difference_by_rule(a: Span, b: Span, carry: Bit) -> Ranged
    ensures { result ≡ difference_answer a b carry }
{
    if is_single(&a) && is_single(&b) && is_fixed(carry) {
        let (value, flags) = sub8(a.lo(), b.lo(), is_set(carry), true);
        return exactly(value, flags);
    }
    let lo = a.lo() as u16 + 256 - (b.hi() as u16 + most_of(carry));
    let hi = a.hi() as u16 + 256 - (b.lo() as u16 + least_of(carry));
    difference_between(lo, hi)
}

/// What [`chained`] answers.
fn chained_by_rule(before: Bit, r: Ranged) -> Ranged
    ensures { result ≡ chained_answer before r }
{
    let mut flags = r.flags;
    flags[1] = zero_chained(before, flags[1]);
    Ranged {
        span: r.span,
        flags,
    }
}

/// Z of a result that is chained to an earlier one.
fn zero_chained(before: Bit, zero: Bit) -> Bit
    ensures { result ≡ chained_zero zero before }
{
    match (zero, before) {
        (Bit::Zero, _) | (_, Bit::Zero) => Bit::Zero,
        (Bit::One, Bit::One) => Bit::One,
        _ => Bit::Free,
    }
}

/// What [`negate`] answers.
fn negate_by_rule(a: Span) -> Ranged
    ensures { result ≡ negate_answer a }
{
    if is_single(&a) {
        let (value, flags) = neg8(a.lo());
        return exactly(value, flags);
    }
    if a.lo() > 0 {
        arithmetic(
            (256 - a.hi() as u16) as u8,
            (256 - a.lo() as u16) as u8,
            Bit::One,
        )
    } else {
        arithmetic(0, 255, Bit::Free)
    }
}

/// What [`step_up`] answers.
fn step_up_by_rule(a: Span) -> Ranged
    ensures { result ≡ step_up_answer a }
{
    if is_single(&a) {
        let (value, flags) = inc8(a.lo());
        return exactly(value, flags);
    }
    if a.hi() < 255 {
        arithmetic(a.lo() + 1, a.hi() + 1, Bit::Free)
    } else {
        arithmetic(0, 255, Bit::Free)
    }
}

/// What [`step_down`] answers.
fn step_down_by_rule(a: Span) -> Ranged
    ensures { result ≡ step_down_answer a }
{
    if is_single(&a) {
        let (value, flags) = dec8(a.lo());
        return exactly(value, flags);
    }
    if a.lo() > 0 {
        arithmetic(a.lo() - 1, a.hi() - 1, Bit::Free)
    } else {
        arithmetic(0, 255, Bit::Free)
    }
}

//! Shifts to the right, and the exchange of a byte's halves.

ghost use Rattle.std.specs.Prelude.{◌≡◌, ◌<◌, ℕ, Bool};
ghost use Rattle.uz_core.specs.Arithmetic.{logical_shift_of, arithmetic_shift_of, rotation_of, swap_of};
ghost use Rattle.uz_range.specs.Containment.{IsWithin, MayBe, Covers};
ghost use Rattle.uz_range.specs.Rules.{lsr_answer, asr_answer, ror_answer, swap_answer};

use crate::answer::{Ranged, arithmetic, exactly, is_fixed, is_set, is_single, least_of};
use uz_core::{asr8, lsr8, ror8};
use uz_schedule::{Bit, Span};

/// A byte shifted right (LSR; AVR Instruction Set Manual): half of each end.
pub fn lsr(a: Span) -> Ranged
    ensures row { result ≡ lsr_answer a }
    ensures holds { (x : ℕ) → IsWithin x a → Covers result (logical_shift_of x) }
{
    lsr_by_rule(a)
}

/// A byte shifted right through the carry (ROR; AVR Instruction Set Manual): half of each end, and 128 more where the
/// carry is set; every byte
/// where the carry isn't known.
pub fn ror(a: Span, carry: Bit) -> Ranged
    ensures row { result ≡ ror_answer a carry }
    ensures holds { (x : ℕ) (c : Bool) → x < 256 → IsWithin x a → MayBe carry c → Covers result (rotation_of x c) }
{
    ror_by_rule(a, carry)
}

/// A byte shifted right with its sign kept (ASR; AVR Instruction Set Manual): half of each end with bit 7 as it was; every byte where bit 7
/// isn't known.
pub fn asr(a: Span) -> Ranged
    ensures row { result ≡ asr_answer a }
    ensures holds { (x : ℕ) → x < 256 → IsWithin x a → Covers result (arithmetic_shift_of x) }
{
    asr_by_rule(a)
}

/// The halves of a byte exchanged (SWAP; AVR Instruction Set Manual): every byte, unless it is known.
pub fn swap(a: Span) -> Span
    ensures row { result ≡ swap_answer a }
    ensures holds { (x : ℕ) → x < 256 → IsWithin x a → IsWithin (swap_of x).value result }
{
    swap_by_rule(a)
}

/// What [`lsr`] answers.
fn lsr_by_rule(a: Span) -> Ranged
    ensures { result ≡ lsr_answer a }
{
    if is_single(&a) {
        let (value, flags) = lsr8(a.lo());
        return exactly(value, flags);
    }
    arithmetic(a.lo() / 2, a.hi() / 2, Bit::Free)
}

/// What [`ror`] answers.
fn ror_by_rule(a: Span, carry: Bit) -> Ranged
    ensures { result ≡ ror_answer a carry }
{
    if is_single(&a) && is_fixed(carry) {
        let (value, flags) = ror8(a.lo(), is_set(carry));
        return exactly(value, flags);
    }
    if is_fixed(carry) {
        let top = least_of(carry) as u8 * 128;
        arithmetic(a.lo() / 2 + top, a.hi() / 2 + top, Bit::Free)
    } else {
        arithmetic(0, 255, Bit::Free)
    }
}

/// What [`asr`] answers.
fn asr_by_rule(a: Span) -> Ranged
    ensures { result ≡ asr_answer a }
{
    if is_single(&a) {
        let (value, flags) = asr8(a.lo());
        return exactly(value, flags);
    }
    if a.hi() < 128 {
        arithmetic(a.lo() / 2, a.hi() / 2, Bit::Free)
    } else if a.lo() >= 128 {
        arithmetic(a.lo() / 2 + 128, a.hi() / 2 + 128, Bit::Free)
    } else {
        arithmetic(0, 255, Bit::Free)
    }
}

/// What [`swap`] answers.
fn swap_by_rule(a: Span) -> Span
    ensures { result ≡ swap_answer a }
{
    if is_single(&a) {
        let value = a.lo() % 16 * 16 + a.lo() / 16;
        Span::between(value, value)
    } else {
        Span::between(0, 255)
    }
}

//! Bitwise operations on bytes in ranges, and operations of a register with itself.

ghost use Rattle.std.specs.Prelude.{◌≡◌, ◌<◌, ℕ, false};
ghost use Rattle.uz_core.specs.Arithmetic.{and_of, or_of, xor_of, complement_of, difference_of};
ghost use Rattle.uz_range.specs.Containment.{IsWithin, Covers};
ghost use Rattle.uz_range.specs.Rules.{and_answer, or_answer, xor_answer, com_answer, same_and_answer, same_xor_answer, same_sub_answer};

use crate::answer::{Ranged, exactly, is_single, logical};
use uz_core::{and8, com8, or8, sub8, xor8};
use uz_schedule::{Bit, Span};

/// The bits that two bytes share (AND, ANDI; AVR Instruction Set Manual): from 0 to the lesser upper end.
pub fn and(a: Span, b: Span) -> Ranged
    ensures row { result ≡ and_answer a b }
    ensures holds { (x y : ℕ) → IsWithin x a → IsWithin y b → Covers result (and_of x y) }
{
    and_by_rule(a, b)
}

/// The bits that either of two bytes has (OR, ORI; AVR Instruction Set Manual): from the greater lower end to 255.
pub fn or(a: Span, b: Span) -> Ranged
    ensures row { result ≡ or_answer a b }
    ensures holds { (x y : ℕ) → x < 256 → y < 256 → IsWithin x a → IsWithin y b → Covers result (or_of x y) }
{
    or_by_rule(a, b)
}

/// The bits in which two bytes exclusive_or (EOR; AVR Instruction Set Manual): every byte, unless both are known.
pub fn xor(a: Span, b: Span) -> Ranged
    ensures row { result ≡ xor_answer a b }
    ensures holds { (x y : ℕ) → x < 256 → y < 256 → IsWithin x a → IsWithin y b → Covers result (xor_of x y) }
{
    xor_by_rule(a, b)
}

/// 255 less a byte (COM; AVR Instruction Set Manual): the range turned round, with the carry set.
pub fn com(a: Span) -> Ranged
    ensures row { result ≡ com_answer a }
    ensures holds { (x : ℕ) → IsWithin x a → Covers result (complement_of x) }
{
    com_by_rule(a)
}

/// AND and OR of a register with itself (AVR Instruction Set Manual): the byte stays.
pub fn same_and(a: Span) -> Ranged
    ensures row { result ≡ same_and_answer a }
    ensures holds { (x : ℕ) → IsWithin x a → Covers result (and_of x x) }
{
    same_and_by_rule(a)
}

/// EOR of a register with itself (AVR Instruction Set Manual): 0, whatever the byte.
pub fn same_xor() -> Ranged
    ensures row { result ≡ same_xor_answer }
    ensures holds { (x : ℕ) → Covers result (xor_of x x) }
{
    same_xor_by_rule()
}

/// SUB of a register with itself (AVR Instruction Set Manual): 0, whatever the byte.
pub fn same_sub() -> Ranged
    ensures row { result ≡ same_sub_answer }
    ensures holds { (x : ℕ) → Covers result (difference_of x x false) }
{
    same_sub_by_rule()
}

/// What [`and`] answers.
fn and_by_rule(a: Span, b: Span) -> Ranged
    ensures { result ≡ and_answer a b }
{
    if is_single(&a) && is_single(&b) {
        let (value, flags) = and8(a.lo(), b.lo());
        return exactly(value, flags);
    }
    logical(0, a.hi().min(b.hi()), Bit::Free)
}

/// What [`or`] answers.
fn or_by_rule(a: Span, b: Span) -> Ranged
    ensures { result ≡ or_answer a b }
{
    if is_single(&a) && is_single(&b) {
        let (value, flags) = or8(a.lo(), b.lo());
        return exactly(value, flags);
    }
    logical(a.lo().max(b.lo()), 255, Bit::Free)
}

/// What [`xor`] answers.
fn xor_by_rule(a: Span, b: Span) -> Ranged
    ensures { result ≡ xor_answer a b }
{
    if is_single(&a) && is_single(&b) {
        let (value, flags) = xor8(a.lo(), b.lo());
        return exactly(value, flags);
    }
    logical(0, 255, Bit::Free)
}

/// What [`com`] answers.
fn com_by_rule(a: Span) -> Ranged
    ensures { result ≡ com_answer a }
{
    if is_single(&a) {
        let (value, flags) = com8(a.lo());
        return exactly(value, flags);
    }
    logical(255 - a.hi(), 255 - a.lo(), Bit::One)
}

/// What [`same_and`] answers.
fn same_and_by_rule(a: Span) -> Ranged
    ensures { result ≡ same_and_answer a }
{
    if is_single(&a) {
        let (value, flags) = and8(a.lo(), a.lo());
        return exactly(value, flags);
    }
    logical(a.lo(), a.hi(), Bit::Free)
}

/// What [`same_xor`] answers.
fn same_xor_by_rule() -> Ranged
    ensures { result ≡ same_xor_answer }
{
    let (value, flags) = xor8(0, 0);
    exactly(value, flags)
}

/// What [`same_sub`] answers.
fn same_sub_by_rule() -> Ranged
    ensures { result ≡ same_sub_answer }
{
    let (value, flags) = sub8(0, 0, false, true);
    exactly(value, flags)
}

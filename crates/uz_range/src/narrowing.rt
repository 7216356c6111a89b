//! Narrowing: what a branch or a skip tells of numbers that are known to lie in ranges, by the flag or the bit that
//! it tests (BRBS, BRBC, CPSE, SBRS, SBRC; AVR Instruction Set Manual). A flag is its bit in SREG: C 0, Z 1, N 2, V
//! 3, S 4, H 5, T 6.

ghost use Rattle.std.specs.Prelude.{◌≡◌, ◌<◌, ◌≤◌, ℕ, Some, false, nat_eq, nat_le};
ghost use Rattle.uz_core.specs.Arithmetic.{difference_of, pair_difference_of, bit_is_set};
ghost use Rattle.uz_range.specs.Containment.{IsWithin};
ghost use Rattle.uz_range.specs.Flags.{byte_flag, pair_flag, flag_after, difference_value};
ghost use Rattle.uz_range.specs.Narrowing.{narrowed as narrowed_ends, KeepsBoth, BothLieIn, by_value as by_value_ends};
ghost use Rattle.uz_range.specs.Narrowing.{result_narrowed as result_narrowed_ends, Keeps, LeftLiesIn};
ghost use Rattle.uz_range.specs.Narrowing.{bit_narrowed};

use crate::differences::narrowed;
use crate::results::{by_bit, by_value, result_narrowed};
use uz_schedule::{Span, Wide};

/// What is left of the ranges of two bytes, where a flag of the first less the second (CP, CPI; CPSE by Z) is set or
/// clear. By C, Z and S these are the least ranges; another flag leaves them as they are. None: no two bytes of the
/// ranges have the flag so.
pub fn narrow(flag: u8, is_set: bool, a: Span, b: Span) -> Option<(Span, Span)>
    ensures row { result ≡ narrowed_ends 128 flag is_set a b }
    ensures holds { (x y : ℕ) → x < 256 → y < 256 → IsWithin x a → IsWithin y b → byte_flag x y flag ≡ Some is_set → KeepsBoth x y result }
    ensures inside { BothLieIn a b result }
{
    narrow_bytes(flag, is_set, a, b)
}

/// What is left of the ranges of two pairs, where a flag of the first less the second (CP or CPI, and CPC) is set or
/// clear. By C, Z and S these are the least ranges; another flag leaves them as they are. None: no two pairs of the
/// ranges have the flag so.
pub fn narrow_pair(flag: u8, is_set: bool, a: Wide, b: Wide) -> Option<(Wide, Wide)>
    ensures row { result ≡ narrowed_ends 32768 flag is_set a b }
    ensures holds { (x y : ℕ) → x < 65536 → y < 65536 → IsWithin x a → IsWithin y b → pair_flag x y flag ≡ Some is_set
        → KeepsBoth x y result }
    ensures inside { BothLieIn a b result }
{
    narrow_pairs(flag, is_set, a, b)
}

/// What is left of the range `now` of a byte, which is one of `old` less `k` (SUBI), where a flag of that subtraction
/// is set or clear. None: no byte of `now` is made with the flag so.
pub fn narrow_result(flag: u8, is_set: bool, old: Span, k: u8, now: Span) -> Option<Span>
    ensures row { result ≡ result_narrowed_ends 128 flag is_set old k now }
    ensures holds { (x : ℕ) → x < 256 → IsWithin x old → IsWithin (difference_of x k false).value now → byte_flag x k flag ≡ Some is_set
        → Keeps (difference_of x k false).value result }
    ensures inside { LeftLiesIn now result }
{
    narrow_result_byte(flag, is_set, old, k, now)
}

/// What is left of the range `now` of a pair, which is one of `old` less `k` (SUBI and SBCI, or SBIW), where a flag
/// of that subtraction is set or clear. None: no pair of `now` is made with the flag so.
pub fn narrow_pair_result(flag: u8, is_set: bool, old: Wide, k: u16, now: Wide) -> Option<Wide>
    ensures row { result ≡ result_narrowed_ends 32768 flag is_set old k now }
    ensures holds { (x : ℕ) → x < 65536 → IsWithin x old → IsWithin (difference_value x k) now → pair_flag x k flag ≡ Some is_set
        → Keeps (difference_value x k) result }
    ensures constant { (x : ℕ) → x < 65536 → k < 64 → IsWithin x old → IsWithin (pair_difference_of x k).value now
        → flag_after (pair_difference_of x k) flag ≡ Some is_set → Keeps (pair_difference_of x k).value result }
    ensures inside { LeftLiesIn now result }
{
    narrow_result_pair(flag, is_set, old, k, now)
}

/// What is left of the range of a byte, where Z or N of the byte itself (INC, DEC, AND and others) is set or clear.
/// Another flag leaves it as it is. None: no byte of the range has the flag so.
pub fn narrow_value(flag: u8, is_set: bool, now: Span) -> Option<Span>
    ensures row { result ≡ by_value_ends 128 flag is_set now }
    ensures holds { (v : ℕ) → IsWithin v now → (flag ≡ 1 → nat_eq v 0 ≡ is_set) → (flag ≡ 2 → nat_le 128 v ≡ is_set) → Keeps v result }
    ensures inside { LeftLiesIn now result }
{
    narrow_byte(flag, is_set, now)
}

/// What is left of the range of a byte, where one of its bits (0 to 7) is 1 or 0 (SBRS, SBRC): the bytes that have it
/// so, where all bits above are the same in the whole range, and else the range. None: no byte of the range has the
/// bit so.
pub fn narrow_bit(bit: u8, is_set: bool, a: Span) -> Option<Span>
    requires { bit < 8 }
    ensures row { result ≡ bit_narrowed bit is_set a }
    ensures holds { (x : ℕ) → IsWithin x a → bit_is_set x bit ≡ is_set → Keeps x result }
    ensures inside { LeftLiesIn a result }
{
    narrow_by_bit(bit, is_set, a)
}

/// What [`narrow`] answers.
fn narrow_bytes(flag: u8, is_set: bool, a: Span, b: Span) -> Option<(Span, Span)>
    ensures row { result ≡ narrowed_ends 128 flag is_set a b }
    ensures inside { BothLieIn a b result }
{
    match narrowed(128, flag, is_set, wide_of(a), wide_of(b)) {
        Some(left) => Some((span_of(left.0), span_of(left.1))),
        None => None,
    }
}

/// What [`narrow_pair`] answers.
fn narrow_pairs(flag: u8, is_set: bool, a: Wide, b: Wide) -> Option<(Wide, Wide)>
    ensures row { result ≡ narrowed_ends 32768 flag is_set a b }
    ensures inside { BothLieIn a b result }
{
    narrowed(32768, flag, is_set, in_order(a), in_order(b))
}

/// What [`narrow_result`] answers.
fn narrow_result_byte(flag: u8, is_set: bool, old: Span, k: u8, now: Span) -> Option<Span>
    ensures row { result ≡ result_narrowed_ends 128 flag is_set old k now }
    ensures inside { LeftLiesIn now result }
{
    match result_narrowed(128, flag, is_set, wide_of(old), k as u16, wide_of(now)) {
        Some(left) => Some(span_of(left)),
        None => None,
    }
}

/// What [`narrow_pair_result`] answers.
fn narrow_result_pair(flag: u8, is_set: bool, old: Wide, k: u16, now: Wide) -> Option<Wide>
    ensures row { result ≡ result_narrowed_ends 32768 flag is_set old k now }
    ensures inside { LeftLiesIn now result }
{
    result_narrowed(32768, flag, is_set, old, k, in_order(now))
}

/// What [`narrow_value`] answers.
fn narrow_byte(flag: u8, is_set: bool, now: Span) -> Option<Span>
    ensures row { result ≡ by_value_ends 128 flag is_set now }
    ensures inside { LeftLiesIn now result }
{
    match by_value(128, flag, is_set, wide_of(now)) {
        Some(left) => Some(span_of(left)),
        None => None,
    }
}

/// What [`narrow_bit`] answers.
fn narrow_by_bit(bit: u8, is_set: bool, a: Span) -> Option<Span>
    requires { bit < 8 }
    ensures row { result ≡ bit_narrowed bit is_set a }
    ensures inside { LeftLiesIn a result }
{
    match by_bit(bit, is_set, wide_of(a)) {
        Some(left) => Some(span_of(left)),
        None => None,
    }
}

/// A range of pairs, whose ends are in order.
fn in_order(a: Wide) -> Wide
    ensures same { result ≡ a }
    ensures ordered { a.lo ≤ a.hi }
{
    Wide::between(a.lo(), a.hi())
}

/// A range of bytes as one of numbers.
fn wide_of(a: Span) -> Wide
    ensures same { result ≡ a }
    ensures fits { a.hi < 256 }
    ensures ordered { a.lo ≤ a.hi }
{
    Wide::between(a.lo() as u16, a.hi() as u16)
}

/// A range of numbers that are bytes.
fn span_of(a: Wide) -> Span
    requires { a.hi < 256 }
    ensures { result ≡ a }
{
    Span::between(a.lo() as u8, a.hi() as u8)
}

//! What a range rule answers: a range and flags, and the shapes that answers have.

ghost use Rattle.std.specs.Prelude.{◌≡◌, ◌≤◌, ◌<◌};
ghost use Rattle.uz_core.specs.Arithmetic.{alu_result, flag_at};
ghost use Rattle.uz_range.specs.Answers.{is_single as is_single_range, is_known as is_known_flag, least_carry};
ghost use Rattle.uz_range.specs.Answers.{most_carry, is_one, flag_of, exact_answer, zero_flag, negative_flag};
ghost use Rattle.uz_range.specs.Answers.{arithmetic_answer, logic_answer, exact_wide_answer, negative_wide_flag};
ghost use Rattle.uz_range.specs.Answers.{wide_answer};

use uz_core::Flags;
use uz_schedule::{Bit, Span, Wide};

/// The range of a byte after an instruction, and of each flag C, Z, N, V, S, H, T what is known. A flag that the instruction keeps is
/// [`Bit::Free`] here.
#[derive(Clone, Copy)]
pub struct Ranged {
    /// The bytes that the result may be.
    pub span: Span,
    /// The flags C, Z, N, V, S, H, T, in this order.
    pub flags: [Bit; 7],
}

/// The range of a pair of registers after an instruction, and of each flag C, Z, N, V, S, H, T what is known.
#[derive(Clone, Copy)]
pub struct WideRanged {
    /// The numbers that the pair may be, high byte times 256 plus low byte.
    pub span: Wide,
    /// The flags C, Z, N, V, S, H, T, in this order.
    pub flags: [Bit; 7],
}

/// Whether a range holds a single byte.
pub fn is_single(a: &Span) -> bool
    ensures { result ≡ is_single_range a.now }
{
    a.lo() == a.hi()
}

/// Whether a range holds a single pair.
pub fn is_single_wide(a: &Wide) -> bool
    ensures { result ≡ is_single_range a.now }
{
    a.lo() == a.hi()
}

/// Whether a flag is known to be 0 or 1.
pub fn is_fixed(b: Bit) -> bool
    ensures { result ≡ is_known_flag b }
{
    matches!(b, Bit::Zero | Bit::One)
}

/// Whether a flag is known to be 1.
pub fn is_set(b: Bit) -> bool
    ensures { result ≡ is_one b }
{
    matches!(b, Bit::One)
}

/// The least that a carry adds.
pub fn least_of(b: Bit) -> u16
    ensures { result ≡ least_carry b }
{
    if is_set(b) { 1 } else { 0 }
}

/// The most that a carry adds.
pub fn most_of(b: Bit) -> u16
    ensures { result ≡ most_carry b }
{
    if matches!(b, Bit::Zero) { 0 } else { 1 }
}

/// What an exact result says of flag k (C, Z, N, V, S, H, T).
fn flag_bit(flags: Flags, k: u8) -> Bit
    requires { k < 7 }
    ensures { result ≡ flag_of (flag_at flags k) }
{
    if flags.mask >> k & 1 == 0 {
        Bit::Free
    } else if flags.value >> k & 1 == 1 {
        Bit::One
    } else {
        Bit::Zero
    }
}

/// The answer of a known byte with its flags.
pub fn exactly(value: u8, flags: Flags) -> Ranged
    ensures { result ≡ exact_answer (alu_result (value, flags)) }
{
    Ranged {
        span: Span::between(value, value),
        flags: [
            flag_bit(flags, 0),
            flag_bit(flags, 1),
            flag_bit(flags, 2),
            flag_bit(flags, 3),
            flag_bit(flags, 4),
            flag_bit(flags, 5),
            flag_bit(flags, 6),
        ],
    }
}

/// Z of a range: 0 where 0 is below it.
fn flag_of_zero(lo: u8) -> Bit
    ensures { result ≡ zero_flag lo }
{
    if lo > 0 { Bit::Zero } else { Bit::Free }
}

/// N of a range: its bit 7 where that is known.
fn flag_of_negative(lo: u8, hi: u8) -> Bit
    ensures { result ≡ negative_flag lo hi }
{
    if hi < 128 {
        Bit::Zero
    } else if lo >= 128 {
        Bit::One
    } else {
        Bit::Free
    }
}

/// A range with its carry; V, S and H are left open.
pub fn arithmetic(lo: u8, hi: u8, carry: Bit) -> Ranged
    requires { lo ≤ hi }
    ensures { result ≡ arithmetic_answer lo hi carry }
{
    Ranged {
        span: Span::between(lo, hi),
        flags: [
            carry,
            flag_of_zero(lo),
            flag_of_negative(lo, hi),
            Bit::Free,
            Bit::Free,
            Bit::Free,
            Bit::Free,
        ],
    }
}

/// A range of a logical row: V is 0 and S is N.
pub fn logical(lo: u8, hi: u8, carry: Bit) -> Ranged
    requires { lo ≤ hi }
    ensures { result ≡ logic_answer lo hi carry }
{
    let negative = flag_of_negative(lo, hi);
    Ranged {
        span: Span::between(lo, hi),
        flags: [
            carry,
            flag_of_zero(lo),
            negative,
            Bit::Zero,
            negative,
            Bit::Free,
            Bit::Free,
        ],
    }
}

/// The answer of a known pair with its flags.
pub fn exactly_wide(value: u16, flags: Flags) -> WideRanged
    ensures { result ≡ exact_wide_answer (alu_result (value, flags)) }
{
    WideRanged {
        span: Wide::between(value, value),
        flags: [
            flag_bit(flags, 0),
            flag_bit(flags, 1),
            flag_bit(flags, 2),
            flag_bit(flags, 3),
            flag_bit(flags, 4),
            flag_bit(flags, 5),
            flag_bit(flags, 6),
        ],
    }
}

/// N of a range of pairs: its bit 15 where that is known.
fn wide_flag_of_negative(lo: u16, hi: u16) -> Bit
    ensures { result ≡ negative_wide_flag lo hi }
{
    if hi < 32768 {
        Bit::Zero
    } else if lo >= 32768 {
        Bit::One
    } else {
        Bit::Free
    }
}

/// A range of pairs with its carry; V, S and H are left open.
pub fn wide_arithmetic(lo: u16, hi: u16, carry: Bit) -> WideRanged
    requires { lo ≤ hi }
    ensures { result ≡ wide_answer lo hi carry }
{
    let zero = if lo > 0 { Bit::Zero } else { Bit::Free };
    WideRanged {
        span: Wide::between(lo, hi),
        flags: [
            carry,
            zero,
            wide_flag_of_negative(lo, hi),
            Bit::Free,
            Bit::Free,
            Bit::Free,
            Bit::Free,
        ],
    }
}

//! Results and flags of the arithmetic instructions, as the AVR Instruction Set Manual gives them.
//!
//! Each call gives a result and the flags that the instruction sets or clears. The bits of SREG in the mask take the
//! value's; the other bits stay.

ghost use Rattle.std.specs.Prelude.{◌≡◌, ◌<◌, ◌≤◌, ◌+◌, ◌*◌, ◌/◌, ◌%◌, ◌*ℤ◌, ◌+ℤ◌, ◌-ℤ◌, pos, nat_eq, nat_le};
ghost use Rattle.uz_core.specs.declared.machine.Flags.{Flags};
ghost use Rattle.uz_core.specs.Arithmetic.{FitsMask, bit_value, signed, overflows, flags_cznvsh, flags_znvs};
ghost use Rattle.uz_core.specs.Arithmetic.{flags_cznvs, flags_cz, sum_of, difference_of, chained_result, and_of};
ghost use Rattle.uz_core.specs.Arithmetic.{or_of, xor_of, complement_of, negation_of, increment_of, decrement_of};
ghost use Rattle.uz_core.specs.Arithmetic.{shift_result, logical_shift_of, arithmetic_shift_of, rotation_of};
ghost use Rattle.uz_core.specs.Arithmetic.{pair_sum_of, pair_difference_of, factor, low_word, left_shift_of};
ghost use Rattle.uz_core.specs.Arithmetic.{product_of, flags_of, alu_result};
ghost use Rattle.uz_core.specs.FlagValues.{incremented_value, decremented_value};

use crate::Flags;

fn bit_value(b: bool) -> u8
    ensures { result ≡ bit_value b }
{
    if b { 1 } else { 0 }
}

/// A byte in two's complement, moved up by 128.
fn lifted(a: u8) -> u16
    ensures { pos result ≡ signed a +ℤ pos 128 }
{
    if a < 128 {
        u16::from(a) + 128
    } else {
        u16::from(a) - 128
    }
}

fn sum_overflows(a: u8, b: u8, carry: bool) -> bool
    ensures { result ≡ overflows (signed a +ℤ signed b +ℤ pos (bit_value carry)) }
{
    let sum = lifted(a) + lifted(b) + u16::from(bit_value(carry));
    sum < 128 || sum >= 384
}

fn difference_overflows(a: u8, b: u8, carry: bool) -> bool
    ensures { result ≡ overflows (signed a -ℤ signed b -ℤ pos (bit_value carry)) }
{
    let difference = lifted(a) + 512 - lifted(b) - u16::from(bit_value(carry));
    difference < 384 || difference >= 640
}

/// C, Z, N, V, S and H.
fn all_flags(c: bool, z: bool, n: bool, v: bool, h: bool) -> Flags
    ensures flags { flags_of result ≡ flags_cznvsh c z n v h }
    ensures mask { FitsMask result }
{
    Flags {
        value: bit_value(c)
            + bit_value(z) * 2
            + bit_value(n) * 4
            + bit_value(v) * 8
            + bit_value(n != v) * 16
            + bit_value(h) * 32,
        mask: 0x3F,
    }
}

/// C, Z, N, V and S.
fn shift_flags(c: bool, z: bool, n: bool, v: bool) -> Flags
    ensures flags { flags_of result ≡ flags_cznvs c z n v }
    ensures mask { FitsMask result }
{
    Flags {
        value: bit_value(c)
            + bit_value(z) * 2
            + bit_value(n) * 4
            + bit_value(v) * 8
            + bit_value(n != v) * 16,
        mask: 0x1F,
    }
}

/// Z, N, V and S.
fn logic_flags(z: bool, n: bool, v: bool) -> Flags
    ensures flags { flags_of result ≡ flags_znvs z n v }
    ensures mask { FitsMask result }
{
    Flags {
        value: bit_value(z) * 2 + bit_value(n) * 4 + bit_value(v) * 8 + bit_value(n != v) * 16,
        mask: 0x1E,
    }
}

/// C and Z.
fn product_flags(c: bool, z: bool) -> Flags
    ensures flags { flags_of result ≡ flags_cz c z }
    ensures mask { FitsMask result }
{
    Flags {
        value: bit_value(c) + bit_value(z) * 2,
        mask: 0x03,
    }
}

/// ADD and ADC: `a + b`, and one more with `carry`.
pub fn add8(a: u8, b: u8, carry: bool) -> (u8, Flags)
    ensures result { alu_result result ≡ sum_of a b carry }
    ensures mask { FitsMask result.1 }
{
    let c = u16::from(bit_value(carry));
    let sum = u16::from(a) + u16::from(b) + c;
    let low = u16::from(a % 16) + u16::from(b % 16) + c;
    let result = (sum % 256) as u8;
    let overflow = sum_overflows(a, b, carry);
    (
        result,
        all_flags(sum >= 256, result == 0, result >= 128, overflow, low >= 16),
    )
}

/// SUB, SUBI, SBC, SBCI, CP, CPI, CPC: `a - b`, and one less with `carry`. Z is set exactly where the result is 0 and
/// `zero` is true, which is the old Z of an instruction with carry and true of the others.
pub fn sub8(a: u8, b: u8, carry: bool, zero: bool) -> (u8, Flags)
    ensures result { alu_result result ≡ chained_result (difference_of a b carry) zero }
    ensures mask { FitsMask result.1 }
{
    let c = u16::from(bit_value(carry));
    let less = u16::from(b) + c;
    let result = ((u16::from(a) + 512 - less) % 256) as u8;
    let overflow = difference_overflows(a, b, carry);
    let half = u16::from(a % 16) < u16::from(b % 16) + c;
    (
        result,
        all_flags(
            u16::from(a) < less,
            result == 0 && zero,
            result >= 128,
            overflow,
            half,
        ),
    )
}

/// AND and ANDI.
pub fn and8(a: u8, b: u8) -> (u8, Flags)
    ensures result { alu_result result ≡ and_of a b }
    ensures mask { FitsMask result.1 }
{
    let result = a & b;
    (result, logic_flags(result == 0, result >= 128, false))
}

/// OR and ORI.
pub fn or8(a: u8, b: u8) -> (u8, Flags)
    ensures result { alu_result result ≡ or_of a b }
    ensures mask { FitsMask result.1 }
{
    let result = a | b;
    (result, logic_flags(result == 0, result >= 128, false))
}

/// EOR.
pub fn xor8(a: u8, b: u8) -> (u8, Flags)
    ensures result { alu_result result ≡ xor_of a b }
    ensures mask { FitsMask result.1 }
{
    let result = a ^ b;
    (result, logic_flags(result == 0, result >= 128, false))
}

/// Z, N, V and S of each result of INC, as they stand in SREG.
static INCREMENTED: [u8; 256] = [
    2, 0, 0, 0, 0, 0, 0, 0, 0, 0, 0, 0, 0, 0, 0, 0, 0, 0, 0, 0, 0, 0, 0, 0, 0, 0, 0, 0, 0, 0, 0, 0,
    0, 0, 0, 0, 0, 0, 0, 0, 0, 0, 0, 0, 0, 0, 0, 0, 0, 0, 0, 0, 0, 0, 0, 0, 0, 0, 0, 0, 0, 0, 0, 0,
    0, 0, 0, 0, 0, 0, 0, 0, 0, 0, 0, 0, 0, 0, 0, 0, 0, 0, 0, 0, 0, 0, 0, 0, 0, 0, 0, 0, 0, 0, 0, 0,
    0, 0, 0, 0, 0, 0, 0, 0, 0, 0, 0, 0, 0, 0, 0, 0, 0, 0, 0, 0, 0, 0, 0, 0, 0, 0, 0, 0, 0, 0, 0, 0,
    12, 20, 20, 20, 20, 20, 20, 20, 20, 20, 20, 20, 20, 20, 20, 20, 20, 20, 20, 20, 20, 20, 20, 20,
    20, 20, 20, 20, 20, 20, 20, 20, 20, 20, 20, 20, 20, 20, 20, 20, 20, 20, 20, 20, 20, 20, 20, 20,
    20, 20, 20, 20, 20, 20, 20, 20, 20, 20, 20, 20, 20, 20, 20, 20, 20, 20, 20, 20, 20, 20, 20, 20,
    20, 20, 20, 20, 20, 20, 20, 20, 20, 20, 20, 20, 20, 20, 20, 20, 20, 20, 20, 20, 20, 20, 20, 20,
    20, 20, 20, 20, 20, 20, 20, 20, 20, 20, 20, 20, 20, 20, 20, 20, 20, 20, 20, 20, 20, 20, 20, 20,
    20, 20, 20, 20, 20, 20, 20, 20,
];

#[tactic(auto, using(crate::proofs::FlagTables::incremented_at))]
fn incremented_value(counted: u8) -> u8
    ensures { result ≡ incremented_value counted }
{
    INCREMENTED[counted as usize]
}

/// Z, N, V and S of a result of INC.
fn incremented_flags(counted: u8) -> Flags
    ensures flags { flags_of result ≡ flags_znvs (nat_eq counted 0) (nat_le 128 counted) (nat_eq counted 128) }
    ensures mask { FitsMask result }
{
    Flags {
        value: incremented_value(counted),
        mask: 0x1E,
    }
}

/// Z, N, V and S of each result of DEC, as they stand in SREG.
static DECREMENTED: [u8; 256] = [
    2, 0, 0, 0, 0, 0, 0, 0, 0, 0, 0, 0, 0, 0, 0, 0, 0, 0, 0, 0, 0, 0, 0, 0, 0, 0, 0, 0, 0, 0, 0, 0,
    0, 0, 0, 0, 0, 0, 0, 0, 0, 0, 0, 0, 0, 0, 0, 0, 0, 0, 0, 0, 0, 0, 0, 0, 0, 0, 0, 0, 0, 0, 0, 0,
    0, 0, 0, 0, 0, 0, 0, 0, 0, 0, 0, 0, 0, 0, 0, 0, 0, 0, 0, 0, 0, 0, 0, 0, 0, 0, 0, 0, 0, 0, 0, 0,
    0, 0, 0, 0, 0, 0, 0, 0, 0, 0, 0, 0, 0, 0, 0, 0, 0, 0, 0, 0, 0, 0, 0, 0, 0, 0, 0, 0, 0, 0, 0,
    24, 20, 20, 20, 20, 20, 20, 20, 20, 20, 20, 20, 20, 20, 20, 20, 20, 20, 20, 20, 20, 20, 20, 20,
    20, 20, 20, 20, 20, 20, 20, 20, 20, 20, 20, 20, 20, 20, 20, 20, 20, 20, 20, 20, 20, 20, 20, 20,
    20, 20, 20, 20, 20, 20, 20, 20, 20, 20, 20, 20, 20, 20, 20, 20, 20, 20, 20, 20, 20, 20, 20, 20,
    20, 20, 20, 20, 20, 20, 20, 20, 20, 20, 20, 20, 20, 20, 20, 20, 20, 20, 20, 20, 20, 20, 20, 20,
    20, 20, 20, 20, 20, 20, 20, 20, 20, 20, 20, 20, 20, 20, 20, 20, 20, 20, 20, 20, 20, 20, 20, 20,
    20, 20, 20, 20, 20, 20, 20, 20, 20,
];

#[tactic(auto, using(crate::proofs::FlagTables::decremented_at))]
fn decremented_value(counted: u8) -> u8
    ensures { result ≡ decremented_value counted }
{
    DECREMENTED[counted as usize]
}

/// Z, N, V and S of a result of DEC.
fn decremented_flags(counted: u8) -> Flags
    ensures flags { flags_of result ≡ flags_znvs (nat_eq counted 0) (nat_le 128 counted) (nat_eq counted 127) }
    ensures mask { FitsMask result }
{
    Flags {
        value: decremented_value(counted),
        mask: 0x1E,
    }
}

/// INC. V is set where the result is 0x80.
pub fn inc8(a: u8) -> (u8, Flags)
    ensures result { alu_result result ≡ increment_of a }
    ensures mask { FitsMask result.1 }
{
    let result = ((u16::from(a) + 1) % 256) as u8;
    (result, incremented_flags(result))
}

/// DEC. V is set where the result is 0x7F.
pub fn dec8(a: u8) -> (u8, Flags)
    ensures result { alu_result result ≡ decrement_of a }
    ensures mask { FitsMask result.1 }
{
    let result = ((u16::from(a) + 255) % 256) as u8;
    (result, decremented_flags(result))
}

/// COM: `255 - a`. C is set.
pub fn com8(a: u8) -> (u8, Flags)
    ensures result { alu_result result ≡ complement_of a }
    ensures mask { FitsMask result.1 }
{
    let result = 255 - a;
    (result, shift_flags(true, result == 0, result >= 128, false))
}

/// NEG: `0 - a`.
pub fn neg8(a: u8) -> (u8, Flags)
    ensures result { alu_result result ≡ negation_of a }
    ensures mask { FitsMask result.1 }
{
    sub8(0, a, false, true)
}

/// The flags of a shift of `a` to the right.
fn shifted(a: u8, moved: u8) -> (u8, Flags)
    ensures result { alu_result result ≡ shift_result a moved }
    ensures mask { FitsMask result.1 }
{
    let carry = a % 2 == 1;
    let negative = moved >= 128;
    (
        moved,
        shift_flags(carry, moved == 0, negative, negative != carry),
    )
}

/// LSR: a 0 comes in at bit 7.
pub fn lsr8(a: u8) -> (u8, Flags)
    ensures result { alu_result result ≡ logical_shift_of a }
    ensures mask { FitsMask result.1 }
{
    shifted(a, a / 2)
}

/// ASR: bit 7 stays.
pub fn asr8(a: u8) -> (u8, Flags)
    ensures result { alu_result result ≡ arithmetic_shift_of a }
    ensures mask { FitsMask result.1 }
{
    shifted(a, a / 2 + a / 128 * 128)
}

/// ROR: `carry`, the old C, comes in at bit 7.
pub fn ror8(a: u8, carry: bool) -> (u8, Flags)
    ensures result { alu_result result ≡ rotation_of a carry }
    ensures mask { FitsMask result.1 }
{
    shifted(a, a / 2 + bit_value(carry) * 128)
}

/// ADIW: a pair and a constant. N is bit 15 of the result.
pub fn add16(a: u16, k: u8) -> (u16, Flags)
    ensures result { alu_result result ≡ pair_sum_of a k }
    ensures mask { FitsMask result.1 }
{
    let result = ((u32::from(a) + u32::from(k)) % 65536) as u16;
    let before = a >= 32768;
    let after = result >= 32768;
    (
        result,
        shift_flags(!after && before, result == 0, after, !before && after),
    )
}

/// SBIW: a pair less a constant. N is bit 15 of the result.
pub fn sub16(a: u16, k: u8) -> (u16, Flags)
    ensures result { alu_result result ≡ pair_difference_of a k }
    ensures mask { FitsMask result.1 }
{
    let result = ((u32::from(a) + 65536 - u32::from(k)) % 65536) as u16;
    let before = a >= 32768;
    let after = result >= 32768;
    (
        result,
        shift_flags(after && !before, result == 0, after, before && !after),
    )
}

/// A byte as a number, in two's complement or not.
fn factor(a: u8, is_signed: bool) -> i16
    ensures { result ≡ factor a is_signed }
{
    if is_signed && a >= 128 {
        i16::from(a) - 256
    } else {
        i16::from(a)
    }
}

/// The low 16 bits of a product.
fn low_product(x: i16, y: i16) -> u16
    ensures { result ≡ low_word (x *ℤ y) }
{
    x.wrapping_mul(y).cast_unsigned()
}

fn left_shift(shifted: bool, word: u16) -> u16
    ensures { result ≡ left_shift_of shifted word }
{
    if shifted { word.wrapping_mul(2) } else { word }
}

/// MUL, MULS, MULSU, and with `shifted` FMUL, FMULS, FMULSU: the low 16 bits of the product, shifted left by one with
/// `shifted`. C is bit 15 of the product before the shift.
pub fn mul16(a: u8, b: u8, a_signed: bool, b_signed: bool, shifted: bool) -> (u16, Flags)
    ensures result { alu_result result ≡ product_of a b a_signed b_signed shifted }
    ensures mask { FitsMask result.1 }
{
    let product = low_product(factor(a, a_signed), factor(b, b_signed));
    let result = left_shift(shifted, product);
    (result, product_flags(product >= 32768, result == 0))
}

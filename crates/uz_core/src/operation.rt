//! Operations of an effect, with C and Z from the status register.

ghost use Rattle.std.specs.Prelude.{◌≡◌, ◌<◌};
ghost use Rattle.uz_core.specs.Core.{binary_result, unary_result, add_to_pair_result};
ghost use Rattle.uz_core.specs.Arithmetic.{FitsMask, bit_is_set, with_bit, swap_of, alu_result};

use crate::arithmetic::{
    add8, add16, and8, asr8, com8, dec8, inc8, lsr8, neg8, or8, ror8, sub8, sub16, xor8,
};
use crate::{BinaryOp, Flags, UnaryOp};

/// The bits of C, Z, T and I in SREG.
const C: u8 = 0;

const Z: u8 = 1;

pub(crate) const T: u8 = 6;

pub(crate) const I: u8 = 7;

pub(crate) fn bit_is_set(n: u8, k: u8) -> bool
    requires { k < 8 }
    ensures { result ≡ bit_is_set n k }
{
    n >> k & 1 == 1
}

/// A byte with bit `k` (0 to 7) set, or cleared.
pub fn with_bit(k: u8, set: bool, n: u8) -> u8
    requires { k < 8 }
    ensures { result ≡ with_bit k set n }
{
    if set {
        n | 1 << k
    } else {
        n & (255 - (1 << k))
    }
}

pub(crate) fn binary(op: BinaryOp, a: u8, b: u8, sreg: u8) -> (u8, Flags)
    ensures result { alu_result result ≡ binary_result op a b sreg }
    ensures mask { FitsMask result.1 }
{
    match op {
        BinaryOp::Add { with_carry: false } => add8(a, b, false),
        BinaryOp::Add { with_carry: true } => add8(a, b, bit_is_set(sreg, C)),
        BinaryOp::Subtract { with_carry: false } => sub8(a, b, false, true),
        BinaryOp::Subtract { with_carry: true } => {
            sub8(a, b, bit_is_set(sreg, C), bit_is_set(sreg, Z))
        }
        BinaryOp::And => and8(a, b),
        BinaryOp::Or => or8(a, b),
        BinaryOp::Xor => xor8(a, b),
    }
}

/// SWAP: exchanges the halves of a byte, and leaves the flags.
fn swap8(a: u8) -> (u8, Flags)
    ensures result { alu_result result ≡ swap_of a }
    ensures mask { FitsMask result.1 }
{
    (a % 16 * 16 + a / 16, Flags { value: 0, mask: 0 })
}

pub(crate) fn unary(op: UnaryOp, a: u8, sreg: u8) -> (u8, Flags)
    ensures result { alu_result result ≡ unary_result op a sreg }
    ensures mask { FitsMask result.1 }
{
    match op {
        UnaryOp::Complement => com8(a),
        UnaryOp::Negate => neg8(a),
        UnaryOp::Swap => swap8(a),
        UnaryOp::Increment => inc8(a),
        UnaryOp::Decrement => dec8(a),
        UnaryOp::ArithmeticShiftRight => asr8(a),
        UnaryOp::LogicalShiftRight => lsr8(a),
        UnaryOp::RotateRight => ror8(a, bit_is_set(sreg, C)),
    }
}

pub(crate) fn add_to_pair(subtract: bool, pair: u16, constant: u8) -> (u16, Flags)
    ensures result { alu_result result ≡ add_to_pair_result subtract pair constant }
    ensures mask { FitsMask result.1 }
{
    if subtract {
        sub16(pair, constant)
    } else {
        add16(pair, constant)
    }
}

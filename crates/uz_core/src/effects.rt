//! The effect of each row of the instruction table.

ghost use Rattle.std.specs.Prelude.{◌≡◌, ◌<◌, ◌≤◌, ◌*◌};
ghost use Rattle.uz_core.specs.Effects.{signed_offset, effect_of};
ghost use Rattle.uz_core.specs.OperandRanges.{EffectFits};

use crate::{AddressMode, BinaryOp, Effect, JumpTarget, Operand, SkipTest, UnaryOp};
use avr_table::{Field, Instr, rows};

/// A number in two's complement, modulo the 32,768 words of the flash: one from `half` on is negative.
fn signed_offset<const BITS: u32>(half: u16, k: Field<BITS>) -> u16
    requires half { half < 4096 }
    requires short { k.value < 2 * half }
    ensures value { result ≡ signed_offset half k.entry.value }
    ensures below { result < 32768 }
{
    let k = k.value;
    if k < half { k } else { 32768 - (2 * half - k) }
}

/// The effect of one row, by its key and fields.
macro_rules! row_effect {
    (add($d:ident, $r:ident)) => {
        Effect::Binary {
            op: BinaryOp::Add { with_carry: false },
            d: $d.value as u8,
            source: Operand::Register($r.value as u8),
            compare: false,
        }
    };
    (adc($d:ident, $r:ident)) => {
        Effect::Binary {
            op: BinaryOp::Add { with_carry: true },
            d: $d.value as u8,
            source: Operand::Register($r.value as u8),
            compare: false,
        }
    };
    (adiw($d:ident, $k:ident)) => {
        Effect::AddToPair {
            d: 24 + 2 * $d.value as u8,
            constant: $k.value as u8,
            subtract: false,
        }
    };
    (sub($d:ident, $r:ident)) => {
        Effect::Binary {
            op: BinaryOp::Subtract { with_carry: false },
            d: $d.value as u8,
            source: Operand::Register($r.value as u8),
            compare: false,
        }
    };
    (subi($d:ident, $k:ident)) => {
        Effect::Binary {
            op: BinaryOp::Subtract { with_carry: false },
            d: 16 + $d.value as u8,
            source: Operand::Constant($k.value as u8),
            compare: false,
        }
    };
    (sbc($d:ident, $r:ident)) => {
        Effect::Binary {
            op: BinaryOp::Subtract { with_carry: true },
            d: $d.value as u8,
            source: Operand::Register($r.value as u8),
            compare: false,
        }
    };
    (sbci($d:ident, $k:ident)) => {
        Effect::Binary {
            op: BinaryOp::Subtract { with_carry: true },
            d: 16 + $d.value as u8,
            source: Operand::Constant($k.value as u8),
            compare: false,
        }
    };
    (sbiw($d:ident, $k:ident)) => {
        Effect::AddToPair {
            d: 24 + 2 * $d.value as u8,
            constant: $k.value as u8,
            subtract: true,
        }
    };
    (and($d:ident, $r:ident)) => {
        Effect::Binary {
            op: BinaryOp::And,
            d: $d.value as u8,
            source: Operand::Register($r.value as u8),
            compare: false,
        }
    };
    (andi($d:ident, $k:ident)) => {
        Effect::Binary {
            op: BinaryOp::And,
            d: 16 + $d.value as u8,
            source: Operand::Constant($k.value as u8),
            compare: false,
        }
    };
    (or($d:ident, $r:ident)) => {
        Effect::Binary {
            op: BinaryOp::Or,
            d: $d.value as u8,
            source: Operand::Register($r.value as u8),
            compare: false,
        }
    };
    (ori($d:ident, $k:ident)) => {
        Effect::Binary {
            op: BinaryOp::Or,
            d: 16 + $d.value as u8,
            source: Operand::Constant($k.value as u8),
            compare: false,
        }
    };
    (eor($d:ident, $r:ident)) => {
        Effect::Binary {
            op: BinaryOp::Xor,
            d: $d.value as u8,
            source: Operand::Register($r.value as u8),
            compare: false,
        }
    };
    (com($d:ident)) => {
        Effect::Unary { op: UnaryOp::Complement, d: $d.value as u8 }
    };
    (neg($d:ident)) => {
        Effect::Unary { op: UnaryOp::Negate, d: $d.value as u8 }
    };
    (inc($d:ident)) => {
        Effect::Unary { op: UnaryOp::Increment, d: $d.value as u8 }
    };
    (dec($d:ident)) => {
        Effect::Unary { op: UnaryOp::Decrement, d: $d.value as u8 }
    };
    (mul($d:ident, $r:ident)) => {
        Effect::Multiply {
            d: $d.value as u8,
            r: $r.value as u8,
            d_signed: false,
            r_signed: false,
            shifted: false,
        }
    };
    (muls($d:ident, $r:ident)) => {
        Effect::Multiply {
            d: 16 + $d.value as u8,
            r: 16 + $r.value as u8,
            d_signed: true,
            r_signed: true,
            shifted: false,
        }
    };
    (mulsu($d:ident, $r:ident)) => {
        Effect::Multiply {
            d: 16 + $d.value as u8,
            r: 16 + $r.value as u8,
            d_signed: true,
            r_signed: false,
            shifted: false,
        }
    };
    (fmul($d:ident, $r:ident)) => {
        Effect::Multiply {
            d: 16 + $d.value as u8,
            r: 16 + $r.value as u8,
            d_signed: false,
            r_signed: false,
            shifted: true,
        }
    };
    (fmuls($d:ident, $r:ident)) => {
        Effect::Multiply {
            d: 16 + $d.value as u8,
            r: 16 + $r.value as u8,
            d_signed: true,
            r_signed: true,
            shifted: true,
        }
    };
    (fmulsu($d:ident, $r:ident)) => {
        Effect::Multiply {
            d: 16 + $d.value as u8,
            r: 16 + $r.value as u8,
            d_signed: true,
            r_signed: false,
            shifted: true,
        }
    };
    (rjmp($k:ident)) => {
        Effect::Jump { target: JumpTarget::Relative(signed_offset(2048, $k)), call: false }
    };
    (ijmp()) => {
        Effect::Jump { target: JumpTarget::Indirect, call: false }
    };
    (jmp($k:ident)) => {
        Effect::Jump { target: JumpTarget::Absolute($k.value), call: false }
    };
    (rcall($k:ident)) => {
        Effect::Jump { target: JumpTarget::Relative(signed_offset(2048, $k)), call: true }
    };
    (icall()) => {
        Effect::Jump { target: JumpTarget::Indirect, call: true }
    };
    (call($k:ident)) => {
        Effect::Jump { target: JumpTarget::Absolute($k.value), call: true }
    };
    (ret()) => {
        Effect::Return { from_interrupt: false }
    };
    (reti()) => {
        Effect::Return { from_interrupt: true }
    };
    (cpse($d:ident, $r:ident)) => {
        Effect::SkipIf { test: SkipTest::Equal { d: $d.value as u8, r: $r.value as u8 } }
    };
    (cp($d:ident, $r:ident)) => {
        Effect::Binary {
            op: BinaryOp::Subtract { with_carry: false },
            d: $d.value as u8,
            source: Operand::Register($r.value as u8),
            compare: true,
        }
    };
    (cpc($d:ident, $r:ident)) => {
        Effect::Binary {
            op: BinaryOp::Subtract { with_carry: true },
            d: $d.value as u8,
            source: Operand::Register($r.value as u8),
            compare: true,
        }
    };
    (cpi($d:ident, $k:ident)) => {
        Effect::Binary {
            op: BinaryOp::Subtract { with_carry: false },
            d: 16 + $d.value as u8,
            source: Operand::Constant($k.value as u8),
            compare: true,
        }
    };
    (sbrc($r:ident, $b:ident)) => {
        Effect::SkipIf {
            test: SkipTest::RegisterBit { r: $r.value as u8, bit: $b.value as u8, set: false },
        }
    };
    (sbrs($r:ident, $b:ident)) => {
        Effect::SkipIf {
            test: SkipTest::RegisterBit { r: $r.value as u8, bit: $b.value as u8, set: true },
        }
    };
    (sbic($a:ident, $b:ident)) => {
        Effect::SkipIf {
            test: SkipTest::IoBit { address: 32 + $a.value as u8, bit: $b.value as u8, set: false },
        }
    };
    (sbis($a:ident, $b:ident)) => {
        Effect::SkipIf {
            test: SkipTest::IoBit { address: 32 + $a.value as u8, bit: $b.value as u8, set: true },
        }
    };
    (brbs($s:ident, $k:ident)) => {
        Effect::Branch { flag: $s.value as u8, set: true, offset: signed_offset(64, $k) }
    };
    (brbc($s:ident, $k:ident)) => {
        Effect::Branch { flag: $s.value as u8, set: false, offset: signed_offset(64, $k) }
    };
    (mov($d:ident, $r:ident)) => {
        Effect::CopyByte { d: $d.value as u8, source: Operand::Register($r.value as u8) }
    };
    (movw($d:ident, $r:ident)) => {
        Effect::CopyPair { d: 2 * $d.value as u8, r: 2 * $r.value as u8 }
    };
    (ldi($d:ident, $k:ident)) => {
        Effect::CopyByte { d: 16 + $d.value as u8, source: Operand::Constant($k.value as u8) }
    };
    (ld_x($d:ident)) => {
        Effect::Load {
            d: $d.value as u8,
            from: AddressMode::Displacement { pointer: 26, offset: 0 },
        }
    };
    (ld_x_inc($d:ident)) => {
        Effect::Load { d: $d.value as u8, from: AddressMode::PostIncrement { pointer: 26 } }
    };
    (ld_x_dec($d:ident)) => {
        Effect::Load { d: $d.value as u8, from: AddressMode::PreDecrement { pointer: 26 } }
    };
    (ld_y_inc($d:ident)) => {
        Effect::Load { d: $d.value as u8, from: AddressMode::PostIncrement { pointer: 28 } }
    };
    (ld_y_dec($d:ident)) => {
        Effect::Load { d: $d.value as u8, from: AddressMode::PreDecrement { pointer: 28 } }
    };
    (ld_z_inc($d:ident)) => {
        Effect::Load { d: $d.value as u8, from: AddressMode::PostIncrement { pointer: 30 } }
    };
    (ld_z_dec($d:ident)) => {
        Effect::Load { d: $d.value as u8, from: AddressMode::PreDecrement { pointer: 30 } }
    };
    (ldd($d:ident, $y:ident, $q:ident)) => {
        Effect::Load {
            d: $d.value as u8,
            from: AddressMode::Displacement { pointer: if $y.value == 1 { 28 } else { 30 }, offset: $q.value as u8 },
        }
    };
    (lds($d:ident, $k:ident)) => {
        Effect::Load { d: $d.value as u8, from: AddressMode::Direct($k.value) }
    };
    (st_x($r:ident)) => {
        Effect::Store {
            to: AddressMode::Displacement { pointer: 26, offset: 0 },
            r: $r.value as u8,
        }
    };
    (st_x_inc($r:ident)) => {
        Effect::Store { to: AddressMode::PostIncrement { pointer: 26 }, r: $r.value as u8 }
    };
    (st_x_dec($r:ident)) => {
        Effect::Store { to: AddressMode::PreDecrement { pointer: 26 }, r: $r.value as u8 }
    };
    (st_y_inc($r:ident)) => {
        Effect::Store { to: AddressMode::PostIncrement { pointer: 28 }, r: $r.value as u8 }
    };
    (st_y_dec($r:ident)) => {
        Effect::Store { to: AddressMode::PreDecrement { pointer: 28 }, r: $r.value as u8 }
    };
    (st_z_inc($r:ident)) => {
        Effect::Store { to: AddressMode::PostIncrement { pointer: 30 }, r: $r.value as u8 }
    };
    (st_z_dec($r:ident)) => {
        Effect::Store { to: AddressMode::PreDecrement { pointer: 30 }, r: $r.value as u8 }
    };
    (std($y:ident, $q:ident, $r:ident)) => {
        Effect::Store {
            to: AddressMode::Displacement { pointer: if $y.value == 1 { 28 } else { 30 }, offset: $q.value as u8 },
            r: $r.value as u8,
        }
    };
    (sts($k:ident, $r:ident)) => {
        Effect::Store { to: AddressMode::Direct($k.value), r: $r.value as u8 }
    };
    (lpm()) => {
        Effect::LoadProgram { d: 0, increment: false }
    };
    (lpm_z($d:ident)) => {
        Effect::LoadProgram { d: $d.value as u8, increment: false }
    };
    (lpm_z_inc($d:ident)) => {
        Effect::LoadProgram { d: $d.value as u8, increment: true }
    };
    (spm()) => {
        Effect::Stop
    };
    (in_($d:ident, $a:ident)) => {
        Effect::Load { d: $d.value as u8, from: AddressMode::Direct(32 + $a.value) }
    };
    (out($a:ident, $r:ident)) => {
        Effect::Store { to: AddressMode::Direct(32 + $a.value), r: $r.value as u8 }
    };
    (push($r:ident)) => {
        Effect::PushByte { r: $r.value as u8 }
    };
    (pop($d:ident)) => {
        Effect::PopByte { d: $d.value as u8 }
    };
    (lsr($d:ident)) => {
        Effect::Unary { op: UnaryOp::LogicalShiftRight, d: $d.value as u8 }
    };
    (ror($d:ident)) => {
        Effect::Unary { op: UnaryOp::RotateRight, d: $d.value as u8 }
    };
    (asr($d:ident)) => {
        Effect::Unary { op: UnaryOp::ArithmeticShiftRight, d: $d.value as u8 }
    };
    (swap($d:ident)) => {
        Effect::Unary { op: UnaryOp::Swap, d: $d.value as u8 }
    };
    (bset($s:ident)) => {
        Effect::WriteFlag { flag: $s.value as u8, set: true }
    };
    (bclr($s:ident)) => {
        Effect::WriteFlag { flag: $s.value as u8, set: false }
    };
    (sbi($a:ident, $b:ident)) => {
        Effect::WriteIoBit { address: 32 + $a.value as u8, bit: $b.value as u8, set: true }
    };
    (cbi($a:ident, $b:ident)) => {
        Effect::WriteIoBit { address: 32 + $a.value as u8, bit: $b.value as u8, set: false }
    };
    (bst($d:ident, $b:ident)) => {
        Effect::StoreBit { d: $d.value as u8, bit: $b.value as u8 }
    };
    (bld($d:ident, $b:ident)) => {
        Effect::LoadBit { d: $d.value as u8, bit: $b.value as u8 }
    };
    (break_()) => {
        Effect::NoOperation
    };
    (nop()) => {
        Effect::NoOperation
    };
    (sleep()) => {
        Effect::NoOperation
    };
    (wdr()) => {
        Effect::NoOperation
    };
}

/// A match over all rows, each with its effect.
macro_rules! effects {
    (($i:expr) $($variant:ident { $($field:ident $bits:literal),* } $key:ident $name:literal [$($operands:tt)*],
        words $words:literal, clocks ($next:literal, $taken:literal, $one:literal, $two:literal),
        fixed $mask:literal is $value:literal;)*) => {
        match $i {
            $(Instr::$variant { $($field),* } => row_effect!($key($($field),*)),)*
        }
    };
}

#[inline(always)]
fn effect_of_row(i: &Instr) -> Effect
    ensures { result ≡ effect_of i.now }
{
    rows!(effects(*i))
}

/// What an instruction does, without running it: its row's effect (AVR Instruction Set Manual). Its operands are in the
/// ranges and forms that instructions have: a pointer is X, Y or Z, a pair begins at an even register, a product is one of
/// six.
#[inline(always)]
pub fn effect(i: &Instr) -> Effect
    ensures value { result ≡ effect_of i.now }
    ensures fits { EffectFits result }
{
    effect_of_row(i)
}

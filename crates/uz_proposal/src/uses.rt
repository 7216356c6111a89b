//! The registers that an instruction reads and writes.

ghost use Rattle.std.specs.Prelude.{◌≡◌, ◌<◌};

use uz_core::{AddressMode, BinaryOp, Effect, JumpTarget, Operand, SkipTest};

/// A register's bit, none of a number that is no register's.
pub(crate) fn register_bit(register: u8) -> u32 {
    if register < 32 { 1u32 << register } else { 0 }
}

fn pair_bits(low: u8) -> u32 {
    register_bit(low) | register_bit(low.saturating_add(1))
}

fn operand_bit(operand: Operand) -> u32 {
    match operand {
        Operand::Register(r) => register_bit(r),
        Operand::Constant(_) => 0,
    }
}

/// The pointer of a load or a store.
fn pointer_bits(mode: AddressMode) -> u32 {
    match mode {
        AddressMode::Direct(_) => 0,
        AddressMode::Displacement { pointer, .. } => pair_bits(pointer),
        AddressMode::PostIncrement { pointer } => pair_bits(pointer),
        AddressMode::PreDecrement { pointer } => pair_bits(pointer),
    }
}

/// The pointer, if it is written.
fn moved_bits(mode: AddressMode) -> u32 {
    match mode {
        AddressMode::Direct(_) => 0,
        AddressMode::Displacement { .. } => 0,
        AddressMode::PostIncrement { pointer } => pair_bits(pointer),
        AddressMode::PreDecrement { pointer } => pair_bits(pointer),
    }
}

fn test_bits(test: SkipTest) -> u32 {
    match test {
        SkipTest::Equal { d, r } => register_bit(d) | register_bit(r),
        SkipTest::RegisterBit { r, .. } => register_bit(r),
        SkipTest::IoBit { .. } => 0,
    }
}

/// Whether the result is 0 whatever the register has: SUB and EOR of one with itself.
fn clears(op: BinaryOp, d: u8, source: Operand) -> bool {
    let clearing = match op {
        BinaryOp::Subtract { with_carry } => !with_carry,
        BinaryOp::Xor => true,
        _ => false,
    };
    match source {
        Operand::Register(r) => clearing && r == d,
        Operand::Constant(_) => false,
    }
}

fn binary_bits(op: BinaryOp, d: u8, source: Operand) -> u32 {
    if clears(op, d, source) {
        0
    } else {
        register_bit(d) | operand_bit(source)
    }
}

/// The registers that an instruction reads, a bit each, but for what PUSH reads.
pub(crate) fn registers_read(effect: &Effect) -> u32 {
    match *effect {
        Effect::CopyByte { source, .. } => operand_bit(source),
        Effect::CopyPair { r, .. } => pair_bits(r),
        Effect::Binary { op, d, source, .. } => binary_bits(op, d, source),
        Effect::Unary { d, .. } => register_bit(d),
        Effect::AddToPair { d, .. } => pair_bits(d),
        Effect::Multiply { d, r, .. } => register_bit(d) | register_bit(r),
        Effect::Load { from, .. } => pointer_bits(from),
        Effect::Store { to, r } => pointer_bits(to) | register_bit(r),
        Effect::LoadProgram { .. } => pair_bits(30),
        Effect::LoadBit { d, .. } => register_bit(d),
        Effect::StoreBit { d, .. } => register_bit(d),
        Effect::SkipIf { test } => test_bits(test),
        Effect::Jump {
            target: JumpTarget::Indirect,
            ..
        } => pair_bits(30),
        _ => 0,
    }
}

/// The registers that an instruction writes, a bit each.
pub(crate) fn registers_written(effect: &Effect) -> u32 {
    match *effect {
        Effect::CopyByte { d, .. } => register_bit(d),
        Effect::CopyPair { d, .. } => pair_bits(d),
        Effect::Binary { d, compare, .. } => if compare { 0 } else { register_bit(d) },
        Effect::Unary { d, .. } => register_bit(d),
        Effect::AddToPair { d, .. } => pair_bits(d),
        Effect::Multiply { .. } => pair_bits(0),
        Effect::Load { d, from } => register_bit(d) | moved_bits(from),
        Effect::Store { to, .. } => moved_bits(to),
        Effect::PopByte { d } => register_bit(d),
        Effect::LoadProgram { d, increment } => {
            register_bit(d) | if increment { pair_bits(30) } else { 0 }
        }
        Effect::LoadBit { d, .. } => register_bit(d),
        _ => 0,
    }
}

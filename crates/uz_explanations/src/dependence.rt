//! What an instruction depends on: registers, flags and bytes of the stack.

ghost use Rattle.std.specs.Prelude.{◌≡◌, ◌<◌, ◌+◌};
ghost use Rattle.uz_core.specs.OperandRanges.{EffectFits, AddressModeFits};
ghost use Rattle.uz_explanations.specs.Known.{is_operand, is_in_pair, is_pointer, is_tested, is_target, reads_register};
ghost use Rattle.uz_explanations.specs.Known.{reads_pair, is_carried, is_rotated, is_status, reads_flag, taken_slots};

use uz_core::{AddressMode, BinaryOp, Effect, JumpTarget, Operand, SkipTest, UnaryOp};

/// Whether an operand is a register.
fn is_register(operand: Operand, register: u8) -> bool
    ensures { result ≡ is_operand operand register }
{
    match operand {
        Operand::Register(r) => r == register,
        Operand::Constant(_) => false,
    }
}

/// Whether a register is one of a pair's.
fn is_in(pair: u8, register: u8) -> bool
    ensures { result ≡ is_in_pair pair register }
{
    pair == register || u16::from(pair) + 1 == u16::from(register)
}

/// Whether a register is one of the pointer's of a load or a store.
fn is_of_pointer(mode: AddressMode, register: u8) -> bool
    ensures { result ≡ is_pointer mode register }
{
    match mode {
        AddressMode::Direct(_) => false,
        AddressMode::Displacement { pointer, .. } => is_in(pointer, register),
        AddressMode::PostIncrement { pointer } => is_in(pointer, register),
        AddressMode::PreDecrement { pointer } => is_in(pointer, register),
    }
}

/// Whether a skip asks for a register.
fn is_asked(test: SkipTest, register: u8) -> bool
    ensures { result ≡ is_tested test register }
{
    match test {
        SkipTest::Equal { d, r } => d == register || r == register,
        SkipTest::RegisterBit { r, .. } => r == register,
        SkipTest::IoBit { .. } => false,
    }
}

/// Whether a jump goes where a register says.
fn leads(target: JumpTarget, register: u8) -> bool
    ensures { result ≡ is_target target register }
{
    match target {
        JumpTarget::Indirect => is_in(30, register),
        _ => false,
    }
}

/// Whether an effect depends on a register.
pub(crate) fn reads_register(e: Effect, register: u8) -> bool
    ensures { result ≡ reads_register e register }
{
    match e {
        Effect::CopyByte { source, .. } => is_register(source, register),
        Effect::CopyPair { r, .. } => is_in(r, register),
        Effect::Binary { d, source, .. } => d == register || is_register(source, register),
        Effect::Unary { d, .. } => d == register,
        Effect::AddToPair { d, .. } => is_in(d, register),
        Effect::Multiply { d, r, .. } => d == register || r == register,
        Effect::Load { from, .. } => is_of_pointer(from, register),
        Effect::Store { to, r } => is_of_pointer(to, register) || r == register,
        Effect::PushByte { r } => r == register,
        Effect::LoadProgram { .. } => is_in(30, register),
        Effect::LoadBit { d, .. } => d == register,
        Effect::StoreBit { d, .. } => d == register,
        Effect::SkipIf { test } => is_asked(test, register),
        Effect::Jump { target, .. } => leads(target, register),
        _ => false,
    }
}

/// Whether an effect depends on both bytes of a pair.
pub(crate) fn reads_pair(e: Effect, pair: u8) -> bool
    requires { pair < 31 }
    ensures { result ≡ reads_pair e pair }
{
    reads_register(e, pair) && reads_register(e, pair + 1)
}

/// Whether an operation on two bytes depends on a flag.
fn carries(op: BinaryOp, flag: u8) -> bool
    ensures { result ≡ is_carried op flag }
{
    match op {
        BinaryOp::Add { with_carry } => with_carry && flag == 0,
        BinaryOp::Subtract { with_carry } => with_carry && (flag == 0 || flag == 1),
        _ => false,
    }
}

/// Whether an operation on one register depends on a flag.
fn rotates(op: UnaryOp, flag: u8) -> bool
    ensures { result ≡ is_rotated op flag }
{
    match op {
        UnaryOp::RotateRight => flag == 0,
        _ => false,
    }
}

/// Whether a load is of the status register.
fn is_of_status(mode: AddressMode) -> bool
    ensures { result ≡ is_status mode }
{
    match mode {
        AddressMode::Direct(at) => at == 0x5F,
        _ => false,
    }
}

/// Whether an effect depends on a flag.
pub(crate) fn reads_flag(e: Effect, flag: u8) -> bool
    ensures { result ≡ reads_flag e flag }
{
    match e {
        Effect::Binary { op, .. } => carries(op, flag),
        Effect::Unary { op, .. } => rotates(op, flag),
        Effect::Load { from, .. } => is_of_status(from),
        Effect::LoadBit { .. } => flag == 6,
        Effect::Branch { flag: tested, .. } => tested == flag,
        _ => false,
    }
}

/// How many bytes of the stack an effect takes.
pub(crate) fn taken_slots(e: Effect) -> usize
    ensures { result ≡ taken_slots e }
{
    match e {
        Effect::PopByte { .. } => 1,
        Effect::Return {
            from_interrupt: false,
        } => 2,
        _ => 0,
    }
}

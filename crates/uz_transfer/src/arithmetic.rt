//! The classes of effect that change registers and flags alone.

ghost use Rattle.std.specs.Prelude.{◌≡◌, ◌<◌, ◌+◌, ◌&&◌, not, false, true, if◌then◌else◌, slice_set, nat_lt};
ghost use Rattle.uz_core.specs.OperandRanges.{OperandFits, EffectFits};
ghost use Rattle.uz_core.specs.declared.machine.Effect.TheVariants.{CopyByte, CopyPair, Binary, AddToPair};
ghost use Rattle.uz_schedule.specs.declared.facts.Val.TheVariants.{Range};
ghost use Rattle.uz_range.specs.Rules.{bld_answer, bst_answer};
ghost use Rattle.uz_transfer.specs.Values.{exact_pair as exact_range, span_of as span_of_val, value_at, flag_at};
ghost use Rattle.uz_transfer.specs.Values.{pair_range as range_of_pair, with_value, with_pair_range, with_pair_value};
ghost use Rattle.uz_transfer.specs.Values.{with_flag_list, merged_flags};
ghost use Rattle.uz_transfer.specs.Arithmetic.{known_operand, binary_answer as answer_of_binary, same_register_answer};
ghost use Rattle.uz_transfer.specs.Arithmetic.{is_same_register as names_itself, operation_answer};
ghost use Rattle.uz_transfer.specs.Arithmetic.{is_self_copy as copies, operation_value, binary_keeps};
ghost use Rattle.uz_transfer.specs.Arithmetic.{unary_answer as answer_of_unary, unary_keeps, add_to_pair_answer};
ghost use Rattle.uz_transfer.specs.Arithmetic.{pair_keeps, factors_answer, product_keeps};
ghost use Rattle.uz_transfer.specs.Transfer.{with_flag, bit_of_bool};

use crate::values::{
    exact_pair, flag, is_single_wide, merge_flags, pair_range, set_pair_range, set_pair_val,
    set_val, span, span_of, val,
};
use uz_core::{BinaryOp, Operand, UnaryOp};
use uz_range::{
    Form, Ranged, WideRanged, and, asr, bld, bst, chained, com, difference, lsr, negate, or,
    pair_add, pair_sub, product, ror, same_and, same_sub, same_xor, step_down, step_up, sum, swap,
    xor,
};
use uz_schedule::{Bit, Instance, Span, Val, Wide};

/// What is known of an operand.
fn operand(at: &Instance, source: Operand) -> Val
    requires { OperandFits source }
    ensures { result ≡ known_operand source at.now }
{
    match source {
        Operand::Register(r) => val(at, r),
        Operand::Constant(k) => Val::Range(Span::single(k)),
    }
}

/// MOV, LDI.
pub(crate) fn copy_byte(at: &mut Instance, d: u8, source: Operand)
    requires { EffectFits (CopyByte d source) }
    ensures { at.new ≡ with_value d (known_operand source at.old) at.old }
{
    let value = operand(at, source);
    set_val(at, d, value);
}

/// MOVW.
pub(crate) fn copy_pair(at: &mut Instance, d: u8, r: u8)
    requires { EffectFits (CopyPair d r) }
    ensures { at.new ≡ with_pair_range d (range_of_pair at.old r)
        (with_value (d + 1) (value_at at.old.regs (r + 1)) (with_value d (value_at at.old.regs r) at.old)) }
{
    let range = pair_range(at, r);
    let low = val(at, r);
    let high = val(at, r + 1);
    set_val(at, d, low);
    set_val(at, d + 1, high);
    set_pair_range(at, d, range);
}

/// The answer of an operation on two bytes.
fn binary_answer(op: BinaryOp, a: Span, b: Span, at: &Instance) -> Ranged
    ensures { result ≡ answer_of_binary op a b at.now }
{
    match op {
        BinaryOp::Add { with_carry: false } => sum(a, b, Bit::Zero),
        BinaryOp::Add { with_carry: true } => sum(a, b, flag(at, 0)),
        BinaryOp::Subtract { with_carry: false } => difference(a, b, Bit::Zero),
        BinaryOp::Subtract { with_carry: true } => chained(
            flag(at, 1),
            difference(a, b, flag(at, 0)),
        ),
        BinaryOp::And => and(a, b),
        BinaryOp::Or => or(a, b),
        BinaryOp::Xor => xor(a, b),
    }
}

/// The answer of an operation of a register with itself.
fn with_itself(op: BinaryOp, a: Span, at: &Instance) -> Ranged
    ensures { result ≡ same_register_answer op a at.now }
{
    match op {
        BinaryOp::Subtract { with_carry: false } => same_sub(),
        BinaryOp::And | BinaryOp::Or => same_and(a),
        BinaryOp::Xor => same_xor(),
        _ => binary_answer(op, a, a, at),
    }
}

/// Whether the second operand is the first one's register.
fn is_same_register(d: u8, source: Operand) -> bool
    ensures { result ≡ names_itself d source }
{
    match source {
        Operand::Register(r) => d == r,
        Operand::Constant(_) => false,
    }
}

/// Whether an operation of a register with itself copies it.
fn is_self_copy(op: BinaryOp) -> bool
    ensures { result ≡ copies op }
{
    matches!(op, BinaryOp::And | BinaryOp::Or)
}

/// The answer of an instruction with two operands.
fn answer(at: &Instance, op: BinaryOp, d: u8, source: Operand, compare: bool) -> Ranged
    requires { EffectFits (Binary op d source compare) }
    ensures { result ≡ operation_answer op d source compare at.now }
{
    let a = span(at, d);
    if is_same_register(d, source) && !compare {
        with_itself(op, a, at)
    } else {
        binary_answer(op, a, span_of(&operand(at, source)), at)
    }
}

/// What an instruction with two operands makes of its register.
fn value(at: &Instance, op: BinaryOp, d: u8, source: Operand, compare: bool) -> Val
    requires { EffectFits (Binary op d source compare) }
    ensures { result ≡ operation_value op d source compare at.now }
{
    if is_same_register(d, source) && is_self_copy(op) {
        val(at, d)
    } else {
        Val::Range(answer(at, op, d, source, compare).span)
    }
}

/// The flags of an instruction with two operands.
fn merge_binary(at: &mut Instance, op: BinaryOp, new: &[Bit; 7])
    ensures { at.new ≡ with_flag_list (merged_flags (binary_keeps op) new.now at.old.flags) at.old }
{
    match op {
        BinaryOp::Add { .. } | BinaryOp::Subtract { .. } => merge_flags(
            at,
            &[false, false, false, false, false, false, true],
            new,
        ),
        _ => merge_flags(at, &[true, false, false, false, false, true, true], new),
    }
}

/// ADD to EOR, and with `compare`, which keeps the register, CP, CPI, CPC.
pub(crate) fn binary(at: &mut Instance, op: BinaryOp, d: u8, source: Operand, compare: bool)
    requires { EffectFits (Binary op d source compare) }
    ensures { at.new ≡
        (if compare then with_flag_list (merged_flags (binary_keeps op)
        (operation_answer op d source compare at.old).flags at.old.flags) at.old
        else with_value d (operation_value op d source compare at.old)
        (with_flag_list (merged_flags (binary_keeps op)
        (operation_answer op d source compare at.old).flags at.old.flags) at.old)) }
{
    let answer = answer(at, op, d, source, compare);
    let value = value(at, op, d, source, compare);
    merge_binary(at, op, &answer.flags);
    if !compare {
        set_val(at, d, value);
    }
}

/// The answer of an instruction with one register.
fn unary_answer(op: UnaryOp, a: Span, at: &Instance) -> Ranged
    ensures { result ≡ answer_of_unary op a at.now }
{
    match op {
        UnaryOp::Complement => com(a),
        UnaryOp::Negate => negate(a),
        UnaryOp::Swap => Ranged {
            span: swap(a),
            flags: [
                Bit::Free,
                Bit::Free,
                Bit::Free,
                Bit::Free,
                Bit::Free,
                Bit::Free,
                Bit::Free,
            ],
        },
        UnaryOp::Increment => step_up(a),
        UnaryOp::Decrement => step_down(a),
        UnaryOp::ArithmeticShiftRight => asr(a),
        UnaryOp::LogicalShiftRight => lsr(a),
        UnaryOp::RotateRight => ror(a, flag(at, 0)),
    }
}

/// The flags of an instruction with one register.
fn merge_unary(at: &mut Instance, op: UnaryOp, new: &[Bit; 7])
    ensures { at.new ≡ with_flag_list (merged_flags (unary_keeps op) new.now at.old.flags) at.old }
{
    match op {
        UnaryOp::Negate => merge_flags(at, &[false, false, false, false, false, false, true], new),
        UnaryOp::Swap => merge_flags(at, &[true, true, true, true, true, true, true], new),
        UnaryOp::Increment | UnaryOp::Decrement => merge_flags(
            at,
            &[true, false, false, false, false, true, true],
            new,
        ),
        _ => merge_flags(at, &[false, false, false, false, false, true, true], new),
    }
}

/// COM, NEG, SWAP, INC, DEC, ASR, LSR, ROR.
pub(crate) fn unary(at: &mut Instance, op: UnaryOp, d: u8)
    requires { d < 32 }
    ensures { at.new ≡ with_value d (Range (answer_of_unary op (span_of_val (value_at at.old.regs d)) at.old).span)
        (with_flag_list (merged_flags (unary_keeps op)
        (answer_of_unary op (span_of_val (value_at at.old.regs d)) at.old).flags at.old.flags) at.old) }
{
    let answer = unary_answer(op, span(at, d), at);
    merge_unary(at, op, &answer.flags);
    set_val(at, d, Val::Range(answer.span));
}

/// A pair plus a constant, or less it.
fn pair_answer(subtract: bool, pair: Wide, constant: u8) -> WideRanged
    ensures { result ≡ add_to_pair_answer subtract pair constant }
{
    if subtract {
        pair_sub(pair, constant)
    } else {
        pair_add(pair, constant)
    }
}

/// ADIW, SBIW.
pub(crate) fn add_to_pair(at: &mut Instance, d: u8, constant: u8, subtract: bool)
    requires { EffectFits (AddToPair d constant subtract) }
    ensures { at.new ≡ with_pair_value d (add_to_pair_answer subtract (exact_range at.old d) constant).span
        (with_flag_list (merged_flags pair_keeps (add_to_pair_answer subtract (exact_range at.old d) constant).flags at.old.flags) at.old) }
{
    let answer = pair_answer(subtract, exact_pair(at, d), constant);
    merge_flags(
        at,
        &[false, false, false, false, false, true, true],
        &answer.flags,
    );
    set_pair_val(at, d, answer.span);
}

/// The answer of a product, by the signs of its factors. No row has a first factor without sign and a second with one.
fn factors(d_signed: bool, r_signed: bool, shifted: bool, a: Span, b: Span) -> WideRanged
    ensures { result ≡ factors_answer d_signed r_signed shifted a b }
{
    match (d_signed, r_signed, shifted) {
        (false, false, false) => product(a, b, Form::Mul),
        (true, true, false) => product(a, b, Form::Muls),
        (true, false, false) => product(a, b, Form::Mulsu),
        (false, false, true) => product(a, b, Form::Fmul),
        (true, true, true) => product(a, b, Form::Fmuls),
        (true, false, true) => product(a, b, Form::Fmulsu),
        (false, true, _) => WideRanged {
            span: Wide::between(0, 65535),
            flags: [
                Bit::Free,
                Bit::Free,
                Bit::Free,
                Bit::Free,
                Bit::Free,
                Bit::Free,
                Bit::Free,
            ],
        },
    }
}

/// MUL, MULS, MULSU, FMUL, FMULS, FMULSU.
pub(crate) fn multiply(
    at: &mut Instance,
    d: u8,
    r: u8,
    d_signed: bool,
    r_signed: bool,
    shifted: bool,
)
    requires low { d < 32 }
    requires high { r < 32 }
    ensures { at.new ≡ with_pair_value 0 (factors_answer d_signed r_signed shifted
        (span_of_val (value_at at.old.regs d)) (span_of_val (value_at at.old.regs r))).span
        (with_flag_list (merged_flags product_keeps
        (factors_answer d_signed r_signed shifted (span_of_val (value_at at.old.regs d))
        (span_of_val (value_at at.old.regs r))).flags at.old.flags) at.old) }
{
    let answer = factors(d_signed, r_signed, shifted, span(at, d), span(at, r));
    merge_flags(
        at,
        &[false, false, true, true, true, true, true],
        &answer.flags,
    );
    set_pair_val(at, 0, answer.span);
}

/// A flag, 0 to 6, is known anew.
pub(crate) fn set_flag(at: &mut Instance, k: u8, b: Bit)
    requires { k < 7 }
    ensures { at.new ≡ with_flag k b at.old }
{
    let mut flags = at.flags;
    flags[k as usize] = b;
    at.flags = flags;
}

/// A flag that is known.
pub(crate) fn known(set: bool) -> Bit
    ensures { result ≡ bit_of_bool set }
{
    if set { Bit::One } else { Bit::Zero }
}

/// BSET, BCLR; I is the kind's.
pub(crate) fn write_flag(at: &mut Instance, k: u8, set: bool)
    requires { k < 8 }
    ensures { at.new ≡ with_flag_list (if nat_lt k 7 then slice_set at.old.flags k (bit_of_bool set) else at.old.flags) at.old }
{
    if k < 7 {
        set_flag(at, k, known(set));
    }
}

/// BLD.
pub(crate) fn load_bit(at: &mut Instance, d: u8, bit: u8)
    requires register { d < 32 }
    requires bit { bit < 8 }
    ensures { at.new ≡ with_value d (Range (bld_answer (span_of_val (value_at at.old.regs d)) bit (flag_at at.old.flags 6))) at.old }
{
    let value = bld(span(at, d), bit, flag(at, 6));
    set_val(at, d, Val::Range(value));
}

/// BST.
pub(crate) fn store_bit(at: &mut Instance, d: u8, bit: u8)
    requires register { d < 32 }
    requires bit { bit < 8 }
    ensures { at.new ≡ with_flag 6 (bst_answer (span_of_val (value_at at.old.regs d)) bit) at.old }
{
    let value = bst(span(at, d), bit);
    set_flag(at, 6, value);
}

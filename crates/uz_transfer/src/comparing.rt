//! What the flags tell of main's last comparison or result, after an instruction.

ghost use Rattle.std.specs.Prelude.{◌≡◌, ◌<◌, ◌+◌, ◌*◌, ◌||◌, nat_eq, if◌then◌else◌, false, true};
ghost use Rattle.uz_core.specs.OperandRanges.{AddressModeFits, EffectFits};
ghost use Rattle.uz_core.specs.declared.machine.BinaryOp.TheVariants.{Subtract};
ghost use Rattle.uz_core.specs.declared.machine.Effect.TheVariants.{Store};
ghost use Rattle.uz_transfer.specs.Compared.{against_operand, borrowed as borrowed_by, chained as chained_by};
ghost use Rattle.uz_transfer.specs.Compared.{compared_after as compared_by, is_operand as operand_names, is_three as version_three};
ghost use Rattle.uz_transfer.specs.Compared.{knows_comparisons as comparisons_known, may_be_sreg as sreg_within, names as names_register};
ghost use Rattle.uz_transfer.specs.Compared.{past_pointer as pointer_passed, told_after as told_by_effect, told_by as told_by_binary};
ghost use Rattle.uz_transfer.specs.Compared.{unary_told as told_by_unary, unless_named as kept_unless};
ghost use Rattle.uz_transfer.specs.Compared.{unless_pair_named as kept_unless_pair, with_compared};

use crate::memory::{address_range, is_main};
use crate::values::{exact_pair, span};
use uz_core::{AddressMode, BinaryOp, Effect, Operand, UnaryOp};
use uz_schedule::{Against, Compared, Head, Instance, Kind, RuleVersion, Span, Wide, hull};

/// The data address of SREG (ATmega644 data sheet).
const SREG: u16 = 0x5F;

/// An operand as the second one of a comparison.
fn against(source: Operand) -> Against
    ensures { result ≡ against_operand source }
{
    match source {
        Operand::Register(r) => Against::Register(r),
        Operand::Constant(k) => Against::Constant(k),
    }
}

/// Whether the second operand of a comparison is this register.
fn is_operand(source: Against, q: u8) -> bool
    ensures { result ≡ operand_names source q }
{
    match source {
        Against::Register(r) => q == r,
        Against::Constant(_) => false,
    }
}

/// Whether a register is one of the pair with this low register.
fn is_of_pair(d: u8, q: u8) -> bool
    ensures { result ≡ (nat_eq q d || nat_eq q (d + 1)) }
{
    q == d || u16::from(q) == u16::from(d) + 1
}

/// Whether it names this register.
fn names(c: &Compared, q: u8) -> bool
    ensures { result ≡ names_register c.now q }
{
    match c {
        Compared::Nothing => false,
        Compared::Byte(d, source) => q == *d || is_operand(*source, q),
        Compared::Pair(d, low, high) => q == *d
            || (u16::from(q) == u16::from(*d) + 1 || (is_operand(*low, q) || q == *high)),
        Compared::Result(d, _, _) | Compared::Value(d) => q == *d,
        Compared::PairResult(d, _, _) => is_of_pair(*d, q),
    }
}

/// What is left of it where a register is written.
fn unless_named(d: u8, c: Compared) -> Compared
    ensures { result ≡ kept_unless d c }
{
    if names(&c, d) { Compared::Nothing } else { c }
}

/// What is left of it where a pair is written.
fn unless_pair_named(d: u8, c: Compared) -> Compared
    requires { d < 31 }
    ensures { result ≡ kept_unless_pair d c }
{
    unless_named(d + 1, unless_named(d, c))
}

/// What is left of it after a load or a store by this address.
fn past_pointer(mode: AddressMode, c: Compared) -> Compared
    requires { AddressModeFits mode }
    ensures { result ≡ pointer_passed mode c }
{
    match mode {
        AddressMode::PostIncrement { pointer } | AddressMode::PreDecrement { pointer } =>
            unless_pair_named(pointer, c),
        _ => c,
    }
}

/// Whether SREG may be at one of these addresses.
fn may_be_sreg(a: &Wide) -> bool
    ensures { result ≡ sreg_within a.now }
{
    a.lo() <= SREG && SREG <= a.hi()
}

/// CPC of the next register behind CP or CPI.
fn chained(next: u8, source: Operand, c: &Compared) -> Compared
    ensures { result ≡ chained_by next source c.now }
{
    match (source, c) {
        (Operand::Register(r), Compared::Byte(d, low)) => if u16::from(next) == u16::from(*d) + 1 {
            Compared::Pair(*d, *low, r)
        } else {
            Compared::Nothing
        },
        _ => Compared::Nothing,
    }
}

/// SBCI of the next register, whose byte was in `now`, behind SUBI.
fn borrowed(next: u8, k: u8, now: Span, c: &Compared) -> Compared
    ensures { result ≡ borrowed_by next k now c.now }
{
    match c {
        Compared::Result(d, low, old) => if u16::from(next) == u16::from(*d) + 1 {
            Compared::PairResult(*d, u16::from(*low) + 256 * u16::from(k), hull(*old, now))
        } else {
            Compared::Nothing
        },
        _ => Compared::Nothing,
    }
}

/// What an operation on two bytes tells that keeps its register: CP and CPI, CPC.
fn told_by_comparison(op: BinaryOp, d: u8, source: Operand, at: &Instance) -> Compared
    ensures { result ≡ told_by_binary op d source true at.now }
{
    match op {
        BinaryOp::Subtract { with_carry: false } => Compared::Byte(d, against(source)),
        BinaryOp::Subtract { with_carry: true } => chained(d, source, &at.compared),
        _ => Compared::Nothing,
    }
}

/// What a subtraction of a byte tells.
fn told_by_subtraction(with_carry: bool, d: u8, source: Operand, at: &Instance) -> Compared
    requires { d < 32 }
    ensures { result ≡ told_by_binary (Subtract with_carry) d source false at.now }
{
    match (with_carry, source) {
        (false, Operand::Constant(k)) => Compared::Result(d, k, span(at, d)),
        (false, Operand::Register(_)) => Compared::Value(d),
        (true, Operand::Constant(k)) => borrowed(d, k, span(at, d), &at.compared),
        (true, Operand::Register(_)) => Compared::Nothing,
    }
}

/// What an operation on two bytes tells.
fn told_by(op: BinaryOp, d: u8, source: Operand, compare: bool, at: &Instance) -> Compared
    requires { d < 32 }
    ensures { result ≡ told_by_binary op d source compare at.now }
{
    if compare {
        return told_by_comparison(op, d, source, at);
    }
    match op {
        BinaryOp::Subtract { with_carry } => told_by_subtraction(with_carry, d, source, at),
        _ => Compared::Value(d),
    }
}

/// What an operation on one register tells.
fn unary_told(op: UnaryOp, d: u8, c: Compared) -> Compared
    ensures { result ≡ told_by_unary op d c }
{
    match op {
        UnaryOp::Swap => unless_named(d, c),
        _ => Compared::Value(d),
    }
}

/// What a store leaves of it.
fn past_store(to: AddressMode, r: u8, at: &Instance) -> Compared
    requires { AddressModeFits to }
    ensures { result ≡ told_by_effect (Store to r) at.now }
{
    let _ = r; // said of in the contract alone
    if may_be_sreg(&address_range(at, to)) {
        Compared::Nothing
    } else {
        past_pointer(to, at.compared)
    }
}

/// What LPM leaves of it.
fn past_program_load(d: u8, increment: bool, c: Compared) -> Compared
    ensures { result ≡ kept_unless d (if increment then kept_unless_pair 30 c else c) }
{
    unless_named(
        d,
        if increment {
            unless_pair_named(30, c)
        } else {
            c
        },
    )
}

/// What an effect tells.
fn told_after(e: Effect, at: &Instance) -> Compared
    requires { EffectFits e }
    ensures { result ≡ told_by_effect e at.now }
{
    match e {
        Effect::CopyByte { d, .. } | Effect::PopByte { d } | Effect::LoadBit { d, .. } =>
            unless_named(d, at.compared),
        Effect::CopyPair { d, .. } => unless_pair_named(d, at.compared),
        Effect::Binary {
            op,
            d,
            source,
            compare,
        } => told_by(op, d, source, compare, at),
        Effect::Unary { op, d } => unary_told(op, d, at.compared),
        Effect::AddToPair {
            d,
            constant,
            subtract: true,
        } => Compared::PairResult(d, u16::from(constant), exact_pair(at, d)),
        Effect::AddToPair {
            subtract: false,
            ..
        }
        | Effect::Multiply { .. }
        | Effect::PushByte { .. }
        | Effect::WriteFlag { .. }
        | Effect::StoreBit { .. }
        | Effect::Jump { call: true, .. }
        | Effect::Return { .. } => Compared::Nothing,
        Effect::Load { d, from } => unless_named(d, past_pointer(from, at.compared)),
        Effect::Store { to, r } => past_store(to, r, at),
        Effect::LoadProgram { d, increment } => past_program_load(d, increment, at.compared),
        _ => at.compared,
    }
}

/// Whether the rules of this version know of comparisons.
fn is_three(version: RuleVersion) -> bool
    ensures { result ≡ version_three version }
{
    matches!(version, RuleVersion::Three)
}

/// Whether of instances of this kind comparisons are known.
pub(crate) fn knows_comparisons(head: &Head, kind: Kind) -> bool
    ensures { result ≡ comparisons_known head.now kind }
{
    is_three(head.version) && is_main(kind)
}

/// What the flags tell after an instruction.
fn compared_after(head: &Head, e: Effect, at: &Instance) -> Compared
    requires { EffectFits e }
    ensures { result ≡ compared_by head.now e at.now }
{
    if knows_comparisons(head, at.kind) {
        told_after(e, at)
    } else {
        Compared::Nothing
    }
}

/// Puts what the flags tell after an instruction of `at` into what is known after it.
pub(crate) fn put_compared(draft: &mut Instance, head: &Head, at: &Instance, e: Effect)
    requires { EffectFits e }
    ensures { draft.new ≡ with_compared (compared_by head.now e at.now) draft.old }
{
    draft.compared = compared_after(head, e, at);
}

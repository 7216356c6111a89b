//! Products of bytes in ranges.

ghost use Rattle.std.specs.Prelude.{◌≡◌, ℕ};
ghost use Rattle.uz_core.specs.Arithmetic.{alu_result};
ghost use Rattle.uz_range.specs.Containment.{IsWithin, CoversWide};
ghost use Rattle.uz_range.specs.Rules.{product_by, product_answer};

use crate::answer::{WideRanged, exactly_wide, is_single};
use uz_core::{Flags, mul16};
use uz_schedule::{Bit, Span, Wide};

/// The six products of the AVR Instruction Set Manual.
#[derive(Clone, Copy)]
pub enum Form {
    /// Unsigned by unsigned.
    Mul,
    /// Signed by signed.
    Muls,
    /// Signed by unsigned.
    Mulsu,
    /// Unsigned by unsigned, shifted left by one.
    Fmul,
    /// Signed by signed, shifted left by one.
    Fmuls,
    /// Signed by unsigned, shifted left by one.
    Fmulsu,
}

/// A product (MUL, MULS, MULSU, FMUL, FMULS, FMULSU; AVR Instruction Set Manual): every word, unless both factors are known.
pub fn product(a: Span, b: Span, form: Form) -> WideRanged
    ensures row { result ≡ product_answer a b form }
    ensures holds { (x y : ℕ) → IsWithin x a → IsWithin y b → CoversWide result (product_by form x y) }
{
    product_by_rule(a, b, form)
}

/// What [`product`] answers.
fn product_by_rule(a: Span, b: Span, form: Form) -> WideRanged
    ensures { result ≡ product_answer a b form }
{
    if is_single(&a) && is_single(&b) {
        let (value, flags) = multiply(a.lo(), b.lo(), form);
        return exactly_wide(value, flags);
    }
    WideRanged {
        span: Wide::between(0, 65535),
        flags: [
            Bit::Free,
            Bit::Free,
            Bit::Free,
            Bit::Free,
            Bit::Free,
            Bit::Free,
            Bit::Free,
        ],
    }
}

/// The product of two known bytes.
fn multiply(a: u8, b: u8, form: Form) -> (u16, Flags)
    ensures { alu_result result ≡ product_by form a b }
{
    match form {
        Form::Mul => mul16(a, b, false, false, false),
        Form::Muls => mul16(a, b, true, true, false),
        Form::Mulsu => mul16(a, b, true, false, false),
        Form::Fmul => mul16(a, b, false, false, true),
        Form::Fmuls => mul16(a, b, true, true, true),
        Form::Fmulsu => mul16(a, b, true, false, true),
    }
}

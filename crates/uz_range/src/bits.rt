//! Single bits of bytes in ranges.

ghost use Rattle.std.specs.Prelude.{◌≡◌, ◌<◌, ℕ, Bool, Some};
ghost use Rattle.uz_core.specs.Arithmetic.{with_bit as byte_with_bit, bit_is_set};
ghost use Rattle.uz_range.specs.Containment.{IsWithin, MayBe, Admits};
ghost use Rattle.uz_range.specs.Rules.{bld_answer, bst_answer};

use crate::answer::{is_fixed, is_set, is_single};
use uz_core::with_bit;
use uz_schedule::{Bit, Span};

/// A byte with one bit (0 to 7) set to T (BLD; AVR Instruction Set Manual): every byte, unless the byte and T are known.
pub fn bld(a: Span, bit: u8, t: Bit) -> Span
    requires { bit < 8 }
    ensures row { result ≡ bld_answer a bit t }
    ensures holds { (x : ℕ) (c : Bool) → x < 256 → IsWithin x a → MayBe t c → IsWithin (byte_with_bit bit c x) result }
{
    bld_by_rule(a, bit, t)
}

/// One bit (0 to 7) of a byte, for T (BST; AVR Instruction Set Manual). It is known where it is the same at both ends
/// with the bits above it.
pub fn bst(a: Span, bit: u8) -> Bit
    requires { bit < 8 }
    ensures row { result ≡ bst_answer a bit }
    ensures holds { (x : ℕ) → IsWithin x a → Admits result (Some (bit_is_set x bit)) }
{
    bst_by_rule(a, bit)
}

/// What [`bld`] answers.
fn bld_by_rule(a: Span, bit: u8, t: Bit) -> Span
    requires { bit < 8 }
    ensures { result ≡ bld_answer a bit t }
{
    if is_single(&a) && is_fixed(t) {
        let value = with_bit(bit, is_set(t), a.lo());
        Span::between(value, value)
    } else {
        Span::between(0, 255)
    }
}

/// What [`bst`] answers.
fn bst_by_rule(a: Span, bit: u8) -> Bit
    requires { bit < 8 }
    ensures { result ≡ bst_answer a bit }
{
    if a.lo() >> bit != a.hi() >> bit {
        Bit::Free
    } else if a.lo() >> bit & 1 == 1 {
        Bit::One
    } else {
        Bit::Zero
    }
}

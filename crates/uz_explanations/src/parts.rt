//! The parts of what an instance says.

ghost use Rattle.std.specs.Prelude.{◌≡◌, ◌≤◌, ◌+◌, ◌*◌, ◌++◌, ◌∷◌, [], OnOk, decimal, slice_index_or};
ghost use Rattle.uz_explanations.specs.Parts.{part_name, same_bit as same_bit_of};
ghost use Rattle.uz_explanations.specs.Parts.{same_ends, same_val as same_val_of};

use itoa::Buffer;
use std::alloc::AllocError;
use uz_schedule::{Bit, Kind, Span, Val, Wide};

/// A kind of parts, which are told apart by numbers from 0 on.
#[derive(Clone, Copy)]
pub(crate) enum Class {
    Register,
    /// X, Y and Z.
    Pair,
    /// C, Z, N, V, S, H and T.
    Flag,
    /// The bytes of the stack, from the bottom.
    Slot,
    /// The cells that this side follows.
    Cell(Kind),
}

/// What an instance says of a part.
#[derive(Clone, Copy)]
pub(crate) enum Value {
    Byte(Val),
    Pair(Wide),
    Flag(Bit),
}

/// The two ends of a range of bytes as one number, so that ranges are compared in one test.
fn both_ends(a: &Span) -> u16
    ensures is { result ≡ a.now.lo + 256 * a.now.hi }
    ensures low { a.now.lo ≤ 255 }
{
    u16::from(a.lo()) + 256 * u16::from(a.hi())
}

/// Whether two ranges of bytes are the same.
pub(crate) fn same_span(a: &Span, b: &Span) -> bool
    ensures { result ≡ same_ends a.now b.now }
{
    both_ends(a) == both_ends(b)
}

/// Whether two ranges of 16-bit numbers are the same.
pub(crate) fn same_wide(a: &Wide, b: &Wide) -> bool
    ensures { result ≡ same_ends a.now b.now }
{
    a.lo() == b.lo() && a.hi() == b.hi()
}

/// Whether the same is known of two bytes.
pub(crate) fn same_val(a: &Val, b: &Val) -> bool
    ensures { result ≡ same_val_of a.now b.now }
{
    match (a, b) {
        (Val::Range(a), Val::Range(b)) => same_span(a, b),
        (Val::Old(a), Val::Old(b)) => a == b,
        (Val::OldFlags, Val::OldFlags) => true,
        _ => false,
    }
}

/// Whether the same is known of two flags.
#[tactic(auto, using(crate::proofs::PartLemmas::bits_same))]
pub(crate) fn same_bit(a: Bit, b: Bit) -> bool
    ensures { result ≡ same_bit_of a b }
{
    a == b
}

/// Adds a word and a number.
pub(crate) fn add_numbered(text: &mut Vec<u8>, word: &[u8], number: usize) -> Result<(), AllocError>
    ensures { OnOk result (text.new.items ≡ text.old.items ++ word.now ++ decimal number) }
{
    text.extend_from_slice(word)?;
    text.extend_from_slice(Buffer::new().format(number).as_bytes())
}

/// Adds a word and the letter of this number.
fn add_letter(
    text: &mut Vec<u8>,
    word: &[u8],
    letters: &[u8],
    number: usize,
) -> Result<(), AllocError>
    ensures { OnOk result (text.new.items ≡ text.old.items ++ word.now ++ (slice_index_or letters.now number 32 ∷ [])) }
{
    text.extend_from_slice(word)?;
    text.push(letters.get(number).copied().unwrap_or(b' '))?;
    Ok(())
}

/// Adds the name of a part.
pub(crate) fn add_name(text: &mut Vec<u8>, class: Class, number: usize) -> Result<(), AllocError>
    ensures { OnOk result (text.new.items ≡ text.old.items ++ part_name class number) }
{
    match class {
        Class::Register => add_numbered(text, b"r", number),
        Class::Pair => add_letter(text, b"pair ", b"xyz", number),
        Class::Flag => add_letter(text, b"flag ", b"cznvsht", number),
        Class::Slot => add_numbered(text, b"s", number),
        Class::Cell(Kind::Main) => add_numbered(text, b"main m", number),
        Class::Cell(Kind::Handler) => add_numbered(text, b"handler m", number),
        Class::Cell(Kind::Alone) => add_numbered(text, b"alone m", number),
    }
}

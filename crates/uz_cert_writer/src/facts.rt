//! The words of ranges, facts and flags at the end of a text.

ghost use Rattle.std.specs.Prelude.{◌≡◌, ◌++◌, ◌∷◌, OnOk, decimal};
ghost use Rattle.uz_cert_lines.specs.Defaults.{range_fact as fact_of_range};
ghost use Rattle.uz_cert_writer.specs.Spelling.{range_word, ends_word, slope_word, fact_word, pair_word, flag_word};

use crate::words::{add_byte, add_decimal};
use std::alloc::AllocError;
use uz_schedule::{Bit, Fact, PairFact, Span, Wide};

/// Adds `n`, or `lo..hi`.
pub(crate) fn add_range(text: &mut Vec<u8>, lo: u16, hi: u16) -> Result<(), AllocError>
    ensures { OnOk result (text.new.items ≡ text.old.items ++ range_word (record { lo = lo; hi = hi })) }
{
    add_decimal(text, u32::from(lo))?;
    if lo != hi {
        text.extend_from_slice(b"..")?;
        add_decimal(text, u32::from(hi))?;
    }
    Ok(())
}

/// Adds a range's word, which is `*` for the whole range up to `top`.
fn add_ends(text: &mut Vec<u8>, top: u16, lo: u16, hi: u16) -> Result<(), AllocError>
    ensures { OnOk result (text.new.items ≡ text.old.items ++ ends_word top (record { lo = lo; hi = hi })) }
{
    if lo == 0 && hi == top {
        add_byte(text, b'*')
    } else {
        add_range(text, lo, hi)
    }
}

/// Adds the word of a byte's range.
pub(crate) fn add_span(text: &mut Vec<u8>, span: &Span) -> Result<(), AllocError>
    ensures { OnOk result (text.new.items ≡ text.old.items ++ ends_word 255 span.now) }
{
    add_ends(text, 255, u16::from(span.lo()), u16::from(span.hi()))
}

/// Adds `l*A+B` or `c*A+B`, by the letter.
fn add_slope(text: &mut Vec<u8>, letter: &[u8], a: u16, b: u16) -> Result<(), AllocError>
    ensures { OnOk result (text.new.items ≡ text.old.items ++ slope_word letter.now a b) }
{
    text.extend_from_slice(letter)?;
    add_byte(text, b'*')?;
    add_decimal(text, u32::from(a))?;
    add_byte(text, b'+')?;
    add_decimal(text, u32::from(b))
}

/// Adds `oR`.
fn add_old(text: &mut Vec<u8>, register: u8) -> Result<(), AllocError>
    ensures { OnOk result (text.new.items ≡ text.old.items ++ (111 ∷ decimal register)) }
{
    add_byte(text, b'o')?;
    add_decimal(text, u32::from(register))
}

/// Adds what is known of a byte, in the words of a certificate. The one error is want of memory.
pub fn add_fact(text: &mut Vec<u8>, fact: &Fact) -> Result<(), AllocError>
    ensures { OnOk result (text.new.items ≡ text.old.items ++ fact_word fact.now) }
{
    match *fact {
        Fact::Any => add_byte(text, b'*'),
        Fact::Between(span) => add_span(text, &span),
        Fact::Line(a, b) => add_slope(text, b"l", u16::from(a), u16::from(b)),
        Fact::Loop(a, b) => add_slope(text, b"c", u16::from(a), u16::from(b)),
        Fact::Old(r) => add_old(text, r),
        Fact::OldFlags => text.extend_from_slice(b"of"),
    }
}

/// Adds what is known of a pair, in the words of a certificate. The one error is want of memory.
pub fn add_pair_fact(text: &mut Vec<u8>, fact: &PairFact) -> Result<(), AllocError>
    ensures { OnOk result (text.new.items ≡ text.old.items ++ pair_word fact.now) }
{
    match *fact {
        PairFact::Any => add_byte(text, b'*'),
        PairFact::Between(wide) => add_ends(text, 65535, wide.lo(), wide.hi()),
        PairFact::Line(a, b) => add_slope(text, b"l", a, b),
        PairFact::Loop(a, b) => add_slope(text, b"c", a, b),
    }
}

/// The word of a flag, in a certificate.
pub fn flag(bit: Bit) -> &'static [u8]
    ensures { result.now ≡ flag_word bit }
{
    match bit {
        Bit::Zero => b"0",
        Bit::One => b"1",
        Bit::Free => b"?",
        Bit::Old => b"o",
    }
}

/// A range as a fact: the whole range is any byte.
pub(crate) fn range_fact(span: &Span) -> Fact
    ensures { result ≡ fact_of_range span.now }
{
    if span.lo() == 0 && span.hi() == 255 {
        Fact::Any
    } else {
        Fact::Between(*span)
    }
}

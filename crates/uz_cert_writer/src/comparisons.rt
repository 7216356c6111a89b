//! The words of what the flags tell at the end of a text.

ghost use Rattle.std.specs.Prelude.{◌≡◌, ◌++◌, OnOk, codes};
ghost use Rattle.uz_cert_lines.specs.Comparisons.{is_nothing as tells_nothing};
ghost use Rattle.uz_cert_writer.specs.Spelling.{two_word, three_word, four_word, comparison_word};
ghost use Rattle.uz_schedule.specs.declared.facts.Compared.TheVariants as told;

use crate::words::{add_byte, add_decimal};
use std::alloc::AllocError;
use uz_schedule::{Against, Compared};

/// Whether nothing is told.
pub(crate) fn is_nothing(compared: &Compared) -> bool
    ensures { result ≡ tells_nothing compared.now }
{
    match compared {
        Compared::Nothing => true,
        Compared::Byte(_, _) => false,
        Compared::Pair(_, _, _) => false,
        Compared::Result(_, _, _) => false,
        Compared::PairResult(_, _, _) => false,
        Compared::Value(_) => false,
    }
}

/// Adds two numbers with a comma between them.
fn add_two(text: &mut Vec<u8>, a: u32, b: u32) -> Result<(), AllocError>
    ensures { OnOk result (text.new.items ≡ text.old.items ++ two_word a b) }
{
    add_decimal(text, a)?;
    add_byte(text, b',')?;
    add_decimal(text, b)
}

/// Adds three numbers with commas between them.
fn add_three(text: &mut Vec<u8>, a: u32, b: u32, c: u32) -> Result<(), AllocError>
    ensures { OnOk result (text.new.items ≡ text.old.items ++ three_word a b c) }
{
    add_decimal(text, a)?;
    add_byte(text, b',')?;
    add_two(text, b, c)
}

/// Adds four numbers with commas between them.
fn add_four(text: &mut Vec<u8>, a: u32, b: u32, c: u32, d: u32) -> Result<(), AllocError>
    ensures { OnOk result (text.new.items ≡ text.old.items ++ four_word a b c d) }
{
    add_decimal(text, a)?;
    add_byte(text, b',')?;
    add_three(text, b, c, d)
}

/// Adds `cp:D,R` and `cpi:D,K`.
fn add_byte_told(text: &mut Vec<u8>, d: u8, source: Against) -> Result<(), AllocError>
    ensures { OnOk result (text.new.items ≡ text.old.items ++ comparison_word (told.Byte d source)) }
{
    match source {
        Against::Register(r) => {
            text.extend_from_slice(b"cp:")?;
            add_two(text, u32::from(d), u32::from(r))
        }
        Against::Constant(k) => {
            text.extend_from_slice(b"cpi:")?;
            add_two(text, u32::from(d), u32::from(k))
        }
    }
}

/// Adds `cpw:D,R,H` and `cpiw:D,K,H`.
fn add_pair_told(text: &mut Vec<u8>, d: u8, low: Against, high: u8) -> Result<(), AllocError>
    ensures { OnOk result (text.new.items ≡ text.old.items ++ comparison_word (told.Pair d low high)) }
{
    match low {
        Against::Register(r) => {
            text.extend_from_slice(b"cpw:")?;
            add_three(text, u32::from(d), u32::from(r), u32::from(high))
        }
        Against::Constant(k) => {
            text.extend_from_slice(b"cpiw:")?;
            add_three(text, u32::from(d), u32::from(k), u32::from(high))
        }
    }
}

/// Adds a name with its colon, and four numbers.
fn add_result(
    text: &mut Vec<u8>,
    name: &[u8],
    d: u8,
    k: u16,
    lo: u16,
    hi: u16,
) -> Result<(), AllocError>
    ensures { OnOk result (text.new.items ≡ text.old.items ++ (name.now ++ four_word d k lo hi)) }
{
    text.extend_from_slice(name)?;
    add_four(
        text,
        u32::from(d),
        u32::from(k),
        u32::from(lo),
        u32::from(hi),
    )
}

/// Adds `tst:D`.
fn add_value_told(text: &mut Vec<u8>, d: u8) -> Result<(), AllocError>
    ensures { OnOk result (text.new.items ≡ text.old.items ++ comparison_word (told.Value d)) }
{
    text.extend_from_slice(b"tst:")?;
    add_decimal(text, u32::from(d))
}

/// Adds the word of what the flags tell.
pub(crate) fn add_comparison(text: &mut Vec<u8>, compared: &Compared) -> Result<(), AllocError>
    ensures { OnOk result (text.new.items ≡ text.old.items ++ comparison_word compared.now) }
{
    match *compared {
        Compared::Nothing => Ok(()),
        Compared::Byte(d, source) => add_byte_told(text, d, source),
        Compared::Pair(d, low, high) => add_pair_told(text, d, low, high),
        Compared::Result(d, k, old) => {
            add_result(
                text,
                b"sub:",
                d,
                u16::from(k),
                u16::from(old.lo()),
                u16::from(old.hi()),
            )
        }
        Compared::PairResult(d, k, old) => add_result(text, b"subw:", d, k, old.lo(), old.hi()),
        Compared::Value(d) => add_value_told(text, d),
    }
}

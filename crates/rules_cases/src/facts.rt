//! What flags tell, in words: `r16-10` and `r16-r17` of a byte less another, `w24-10:r17` and `w24-r26:r27` of a pair less another,
//! `r16<0..9-1` and `w24<0..300-1` of a byte or a pair that came of a range less a constant, `r16` of a byte's own value.

use anyhow::Result;
use uz_schedule::{Against, Compared, Span, Wide};

/// The number behind a letter.
fn number_behind(letter: &str, word: &str) -> Option<u8> {
    word.strip_prefix(letter)?.parse().ok()
}

/// The range of bytes `LO..HI`, or of a single byte.
pub(crate) fn span_of(word: &str) -> Option<Span> {
    let (lo, hi) = word.split_once("..").unwrap_or((word, word));
    Span::new(lo.parse().ok()?, hi.parse().ok()?)
}

/// The range of numbers `LO..HI`, or of a single number.
pub(crate) fn wide_of(word: &str) -> Option<Wide> {
    let (lo, hi) = word.split_once("..").unwrap_or((word, word));
    Wide::new(lo.parse().ok()?, hi.parse().ok()?)
}

/// A second operand.
fn against_of(word: &str) -> Option<Against> {
    match number_behind("r", word) {
        Some(r) => Some(Against::Register(r)),
        None => Some(Against::Constant(word.parse().ok()?)),
    }
}

/// What is told of a result: what it came of.
fn result_of(name: &str, from: &str) -> Option<Compared> {
    let (old, k) = from.split_once("-")?;
    if let Some(d) = number_behind("w", name) {
        return Some(Compared::PairResult(d, k.parse().ok()?, wide_of(old)?));
    }
    let d = number_behind("r", name)?;
    Some(Compared::Result(d, k.parse().ok()?, span_of(old)?))
}

/// What is told of two numbers.
fn two_of(first: &str, second: &str) -> Option<Compared> {
    if let Some(d) = number_behind("w", first) {
        let (low, high) = second.split_once(":")?;
        return Some(Compared::Pair(d, against_of(low)?, number_behind("r", high)?));
    }
    Some(Compared::Byte(number_behind("r", first)?, against_of(second)?))
}

/// What these words tell.
pub(crate) fn compared_of(words: &str) -> Option<Compared> {
    if let Some((name, from)) = words.split_once("<") {
        return result_of(name, from);
    }
    if let Some((first, second)) = words.split_once("-") {
        return two_of(first, second);
    }
    Some(Compared::Value(number_behind("r", words)?))
}

/// Prints a second operand.
fn print_against(rt: &HostRuntime, source: Against) -> Result<()> {
    match source {
        Against::Register(r) => print!(rt; "r{}", r)?,
        Against::Constant(k) => print!(rt; "{}", k)?,
    }
    Ok(())
}

/// Prints what is told of a pair less another.
fn print_pair(rt: &HostRuntime, d: u8, low: Against, high: u8) -> Result<()> {
    print!(rt; " flags=w{}-", d)?;
    print_against(rt, low)?;
    print!(rt; ":r{}", high)?;
    Ok(())
}

/// Prints what is told of a byte less another.
fn print_byte(rt: &HostRuntime, d: u8, source: Against) -> Result<()> {
    print!(rt; " flags=r{}-", d)?;
    print_against(rt, source)
}

/// Prints what flags tell, or nothing where they tell nothing.
pub(crate) fn print_compared(rt: &HostRuntime, told: Compared) -> Result<()> {
    match told {
        Compared::Nothing => Ok(()),
        Compared::Byte(d, source) => print_byte(rt, d, source),
        Compared::Pair(d, low, high) => print_pair(rt, d, low, high),
        Compared::Result(d, k, old) => {
            print!(rt; " flags=r{}<{}..{}-{}", d, old.lo(), old.hi(), k)?;
            Ok(())
        }
        Compared::PairResult(d, k, old) => {
            print!(rt; " flags=w{}<{}..{}-{}", d, old.lo(), old.hi(), k)?;
            Ok(())
        }
        Compared::Value(d) => {
            print!(rt; " flags=r{}", d)?;
            Ok(())
        }
    }
}

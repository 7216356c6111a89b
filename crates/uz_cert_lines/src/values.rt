//! The words of facts: what is known of a byte, a pair or a flag.

ghost use Rattle.std.specs.Prelude.{◌≡◌, ◌<◌, ◌≤◌, ◌+◌, IfOk, IfErr, Ok, Err};
ghost use Rattle.uz_hex.specs.Numbers.{all_digits};
ghost use Rattle.uz_cert_lines.specs.Values.{RawBelow, digits as digits_of_word, one_number as number_of_word};
ghost use Rattle.uz_cert_lines.specs.Values.{two_numbers as numbers_of_words, whole as whole_of, sloped as sloped_of};
ghost use Rattle.uz_cert_lines.specs.Values.{sloped_cut as sloped_of_cut, old as old_of, range as range_of, range_parts as range_of_parts};
ghost use Rattle.uz_cert_lines.specs.Values.{raw_of as raw_of_word, is_ordered as keeps_order, fact_of as fact_of_raw};
ghost use Rattle.uz_cert_lines.specs.Values.{pair_of as pair_of_raw};
ghost use Rattle.uz_cert_lines.specs.Values.{ends_of as ends_of_raw, bit_of as bit_of_word};

use crate::why::CertWhy;
use uz_schedule::{Bit, Fact, PairFact, Span, Wide};

/// The forms that a fact's word may have.
#[derive(Clone, Copy)]
pub struct FactForms {
    /// The least number.
    pub low: u32,
    /// The least number that is too great, at most 65,536.
    pub limit: u32,
    /// The greatest number of the whole range: 255 or 65,535.
    pub top: u32,
    /// Whether `l*A+B` and `c*A+B` may stand there.
    pub sloped: bool,
    /// Whether `oR` and `of` may stand there.
    pub old: bool,
}

/// A fact's word, before its order is asked.
#[derive(Clone, Copy)]
pub enum Raw {
    /// `*`
    All,
    /// `n`
    One(u32),
    /// `lo..hi`
    Two(u32, u32),
    /// `l*A+B`
    Line(u32, u32),
    /// `c*A+B`
    Loop(u32, u32),
    /// `oR`
    Old(u32),
    /// `of`
    OldFlags,
}

/// Whether each byte is a decimal digit.
fn are_digits(word: &[u8]) -> bool
    ensures { result ≡ all_digits word.now }
{
    for b in word {
        if *b < b'0' || *b > b'9' {
            return false;
        }
    }
    true
}

/// Whether a word is digits, at least one.
pub fn digits(word: &[u8]) -> bool
    ensures { result ≡ digits_of_word word.now }
{
    word.len() != 0 && are_digits(word)
}

/// The number of a word of digits, from `low` on and below `limit`.
#[tactic(auto, unfolding(crate::specs::Values::one_number))]
pub fn one_number(low: u32, limit: u32, word: &[u8]) -> Result<u32, CertWhy>
    ensures number { result ≡ number_of_word low limit word.now }
    ensures below { IfOk result (λ n. n < limit) }
{
    if !digits(word) {
        return Err(CertWhy::Word);
    }
    match uz_hex::number_within(word, low, limit) {
        Some(n) => Ok(n),
        None => {
            if uz_hex::is_number(word) {
                Err(CertWhy::Limit)
            } else {
                Err(CertWhy::Number)
            }
        }
    }
}

/// The numbers of two words of digits, both below `limit`.
#[tactic(auto, unfolding(crate::specs::Values::two_numbers))]
fn two_numbers(
    low_a: u32,
    low_b: u32,
    limit: u32,
    a: &[u8],
    b: &[u8],
) -> Result<(u32, u32), CertWhy>
    ensures number { result ≡ numbers_of_words low_a low_b limit a.now b.now }
    ensures below { IfOk result (λ n. (n.0 < limit) × (n.1 < limit)) }
{
    if !digits(a) || !digits(b) {
        return Err(CertWhy::Word);
    }
    if !uz_hex::is_number(a) || !uz_hex::is_number(b) {
        return Err(CertWhy::Number);
    }
    match uz_hex::number_within(a, low_a, limit) {
        Some(m) => match uz_hex::number_within(b, low_b, limit) {
            Some(n) => Ok((m, n)),
            None => Err(CertWhy::Limit),
        },
        None => Err(CertWhy::Limit),
    }
}

/// `*`, of which this follows the `*`.
fn whole(forms: FactForms, rest: &[u8]) -> Result<Raw, CertWhy>
    ensures raw { result ≡ whole_of forms rest.now }
    ensures below { IfOk result (λ r. RawBelow forms.limit r) }
{
    if !rest.is_empty() {
        return Err(CertWhy::Word);
    }
    if forms.low == 0 && forms.limit > forms.top {
        Ok(Raw::All)
    } else {
        Err(CertWhy::Limit)
    }
}

/// `A+B`.
#[tactic(auto, unfolding(crate::specs::Values::sloped_cut))]
fn sloped_cut(is_line: bool, forms: FactForms, word: &[u8]) -> Result<Raw, CertWhy>
    ensures raw { result ≡ sloped_of_cut is_line forms word.now }
    ensures below { IfOk result (λ r. RawBelow forms.limit r) }
{
    match uz_hex::cut(word, b'+') {
        Some((a, b)) => {
            let (a, b) = two_numbers(1, 0, forms.limit, a, b)?;
            if is_line {
                Ok(Raw::Line(a, b))
            } else {
                Ok(Raw::Loop(a, b))
            }
        }
        None => Err(CertWhy::Word),
    }
}

/// `l*A+B` and `c*A+B`, of which this follows the letter.
fn sloped(is_line: bool, forms: FactForms, rest: &[u8]) -> Result<Raw, CertWhy>
    ensures raw { result ≡ sloped_of is_line forms rest.now }
    ensures below { IfOk result (λ r. RawBelow forms.limit r) }
{
    match rest {
        [c, numbers @ ..] => {
            if *c == b'*' && forms.sloped {
                sloped_cut(is_line, forms, numbers)
            } else {
                Err(CertWhy::Word)
            }
        }
        [] => Err(CertWhy::Word),
    }
}

/// `oR` and `of`, of which this follows the `o`.
fn old(forms: FactForms, rest: &[u8]) -> Result<Raw, CertWhy>
    ensures raw { result ≡ old_of forms rest.now }
    ensures below { IfOk result (λ r. RawBelow forms.limit r) }
{
    if !forms.old {
        return Err(CertWhy::Word);
    }
    if rest == b"f".as_slice() {
        return Ok(Raw::OldFlags);
    }
    let r = one_number(0, 32, rest)?;
    Ok(Raw::Old(r))
}

/// `lo..hi`, of which this follows the first point.
fn range_parts(forms: FactForms, lo: &[u8], rest: &[u8]) -> Result<Raw, CertWhy>
    ensures raw { result ≡ range_of_parts forms lo.now rest.now }
    ensures below { IfOk result (λ r. RawBelow forms.limit r) }
{
    match rest {
        [c, hi @ ..] => {
            if *c == b'.' {
                let (lo, hi) = two_numbers(forms.low, forms.low, forms.limit, lo, hi)?;
                Ok(Raw::Two(lo, hi))
            } else {
                Err(CertWhy::Word)
            }
        }
        [] => Err(CertWhy::Word),
    }
}

/// `n` and `lo..hi`.
#[tactic(auto, unfolding(crate::specs::Values::range))]
pub fn range(forms: FactForms, word: &[u8]) -> Result<Raw, CertWhy>
    ensures raw { result ≡ range_of forms word.now }
    ensures below { IfOk result (λ r. RawBelow forms.limit r) }
{
    match uz_hex::cut(word, b'.') {
        Some((lo, rest)) => range_parts(forms, lo, rest),
        None => {
            let n = one_number(forms.low, forms.limit, word)?;
            Ok(Raw::One(n))
        }
    }
}

/// A fact's word.
#[tactic(auto, unfolding(crate::specs::Values::raw_of))]
pub fn raw_of(forms: FactForms, word: &[u8]) -> Result<Raw, CertWhy>
    ensures raw { result ≡ raw_of_word forms word.now }
    ensures below { IfOk result (λ r. RawBelow forms.limit r) }
{
    match word {
        [c, rest @ ..] => match *c {
            b'*' => whole(forms, rest),
            b'l' => sloped(true, forms, rest),
            b'c' => sloped(false, forms, rest),
            b'o' => old(forms, rest),
            _ => range(forms, word),
        },
        [] => Err(CertWhy::Word),
    }
}

/// Whether a range is in order, and not the whole one.
fn is_ordered(top: u32, lo: u32, hi: u32) -> bool
    ensures { result ≡ keeps_order top lo hi }
{
    lo < hi && !(lo == 0 && hi == top)
}

/// The fact of a byte.
pub fn fact_of(raw: Raw) -> Result<Fact, CertWhy>
    requires { RawBelow 256 raw }
    ensures { result ≡ fact_of_raw raw }
{
    match raw {
        Raw::All => Ok(Fact::Any),
        Raw::One(n) => Ok(Fact::Between(Span::single(n as u8))),
        Raw::Two(lo, hi) => {
            if is_ordered(255, lo, hi) {
                Ok(Fact::Between(Span::between(lo as u8, hi as u8)))
            } else {
                Err(CertWhy::Order)
            }
        }
        Raw::Line(a, b) => Ok(Fact::Line(a as u8, b as u8)),
        Raw::Loop(a, b) => Ok(Fact::Loop(a as u8, b as u8)),
        Raw::Old(r) => Ok(Fact::Old(r as u8)),
        Raw::OldFlags => Ok(Fact::OldFlags),
    }
}

/// The fact of a pair.
pub fn pair_of(raw: Raw) -> Result<PairFact, CertWhy>
    requires { RawBelow 65536 raw }
    ensures { result ≡ pair_of_raw raw }
{
    match raw {
        Raw::All => Ok(PairFact::Any),
        Raw::One(n) => Ok(PairFact::Between(Wide::single(n as u16))),
        Raw::Two(lo, hi) => {
            if is_ordered(65535, lo, hi) {
                Ok(PairFact::Between(Wide::between(lo as u16, hi as u16)))
            } else {
                Err(CertWhy::Order)
            }
        }
        Raw::Line(a, b) => Ok(PairFact::Line(a as u16, b as u16)),
        Raw::Loop(a, b) => Ok(PairFact::Loop(a as u16, b as u16)),
        Raw::Old(_) => Err(CertWhy::Word),
        Raw::OldFlags => Err(CertWhy::Word),
    }
}

/// The range of a byte.
pub fn span_of(raw: Raw) -> Result<Span, CertWhy>
    requires { RawBelow 256 raw }
    ensures { result ≡ ends_of_raw raw }
{
    match raw {
        Raw::All => Ok(Span::between(0, 255)),
        Raw::One(n) => Ok(Span::single(n as u8)),
        Raw::Two(lo, hi) => {
            if is_ordered(255, lo, hi) {
                Ok(Span::between(lo as u8, hi as u8))
            } else {
                Err(CertWhy::Order)
            }
        }
        _ => Err(CertWhy::Word),
    }
}

/// A flag's word.
pub fn bit_of(old: bool, word: &[u8]) -> Result<Bit, CertWhy>
    ensures { result ≡ bit_of_word old word.now }
{
    if word == b"0".as_slice() {
        return Ok(Bit::Zero);
    }
    if word == b"1".as_slice() {
        return Ok(Bit::One);
    }
    if word == b"?".as_slice() {
        return Ok(Bit::Free);
    }
    if word == b"o".as_slice() && old {
        return Ok(Bit::Old);
    }
    Err(CertWhy::Word)
}

//! The words of a line, one after another.

ghost use Rattle.std.specs.Prelude.{◌≡◌, ◌+◌, ◌<◌, ◌≤◌, ◌∷◌, length, map, IfOk, IfErr, Ok, Err, option_map};
ghost use Rattle.uz_cert_lines.specs.Grammar.{first_word, next_as, rest_of, number_of, fixed_of, end_of, cut_words, words_left, words_of};
ghost use Rattle.uz_cert_lines.specs.Grammar.{missing as missing_word, choice_of, choice_from, slope_of, signed_or, unsigned_or};
ghost use Rattle.uz_cert_lines.specs.Values.{span_of};
ghost use Rattle.uz_hex.specs.Numbers.{is_numeral, number_below};
ghost use Rattle.uz_schedule.specs.Limits.{clock_limit};
ghost use Rattle.uz_cert_lines.specs.FlagNames.{any_names as any_names_of, names_c_or_z as is_c_or_z};

use crate::values::{self, FactForms, raw_of};
use crate::why::CertWhy;
use std::marker::Model;
use uz_schedule::Span;

/// What is asked of a number.
#[derive(Clone, Copy)]
pub struct NumberBounds {
    /// The least number within the limits.
    pub low: u32,
    /// The least number above the limits.
    pub limit: u32,
    /// Why a number outside the limits is refused.
    pub beyond: CertWhy,
    /// The least number of a hole in the limits.
    pub hole: u32,
    /// The least number above that hole.
    pub hole_end: u32,
    /// The least number that keeps the order.
    pub least: u32,
    /// A number that doesn't keep the order.
    pub other: u32,
}

/// The words of a line that are still to come.
#[derive(Drop)]
pub struct Words<'a> {
    left: Option<&'a [u8]>,
    ended: bool,
}

impl<'a> Model for Words<'a> {
    ghost use Rattle.uz_cert_lines.specs.Grammar.{Words as WordsLeft, words_code, words_left};

    ghost Value = { WordsLeft };

    ghost coded = { words_code };

    ghost view = { λ w. record { list = words_left w.left; ended = w.ended } };
}

impl NumberBounds {
    ghost use Rattle.std.specs.Prelude.{IfOk};
    ghost use Rattle.uz_cert_lines.specs.Grammar.{asked as asked_of};

    /// The number, where it is as asked.
    fn of(&self, n: u32) -> Result<u32, CertWhy>
        ensures number { result ≡ asked_of self.now n }
        ensures same { IfOk result (λ m. m ≡ n) }
    {
        if self.hole <= n && n < self.hole_end {
            return Err(CertWhy::Limit);
        }
        if self.least <= n && n != self.other {
            return Ok(n);
        }
        Err(CertWhy::Order)
    }
}

impl<'a> Words<'a> {
    /// The words of a line.
    pub fn new(line: &'a [u8], ended: bool) -> Words<'a>
        ensures { result ≡ record { list = words_of line.now; ended = ended } }
    {
        if line.is_empty() {
            Words { left: None, ended }
        } else {
            Words {
                left: Some(line),
                ended,
            }
        }
    }

    /// The next word, or None exactly where none is left.
    pub fn next_word(&mut self) -> Option<&'a [u8]>
        ensures word { option_map (λ w. w.now) result ≡ first_word self.old.list }
        ensures rest { self.new ≡ rest_of self.old }
    {
        match self.left {
            Some(line) => {
                let (word, rest) = cut_word(line);
                self.left = rest;
                Some(word)
            }
            None => None,
        }
    }

    /// Whether the line ends in LF.
    pub fn ended(&self) -> bool
        ensures { result ≡ self.now.ended }
    {
        self.ended
    }

    /// Whether one of the words begins with `c=` or `z=`.
    pub fn any_names(&self) -> bool
        ensures { result ≡ any_names_of self.now.list }
    {
        any_names_in(self.left)
    }

    /// What a missing word is.
    fn missing(&self) -> CertWhy
        ensures { result ≡ missing_word self.now.ended }
    {
        if self.ended {
            CertWhy::Word
        } else {
            CertWhy::NoEnd
        }
    }

    /// The next word, which has to be this one.
    #[tactic(auto, unfolding(crate::specs::Grammar::fixed_of))]
    pub fn fixed(&mut self, wanted: &[u8]) -> Result<(), CertWhy>
        ensures ok { IfOk result (λ _. next_as (fixed_of wanted.now) self.old ≡ Ok 0) }
        ensures err { IfErr result (λ e. next_as (fixed_of wanted.now) self.old ≡ Err e) }
        ensures rest { self.new ≡ rest_of self.old }
    {
        match self.next_word() {
            Some(word) => {
                if word == wanted {
                    Ok(())
                } else {
                    Err(CertWhy::Word)
                }
            }
            None => Err(self.missing()),
        }
    }

    /// The next word, which has to be a number as asked.
    pub fn number(&mut self, asked: NumberBounds) -> Result<u32, CertWhy>
        ensures number { result ≡ next_as (number_of asked) self.old }
        ensures low { IfOk result (λ n. asked.low ≤ n) }
        ensures below { IfOk result (λ n. n < asked.limit) }
        ensures rest { self.new ≡ rest_of self.old }
    {
        match self.next_word() {
            Some(word) => number_of_word(word, asked),
            None => Err(self.missing()),
        }
    }

    /// The next word, which has to be one of these; its place among them.
    pub fn choice(&mut self, wanted: &[&[u8]]) -> Result<u32, CertWhy>
        requires { length wanted.now ≤ 16 }
        ensures place { result ≡ next_as (choice_of (map (λ w. w.now) wanted.now)) self.old }
        ensures below { IfOk result (λ n. n < length wanted.now) }
        ensures rest { self.new ≡ rest_of self.old }
    {
        match self.next_word() {
            Some(word) => choice_of_word(word, wanted),
            None => Err(self.missing()),
        }
    }

    /// The next word, which has to be a number above `-limit` and below `limit`.
    pub fn slope(&mut self, limit: u32) -> Result<i16, CertWhy>
        requires { limit ≤ clock_limit }
        ensures number { result ≡ next_as (slope_of limit) self.old }
        ensures rest { self.new ≡ rest_of self.old }
    {
        match self.next_word() {
            Some(word) => slope_of_word(word, limit),
            None => Err(self.missing()),
        }
    }

    /// The next word, which has to be a range within this one.
    pub fn span(&mut self, range: Span) -> Result<Span, CertWhy>
        ensures span { result ≡ next_as (span_of range) self.old }
        ensures rest { self.new ≡ rest_of self.old }
    {
        match self.next_word() {
            Some(word) => span_of_word(word, range),
            None => Err(self.missing()),
        }
    }

    /// The end of the line.
    #[tactic(auto, using(crate::proofs::Cutting::left_some))]
    pub fn finish(&mut self) -> Result<(), CertWhy>
        ensures ok { IfOk result (λ _. end_of self.old.ended self.old.list ≡ Ok 0) }
        ensures err { IfErr result (λ e. end_of self.old.ended self.old.list ≡ Err e) }
    {
        if self.left.is_some() {
            return Err(CertWhy::Word);
        }
        if !self.ended {
            return Err(CertWhy::NoEnd);
        }
        Ok(())
    }
}

/// The first word of a text, and what follows its space.
#[tactic(auto, using(crate::proofs::Cutting::next_cut, crate::proofs::Cutting::last_cut))]
fn cut_word(line: &[u8]) -> (&[u8], Option<&[u8]>)
    ensures { cut_words line.now ≡ result.0.now ∷ words_left result.1 }
{
    match uz_hex::cut(line, b' ') {
        Some((word, rest)) => (word, Some(rest)),
        None => (line, None),
    }
}

/// Whether a word begins with `c=` or `z=`.
fn names_c_or_z(word: &[u8]) -> bool
    ensures { result ≡ is_c_or_z word.now }
{
    match word {
        [c, d, ..] => (*c == b'c' || *c == b'z') && *d == b'=',
        _ => false,
    }
}

/// Whether one of these words begins with `c=` or `z=`.
fn any_names_in(words: Option<&[u8]>) -> bool
    ensures { result ≡ any_names_of (words_left words.entry) }
{
    let mut left = words;
    while let Some(line) = left {
        let (word, rest) = cut_word(line);
        if names_c_or_z(word) {
            return true;
        }
        left = rest;
    }
    false
}

/// The number of a word.
#[tactic(auto, unfolding(crate::specs::Grammar::number_of))]
fn number_of_word(word: &[u8], asked: NumberBounds) -> Result<u32, CertWhy>
    ensures number { result ≡ number_of asked word.now }
    ensures low { IfOk result (λ n. asked.low ≤ n) }
    ensures below { IfOk result (λ n. n < asked.limit) }
{
    match uz_hex::number_within(word, asked.low, asked.limit) {
        Some(n) => asked.of(n),
        None => {
            if uz_hex::is_number(word) {
                Err(asked.beyond)
            } else {
                Err(CertWhy::Number)
            }
        }
    }
}

/// The place of a word among these.
#[tactic(auto, unfolding(crate::specs::Grammar::choice_of))]
fn choice_of_word(word: &[u8], wanted: &[&[u8]]) -> Result<u32, CertWhy>
    requires { length wanted.now ≤ 16 }
    ensures place { result ≡ choice_of (map (λ w. w.now) wanted.now) word.now }
    ensures below { IfOk result (λ n. n < length wanted.now) }
{
    for (i, w) in wanted.iter().enumerate() {
        if word == *w {
            return Ok(i as u32);
        }
    }
    Err(CertWhy::Word)
}

/// The number below 0 of these digits.
fn below_zero(limit: u32, digits: &[u8]) -> Result<i16, CertWhy>
    requires { limit ≤ clock_limit }
    ensures { result ≡ signed_or (is_numeral digits.now) (number_below limit digits.now) }
{
    match uz_hex::number(digits, limit) {
        Some(n) => {
            if n == 0 {
                Err(CertWhy::Number)
            } else {
                Ok(-(n as i16))
            }
        }
        None => {
            if uz_hex::is_number(digits) {
                Err(CertWhy::Limit)
            } else {
                Err(CertWhy::Number)
            }
        }
    }
}

/// The number of these digits.
fn from_zero(limit: u32, digits: &[u8]) -> Result<i16, CertWhy>
    requires { limit ≤ clock_limit }
    ensures { result ≡ unsigned_or (is_numeral digits.now) (number_below limit digits.now) }
{
    match uz_hex::number(digits, limit) {
        Some(n) => Ok(n as i16),
        None => {
            if uz_hex::is_number(digits) {
                Err(CertWhy::Limit)
            } else {
                Err(CertWhy::Number)
            }
        }
    }
}

/// A number with a sign before it where it is below 0.
#[tactic(auto, unfolding(crate::specs::Grammar::slope_of))]
fn slope_of_word(word: &[u8], limit: u32) -> Result<i16, CertWhy>
    requires { limit ≤ clock_limit }
    ensures { result ≡ slope_of limit word.now }
{
    match word {
        [c, digits @ ..] => {
            if *c == b'-' {
                below_zero(limit, digits)
            } else {
                from_zero(limit, word)
            }
        }
        [] => Err(CertWhy::Number),
    }
}

/// A range within another.
#[tactic(auto, unfolding(crate::specs::Values::span_of))]
fn span_of_word(word: &[u8], range: Span) -> Result<Span, CertWhy>
    ensures { result ≡ span_of range word.now }
{
    let forms = FactForms {
        low: u32::from(range.lo()),
        limit: u32::from(range.hi()) + 1,
        top: 255,
        sloped: false,
        old: false,
    };
    let raw = raw_of(forms, word)?;
    values::span_of(raw)
}

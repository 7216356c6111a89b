//! The operands of a line.

ghost use Rattle.std.specs.Prelude.{◌≡◌, ◌<◌, ◌≤ℤ◌, IfOk, IfSome, length, option_map};
ghost use Rattle.std.specs.Option.{option_copied};
ghost use Rattle.avr_text.specs.Operands.{AllLie, register_of, name_of as name_of_tokens};
ghost use Rattle.avr_text.specs.Operands.{expression as expression_of, within as within_range};
ghost use Rattle.avr_text.specs.Operands.{register as register_operand, half as half_of, number as number_operand};
ghost use Rattle.avr_text.specs.Operands.{relative as relative_operand, operand as operand_by_form};
ghost use Rattle.avr_text.specs.Operands.{both as both_values, one_value, pair_of, two_values, seen, EachLies};

use crate::errors::{AsmWhy, why_without_value};
use crate::{Symbols, Token, TokenKind, text_of, value};

/// What an instruction wants of an operand.
#[derive(Clone, Copy)]
pub enum OperandForm {
    /// r0 to r31.
    Register,
    /// r16 to r31.
    UpperRegister,
    /// r16 to r23.
    MiddleRegister,
    /// A register with an even number: half of it.
    Pair,
    /// r24, r26, r28 or r30: half of it.
    UpperPair,
    /// A byte with a sign or without: -128 to 255.
    Byte,
    /// 0 to 63.
    SixBits,
    /// 0 to 31.
    FiveBits,
    /// 0 to 7.
    ThreeBits,
    /// 0 to 65,535.
    Word,
    /// An even byte address at most 64 words away from the following instruction: the words.
    Relative7,
    /// An even byte address at most 2,048 words away from the following instruction: the words.
    Relative12,
    /// An even byte address, 0 to 65,534: the word address.
    Absolute,
}

/// The register that a word names: `r0` to `r31`, in either case.
pub fn register_number(word: &[u8]) -> Option<u8>
    ensures number { result ≡ register_of word.now }
    ensures below { IfSome result (λ n. n < 32) }
{
    match word {
        [b'r' | b'R', ones @ b'0'..=b'9'] => Some(*ones - b'0'),
        [b'r' | b'R', tens @ b'1'..=b'3', ones @ b'0'..=b'9'] => {
            let number = (*tens - b'0') * 10 + (*ones - b'0');
            if number < 32 { Some(number) } else { None }
        }
        _ => None,
    }
}

/// The name that an operand is, and nothing besides.
pub fn name_of<'a>(line: &'a [u8], tokens: &[Token]) -> Option<&'a [u8]>
    requires { AllLie (length line.now) tokens.now }
    ensures { option_copied result ≡ name_of_tokens line.now tokens.now }
{
    match tokens {
        [token] => match token.kind {
            TokenKind::Name => Some(text_of(line, *token)),
            _ => None,
        },
        _ => None,
    }
}

/// The number of the register that an operand is.
pub(crate) fn register(line: &[u8], tokens: &[Token]) -> Result<i64, AsmWhy>
    requires { AllLie (length line.now) tokens.now }
    ensures { result ≡ register_operand line.now tokens.now }
{
    match name_of(line, tokens) {
        None => Err(AsmWhy::Operand),
        Some(word) => match register_number(word) {
            None => Err(AsmWhy::Operand),
            Some(number) => Ok(i64::from(number)),
        },
    }
}

/// A value from one number to another.
fn within(low: i64, high: i64, value: Result<i64, AsmWhy>) -> Result<i64, AsmWhy>
    ensures value { result ≡ within_range low high value }
    ensures range { IfOk result (λ x. (low ≤ℤ x) × (x ≤ℤ high)) }
{
    match value {
        Err(why) => Err(why),
        Ok(x) => {
            if low <= x && x <= high {
                Ok(x)
            } else {
                Err(AsmWhy::Range)
            }
        }
    }
}

/// Half of a value that is even.
fn half(value: Result<i64, AsmWhy>) -> Result<i64, AsmWhy>
    ensures { result ≡ half_of value }
{
    match value {
        Err(why) => Err(why),
        Ok(x) => {
            if x.rem_euclid(2) == 0 {
                Ok(x >> 1)
            } else {
                Err(AsmWhy::Range)
            }
        }
    }
}

/// The value of an operand that is an expression.
pub fn expression(
    line: &[u8],
    symbols: &Symbols,
    dot: Option<i64>,
    tokens: &[Token],
) -> Result<i64, AsmWhy>
    requires { AllLie (length line.now) tokens.now }
    ensures { result ≡ expression_of line.now symbols.now dot tokens.now }
{
    match value(line, tokens, symbols, dot) {
        Ok(x) => Ok(x),
        Err(why) => Err(why_without_value(why)),
    }
}

/// The value of an expression, from one number to another.
pub fn number(
    low: i64,
    high: i64,
    line: &[u8],
    symbols: &Symbols,
    tokens: &[Token],
) -> Result<i64, AsmWhy>
    requires { AllLie (length line.now) tokens.now }
    ensures value { result ≡ number_operand low high line.now symbols.now tokens.now }
    ensures range { IfOk result (λ x. (low ≤ℤ x) × (x ≤ℤ high)) }
{
    within(low, high, expression(line, symbols, None, tokens))
}

/// How many words the target of an expression is from the following instruction, where its distance in
/// bytes is even and from one number to another.
fn relative(
    low: i64,
    high: i64,
    line: &[u8],
    symbols: &Symbols,
    next: u32,
    tokens: &[Token],
) -> Result<i64, AsmWhy>
    requires { AllLie (length line.now) tokens.now }
    ensures { result ≡ relative_operand low high line.now symbols.now next tokens.now }
{
    let next = i64::from(next);
    match expression(line, symbols, Some(next), tokens) {
        Err(why) => Err(why),
        Ok(target) => match target.checked_sub(next) {
            None => Err(AsmWhy::Range),
            Some(distance) => half(within(low, high, Ok(distance))),
        },
    }
}

/// The number that an operand gives an instruction.
pub fn operand(
    form: OperandForm,
    line: &[u8],
    symbols: &Symbols,
    next: u32,
    tokens: &[Token],
) -> Result<i64, AsmWhy>
    requires { AllLie (length line.now) tokens.now }
    ensures { result ≡ operand_by_form form line.now symbols.now next tokens.now }
{
    match form {
        OperandForm::Register => register(line, tokens),
        OperandForm::UpperRegister => within(16, 31, register(line, tokens)),
        OperandForm::MiddleRegister => within(16, 23, register(line, tokens)),
        OperandForm::Pair => half(register(line, tokens)),
        OperandForm::UpperPair => half(within(24, 31, register(line, tokens))),
        OperandForm::Byte => number(-128, 255, line, symbols, tokens),
        OperandForm::SixBits => number(0, 63, line, symbols, tokens),
        OperandForm::FiveBits => number(0, 31, line, symbols, tokens),
        OperandForm::ThreeBits => number(0, 7, line, symbols, tokens),
        OperandForm::Word => number(0, 65535, line, symbols, tokens),
        OperandForm::Relative7 => relative(-128, 126, line, symbols, next, tokens),
        OperandForm::Relative12 => relative(-4096, 4094, line, symbols, next, tokens),
        OperandForm::Absolute => half(number(0, 65535, line, symbols, tokens)),
    }
}

/// Two values, or the lesser of two faults.
pub fn both<A: Copy, B: Copy>(
    first: Result<A, AsmWhy>,
    second: Result<B, AsmWhy>,
) -> Result<(A, B), AsmWhy>
    ensures { result ≡ both_values first second }
{
    match first {
        Ok(x) => match second {
            Ok(y) => Ok((x, y)),
            Err(why) => Err(why),
        },
        Err(why) => match second {
            Ok(_) => Err(why),
            Err(other) => Err(why.least(other)),
        },
    }
}

/// The operands of an instruction, with what they are read by.
#[derive(Clone, Copy)]
pub struct Operands<'a> {
    /// The line.
    pub line: &'a [u8],
    /// The values of names.
    pub symbols: &'a Symbols,
    /// The byte address of the instruction that follows one of a word.
    pub next: u32,
    /// The operands' tokens.
    pub parts: &'a [&'a [Token]],
}

impl Operands<'_> {
    /// The number that the only operand gives.
    pub(crate) fn one(&self, form: OperandForm) -> Result<i64, AsmWhy>
        requires { EachLies (length self.now.line.now) self.now.parts.now }
        ensures { result ≡ one_value form (seen self.now) (seen self.now).parts }
    {
        match self.parts {
            [first] => operand(form, self.line, self.symbols, self.next, first),
            _ => Err(AsmWhy::Operand),
        }
    }

    /// The two operands, where there are two.
    pub(crate) fn pair(&self) -> Option<(&[Token], &[Token])>
        requires { EachLies (length self.now.line.now) self.now.parts.now }
        ensures pair { option_map (λ p. (p.0.now, p.1.now)) result ≡ pair_of (seen self.now).parts }
        ensures lie { IfSome result (λ p. AllLie (length self.now.line.now) p.0.now × AllLie (length self.now.line.now) p.1.now) }
    {
        match self.parts {
            [first, second] => Some((first, second)),
            _ => None,
        }
    }

    /// The numbers that two operands give.
    pub(crate) fn two(&self, form: OperandForm, other: OperandForm) -> Result<(i64, i64), AsmWhy>
        requires { EachLies (length self.now.line.now) self.now.parts.now }
        ensures { result ≡ two_values form other (seen self.now) (pair_of (seen self.now).parts) }
    {
        match self.pair() {
            Some((first, second)) => both(
                operand(form, self.line, self.symbols, self.next, first),
                operand(other, self.line, self.symbols, self.next, second),
            ),
            None => Err(AsmWhy::Operand),
        }
    }
}

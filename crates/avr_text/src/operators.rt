//! The operators of expressions.

ghost use Rattle.std.specs.Prelude.{◌≡◌};
ghost use Rattle.avr_text.specs.Operators.{level_of, applied_to, combined as combined_outcomes};
ghost use Rattle.avr_text.specs.Operators.{sign_applied as sign_applied_to, bracket_applied as bracket_applied_to};
ghost use Rattle.avr_text.specs.Operators.{binary_of, is_sign as is_sign_token};

use crate::arithmetic;
use crate::tokens::TokenKind;
use crate::values::ValueOrWhy;

/// An operator between two operands.
#[derive(Clone, Copy)]
pub enum Binary {
    Or,
    Xor,
    And,
    ShiftLeft,
    ShiftRight,
    Add,
    Subtract,
    Multiply,
    Divide,
    Remainder,
}

/// What a parenthesis belongs to.
#[derive(Clone, Copy)]
pub enum Bracket {
    /// Nothing: it groups.
    Plain,
    /// `lo8`
    Low,
    /// `hi8`
    High,
}

impl Binary {
    /// How tightly it binds: from 1, the loosest, to 6.
    pub fn level(self) -> u8
        ensures { result ≡ level_of self }
    {
        match self {
            Binary::Or => 1,
            Binary::Xor => 2,
            Binary::And => 3,
            Binary::ShiftLeft | Binary::ShiftRight => 4,
            Binary::Add | Binary::Subtract => 5,
            Binary::Multiply | Binary::Divide | Binary::Remainder => 6,
        }
    }

    fn applied(self, left: i64, right: i64) -> ValueOrWhy
        ensures { result ≡ applied_to self left right }
    {
        match self {
            Binary::Or => Ok(arithmetic::bit_or(left, right)),
            Binary::Xor => Ok(arithmetic::bit_xor(left, right)),
            Binary::And => Ok(arithmetic::bit_and(left, right)),
            Binary::ShiftLeft => arithmetic::shift_left(left, right),
            Binary::ShiftRight => arithmetic::shift_right(left, right),
            Binary::Add => arithmetic::sum(left, right),
            Binary::Subtract => arithmetic::difference(left, right),
            Binary::Multiply => arithmetic::product(left, right),
            Binary::Divide => arithmetic::quotient(left, right),
            Binary::Remainder => arithmetic::remainder(left, right),
        }
    }

    /// The operator between two operands: the left one's fault goes first.
    pub fn combined(self, left: ValueOrWhy, right: ValueOrWhy) -> ValueOrWhy
        ensures { result ≡ combined_outcomes self left right }
    {
        match left {
            Err(why) => Err(why),
            Ok(l) => match right {
                Err(why) => Err(why),
                Ok(r) => self.applied(l, r),
            },
        }
    }
}

/// The operator that a token is between two operands.
pub fn operator_of(kind: TokenKind) -> Option<Binary>
    ensures { result ≡ binary_of kind }
{
    match kind {
        TokenKind::ShiftLeft => Some(Binary::ShiftLeft),
        TokenKind::ShiftRight => Some(Binary::ShiftRight),
        TokenKind::Mark(b'|') => Some(Binary::Or),
        TokenKind::Mark(b'^') => Some(Binary::Xor),
        TokenKind::Mark(b'&') => Some(Binary::And),
        TokenKind::Mark(b'+') => Some(Binary::Add),
        TokenKind::Mark(b'-') => Some(Binary::Subtract),
        TokenKind::Mark(b'*') => Some(Binary::Multiply),
        TokenKind::Mark(b'/') => Some(Binary::Divide),
        TokenKind::Mark(b'%') => Some(Binary::Remainder),
        _ => None,
    }
}

/// Whether a token is `-` or `~`, the signs before an operand.
pub fn is_sign(kind: TokenKind) -> bool
    ensures { result ≡ is_sign_token kind }
{
    match kind {
        TokenKind::Mark(b'-') | TokenKind::Mark(b'~') => true,
        _ => false,
    }
}

/// A sign before an operand.
pub fn sign_applied(kind: TokenKind, value: ValueOrWhy) -> ValueOrWhy
    ensures { result ≡ sign_applied_to kind value }
{
    match value {
        Err(why) => Err(why),
        Ok(x) => match kind {
            TokenKind::Mark(b'-') => arithmetic::negated(x),
            TokenKind::Mark(b'~') => Ok(arithmetic::complement(x)),
            _ => Ok(x),
        },
    }
}

/// What a closed parenthesis is worth.
pub fn bracket_applied(bracket: Bracket, value: ValueOrWhy) -> ValueOrWhy
    ensures { result ≡ bracket_applied_to bracket value }
{
    match value {
        Err(why) => Err(why),
        Ok(x) => match bracket {
            Bracket::Plain => Ok(x),
            Bracket::Low => Ok(arithmetic::low_byte(x)),
            Bracket::High => Ok(arithmetic::high_byte(x)),
        },
    }
}

//! The values of expressions.

ghost use Rattle.std.specs.Prelude.{◌≡◌, All, length};
ghost use Rattle.avr_text.specs.Tokens.{Lies};
ghost use Rattle.avr_text.specs.Reading.{value_of};
ghost use Rattle.avr_text.specs.Expressions.{Tree, IsExpressionOf, IsExpression, FormUnless, meaning};

use crate::reader::Reader;
use crate::symbols::Symbols;
use crate::tokens::Token;

/// Why an expression has no value.
#[derive(Clone, Copy, Debug)]
pub enum ValueWhy {
    /// The tokens are no expression, parentheses stand deeper than 32, or `.` stands where it means nothing.
    Form,
    /// A name has no value.
    Unknown,
    /// A step leaves the signed numbers of 64 bits, or a shift count isn't from 0 to 63.
    Overflow,
    /// A divisor is 0.
    ZeroDivisor,
}

/// A value, or why there is none.
pub type ValueOrWhy = Result<i64, ValueWhy>;

/// The value that the reader gives the tokens.
fn read(text: &[u8], tokens: &[Token], symbols: &Symbols, dot: Option<i64>) -> ValueOrWhy
    requires { All (Lies (length text.now)) tokens.now }
    ensures { result ≡ value_of text.now tokens.now symbols.now dot }
{
    let mut reader = Reader::new();
    for (at, token) in tokens.iter().enumerate() {
        reader.step(text, tokens, at, *token, symbols, dot);
    }
    reader.finish()
}

/// The value of the expression that tokens are, with the names' values, and the value of `.` where it has one.
///
/// Operators, from the loosest: `|`, `^`, `&`, `<<` `>>`, `+` `-`, `*` `/` `%`, the signs `-` `~`, and parentheses
/// with `lo8(e)` and `hi8(e)`. Division goes toward 0, and `>>` keeps the sign. `Form` goes before the other
/// faults; of these the first from left to right in the order of evaluation is named.
pub fn value(
    text: &[u8],
    tokens: &[Token],
    symbols: &Symbols,
    dot: Option<i64>,
) -> Result<i64, ValueWhy>
    requires { All (Lies (length text.now)) tokens.now }
    ensures value { result ≡ value_of text.now tokens.now symbols.now dot }
    ensures form { FormUnless (IsExpression text.now dot tokens.now) result }
    ensures tree { (tree : Tree) → IsExpressionOf text.now dot tokens.now tree → result ≡ meaning symbols.now dot tree }
{
    read(text, tokens, symbols, dot)
}

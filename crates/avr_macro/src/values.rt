//! The expressions of directives.

ghost use Rattle.std.specs.Prelude.{◌≡◌, All, IfOk, IfSome, length};
ghost use Rattle.std.specs.Option.{option_map};
ghost use Rattle.avr_text.specs.Tokens.{Lies, tokens_of as tokens_of_text};
ghost use Rattle.avr_macro.specs.Values.{cut_tokens, set_to as set_to_value, setting_of as setting_of_text};
ghost use Rattle.avr_macro.specs.Values.{text_value as value_of_text, tokens_setting as setting_of_tokens};
ghost use Rattle.avr_macro.specs.Values.{tokens_value as value_of_tokens};
ghost use Rattle.avr_macro.specs.LineViews.{seen_setting};

use avr_asm::{is_equals, is_name};
use avr_text::{LexWhy, Symbols, Token, TokenKind, lex, text_of, value};
use std::alloc::{AllocError, Global};

/// The value of tokens, in which `.` means nothing.
fn tokens_value(text: &[u8], constants: &Symbols, tokens: &[Token]) -> Option<i64>
    requires { All (Lies (length text.now)) tokens.now }
    ensures { result ≡ value_of_tokens text.now constants.now tokens.now }
{
    value(text, tokens, constants, None).ok()
}

/// The tokens of a text, and none where it can't be cut.
fn tokens_of(alloc: Global, text: &[u8]) -> Result<Option<Vec<Token>>, AllocError>
    ensures tokens { IfOk result (λ tokens. cut_tokens (tokens_of_text text.now) ≡ option_map (λ v. v.items) tokens) }
    ensures lie { IfOk result (λ tokens. IfSome tokens (λ v. All (Lies (length text.now)) v.items)) }
{
    if text.len() >= 0xFFFF_FFFF {
        return Err(AllocError);
    }
    match lex(alloc, text) {
        Ok(tokens) => Ok(Some(tokens)),
        Err(error) => match error.why {
            LexWhy::Memory => Err(AllocError),
            _ => Ok(None),
        },
    }
}

/// The value of a text, where it is an expression that has one.
#[tactic(auto, unfolding(crate::specs::Values::text_value))]
pub(crate) fn text_value(
    alloc: Global,
    constants: &Symbols,
    text: &[u8],
) -> Result<Option<i64>, AllocError>
    ensures { IfOk result (λ value. value ≡ value_of_text constants.now text.now) }
{
    match tokens_of(alloc, text)? {
        Some(tokens) => Ok(tokens_value(text, constants, tokens.as_slice())),
        None => Ok(None),
    }
}

/// A name with its value.
#[derive(Drop)]
pub(crate) struct Setting {
    pub name: Vec<u8>,
    pub value: i64,
}

/// A name with its value, where it has one.
fn set_to(alloc: Global, name: &[u8], value: Option<i64>) -> Result<Option<Setting>, AllocError>
    ensures { IfOk result (λ setting. option_map seen_setting setting ≡ set_to_value name.now value) }
{
    match value {
        Some(value) => {
            let name = Vec::from_slice(alloc, name)?;
            Ok(Some(Setting { name, value }))
        }
        None => Ok(None),
    }
}

/// The name and value of `NAME = E`.
fn tokens_setting(
    alloc: Global,
    text: &[u8],
    constants: &Symbols,
    tokens: &[Token],
) -> Result<Option<Setting>, AllocError>
    requires { All (Lies (length text.now)) tokens.now }
    ensures { IfOk result (λ setting. option_map seen_setting setting ≡ setting_of_tokens text.now constants.now tokens.now) }
{
    match tokens {
        [name, equals, expression @ ..] => {
            if is_name(name.kind) && is_equals(equals.kind) {
                let value = tokens_value(text, constants, expression);
                set_to(alloc, text_of(text, *name), value)
            } else {
                Ok(None)
            }
        }
        _ => Ok(None),
    }
}

/// The name and value that an `.equ` sets, by what comes after its word, where its expression has a value.
#[tactic(auto, unfolding(crate::specs::Values::setting_of))]
pub(crate) fn setting_of(
    alloc: Global,
    constants: &Symbols,
    operands: &[u8],
) -> Result<Option<Setting>, AllocError>
    ensures { IfOk result (λ setting. option_map seen_setting setting ≡ setting_of_text constants.now operands.now) }
{
    match tokens_of(alloc, operands)? {
        Some(tokens) => tokens_setting(alloc, operands, constants, tokens.as_slice()),
        None => Ok(None),
    }
}

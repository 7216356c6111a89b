//! Operands that are pointers.

ghost use Rattle.std.specs.Prelude.{◌≡◌, All, IfSome, length, option_map};
ghost use Rattle.avr_text.specs.Tokens.{Lies};
ghost use Rattle.avr_text.specs.Operands.{AllLie};
ghost use Rattle.avr_text.specs.Instructions.{pointer_named, pointer_of as pointer_of_token};
ghost use Rattle.avr_text.specs.Instructions.{address_of as address_of_tokens, base_of, displaced_of};

use crate::{Token, TokenKind, is_word_named, text_of};

/// A pointer register: X is r27:r26, Y r29:r28 and Z r31:r30.
#[derive(Clone, Copy)]
pub enum Pointer {
    X,
    Y,
    Z,
}

/// How a pointer moves with its use.
#[derive(Clone, Copy)]
pub enum Step {
    /// It stays.
    Plain,
    /// It goes up by 1 afterwards.
    Increment,
    /// It goes down by 1 before.
    Decrement,
}

/// The pointer that a word names, in either case.
pub fn find_pointer(word: &[u8]) -> Option<Pointer>
    ensures { result ≡ pointer_named word.now }
{
    if is_word_named(word, b"x") {
        Some(Pointer::X)
    } else if is_word_named(word, b"y") {
        Some(Pointer::Y)
    } else if is_word_named(word, b"z") {
        Some(Pointer::Z)
    } else {
        None
    }
}

/// The pointer that a token is.
fn pointer_of(line: &[u8], token: Token) -> Option<Pointer>
    requires { Lies (length line.now) token }
    ensures { result ≡ pointer_of_token line.now token }
{
    match token.kind {
        TokenKind::Name => find_pointer(text_of(line, token)),
        _ => None,
    }
}

/// A pointer with its step: `X`, `X+` or `-X`.
pub fn address_of(line: &[u8], tokens: &[Token]) -> Option<(Pointer, Step)>
    requires { AllLie (length line.now) tokens.now }
    ensures { result ≡ address_of_tokens line.now tokens.now }
{
    match tokens {
        [only] => Some((pointer_of(line, *only)?, Step::Plain)),
        [first, second] => {
            if let TokenKind::Mark(b'+') = second.kind {
                Some((pointer_of(line, *first)?, Step::Increment))
            } else if let TokenKind::Mark(b'-') = first.kind {
                Some((pointer_of(line, *second)?, Step::Decrement))
            } else {
                None
            }
        }
        _ => None,
    }
}

/// A token as Y or Z, 1 for Y and 0 for Z, with the tokens of the displacement after it.
fn based<'a>(line: &[u8], token: Token, rest: &'a [Token]) -> Option<(i64, &'a [Token])>
    requires token { Lies (length line.now) token }
    requires rest { AllLie (length line.now) rest.now }
    ensures base { option_map (λ d. (d.0, d.1.now)) result ≡ base_of (pointer_of_token line.now token) rest.now }
    ensures lie { IfSome result (λ d. AllLie (length line.now) d.1.now) }
{
    match pointer_of(line, token) {
        Some(pointer) => match pointer {
            Pointer::X => None,
            Pointer::Y => Some((1, rest)),
            Pointer::Z => Some((0, rest)),
        },
        None => None,
    }
}

/// `Y+q` or `Z+q`: 1 for Y and 0 for Z, and the tokens of q.
pub fn displaced<'a>(line: &[u8], tokens: &'a [Token]) -> Option<(i64, &'a [Token])>
    requires { AllLie (length line.now) tokens.now }
    ensures displaced { option_map (λ d. (d.0, d.1.now)) result ≡ displaced_of line.now tokens.now }
    ensures lie { IfSome result (λ d. AllLie (length line.now) d.1.now) }
{
    match tokens {
        [first, second, rest @ ..] => {
            if let TokenKind::Mark(b'+') = second.kind {
                based(line, *first, rest)
            } else {
                None
            }
        }
        _ => None,
    }
}

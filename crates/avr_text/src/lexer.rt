//! Cutting a text into tokens.

ghost use Rattle.std.specs.Prelude.{◌≡◌, ◌<◌, ◌-◌, ◌^◌, List, Ok, Err, All, IfOk, IfErr, length};
ghost use Rattle.avr_text.specs.Tokens.{line_after as line_after_token, tokens_of, GivesTokens, Lies};
ghost use Rattle.avr_text.specs.declared.tokens.LexError.{LexError};
ghost use Rattle.avr_text.specs.declared.tokens.Token.{Token};
ghost use Rattle.avr_text.specs.declared.tokens.LexWhy.TheVariants.{Memory};
ghost use Rattle.avr_text.specs.Spans.{HasFault, IsSpelled, IsFaultOf};

use crate::pieces::{Piece, piece_at};
use crate::tokens::{LexError, Token, TokenKind};
use std::alloc::Global;

/// The line after a token.
fn line_after(kind: TokenKind, line: u32) -> u32
    requires { line < 2 ^ 32 - 1 }
    ensures { result ≡ line_after_token kind line }
{
    match kind {
        TokenKind::LineEnd => line + 1,
        _ => line,
    }
}

/// The pieces of a text, one after another.
fn cut(alloc: Global, text: &[u8]) -> Result<Vec<Token>, LexError>
    requires { length text.now < 2 ^ 32 - 1 }
    ensures tokens { GivesTokens result (tokens_of text.now) }
    ensures lie { IfOk result (λ v. All (Lies (length text.now)) v.items) }
    ensures memory { IfErr result (λ e. e.why ≡ Memory → e.line ≡ 0) }
{
    let mut tokens = Vec::new(alloc);
    let mut line = 1;
    let mut at = 0;
    while at < text.len() {
        let (_, rest) = text.split_at(at);
        match piece_at(rest) {
            Piece::Gap(n) => at += n,
            Piece::Token(kind, n) => {
                let from = at as u32;
                at += n;
                tokens.push(Token {
                    kind,
                    line,
                    from,
                    to: at as u32,
                })?;
                line = line_after(kind, line);
            }
            Piece::Fault(why) => return Err(LexError { line, why }),
        }
    }
    Ok(tokens)
}

/// The tokens of a text, in order: the longest word, then the next piece, and so on. Blanks (spaces,
/// tabs, a CR right before LF) and comments from `;` to the line's end are no tokens: nothing else stands
/// before, between and after the tokens.
///
/// The first fault is named, with its line.
pub fn lex(alloc: Global, text: &[u8]) -> Result<Vec<Token>, LexError>
    requires { length text.now < 2 ^ 32 - 1 }
    ensures tokens { GivesTokens result (tokens_of text.now) }
    ensures lie { IfOk result (λ v. All (Lies (length text.now)) v.items) }
    ensures spelled { IfOk result (λ v. IsSpelled text.now v.items) }
    ensures only { (tokens : List Token) → IsSpelled text.now tokens → GivesTokens result (Ok tokens) }
    ensures fault { IfErr result (IsFaultOf text.now) }
    ensures faulty { (fault : LexError) → HasFault text.now 0 fault → GivesTokens result (Err fault) }
{
    cut(alloc, text)
}

//! The lines of a source, and what a line holds.

ghost use Rattle.std.specs.Prelude.{◌≡◌, ◌<◌, ◌≤◌, ◌-◌, ◌^◌, IfOk, length, map};
ghost use Rattle.std.specs.Option.{option_copied};
ghost use Rattle.std.specs.List.{prefix_len, slice_split};
ghost use Rattle.avr_text.specs.Faults.{Gives};
ghost use Rattle.avr_text.specs.Operands.{AllLie, EachLies};
ghost use Rattle.avr_asm.specs.Lines.{goes_on as goes_on_line, first_len, lines_of as lines_of_text};
ghost use Rattle.avr_asm.specs.Lines.{is_name as is_name_token, is_colon as is_colon_mark, is_dot as is_dot_mark};
ghost use Rattle.avr_asm.specs.Lines.{is_equals as is_equals_mark, begins_with_label as begins_with_label_tokens};
ghost use Rattle.avr_asm.specs.Lines.{label_of as label_of_tokens, body_of as body_of_tokens};
ghost use Rattle.avr_asm.specs.Lines.{dot_action as dot_action_of, action_of as action_of_body};
ghost use Rattle.avr_asm.specs.Lines.{arguments_of as arguments_of_body, content_of as content_of_line};
ghost use Rattle.avr_asm.specs.Lines.{is_content as is_content_token, is_comma as is_comma_token};
ghost use Rattle.avr_asm.specs.Lines.{parts_of as parts_of_tokens};

use crate::directives::{Directive, directive_of};
use avr_text::{AsmWhy, LexWhy, Mnemonic, Token, TokenKind, lex, mnemonic_of, text_of};
use std::alloc::{AllocError, Global};

/// What a line holds after its label.
#[derive(Clone, Copy)]
pub enum Action {
    /// Nothing.
    Empty,
    /// What is neither an instruction's name nor a directive.
    Unknown,
    /// A directive that isn't known.
    NoDirective,
    /// An instruction.
    Instruction(Mnemonic),
    /// A directive.
    Directive(Directive),
}

/// Whether a byte isn't the line's end.
fn goes_on(b: u8) -> bool
    ensures { result ≡ goes_on_line b }
{
    b != b'\n'
}

/// How many bytes the first line has, with its LF.
fn first_line_len(text: &[u8]) -> usize
    requires { 0 < length text.now }
    ensures len { result ≡ first_len text.now }
    ensures within { result ≤ length text.now }
    ensures some { 0 < result }
{
    for (i, b) in text.iter().enumerate() {
        if !goes_on(*b) {
            return i + 1;
        }
    }
    text.len()
}

/// The lines of a text, each with its LF where it has one.
pub fn lines_of(alloc: Global, text: &[u8]) -> Result<Vec<&[u8]>, AllocError>
    ensures { IfOk result (λ v. map (λ line. line.now) v.items ≡ lines_of_text text.now) }
{
    let mut lines = Vec::new(alloc);
    let mut start = 0;
    while start < text.len() {
        let (_, rest) = text.split_at(start);
        let len = first_line_len(rest);
        let (line, _) = rest.split_at(len);
        lines.push(line)?;
        start += len;
    }
    Ok(lines)
}

/// Whether a token is a name.
pub fn is_name(kind: TokenKind) -> bool
    ensures { result ≡ is_name_token kind }
{
    match kind {
        TokenKind::Name => true,
        _ => false,
    }
}

fn is_colon(kind: TokenKind) -> bool
    ensures { result ≡ is_colon_mark kind }
{
    match kind {
        TokenKind::Mark(b':') => true,
        _ => false,
    }
}

/// Whether a token is `=`.
pub fn is_equals(kind: TokenKind) -> bool
    ensures { result ≡ is_equals_mark kind }
{
    match kind {
        TokenKind::Mark(b'=') => true,
        _ => false,
    }
}

fn is_dot(kind: TokenKind) -> bool
    ensures { result ≡ is_dot_mark kind }
{
    match kind {
        TokenKind::Mark(b'.') => true,
        _ => false,
    }
}

/// Whether the tokens begin with `name:`.
fn begins_with_label(tokens: &[Token]) -> bool
    ensures { result ≡ begins_with_label_tokens tokens.now }
{
    match tokens {
        [first, second, ..] => {
            if is_name(first.kind) {
                is_colon(second.kind)
            } else {
                false
            }
        }
        _ => false,
    }
}

/// The label of a line.
pub fn label_of<'a>(line: &'a [u8], tokens: &[Token]) -> Option<&'a [u8]>
    requires { AllLie (length line.now) tokens.now }
    ensures { option_copied result ≡ label_of_tokens line.now tokens.now }
{
    match tokens {
        [first, ..] if begins_with_label(tokens) => Some(text_of(line, *first)),
        _ => None,
    }
}

/// The tokens after the label.
pub fn body_of(line_len: usize, tokens: &[Token]) -> &[Token]
    requires { AllLie line_len tokens.now }
    ensures body { result.now ≡ body_of_tokens tokens.now }
    ensures lie { AllLie line_len result.now }
{
    match tokens {
        [_, _, rest @ ..] if begins_with_label(tokens) => rest,
        _ => tokens,
    }
}

/// The directive whose name comes after a `.`.
fn dot_action(line: &[u8], tokens: &[Token]) -> Action
    requires { AllLie (length line.now) tokens.now }
    ensures { result ≡ dot_action_of line.now tokens.now }
{
    match tokens {
        [first, ..] => {
            if is_name(first.kind) {
                match directive_of(text_of(line, *first)) {
                    Some(directive) => Action::Directive(directive),
                    None => Action::NoDirective,
                }
            } else {
                Action::NoDirective
            }
        }
        [] => Action::NoDirective,
    }
}

/// What a line does after its label.
pub fn action_of(line: &[u8], body: &[Token]) -> Action
    requires { AllLie (length line.now) body.now }
    ensures { result ≡ action_of_body line.now body.now }
{
    match body {
        [] => Action::Empty,
        [first, rest @ ..] => {
            if is_name(first.kind) {
                match mnemonic_of(text_of(line, *first)) {
                    Some(mnemonic) => Action::Instruction(mnemonic),
                    None => Action::Unknown,
                }
            } else if is_dot(first.kind) {
                dot_action(line, rest)
            } else {
                Action::Unknown
            }
        }
    }
}

/// The tokens after the name of an instruction or directive.
pub fn arguments_of(line_len: usize, action: Action, body: &[Token]) -> &[Token]
    requires { AllLie line_len body.now }
    ensures arguments { result.now ≡ arguments_of_body action body.now }
    ensures lie { AllLie line_len result.now }
{
    let skip = match action {
        Action::Instruction(_) => 1,
        Action::Directive(_) => 2,
        _ => body.len(),
    };
    if skip < body.len() {
        &body[skip..]
    } else {
        &[]
    }
}

/// Whether a token isn't the line's end.
fn is_content(token: &Token) -> bool
    ensures { result ≡ is_content_token token.now }
{
    match token.kind {
        TokenKind::LineEnd => false,
        _ => true,
    }
}

/// How many tokens stand before the line's end.
fn content_len(tokens: &[Token]) -> usize
    ensures len { result ≡ prefix_len is_content_token tokens.now }
{
    for (n, token) in tokens.iter().enumerate() {
        if !is_content(token) {
            return n;
        }
    }
    tokens.len()
}

/// The tokens that a line holds, without the line's end.
#[tactic(auto, unfolding(crate::specs::Lines::content_of))]
pub fn content_of(alloc: Global, line: &[u8]) -> Result<Vec<Token>, AsmWhy>
    requires { length line.now < 2 ^ 32 - 1 }
    ensures tokens { Gives (λ v. v.items) result (content_of_line line.now) }
    ensures lie { IfOk result (λ v. AllLie (length line.now) v.items) }
{
    match lex(alloc, line) {
        Ok(tokens) => {
            let mut tokens = tokens;
            let len = content_len(tokens.as_slice());
            tokens.truncate(len);
            Ok(tokens)
        }
        Err(error) => match error.why {
            LexWhy::Memory => Err(AsmWhy::Memory),
            _ => Err(AsmWhy::Lex),
        },
    }
}

fn is_comma(token: &Token) -> bool
    ensures { result ≡ is_comma_token token.now }
{
    match token.kind {
        TokenKind::Mark(b',') => true,
        _ => false,
    }
}

/// The parts between the commas: one more than there are commas.
fn split_at_commas(alloc: Global, tokens: &[Token]) -> Result<Vec<&[Token]>, AllocError>
    ensures { IfOk result (λ v. map (λ p. p.now) v.items ≡ slice_split is_comma_token tokens.now) }
{
    tokens.split(|token| is_comma(token)).collect(alloc)
}

/// The parts between the commas, and none where there is nothing.
pub fn parts_of(
    alloc: Global,
    line_len: usize,
    tokens: &[Token],
) -> Result<Vec<&[Token]>, AllocError>
    requires { AllLie line_len tokens.now }
    ensures parts { IfOk result (λ v. map (λ p. p.now) v.items ≡ parts_of_tokens tokens.now) }
    ensures lie { IfOk result (λ v. EachLies line_len v.items) }
{
    if tokens.len() == 0 {
        return Ok(Vec::new(alloc));
    }
    let parts = split_at_commas(alloc, tokens)?;
    Ok(parts)
}

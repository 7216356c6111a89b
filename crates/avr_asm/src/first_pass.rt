//! The first pass over the lines: addresses and symbols.

ghost use Rattle.std.specs.Prelude.{◌≡◌, ◌<◌, ◌≤◌, ◌^◌, false, IfOk, length, map};
ghost use Rattle.avr_text.specs.Operands.{AllLie, EachLies};
ghost use Rattle.avr_asm.specs.declared.first_pass.Effect.TheVariants.{Take};
ghost use Rattle.avr_asm.specs.Layout.{is_reserved as is_reserved_name, is_word as is_word_operand};
ghost use Rattle.avr_asm.specs.Layout.{is_start as is_start_shape, is_cell as is_cell_shape, is_fact as is_fact_of};
ghost use Rattle.avr_asm.specs.Layout.{if_shaped as effect_if_shaped, org_effect as org_effect_of};
ghost use Rattle.avr_asm.specs.Layout.{equ_effect as equ_effect_of, directive_effect as directive_effect_of};
ghost use Rattle.avr_asm.specs.Layout.{effect_of as effect_of_line, address_after as address_after_effect, IsWithin};

use crate::directives::Directive;
use crate::lines::{Action, is_equals, is_name};
use avr_text::{
    AsmWhy, Symbols, Token, TokenKind, expression, find_pointer, name_of, number, register_number,
};
use uz_hex::FLASH_BYTES;

/// What a line does to the addresses and symbols of the lines after it.
#[derive(Clone, Copy)]
pub enum Effect {
    /// Nothing.
    Nothing,
    /// The next byte's address is set.
    Move(u32),
    /// A symbol is set.
    Define(i64),
    /// Bytes are taken, at an even address where they are an instruction's.
    Take { bytes: usize, even: bool },
    /// The directive is unknown or has the wrong operands.
    Wrong,
}

/// Whether a name is a register's or pointer's.
pub fn is_reserved(word: &[u8]) -> bool
    ensures { result ≡ is_reserved_name word.now }
{
    register_number(word).is_some() || find_pointer(word).is_some()
}

/// Whether an operand is a word, in lower case alone.
pub fn is_word(name: &[u8], line: &[u8], tokens: &[Token]) -> bool
    requires { AllLie (length line.now) tokens.now }
    ensures { result ≡ is_word_operand name.now line.now tokens.now }
{
    match name_of(line, tokens) {
        Some(word) => word == name,
        None => false,
    }
}

fn is_start(line: &[u8], parts: &[&[Token]]) -> bool
    requires { EachLies (length line.now) parts.now }
    ensures { result ≡ is_start_shape line.now (map (λ p. p.now) parts.now) }
{
    match parts {
        [word, _] => is_word(b"main", line, word) || is_word(b"alone", line, word),
        _ => false,
    }
}

fn is_cell(line: &[u8], parts: &[&[Token]]) -> bool
    requires { EachLies (length line.now) parts.now }
    ensures { result ≡ is_cell_shape line.now (map (λ p. p.now) parts.now) }
{
    match parts {
        [_, word, _, _] => is_word(b"main", line, word),
        [_, word, _, _, _] => is_word(b"handler", line, word),
        _ => false,
    }
}

/// What a directive does if it has its operands.
fn if_shaped(shaped: bool, effect: Effect) -> Effect
    requires { IsWithin effect }
    ensures effect { result ≡ effect_if_shaped shaped effect }
    ensures within { IsWithin result }
{
    if shaped { effect } else { Effect::Wrong }
}

/// Data takes bytes at any address.
fn data_effect(bytes: usize) -> Effect
    ensures effect { result ≡ Take bytes false }
    ensures within { IsWithin result }
{
    Effect::Take { bytes, even: false }
}

/// `.org E`.
fn org_effect(line: &[u8], symbols: &Symbols, parts: &[&[Token]]) -> Result<Effect, AsmWhy>
    requires { EachLies (length line.now) parts.now }
    ensures effect { result ≡ org_effect_of line.now symbols.now (map (λ p. p.now) parts.now) }
    ensures within { IfOk result IsWithin }
{
    match parts {
        [to] => match number(0, i64::from(FLASH_BYTES), line, symbols, to) {
            Ok(to) => Ok(Effect::Move(to as u32)),
            Err(why) => Err(why),
        },
        _ => Ok(Effect::Wrong),
    }
}

/// `.equ NAME = E`.
fn equ_effect(line: &[u8], symbols: &Symbols, arguments: &[Token]) -> Result<Effect, AsmWhy>
    requires { AllLie (length line.now) arguments.now }
    ensures effect { result ≡ equ_effect_of line.now symbols.now arguments.now }
    ensures within { IfOk result IsWithin }
{
    match arguments {
        [name, equals, rest @ ..] => {
            if is_name(name.kind) && is_equals(equals.kind) {
                match expression(line, symbols, None, rest) {
                    Ok(value) => Ok(Effect::Define(value)),
                    Err(why) => Err(why),
                }
            } else {
                Ok(Effect::Wrong)
            }
        }
        _ => Ok(Effect::Wrong),
    }
}

/// Whether a fact with so many operands is one: a fact of three has to be followed by an instruction line.
fn is_fact(count: usize, follows: bool) -> bool
    ensures { result ≡ is_fact_of count follows }
{
    count == 4 || (count == 3 && follows)
}

/// What a directive does.
fn directive_effect(
    directive: Directive,
    line: &[u8],
    symbols: &Symbols,
    arguments: &[Token],
    parts: &[&[Token]],
    follows: bool,
) -> Result<Effect, AsmWhy>
    requires arguments { AllLie (length line.now) arguments.now }
    requires parts { EachLies (length line.now) parts.now }
    requires few { length parts.now < 2 ^ 62 }
    ensures effect { result ≡ directive_effect_of directive line.now symbols.now arguments.now (map (λ p. p.now) parts.now) follows }
    ensures within { IfOk result IsWithin }
{
    let count = parts.len();
    match directive {
        Directive::Org => org_effect(line, symbols, parts),
        Directive::Db => Ok(if_shaped(count > 0, data_effect(count + count % 2))),
        Directive::Dw => Ok(if_shaped(count > 0, data_effect(2 * count))),
        Directive::Equ => equ_effect(line, symbols, arguments),
        Directive::Start => Ok(if_shaped(is_start(line, parts), Effect::Nothing)),
        Directive::Lines => Ok(if_shaped(count == 2, Effect::Nothing)),
        Directive::Half => Ok(if_shaped(count == 2, Effect::Nothing)),
        Directive::Stack => Ok(if_shaped(count == 4, Effect::Nothing)),
        Directive::Cell => Ok(if_shaped(is_cell(line, parts), Effect::Nothing)),
        Directive::Fact => Ok(if_shaped(is_fact(count, follows), Effect::Nothing)),
    }
}

/// What a line does, or the fault that goes before those of its names and places.
pub fn effect_of(
    action: Action,
    line: &[u8],
    symbols: &Symbols,
    arguments: &[Token],
    parts: &[&[Token]],
    follows: bool,
) -> Result<Effect, AsmWhy>
    requires arguments { AllLie (length line.now) arguments.now }
    requires parts { EachLies (length line.now) parts.now }
    requires few { length parts.now < 2 ^ 62 }
    ensures effect { result ≡ effect_of_line action line.now symbols.now arguments.now (map (λ p. p.now) parts.now) follows }
    ensures within { IfOk result IsWithin }
{
    match action {
        Action::Empty => Ok(Effect::Nothing),
        Action::Unknown => Err(AsmWhy::Mnemonic),
        Action::NoDirective => Ok(Effect::Wrong),
        Action::Instruction(mnemonic) => Ok(Effect::Take {
            bytes: 2 * usize::from(mnemonic.words()),
            even: true,
        }),
        Action::Directive(directive) => {
            directive_effect(directive, line, symbols, arguments, parts, follows)
        }
    }
}

/// The next line's address.
pub fn address_after(effect: Effect, address: u32) -> Result<u32, AsmWhy>
    requires within { IsWithin effect }
    requires address { address ≤ 65536 }
    ensures address { result ≡ address_after_effect effect address }
    ensures flash { IfOk result (λ next. next ≤ 65536) }
{
    match effect {
        Effect::Nothing | Effect::Define(_) => Ok(address),
        Effect::Move(to) => Ok(to),
        Effect::Wrong => Err(AsmWhy::Directive),
        Effect::Take { bytes, even } => {
            if bytes > (FLASH_BYTES - address) as usize {
                Err(AsmWhy::Past)
            } else if even && address % 2 != 0 {
                Err(AsmWhy::Directive)
            } else {
                Ok(address + bytes as u32)
            }
        }
    }
}

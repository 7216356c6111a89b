//! The hint directives.

ghost use Rattle.std.specs.Prelude.{◌≡◌, ◌<◌, length, map};
ghost use Rattle.avr_text.specs.Operands.{AllLie, EachLies};
ghost use Rattle.avr_asm.specs.Hints.{short as short_operand, byte as byte_operand};
ghost use Rattle.avr_asm.specs.Hints.{word_address as word_address_operand, place_of as place_of_operand, start_hint};
ghost use Rattle.avr_asm.specs.Hints.{lines_hint, half_hint, stack_hint, cell_hint, fact_at as fact_at_address};
ghost use Rattle.avr_asm.specs.Hints.{fact_address as fact_address_of, fact_hint, part_at};
ghost use Rattle.avr_asm.specs.Hints.{shorts_at, bytes_at, ranged as ranged_cell, main_cell_hint, handler_cell_hint};
ghost use Rattle.avr_asm.specs.Hints.{pointer_place as pointer_place_of, hint_of as hint_of_directive};

use crate::directives::Directive;
use crate::first_pass::is_word;
use crate::output::Hint;
use avr_text::{
    AsmWhy, Pointer, Symbols, Token, both, find_pointer, name_of, number, register_number,
};
use uz_schedule::Kind;

/// A number of 16 bits.
fn short(line: &[u8], symbols: &Symbols, tokens: &[Token]) -> Result<u16, AsmWhy>
    requires { AllLie (length line.now) tokens.now }
    ensures { result ≡ short_operand line.now symbols.now tokens.now }
{
    match number(0, 65535, line, symbols, tokens) {
        Ok(x) => Ok(x as u16),
        Err(why) => Err(why),
    }
}

/// A number of 8 bits.
fn byte(line: &[u8], symbols: &Symbols, tokens: &[Token]) -> Result<u8, AsmWhy>
    requires { AllLie (length line.now) tokens.now }
    ensures { result ≡ byte_operand line.now symbols.now tokens.now }
{
    match number(0, 255, line, symbols, tokens) {
        Ok(x) => Ok(x as u8),
        Err(why) => Err(why),
    }
}

/// An even byte address as a word address.
fn word_address(line: &[u8], symbols: &Symbols, tokens: &[Token]) -> Result<u16, AsmWhy>
    requires { AllLie (length line.now) tokens.now }
    ensures { result ≡ word_address_operand line.now symbols.now tokens.now }
{
    match short(line, symbols, tokens) {
        Ok(x) => {
            if x % 2 == 0 {
                Ok(x / 2)
            } else {
                Err(AsmWhy::Range)
            }
        }
        Err(why) => Err(why),
    }
}

/// The number of a pointer in a fact.
fn pointer_place(pointer: Pointer) -> u8
    ensures { result ≡ pointer_place_of pointer }
{
    match pointer {
        Pointer::X => 32,
        Pointer::Y => 33,
        Pointer::Z => 34,
    }
}

/// A register or pointer as the place of a fact.
fn place_of(line: &[u8], tokens: &[Token]) -> Result<u8, AsmWhy>
    requires { AllLie (length line.now) tokens.now }
    ensures { result ≡ place_of_operand line.now tokens.now }
{
    match name_of(line, tokens) {
        None => Err(AsmWhy::Operand),
        Some(word) => match register_number(word) {
            Some(number) => Ok(number),
            None => match find_pointer(word) {
                Some(pointer) => Ok(pointer_place(pointer)),
                None => Err(AsmWhy::Operand),
            },
        },
    }
}

fn start_of(line: &[u8], symbols: &Symbols, parts: &[&[Token]]) -> Result<Hint, AsmWhy>
    requires { EachLies (length line.now) parts.now }
    ensures { result ≡ start_hint line.now symbols.now (map (λ p. p.now) parts.now) }
{
    match parts {
        [word, at] => {
            let kind = if is_word(b"main", line, word) {
                Kind::Main
            } else {
                Kind::Alone
            };
            match word_address(line, symbols, at) {
                Ok(at) => Ok(Hint::Start { kind, at }),
                Err(why) => Err(why),
            }
        }
        _ => Err(AsmWhy::Directive),
    }
}

fn hint_of_lines(line: &[u8], symbols: &Symbols, parts: &[&[Token]]) -> Result<Hint, AsmWhy>
    requires { EachLies (length line.now) parts.now }
    ensures { result ≡ lines_hint line.now symbols.now (map (λ p. p.now) parts.now) }
{
    match parts {
        [lines, fall] => match both(short(line, symbols, lines), short(line, symbols, fall)) {
            Ok((lines, fall)) => Ok(Hint::Lines { lines, fall }),
            Err(why) => Err(why),
        },
        _ => Err(AsmWhy::Directive),
    }
}

fn half_of(line: &[u8], symbols: &Symbols, parts: &[&[Token]]) -> Result<Hint, AsmWhy>
    requires { EachLies (length line.now) parts.now }
    ensures { result ≡ half_hint line.now symbols.now (map (λ p. p.now) parts.now) }
{
    match parts {
        [from, to] => match both(short(line, symbols, from), short(line, symbols, to)) {
            Ok((from, to)) => Ok(Hint::Half { from, to }),
            Err(why) => Err(why),
        },
        _ => Err(AsmWhy::Directive),
    }
}

/// An operand by its place, and nothing past the last.
fn part<'a>(line_len: usize, parts: &'a [&'a [Token]], place: usize) -> &'a [Token]
    requires { EachLies line_len parts.now }
    ensures part { result.now ≡ part_at (map (λ p. p.now) parts.now) place }
    ensures lie { AllLie line_len result.now }
{
    match parts.get(place) {
        Some(part) => part,
        None => &[],
    }
}

/// Two operands that are numbers of 16 bits, from a place on.
fn shorts(
    line: &[u8],
    symbols: &Symbols,
    parts: &[&[Token]],
    place: usize,
) -> Result<(u16, u16), AsmWhy>
    requires lie { EachLies (length line.now) parts.now }
    requires place { place < 8 }
    ensures { result ≡ shorts_at line.now symbols.now (map (λ p. p.now) parts.now) place }
{
    both(
        short(line, symbols, part(line.len(), parts, place)),
        short(line, symbols, part(line.len(), parts, place + 1)),
    )
}

/// Two operands that are numbers of 8 bits, from a place on.
fn bytes(
    line: &[u8],
    symbols: &Symbols,
    parts: &[&[Token]],
    place: usize,
) -> Result<(u8, u8), AsmWhy>
    requires lie { EachLies (length line.now) parts.now }
    requires place { place < 8 }
    ensures { result ≡ bytes_at line.now symbols.now (map (λ p. p.now) parts.now) place }
{
    both(
        byte(line, symbols, part(line.len(), parts, place)),
        byte(line, symbols, part(line.len(), parts, place + 1)),
    )
}

fn stack_of(line: &[u8], symbols: &Symbols, parts: &[&[Token]]) -> Result<Hint, AsmWhy>
    requires { EachLies (length line.now) parts.now }
    ensures { result ≡ stack_hint line.now symbols.now (map (λ p. p.now) parts.now) }
{
    match both(
        shorts(line, symbols, parts, 0),
        bytes(line, symbols, parts, 2),
    ) {
        Ok(((lo, hi), (main, handler))) => Ok(Hint::Stack {
            lo,
            hi,
            main,
            handler,
        }),
        Err(why) => Err(why),
    }
}

/// The address of a cell, and its range.
fn ranged(line: &[u8], symbols: &Symbols, parts: &[&[Token]]) -> Result<(u16, (u8, u8)), AsmWhy>
    requires { EachLies (length line.now) parts.now }
    ensures { result ≡ ranged_cell line.now symbols.now (map (λ p. p.now) parts.now) }
{
    let at = short(line, symbols, part(line.len(), parts, 0));
    both(at, bytes(line, symbols, parts, 2))
}

/// A cell of main: `.cell A, main, LO, HI`.
fn main_cell(line: &[u8], symbols: &Symbols, parts: &[&[Token]]) -> Result<Hint, AsmWhy>
    requires { EachLies (length line.now) parts.now }
    ensures { result ≡ main_cell_hint line.now symbols.now (map (λ p. p.now) parts.now) }
{
    match ranged(line, symbols, parts) {
        Ok((at, (lo, hi))) => Ok(Hint::Cell {
            at,
            owner: Kind::Main,
            lo,
            hi,
            first: 0,
        }),
        Err(why) => Err(why),
    }
}

/// A cell of the handler: `.cell A, handler, LO, HI, FIRST`.
fn handler_cell(line: &[u8], symbols: &Symbols, parts: &[&[Token]]) -> Result<Hint, AsmWhy>
    requires { EachLies (length line.now) parts.now }
    ensures { result ≡ handler_cell_hint line.now symbols.now (map (λ p. p.now) parts.now) }
{
    let first = byte(line, symbols, part(line.len(), parts, 4));
    match both(ranged(line, symbols, parts), first) {
        Ok(((at, (lo, hi)), first)) => Ok(Hint::Cell {
            at,
            owner: Kind::Handler,
            lo,
            hi,
            first,
        }),
        Err(why) => Err(why),
    }
}

fn cell_of(line: &[u8], symbols: &Symbols, parts: &[&[Token]]) -> Result<Hint, AsmWhy>
    requires { EachLies (length line.now) parts.now }
    ensures { result ≡ cell_hint line.now symbols.now (map (λ p. p.now) parts.now) }
{
    if parts.len() == 4 {
        main_cell(line, symbols, parts)
    } else {
        handler_cell(line, symbols, parts)
    }
}

/// The fact of a place and of a range at a word address.
fn fact_at(
    at: Result<u16, AsmWhy>,
    place: Result<u8, AsmWhy>,
    range: Result<(u16, u16), AsmWhy>,
) -> Result<Hint, AsmWhy>
    ensures { result ≡ fact_at_address at place range }
{
    match both(at, both(place, range)) {
        Ok((at, (place, (lo, hi)))) => Ok(Hint::Fact { at, place, lo, hi }),
        Err(why) => Err(why),
    }
}

/// The word address of a fact: the one that follows, or that of its fourth operand.
fn fact_address(
    line: &[u8],
    symbols: &Symbols,
    parts: &[&[Token]],
    following: u16,
) -> Result<u16, AsmWhy>
    requires { EachLies (length line.now) parts.now }
    ensures { result ≡ fact_address_of line.now symbols.now (map (λ p. p.now) parts.now) following }
{
    if parts.len() == 3 {
        Ok(following)
    } else {
        word_address(line, symbols, part(line.len(), parts, 3))
    }
}

/// A fact: `.fact R, LO, HI` or `.fact R, LO, HI, E`.
fn fact_of(
    line: &[u8],
    symbols: &Symbols,
    parts: &[&[Token]],
    following: u16,
) -> Result<Hint, AsmWhy>
    requires { EachLies (length line.now) parts.now }
    ensures { result ≡ fact_hint line.now symbols.now (map (λ p. p.now) parts.now) following }
{
    let at = fact_address(line, symbols, parts, following);
    let place = place_of(line, part(line.len(), parts, 0));
    fact_at(at, place, shorts(line, symbols, parts, 1))
}

/// The hint that a directive is, where it is one. A `.fact` without an address speaks of the word address that follows.
pub fn hint_of(
    directive: Directive,
    line: &[u8],
    symbols: &Symbols,
    parts: &[&[Token]],
    following: u16,
) -> Result<Option<Hint>, AsmWhy>
    requires { EachLies (length line.now) parts.now }
    ensures { result ≡ hint_of_directive directive line.now symbols.now (map (λ p. p.now) parts.now) following }
{
    let hint = match directive {
        Directive::Start => start_of(line, symbols, parts),
        Directive::Lines => hint_of_lines(line, symbols, parts),
        Directive::Half => half_of(line, symbols, parts),
        Directive::Stack => stack_of(line, symbols, parts),
        Directive::Cell => cell_of(line, symbols, parts),
        Directive::Fact => fact_of(line, symbols, parts, following),
        _ => return Ok(None),
    };
    match hint {
        Ok(hint) => Ok(Some(hint)),
        Err(why) => Err(why),
    }
}

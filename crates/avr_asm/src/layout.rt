//! Where lines lie, and what names mean.

ghost use Rattle.std.specs.Prelude.{◌≡◌, ◌<◌, ◌≤◌, ◌-◌, ◌^◌, All, IfErr, IfOk, OnOk, MatchResult, length, map as mapped};
ghost use Rattle.std.specs.Option.{option_copied};
ghost use Rattle.std.specs.FinMap as map;
ghost use Rattle.avr_text.specs.Faults.{Gives};
ghost use Rattle.avr_text.specs.Operands.{AllLie};
ghost use Rattle.avr_asm.specs.Layout.{with_value, with_values, with_first_ports, with_last_ports, with_core, with_data};
ghost use Rattle.avr_asm.specs.Layout.{predefined as predefined_names};
ghost use Rattle.avr_asm.specs.Layout.{defined, labelled, named, applied as applied_effect};
ghost use Rattle.avr_asm.specs.Layout.{effect_in as effect_in_line, after_line as place_after_line};
ghost use Rattle.avr_asm.specs.Layout.{is_instruction_line as is_line_of_instruction, IsLast, IsWithin, EachShort};
ghost use Rattle.avr_asm.specs.Layout.{arguments_in, layout_of, GivesLayout, seen_layout};
ghost use Rattle.avr_asm.specs.Lines.{first_text};

use crate::errors::AsmError;
use crate::first_pass::{Effect, address_after, effect_of, is_reserved};
use crate::lines::{Action, action_of, arguments_of, body_of, content_of, label_of, parts_of};
use avr_text::{AsmWhy, Symbols, Token, text_of};
use std::alloc::{AllocError, Global};

/// Addresses and symbols as far as the lines have been read.
#[derive(Drop)]
pub struct Place {
    /// The byte address of the next line, at most 65,536.
    pub address: u32,
    /// The values of names.
    pub symbols: Symbols,
}

/// The first ports.
const FIRST_PORTS: [(&[u8], i64); 6] = [
    (b"PINA", 0x00),
    (b"DDRA", 0x01),
    (b"PORTA", 0x02),
    (b"PINB", 0x03),
    (b"DDRB", 0x04),
    (b"PORTB", 0x05),
];

/// The last ports.
const LAST_PORTS: [(&[u8], i64); 6] = [
    (b"PINC", 0x06),
    (b"DDRC", 0x07),
    (b"PORTC", 0x08),
    (b"PIND", 0x09),
    (b"DDRD", 0x0A),
    (b"PORTD", 0x0B),
];

/// Other I/O addresses.
const CORE: [(&[u8], i64); 5] = [
    (b"TIFR1", 0x16),
    (b"GPIOR0", 0x1E),
    (b"SPL", 0x3D),
    (b"SPH", 0x3E),
    (b"SREG", 0x3F),
];

/// Data addresses.
const DATA: [(&[u8], i64); 8] = [
    (b"TIMSK1", 0x6F),
    (b"TCCR1A", 0x80),
    (b"TCCR1B", 0x81),
    (b"TCNT1L", 0x84),
    (b"TCNT1H", 0x85),
    (b"OCR1AL", 0x88),
    (b"OCR1AH", 0x89),
    (b"OCR2A", 0xB3),
];

/// Sets a predefined name.
fn predefine(
    alloc: Global,
    symbols: &mut Symbols,
    name: &[u8],
    value: i64,
) -> Result<(), AllocError>
    ensures { OnOk result (symbols.new ≡ with_value symbols.old name.now value) }
{
    symbols.add(alloc, name, value)?;
    Ok(())
}

/// Sets predefined names, in their order.
fn predefine_all(
    alloc: Global,
    symbols: &mut Symbols,
    names: &[(&[u8], i64)],
) -> Result<(), AllocError>
    ensures { OnOk result (symbols.new ≡ with_values (mapped (λ n. (n.0.now, n.1)) names.now) symbols.old) }
{
    for (name, value) in names {
        predefine(alloc, symbols, name, *value)?;
    }
    Ok(())
}

#[tactic(auto, unfolding(crate::specs::Layout::with_first_ports))]
fn predefine_first_ports(alloc: Global, symbols: &mut Symbols) -> Result<(), AllocError>
    ensures { OnOk result (symbols.new ≡ with_first_ports symbols.old) }
{
    predefine_all(alloc, symbols, &FIRST_PORTS)
}

#[tactic(auto, unfolding(crate::specs::Layout::with_last_ports))]
fn predefine_last_ports(alloc: Global, symbols: &mut Symbols) -> Result<(), AllocError>
    ensures { OnOk result (symbols.new ≡ with_last_ports symbols.old) }
{
    predefine_all(alloc, symbols, &LAST_PORTS)
}

#[tactic(auto, unfolding(crate::specs::Layout::with_core))]
fn predefine_core(alloc: Global, symbols: &mut Symbols) -> Result<(), AllocError>
    ensures { OnOk result (symbols.new ≡ with_core symbols.old) }
{
    predefine_all(alloc, symbols, &CORE)
}

#[tactic(auto, unfolding(crate::specs::Layout::with_data))]
fn predefine_data(alloc: Global, symbols: &mut Symbols) -> Result<(), AllocError>
    ensures { OnOk result (symbols.new ≡ with_data symbols.old) }
{
    predefine_all(alloc, symbols, &DATA)
}

/// The predefined names with their values: I/O addresses, and data addresses from TIMSK1 on (ATmega644 data sheet,
/// "Register Summary").
pub fn predefined(alloc: Global) -> Result<Symbols, AllocError>
    ensures { IfOk result (λ symbols. symbols ≡ predefined_names) }
{
    let mut symbols = Symbols::new(alloc)?;
    predefine_first_ports(alloc, &mut symbols)?;
    predefine_last_ports(alloc, &mut symbols)?;
    predefine_core(alloc, &mut symbols)?;
    predefine_data(alloc, &mut symbols)?;
    Ok(symbols)
}

/// Gives a name its value, once.
fn define(alloc: Global, symbols: &mut Symbols, name: &[u8], value: i64) -> Result<(), AsmWhy>
    ensures { Gives (λ _. symbols.new) result (defined name.now value symbols.old) }
{
    if is_reserved(name) {
        return Err(AsmWhy::Twice);
    }
    if symbols.add(alloc, name, value)? {
        Ok(())
    } else {
        Err(AsmWhy::Twice)
    }
}

/// A label has its line's address.
fn define_label(alloc: Global, place: &mut Place, label: Option<&[u8]>) -> Result<(), AsmWhy>
    ensures place { Gives (λ _. place.new) result (labelled (option_copied label.entry) place.old) }
    ensures address { place.new.address ≡ place.old.address }
{
    match label {
        Some(name) => define(alloc, &mut place.symbols, name, i64::from(place.address)),
        None => Ok(()),
    }
}

/// An `.equ` name has its expression's value.
fn define_name(alloc: Global, place: &mut Place, effect: Effect, name: &[u8]) -> Result<(), AsmWhy>
    ensures place { Gives (λ _. place.new) result (named effect name.now place.old) }
    ensures address { place.new.address ≡ place.old.address }
{
    match effect {
        Effect::Define(value) => define(alloc, &mut place.symbols, name, value),
        _ => Ok(()),
    }
}

/// What a line does is done: first its label is set, then its name, then the address.
#[tactic(auto, unfolding(crate::specs::Layout::applied))]
fn apply(
    alloc: Global,
    place: &mut Place,
    label: Option<&[u8]>,
    name: &[u8],
    effect: Effect,
) -> Result<(), AsmWhy>
    requires within { IsWithin effect }
    requires address { place.old.address ≤ 65536 }
    ensures place { Gives (λ _. place.new) result (applied_effect (option_copied label.entry) name.now effect place.old) }
    ensures flash { OnOk result (place.new.address ≤ 65536) }
{
    define_label(alloc, place, label)?;
    define_name(alloc, place, effect, name)?;
    place.address = address_after(effect, place.address)?;
    Ok(())
}

/// What the tokens of a line do, or the fault that goes before those of its names and places.
#[tactic(auto, unfolding(crate::specs::Layout::effect_in))]
fn effect_in(
    alloc: Global,
    line: &[u8],
    symbols: &Symbols,
    follows: bool,
    tokens: &[Token],
) -> Result<Effect, AsmWhy>
    requires short { length line.now < 2 ^ 32 - 1 }
    requires lie { AllLie (length line.now) tokens.now }
    ensures effect { Gives (λ effect. effect) result (effect_in_line line.now symbols.now follows tokens.now) }
    ensures within { IfOk result IsWithin }
{
    let body = body_of(line.len(), tokens);
    let action = action_of(line, body);
    let arguments = arguments_of(line.len(), action, body);
    let parts = parts_of(alloc, line.len(), arguments)?;
    effect_of(action, line, symbols, arguments, parts.as_slice(), follows)
}

/// The text of the first token of a line's arguments.
fn first_argument<'a>(line: &'a [u8], tokens: &[Token]) -> &'a [u8]
    requires { AllLie (length line.now) tokens.now }
    ensures { result.now ≡ first_text line.now (arguments_in line.now tokens.now) }
{
    let body = body_of(line.len(), tokens);
    match arguments_of(line.len(), action_of(line, body), body) {
        [first, ..] => text_of(line, *first),
        [] => b"",
    }
}

/// A line is laid out.
#[tactic(auto, unfolding(crate::specs::Layout::after_line))]
fn lay_line(alloc: Global, place: &mut Place, follows: bool, line: &[u8]) -> Result<(), AsmWhy>
    requires short { length line.now < 2 ^ 32 - 1 }
    requires address { place.old.address ≤ 65536 }
    ensures place { Gives (λ _. place.new) result (place_after_line follows line.now place.old) }
    ensures flash { OnOk result (place.new.address ≤ 65536) }
{
    let tokens = content_of(alloc, line)?;
    let tokens = tokens.as_slice();
    let effect = effect_in(alloc, line, &place.symbols, follows, tokens)?;
    apply(
        alloc,
        place,
        label_of(line, tokens),
        first_argument(line, tokens),
        effect,
    )
}

/// Whether a line is an instruction's.
#[tactic(auto, unfolding(crate::specs::Layout::is_instruction_line))]
pub fn is_instruction_line(alloc: Global, line: &[u8]) -> Result<bool, AsmWhy>
    requires { length line.now < 2 ^ 32 - 1 }
    ensures { MatchResult result (λ is. is ≡ is_line_of_instruction line.now) (λ why. why ≡ AsmWhy.Memory) }
{
    match content_of(alloc, line) {
        Err(AsmWhy::Memory) => Err(AsmWhy::Memory),
        Err(_) => Ok(false),
        Ok(tokens) => {
            let tokens = tokens.as_slice();
            match action_of(line, body_of(line.len(), tokens)) {
                Action::Instruction(_) => Ok(true),
                _ => Ok(false),
            }
        }
    }
}

/// The number of lines up to the last instruction's.
fn last_instruction(alloc: Global, lines: &[&[u8]]) -> Result<usize, AsmWhy>
    requires { EachShort lines.now }
    ensures { MatchResult result (λ n. IsLast (mapped (λ line. line.now) lines.now) n) (λ why. why ≡ AsmWhy.Memory) }
{
    for i in (0..lines.len()).rev() {
        if is_instruction_line(alloc, lines[i])? {
            return Ok(i + 1);
        }
    }
    Ok(0)
}

/// Lays out the lines: their addresses, and the symbols.
pub fn lay_out(alloc: Global, lines: &[&[u8]]) -> Result<(Vec<u32>, Symbols), AsmError>
    requires short { EachShort lines.now }
    requires few { length lines.now < 2 ^ 32 - 1 }
    ensures layout { GivesLayout seen_layout result (layout_of (mapped (λ line. line.now) lines.now)) }
    ensures flash { IfOk result (λ r. All (λ address. address ≤ 65536) r.0.items) }
    ensures count { IfOk result (λ r. length r.0.items ≡ length lines.now) }
    ensures memory { IfErr result (λ e. e.why ≡ AsmWhy.Memory → e.line ≡ 0) }
{
    let last = match last_instruction(alloc, lines) {
        Ok(last) => last,
        Err(why) => return Err(AsmError { line: 0, why }),
    };
    let mut place = Place {
        address: 0,
        symbols: predefined(alloc)?,
    };
    let mut addresses = Vec::new(alloc);
    for (i, line) in lines.iter().enumerate() {
        let address = place.address;
        match lay_line(alloc, &mut place, i + 1 < last, line) {
            Ok(()) => addresses.push(address)?,
            Err(why) => {
                return Err(AsmError::in_line(i as u32 + 1, why));
            }
        }
    }
    Ok((addresses, place.symbols))
}

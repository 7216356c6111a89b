//! The items of a line at the end of a text, each with a space before it; a default is left out.

ghost use Rattle.std.specs.Prelude.{◌≡◌, ◌≤◌, ◌+◌, ◌++◌, ◌∷◌, [], List, IfOk, OnOk, codes, decimal, drop, length};
ghost use Rattle.uz_cert_lines.specs.Defaults.{is_any_pair, is_default as default_fact, is_range as default_cell};
ghost use Rattle.uz_schedule.specs.WellFormed.{is_default_flag as default_flag};
ghost use Rattle.uz_schedule.specs.declared.header.Cell.{Cell};
ghost use Rattle.uz_cert_writer.specs.Joined.{spaced, onward_text};
ghost use Rattle.uz_cert_writer.specs.Spelling.{item, unless, fact_word, pair_word, flag_word, range_facts};
ghost use Rattle.uz_cert_writer.specs.Spelling.{register_items, pair_items, flag_items, slot_items, cell_items};
ghost use Rattle.uz_cert_writer.specs.Spelling.{value_items, successor_items};
ghost use Rattle.uz_cert_lines.specs.Named.{top_item, temp_item, flags_item, split_item};

use crate::comparisons::{add_comparison, is_nothing};
use crate::facts::{add_fact, add_pair_fact, add_range, flag, range_fact};
use crate::words::{add_byte, add_decimal, add_word};
use arrayvec::ArrayVec;
use std::alloc::AllocError;
use uz_schedule::{Bit, Cell, Compared, Fact, Kind, PairFact, Point, SCANLINE, Span, tracks};

/// The letters of the pairs and of the flags.
const PAIR_LETTERS: [u8; 3] = [b'x', b'y', b'z'];

const FLAG_LETTERS: [u8; 7] = [b'c', b'z', b'n', b'v', b's', b'h', b't'];

/// Whether a register's fact is the one that stands where nothing is said.
fn is_default(kind: Kind, register: u8, fact: &Fact) -> bool
    ensures { result ≡ default_fact kind register fact.now }
{
    match *fact {
        Fact::Any => kind != Kind::Handler,
        Fact::Old(r) => kind == Kind::Handler && r == register,
        _ => false,
    }
}

/// Adds the item of a register, unless it is the default.
fn add_register(text: &mut Vec<u8>, kind: Kind, register: u8, fact: &Fact) -> Result<(), AllocError>
    ensures { OnOk result (text.new.items ≡ text.old.items ++ spaced
        (unless (default_fact kind register fact.now) (item (114 ∷ decimal register) (fact_word fact.now)) [])) }
{
    if is_default(kind, register, fact) {
        return Ok(());
    }
    text.extend_from_slice(b" r")?;
    add_decimal(text, u32::from(register))?;
    add_byte(text, b'=')?;
    add_fact(text, fact)
}

/// Adds the items of the registers from register 0 on.
pub(crate) fn add_registers(
    text: &mut Vec<u8>,
    kind: Kind,
    facts: &[Fact],
) -> Result<(), AllocError>
    requires { length facts.now ≤ 32 }
    ensures { OnOk result (text.new.items ≡ text.old.items ++ spaced (register_items kind 0 facts.now)) }
{
    for (register, fact) in facts.iter().enumerate() {
        add_register(text, kind, register as u8, fact)?;
    }
    Ok(())
}

/// Adds the item of a pair, unless nothing is known of it.
fn add_pair(text: &mut Vec<u8>, letter: u8, fact: &PairFact) -> Result<(), AllocError>
    ensures { OnOk result (text.new.items ≡ text.old.items ++ spaced
        (unless (is_any_pair fact.now) (item (letter ∷ []) (pair_word fact.now)) [])) }
{
    if let PairFact::Any = *fact {
        return Ok(());
    }
    add_byte(text, b' ')?;
    add_byte(text, letter)?;
    add_byte(text, b'=')?;
    add_pair_fact(text, fact)
}

/// Adds the items of the pairs.
pub(crate) fn add_pairs(text: &mut Vec<u8>, facts: &[PairFact; 3]) -> Result<(), AllocError>
    ensures { OnOk result (text.new.items ≡ text.old.items ++ spaced (pair_items (codes "xyz") facts.now)) }
{
    for (k, fact) in facts.iter().enumerate() {
        add_pair(text, PAIR_LETTERS[k], fact)?;
    }
    Ok(())
}

/// Whether a flag is what stands where nothing is said.
fn is_default_flag(kind: Kind, bit: Bit) -> bool
    ensures { result ≡ default_flag kind bit }
{
    match bit {
        Bit::Free => kind != Kind::Handler,
        Bit::Old => kind == Kind::Handler,
        _ => false,
    }
}

/// Adds the item of a flag, unless it is the default.
fn add_flag(text: &mut Vec<u8>, kind: Kind, letter: u8, bit: &Bit) -> Result<(), AllocError>
    ensures { OnOk result (text.new.items ≡ text.old.items ++ spaced
        (unless (default_flag kind bit.now) (item (letter ∷ []) (flag_word bit.now)) [])) }
{
    if is_default_flag(kind, *bit) {
        return Ok(());
    }
    add_byte(text, b' ')?;
    add_byte(text, letter)?;
    add_byte(text, b'=')?;
    text.extend_from_slice(flag(*bit))
}

/// Adds the items of the flags.
pub(crate) fn add_flags(text: &mut Vec<u8>, kind: Kind, bits: &[Bit; 7]) -> Result<(), AllocError>
    ensures { OnOk result (text.new.items ≡ text.old.items ++ spaced (flag_items kind (codes "cznvsht") bits.now)) }
{
    for (b, bit) in bits.iter().enumerate() {
        add_flag(text, kind, FLAG_LETTERS[b], bit)?;
    }
    Ok(())
}

/// Adds the items of the stack's slots, of which none is left out.
pub(crate) fn add_slots(text: &mut Vec<u8>, facts: &[Fact]) -> Result<(), AllocError>
    ensures { OnOk result (text.new.items ≡ text.old.items ++ spaced (slot_items facts.now)) }
{
    for fact in facts {
        add_word(text, b"s:")?;
        add_fact(text, fact)?;
    }
    Ok(())
}

/// Whether a cell's fact is its range of the header.
fn is_range(range: &Span, fact: &Fact) -> bool
    ensures { result ≡ default_cell range.now fact.now }
{
    match *fact {
        Fact::Any => range.lo() == 0 && range.hi() == 255,
        Fact::Between(span) => span.lo() == range.lo() && span.hi() == range.hi(),
        _ => false,
    }
}

/// Adds the item of a cell, unless it is in its range of the header.
fn add_cell(text: &mut Vec<u8>, number: u8, range: &Span, fact: &Fact) -> Result<(), AllocError>
    ensures { OnOk result (text.new.items ≡ text.old.items ++ spaced
        (unless (default_cell range.now fact.now) (item (109 ∷ decimal number) (fact_word fact.now)) [])) }
{
    if is_range(range, fact) {
        return Ok(());
    }
    text.extend_from_slice(b" m")?;
    add_decimal(text, u32::from(number))?;
    add_byte(text, b'=')?;
    add_fact(text, fact)
}

/// Adds the item of a cell where the kind tracks it, and tells which fact comes next.
fn add_tracked(
    text: &mut Vec<u8>,
    kind: Kind,
    number: u8,
    cell: &Cell,
    facts: &[Fact],
    next: usize,
) -> Result<usize, AllocError>
    ensures { IfOk result (λ n. (cells : List Cell)
        → text.new.items ++ spaced (cell_items kind (number + 1) cells (drop n facts.now))
        ≡ text.old.items ++ spaced (cell_items kind number (cell.now ∷ cells) (drop next facts.now))) }
{
    if !tracks(kind, cell.owner) {
        return Ok(next);
    }
    match facts.get(next) {
        Some(fact) => {
            add_cell(text, number, &cell.range, fact)?;
            Ok(next + 1)
        }
        None => Ok(next),
    }
}

/// Adds the items of the cells that a kind tracks.
pub(crate) fn add_cells(
    text: &mut Vec<u8>,
    kind: Kind,
    cells: &[Cell],
    facts: &[Fact],
) -> Result<(), AllocError>
    requires { length cells.now ≤ 16 }
    ensures { OnOk result (text.new.items ≡ text.old.items ++ spaced (cell_items kind 0 cells.now facts.now)) }
{
    let mut next = 0;
    for (number, cell) in cells.iter().enumerate() {
        next = add_tracked(text, kind, number as u8, cell, facts, next)?;
    }
    Ok(())
}

/// Adds the item of OCR1A, unless that is the last clock of a scanline.
fn add_top(text: &mut Vec<u8>, top: u16) -> Result<(), AllocError>
    ensures { OnOk result (text.new.items ≡ text.old.items ++ spaced (value_items top_item top)) }
{
    if top == SCANLINE - 1 {
        return Ok(());
    }
    text.extend_from_slice(b" top=")?;
    add_decimal(text, u32::from(top))
}

/// Adds the item of TEMP, unless that may be any byte.
fn add_temp(text: &mut Vec<u8>, temp: Span) -> Result<(), AllocError>
    ensures { OnOk result (text.new.items ≡ text.old.items ++ spaced (value_items temp_item temp)) }
{
    if temp.lo() == 0 && temp.hi() == 255 {
        return Ok(());
    }
    text.extend_from_slice(b" temp=")?;
    add_range(text, u16::from(temp.lo()), u16::from(temp.hi()))
}

/// Adds the item of what the flags tell, unless that is nothing.
fn add_compared(text: &mut Vec<u8>, compared: &Compared) -> Result<(), AllocError>
    ensures { OnOk result (text.new.items ≡ text.old.items ++ spaced (value_items flags_item compared.now)) }
{
    if is_nothing(compared) {
        return Ok(());
    }
    text.extend_from_slice(b" flags=")?;
    add_comparison(text, compared)
}

/// Adds the item of the register by whose values a result is covered, if any.
fn add_split(text: &mut Vec<u8>, split: Option<u8>) -> Result<(), AllocError>
    ensures { OnOk result (text.new.items ≡ text.old.items ++ spaced (value_items split_item split)) }
{
    match split {
        Some(register) => {
            text.extend_from_slice(b" split=")?;
            add_decimal(text, u32::from(register))
        }
        None => Ok(()),
    }
}

/// Adds the items of successors.
fn add_successors(text: &mut Vec<u8>, ids: &[u32]) -> Result<(), AllocError>
    ensures { OnOk result (text.new.items ≡ text.old.items ++ spaced (successor_items ids.now)) }
{
    for id in ids {
        add_word(text, b">")?;
        add_decimal(text, *id)?;
    }
    Ok(())
}

/// Adds the items of one value, and the successors.
pub(crate) fn add_onward(text: &mut Vec<u8>, point: &Point) -> Result<(), AllocError>
    ensures { OnOk result (text.new.items ≡ text.old.items ++ onward_text point.now) }
{
    add_top(text, point.top)?;
    add_temp(text, point.temp)?;
    add_compared(text, &point.compared)?;
    add_split(text, point.split)?;
    add_successors(text, point.next.as_slice())
}

/// Ranges as facts.
pub(crate) fn facts_of(spans: &[Span]) -> ArrayVec<Fact, 32>
    requires { length spans.now ≤ 32 }
    ensures { result.items ≡ range_facts spans.now }
{
    let mut facts = ArrayVec::new();
    for span in spans {
        facts.push(range_fact(span));
    }
    facts
}

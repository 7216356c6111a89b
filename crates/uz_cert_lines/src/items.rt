//! The items of a line: what is said of registers, pairs, flags, slots, cells and the timer, and which points follow.

ghost use Rattle.std.specs.Prelude.{◌≡◌, ◌<◌, ◌≤◌, ◌-◌, ◌^◌, IfOk, IfErr, IfSome, Ok, Err, Some, length, slice_set};
ghost use Rattle.uz_cert_lines.specs.Values.{RawBelow};
ghost use Rattle.uz_cert_lines.specs.Items.{first_facts as first_facts_of, in_order as in_order_of};
ghost use Rattle.uz_cert_lines.specs.Items.{bytes_forms as bytes_forms_of, register_set as set_register};
ghost use Rattle.uz_cert_lines.specs.Items.{take_register as register_taken, pair_forms as forms_of_pairs, pair_set as set_pair};
ghost use Rattle.uz_cert_lines.specs.Items.{take_pair as pair_taken, flag_set as set_flag, take_flag as flag_taken, slot_set as set_slot};
ghost use Rattle.uz_cert_lines.specs.Items.{take_slot as slot_taken, tracked_before as tracked_before_of, cell_at as cell_of_number};
ghost use Rattle.uz_cert_lines.specs.Items.{cell_forms as forms_of_cell, numbered as numbered_of, cell_set as set_cell};
ghost use Rattle.uz_cert_lines.specs.Items.{cell_value as value_of_cell, take_cell as cell_taken, successor_set as set_successor};
ghost use Rattle.uz_cert_lines.specs.Items.{take_numbered, take_named_value as value_of_name};
ghost use Rattle.uz_cert_lines.specs.Named.{temp_forms as forms_of_temp, value_read, top_item, temp_item, flags_item, split_item};
ghost use Rattle.uz_cert_lines.specs.Named.{point_of as point_of_facts};
ghost use Rattle.uz_cert_lines.specs.Items.{take_successor as successor_taken, is_flag_z as z_is_flag};
ghost use Rattle.uz_cert_lines.specs.Items.{take_letter as letter_taken, take_keyed as keyed_taken, take_named as named_taken};
ghost use Rattle.uz_cert_lines.specs.Items.{take_second as second_taken, take_item as item_taken, read_items as items_read};

use crate::comparisons::{comparison, is_nothing};
use crate::defaults::{
    default_cells, default_flag, default_regs, is_any_pair, is_default, is_default_flag,
    is_handler, is_range, tracks,
};
use crate::lines::{PointPlace, same_pairs, same_regs};
use crate::{
    CertWhy, FactForms, Raw, Words, bit_of, digits, fact_of, one_number, pair_of, range, raw_of,
    span_of,
};
use arrayvec::ArrayVec;
use uz_schedule::{Bit, Cell, Compared, Fact, Kind, PairFact, Point, SCANLINE, Span, is_top};

/// What the items of a line may say.
#[derive(Clone, Copy)]
pub struct Shape {
    /// What the line's state belongs to.
    pub kind: Kind,
    /// Whether this is the entry, which has ranges alone, no pairs and no successors.
    pub plain: bool,
    /// Whether the items of the timer may stand there.
    pub timed: bool,
    /// Whether what the flags tell, and the register of a cover, may stand there.
    pub compares: bool,
    /// How many points there are.
    pub points: u32,
    /// How many slots of the stack there may be, at most 32.
    pub depth: usize,
}

/// What the items of a line say.
#[derive(Drop)]
pub struct Facts {
    /// The least place in the order of items that the next one may have.
    pub least: u32,
    /// The least number that the next successor may have.
    pub after: u32,
    /// What is known of each register.
    pub regs: [Fact; 32],
    /// What is known of the pairs X, Y and Z.
    pub pairs: [PairFact; 3],
    /// What is known of the flags C, Z, N, V, S, H and T.
    pub flags: [Bit; 7],
    /// What is known of each byte of the stack, from the bottom.
    pub stack: ArrayVec<Fact, 32>,
    /// What is known of each cell that the kind tracks.
    pub cells: ArrayVec<Fact, 16>,
    /// The timer's OCR1A.
    pub top: u16,
    /// The values that the timer's TEMP may have.
    pub temp: Span,
    /// What the flags tell.
    pub compared: Compared,
    /// The register by whose values a result is covered, if any.
    pub split: Option<u8>,
    /// The numbers of the points where an instruction may lead, rising.
    pub next: ArrayVec<u32, 16>,
}

/// What holds where no item says otherwise.
#[tactic(auto, unfolding(crate::specs::Items::first_facts))]
fn first_facts(kind: Kind, cells: &[Cell]) -> Facts
    requires { length cells.now ≤ 16 }
    ensures { result ≡ first_facts_of kind cells.now }
{
    Facts {
        least: 0,
        after: 0,
        regs: default_regs(kind),
        pairs: [PairFact::Any; 3],
        flags: [default_flag(kind); 7],
        stack: ArrayVec::new(),
        cells: default_cells(kind, cells),
        top: SCANLINE - 1,
        temp: Span::between(0, 255),
        compared: Compared::Nothing,
        split: None,
        next: ArrayVec::new(),
    }
}

/// The place, where it may come next in the order and the item isn't a default.
fn in_order(facts: &Facts, place: u32, is_default: bool) -> Result<u32, CertWhy>
    ensures place { result ≡ in_order_of facts.now place is_default }
    ensures same { IfOk result (λ p. p ≡ place) }
{
    if place >= facts.least && !is_default {
        Ok(place)
    } else {
        Err(CertWhy::Order)
    }
}

/// The forms of a byte's word.
fn bytes_forms(shape: Shape) -> FactForms
    ensures forms { result ≡ bytes_forms_of shape }
    ensures limit { result.limit ≡ 256 }
{
    FactForms {
        low: 0,
        limit: 256,
        top: 255,
        sloped: !shape.plain,
        old: is_handler(shape.kind) && !shape.plain,
    }
}

fn set_reg(regs: &mut [Fact; 32], r: usize, fact: Fact)
    requires { r < 32 }
    ensures { regs.new ≡ slice_set regs.old r fact }
{
    regs[r] = fact;
}

fn set_pair_fact(pairs: &mut [PairFact; 3], k: usize, fact: PairFact)
    requires { k < 3 }
    ensures { pairs.new ≡ slice_set pairs.old k fact }
{
    pairs[k] = fact;
}

fn set_bit(flags: &mut [Bit; 7], b: usize, bit: Bit)
    requires { b < 7 }
    ensures { flags.new ≡ slice_set flags.old b bit }
{
    flags[b] = bit;
}

fn set_cell_fact(facts: &mut ArrayVec<Fact, 16>, i: usize, fact: Fact)
    ensures { facts.new.items ≡ slice_set facts.old.items i fact }
{
    let facts = facts.as_mut_slice();
    if i < facts.len() {
        facts[i] = fact;
    }
}

fn register_set(shape: Shape, facts: &mut Facts, r: u32, fact: Fact) -> Result<(), CertWhy>
    requires { r < 32 }
    ensures ok { IfOk result (λ _. set_register shape facts.old r fact ≡ Ok facts.new) }
    ensures err { IfErr result (λ e. set_register shape facts.old r fact ≡ Err e) }
{
    in_order(facts, r, is_default(shape.kind, r, &fact))?;
    set_reg(&mut facts.regs, r as usize, fact);
    facts.least = r + 1;
    Ok(())
}

/// `rN=F`, of which this is N and F.
#[tactic(auto, unfolding(crate::specs::Items::take_register))]
fn take_register(shape: Shape, facts: &mut Facts, key: &[u8], value: &[u8]) -> Result<(), CertWhy>
    ensures ok { IfOk result (λ _. register_taken shape facts.old key.now value.now ≡ Ok facts.new) }
    ensures err { IfErr result (λ e. register_taken shape facts.old key.now value.now ≡ Err e) }
{
    match uz_hex::number(key, 32) {
        Some(r) => {
            let raw = raw_of(bytes_forms(shape), value)?;
            let fact = fact_of(raw)?;
            register_set(shape, facts, r, fact)
        }
        None => Err(CertWhy::Word),
    }
}

fn pair_set(facts: &mut Facts, k: u32, fact: PairFact) -> Result<(), CertWhy>
    requires { k < 3 }
    ensures ok { IfOk result (λ _. set_pair facts.old k fact ≡ Ok facts.new) }
    ensures err { IfErr result (λ e. set_pair facts.old k fact ≡ Err e) }
{
    in_order(facts, 32 + k, is_any_pair(&fact))?;
    set_pair_fact(&mut facts.pairs, k as usize, fact);
    facts.least = 33 + k;
    Ok(())
}

/// The forms of a pair's word.
fn pair_forms() -> FactForms
    ensures { result ≡ forms_of_pairs }
{
    FactForms {
        low: 0,
        limit: 65536,
        top: 65535,
        sloped: true,
        old: false,
    }
}

/// `x=F`, `y=F` and `z=F`, of which this is the pair's place and F.
#[tactic(auto, unfolding(crate::specs::Items::take_pair))]
fn take_pair(shape: Shape, facts: &mut Facts, k: u32, value: &[u8]) -> Result<(), CertWhy>
    requires { k < 3 }
    ensures ok { IfOk result (λ _. pair_taken shape facts.old k value.now ≡ Ok facts.new) }
    ensures err { IfErr result (λ e. pair_taken shape facts.old k value.now ≡ Err e) }
{
    if shape.plain {
        return Err(CertWhy::Word);
    }
    let raw = raw_of(pair_forms(), value)?;
    let fact = pair_of(raw)?;
    pair_set(facts, k, fact)
}

fn flag_set(shape: Shape, facts: &mut Facts, b: u32, bit: Bit) -> Result<(), CertWhy>
    requires { b < 7 }
    ensures ok { IfOk result (λ _. set_flag shape facts.old b bit ≡ Ok facts.new) }
    ensures err { IfErr result (λ e. set_flag shape facts.old b bit ≡ Err e) }
{
    in_order(facts, 35 + b, is_default_flag(shape.kind, bit))?;
    set_bit(&mut facts.flags, b as usize, bit);
    facts.least = 36 + b;
    Ok(())
}

/// A flag's item, of which this is the flag's place and value.
#[tactic(auto, unfolding(crate::specs::Items::take_flag))]
fn take_flag(shape: Shape, facts: &mut Facts, b: u32, value: &[u8]) -> Result<(), CertWhy>
    requires { b < 7 }
    ensures ok { IfOk result (λ _. flag_taken shape facts.old b value.now ≡ Ok facts.new) }
    ensures err { IfErr result (λ e. flag_taken shape facts.old b value.now ≡ Err e) }
{
    let bit = bit_of(is_handler(shape.kind), value)?;
    flag_set(shape, facts, b, bit)
}

fn slot_set(facts: &mut Facts, fact: Fact) -> Result<(), CertWhy>
    requires { length facts.old.stack.items < 32 }
    ensures ok { IfOk result (λ _. set_slot facts.old fact ≡ Ok facts.new) }
    ensures err { IfErr result (λ e. set_slot facts.old fact ≡ Err e) }
{
    in_order(facts, 42, false)?;
    facts.stack.push(fact);
    facts.least = 42;
    Ok(())
}

/// `s:F`, of which this is F.
#[tactic(auto, unfolding(crate::specs::Items::take_slot))]
fn take_slot(shape: Shape, facts: &mut Facts, value: &[u8]) -> Result<(), CertWhy>
    requires { shape.depth ≤ 32 }
    ensures ok { IfOk result (λ _. slot_taken shape facts.old value.now ≡ Ok facts.new) }
    ensures err { IfErr result (λ e. slot_taken shape facts.old value.now ≡ Err e) }
{
    let raw = raw_of(bytes_forms(shape), value)?;
    if facts.stack.len() >= shape.depth {
        return Err(CertWhy::Limit);
    }
    let fact = fact_of(raw)?;
    slot_set(facts, fact)
}

/// Of the first `i` cells, how many a kind tracks.
fn tracked_before(kind: Kind, i: usize, cells: &[Cell]) -> usize
    requires { i ≤ length cells.now }
    ensures count { result ≡ tracked_before_of kind i cells.now }
    ensures few { result ≤ i }
{
    let mut count = 0;
    for cell in &cells[..i] {
        if tracks(kind, cell.owner) {
            count += 1;
        }
    }
    count
}

/// The cell of this number, where there is one.
fn cell_at(cells: &[Cell], number: Option<u32>) -> Option<(u32, Cell)>
    ensures cell { result ≡ cell_of_number cells.now number }
    ensures there { IfSome result (λ p. p.0 < length cells.now) }
{
    match number {
        Some(i) => match cells.get(i as usize) {
            Some(cell) => Some((i, *cell)),
            None => None,
        },
        None => None,
    }
}

/// The forms of a cell's word: no old ones, and in an entry a range within the one of the header.
fn cell_forms(shape: Shape, cell: Option<(u32, Cell)>) -> FactForms
    ensures forms { result ≡ forms_of_cell shape cell }
    ensures limit { result.limit ≤ 256 }
{
    match cell {
        Some((_, cell)) => {
            if shape.plain {
                FactForms {
                    low: u32::from(cell.range.lo()),
                    limit: u32::from(cell.range.hi()) + 1,
                    top: 255,
                    sloped: false,
                    old: false,
                }
            } else {
                FactForms {
                    low: 0,
                    limit: 256,
                    top: 255,
                    sloped: true,
                    old: false,
                }
            }
        }
        None => FactForms {
            old: false,
            ..bytes_forms(shape)
        },
    }
}

/// A word, of which the key has to be spelled as a number.
fn numbered(numeral: bool, raw: Result<Raw, CertWhy>) -> Result<Raw, CertWhy>
    ensures raw { result ≡ numbered_of numeral raw }
    ensures same { IfOk result (λ r. raw ≡ Ok r) }
{
    if numeral {
        return raw;
    }
    match raw {
        Ok(_) => Err(CertWhy::Number),
        Err(CertWhy::Word) => Err(CertWhy::Word),
        Err(_) => Err(CertWhy::Number),
    }
}

fn cell_set(
    shape: Shape,
    cells: &[Cell],
    facts: &mut Facts,
    i: u32,
    range: Span,
    fact: Fact,
) -> Result<(), CertWhy>
    requires few { length cells.now ≤ 16 }
    requires there { i < length cells.now }
    ensures ok { IfOk result (λ _. set_cell shape cells.now facts.old i range fact ≡ Ok facts.new) }
    ensures err { IfErr result (λ e. set_cell shape cells.now facts.old i range fact ≡ Err e) }
{
    in_order(facts, 43 + i, is_range(range, &fact))?;
    let place = tracked_before(shape.kind, i as usize, cells);
    set_cell_fact(&mut facts.cells, place, fact);
    facts.least = 44 + i;
    Ok(())
}

fn cell_value(
    shape: Shape,
    cells: &[Cell],
    facts: &mut Facts,
    cell: Option<(u32, Cell)>,
    raw: Raw,
) -> Result<(), CertWhy>
    requires few { length cells.now ≤ 16 }
    requires there { IfSome cell (λ p. p.0 < length cells.now) }
    requires below { RawBelow 256 raw }
    ensures ok { IfOk result (λ _. value_of_cell shape cells.now facts.old cell raw ≡ Ok facts.new) }
    ensures err { IfErr result (λ e. value_of_cell shape cells.now facts.old cell raw ≡ Err e) }
{
    match cell {
        Some((i, cell)) => {
            if !tracks(shape.kind, cell.owner) {
                return Err(CertWhy::Unknown);
            }
            let fact = fact_of(raw)?;
            cell_set(shape, cells, facts, i, cell.range, fact)
        }
        None => Err(CertWhy::Unknown),
    }
}

/// `mI=F`, of which this is I and F.
#[tactic(auto, unfolding(crate::specs::Items::take_cell))]
fn take_cell(
    shape: Shape,
    cells: &[Cell],
    facts: &mut Facts,
    key: &[u8],
    value: &[u8],
) -> Result<(), CertWhy>
    requires { length cells.now ≤ 16 }
    ensures ok { IfOk result (λ _. cell_taken shape cells.now facts.old key.now value.now ≡ Ok facts.new) }
    ensures err { IfErr result (λ e. cell_taken shape cells.now facts.old key.now value.now ≡ Err e) }
{
    if !digits(key) {
        return Err(CertWhy::Word);
    }
    let number = uz_hex::number(key, cells.len() as u32);
    let forms = cell_forms(shape, cell_at(cells, number));
    let raw = numbered(uz_hex::is_number(key), raw_of(forms, value))?;
    cell_value(shape, cells, facts, cell_at(cells, number), raw)
}

/// A word of OCR1A, which has to be the last clock of a line.
fn read_top(value: &[u8]) -> Result<u16, CertWhy>
    ensures { result ≡ value_read top_item.form value.now }
{
    let top = one_number(0, u32::from(SCANLINE), value)? as u16;
    if is_top(top) {
        Ok(top)
    } else {
        Err(CertWhy::Limit)
    }
}

/// `top=N`, of which this is N.
#[tactic(auto, unfolding(crate::specs::Items::take_value))]
fn take_top(shape: Shape, facts: &mut Facts, value: &[u8]) -> Result<(), CertWhy>
    ensures ok { IfOk result (λ _. take_numbered 0 shape facts.old value.now ≡ Ok facts.new) }
    ensures err { IfErr result (λ e. take_numbered 0 shape facts.old value.now ≡ Err e) }
{
    if !shape.timed {
        return Err(CertWhy::Word);
    }
    let top = read_top(value)?;
    in_order(facts, 59, top == SCANLINE - 1)?;
    facts.top = top;
    facts.least = 60;
    Ok(())
}

/// The forms of the word of TEMP.
fn temp_forms() -> FactForms
    ensures { result ≡ forms_of_temp }
{
    FactForms {
        low: 0,
        limit: 256,
        top: 255,
        sloped: false,
        old: false,
    }
}

/// A word of TEMP.
fn read_temp(value: &[u8]) -> Result<Span, CertWhy>
    ensures { result ≡ value_read temp_item.form value.now }
{
    span_of(range(temp_forms(), value)?)
}

/// `temp=N` and `temp=LO..HI`, of which this follows the `=`.
#[tactic(auto, unfolding(crate::specs::Items::take_value))]
fn take_temp(shape: Shape, facts: &mut Facts, value: &[u8]) -> Result<(), CertWhy>
    ensures ok { IfOk result (λ _. take_numbered 1 shape facts.old value.now ≡ Ok facts.new) }
    ensures err { IfErr result (λ e. take_numbered 1 shape facts.old value.now ≡ Err e) }
{
    if !shape.timed {
        return Err(CertWhy::Word);
    }
    let temp = read_temp(value)?;
    in_order(facts, 60, temp.lo() == 0 && temp.hi() == 255)?;
    facts.temp = temp;
    facts.least = 61;
    Ok(())
}

/// A word of what the flags tell.
fn read_compared(value: &[u8]) -> Result<Compared, CertWhy>
    ensures { result ≡ value_read flags_item.form value.now }
{
    comparison(value)
}

/// `flags=V`, of which this is V.
#[tactic(auto, unfolding(crate::specs::Items::take_value))]
fn take_compared(shape: Shape, facts: &mut Facts, value: &[u8]) -> Result<(), CertWhy>
    ensures ok { IfOk result (λ _. take_numbered 2 shape facts.old value.now ≡ Ok facts.new) }
    ensures err { IfErr result (λ e. take_numbered 2 shape facts.old value.now ≡ Err e) }
{
    if !shape.compares {
        return Err(CertWhy::Word);
    }
    let compared = read_compared(value)?;
    in_order(facts, 61, is_nothing(&compared))?;
    facts.compared = compared;
    facts.least = 62;
    Ok(())
}

/// A word of a register by whose values a result is covered.
fn read_split(value: &[u8]) -> Result<u8, CertWhy>
    ensures ok { IfOk result (λ r. value_read split_item.form value.now ≡ Ok (Some r)) }
    ensures err { IfErr result (λ e. value_read split_item.form value.now ≡ Err e) }
{
    let register = one_number(0, 32, value)?;
    Ok(register as u8)
}

/// `split=R`, of which this is R.
#[tactic(auto, unfolding(crate::specs::Items::take_value))]
fn take_split(shape: Shape, facts: &mut Facts, value: &[u8]) -> Result<(), CertWhy>
    ensures ok { IfOk result (λ _. take_numbered 3 shape facts.old value.now ≡ Ok facts.new) }
    ensures err { IfErr result (λ e. take_numbered 3 shape facts.old value.now ≡ Err e) }
{
    if !shape.compares {
        return Err(CertWhy::Word);
    }
    let register = read_split(value)?;
    in_order(facts, 62, false)?;
    facts.split = Some(register);
    facts.least = 63;
    Ok(())
}

/// The items of one value that have a name, of which these are the name and the value.
fn take_named_value(
    shape: Shape,
    facts: &mut Facts,
    key: &[u8],
    value: &[u8],
) -> Result<(), CertWhy>
    ensures ok { IfOk result (λ _. value_of_name shape facts.old key.now value.now ≡ Ok facts.new) }
    ensures err { IfErr result (λ e. value_of_name shape facts.old key.now value.now ≡ Err e) }
{
    if key == b"top".as_slice() {
        return take_top(shape, facts, value);
    }
    if key == b"temp".as_slice() {
        return take_temp(shape, facts, value);
    }
    if key == b"flags".as_slice() {
        return take_compared(shape, facts, value);
    }
    if key == b"split".as_slice() {
        return take_split(shape, facts, value);
    }
    Err(CertWhy::Word)
}

/// A point of its place and what is known there.
#[tactic(auto, unfolding(crate::specs::Named::point_of))]
pub(crate) fn point_of(place: PointPlace, facts: Facts) -> Point
    ensures { result ≡ point_of_facts place facts }
{
    Point {
        kind: place.kind,
        pc: place.pc,
        l0: place.l0,
        l1: place.l1,
        c0: place.c0,
        c1: place.c1,
        clock: place.clock,
        slope: place.slope,
        pending: place.pending,
        regs: same_regs(&facts.regs),
        pairs: same_pairs(&facts.pairs),
        flags: facts.flags,
        compared: facts.compared,
        split: facts.split,
        stack: facts.stack,
        cells: facts.cells,
        top: facts.top,
        temp: facts.temp,
        next: facts.next,
    }
}

fn successor_set(facts: &mut Facts, id: Option<u32>) -> Result<(), CertWhy>
    requires room { length facts.old.next.items < 16 }
    requires few { IfSome id (λ n. n < 2 ^ 32 - 1) }
    ensures ok { IfOk result (λ _. set_successor facts.old id ≡ Ok facts.new) }
    ensures err { IfErr result (λ e. set_successor facts.old id ≡ Err e) }
{
    match id {
        Some(id) => {
            if id < facts.after {
                return Err(CertWhy::Order);
            }
            facts.next.push(id);
            facts.after = id + 1;
            facts.least = 63;
            Ok(())
        }
        None => Err(CertWhy::Unknown),
    }
}

/// `>ID`, of which this is ID.
#[tactic(auto, unfolding(crate::specs::Items::take_successor))]
fn take_successor(shape: Shape, facts: &mut Facts, id: &[u8]) -> Result<(), CertWhy>
    ensures ok { IfOk result (λ _. successor_taken shape facts.old id.now ≡ Ok facts.new) }
    ensures err { IfErr result (λ e. successor_taken shape facts.old id.now ≡ Err e) }
{
    if shape.plain || !digits(id) {
        return Err(CertWhy::Word);
    }
    if !uz_hex::is_number(id) {
        return Err(CertWhy::Number);
    }
    if facts.next.len() >= 16 {
        return Err(CertWhy::Limit);
    }
    successor_set(facts, uz_hex::number(id, shape.points))
}

/// Whether `z=` with this value is the flag, where these words follow.
fn is_flag_z(shape: Shape, facts: &Facts, value: &[u8], later: &Words) -> bool
    ensures { result ≡ z_is_flag shape facts.now value.now later.now.list }
{
    if shape.plain || facts.least > 35 {
        return true;
    }
    if value == b"?".as_slice() || value == b"o".as_slice() {
        return true;
    }
    (value == b"0".as_slice() || value == b"1".as_slice()) && !later.any_names()
}

/// `x=F`, `y=F`, `z=F` and the flags, of which this is the letter and the value.
#[tactic(auto, unfolding(crate::specs::Items::take_letter))]
fn take_letter(
    shape: Shape,
    facts: &mut Facts,
    letter: u8,
    value: &[u8],
    later: &Words,
) -> Result<(), CertWhy>
    ensures ok { IfOk result (λ _. letter_taken shape facts.old letter value.now later.now.list ≡ Ok facts.new) }
    ensures err { IfErr result (λ e. letter_taken shape facts.old letter value.now later.now.list ≡ Err e) }
{
    match letter {
        b'x' => take_pair(shape, facts, 0, value),
        b'y' => take_pair(shape, facts, 1, value),
        b'z' => {
            if is_flag_z(shape, facts, value, later) {
                take_flag(shape, facts, 1, value)
            } else {
                take_pair(shape, facts, 2, value)
            }
        }
        b'c' => take_flag(shape, facts, 0, value),
        b'n' => take_flag(shape, facts, 2, value),
        b'v' => take_flag(shape, facts, 3, value),
        b's' => take_flag(shape, facts, 4, value),
        b'h' => take_flag(shape, facts, 5, value),
        b't' => take_flag(shape, facts, 6, value),
        _ => Err(CertWhy::Word),
    }
}

/// `KEY=VALUE`.
fn take_keyed(
    shape: Shape,
    cells: &[Cell],
    facts: &mut Facts,
    key: &[u8],
    value: &[u8],
    later: &Words,
) -> Result<(), CertWhy>
    requires cells { length cells.now ≤ 16 }
    ensures ok { IfOk result (λ _. keyed_taken shape cells.now facts.old key.now value.now later.now.list ≡ Ok facts.new) }
    ensures err { IfErr result (λ e. keyed_taken shape cells.now facts.old key.now value.now later.now.list ≡ Err e) }
{
    match key {
        [c, rest @ ..] => {
            if *c == b'r' {
                take_register(shape, facts, rest, value)
            } else if *c == b'm' {
                take_cell(shape, cells, facts, rest, value)
            } else if rest.len() == 0 {
                take_letter(shape, facts, *c, value, later)
            } else {
                take_named_value(shape, facts, key, value)
            }
        }
        [] => Err(CertWhy::Word),
    }
}

/// An item that is neither a slot nor a successor.
#[tactic(auto, unfolding(crate::specs::Items::take_named))]
fn take_named(
    shape: Shape,
    cells: &[Cell],
    facts: &mut Facts,
    word: &[u8],
    later: &Words,
) -> Result<(), CertWhy>
    requires cells { length cells.now ≤ 16 }
    ensures ok { IfOk result (λ _. named_taken shape cells.now facts.old word.now later.now.list ≡ Ok facts.new) }
    ensures err { IfErr result (λ e. named_taken shape cells.now facts.old word.now later.now.list ≡ Err e) }
{
    match uz_hex::cut(word, b'=') {
        Some((key, value)) => take_keyed(shape, cells, facts, key, value, later),
        None => Err(CertWhy::Word),
    }
}

/// An item that begins with `s`, of which this follows the `s`.
fn take_second(
    shape: Shape,
    cells: &[Cell],
    facts: &mut Facts,
    word: &[u8],
    rest: &[u8],
    later: &Words,
) -> Result<(), CertWhy>
    requires depth { shape.depth ≤ 32 }
    requires cells { length cells.now ≤ 16 }
    ensures ok { IfOk result (λ _. second_taken shape cells.now facts.old word.now rest.now later.now.list ≡ Ok facts.new) }
    ensures err { IfErr result (λ e. second_taken shape cells.now facts.old word.now rest.now later.now.list ≡ Err e) }
{
    match rest {
        [c, value @ ..] => {
            if *c == b':' {
                take_slot(shape, facts, value)
            } else {
                take_named(shape, cells, facts, word, later)
            }
        }
        [] => take_named(shape, cells, facts, word, later),
    }
}

/// Takes an item, where these words follow on its line.
#[tactic(auto, unfolding(crate::specs::Items::take_item))]
fn take_item(
    shape: Shape,
    cells: &[Cell],
    facts: &mut Facts,
    word: &[u8],
    later: &Words,
) -> Result<(), CertWhy>
    requires depth { shape.depth ≤ 32 }
    requires cells { length cells.now ≤ 16 }
    ensures ok { IfOk result (λ _. item_taken shape cells.now facts.old word.now later.now.list ≡ Ok facts.new) }
    ensures err { IfErr result (λ e. item_taken shape cells.now facts.old word.now later.now.list ≡ Err e) }
{
    match word {
        [c, rest @ ..] => {
            if *c == b'>' {
                take_successor(shape, facts, rest)
            } else if *c == b's' {
                take_second(shape, cells, facts, word, rest, later)
            } else {
                take_named(shape, cells, facts, word, later)
            }
        }
        [] => Err(CertWhy::Word),
    }
}

/// Reads the items of a line, to its end.
#[tactic(auto, unfolding(crate::specs::Items::read_items))]
pub(crate) fn read_items(shape: Shape, cells: &[Cell], words: &mut Words) -> Result<Facts, CertWhy>
    requires depth { shape.depth ≤ 32 }
    requires cells { length cells.now ≤ 16 }
    ensures { result ≡ items_read shape cells.now words.old }
{
    let mut facts = first_facts(shape.kind, cells);
    while let Some(word) = words.next_word() {
        take_item(shape, cells, &mut facts, word, words)?;
    }
    if !words.ended() {
        return Err(CertWhy::NoEnd);
    }
    Ok(facts)
}

//! The rules that hints obey, one by one, and the first that one of them breaks.

ghost use Rattle.std.specs.Prelude.{◌≡◌, ◌<◌, ◌↔◌, IsTrue, IfSome, IsSome, MatchOption, Some, length, slice_get};
ghost use Rattle.avr_asm.specs.declared.output.Hint.{Hint};
ghost use Rattle.uz_paths.specs.Faults.{IsFine, HintRefusal};
ghost use Rattle.uz_paths.specs.Rules.{StartObeys, LinesObey, StandsIn, FallsInHalf, NamesNew, HalfObeys, StackObeys};
ghost use Rattle.uz_paths.specs.Rules.{RangeObeys, PlaceObeys, FactObeys, Obeys, hint_rules, ObeysFirst, IsBroken};
ghost use Rattle.uz_paths.specs.Rules.{IsOnlyCell, NoRuleAt, IsRuleAt, missing_in};
ghost use Rattle.uz_paths.specs.declared.rules.Rule.{Rule};

use crate::errors::{
    LAST_PLACE, MOST_CELLS, MOST_SLOTS, RAM, is_instruction, is_off_stack, starts_main,
};
use crate::words::{
    FrameSize, cell_count, first_lines, first_stack, first_start, has_cell, has_half,
};
use avr_asm::Hint;
use uz_hex::Image;
use uz_schedule::{CLOCK_LIMIT, HALF_LINE, Kind, MOST_LINES, Response};

/// A rule of hints. Of the rules that a hint breaks the first is told, in this order.
#[derive(Clone, Copy, Debug)]
pub enum Rule {
    /// Of a start or a fact: an instruction stands at its address.
    Instruction,
    /// A start is main's or of a program that is alone, a cell is main's or the handler's.
    Owner,
    /// The lines of a half, the addresses of a stack and the values of a cell or fact don't end before they begin.
    Order,
    /// There are 1 to 525 lines.
    LineCount,
    /// The fall has a clock from 1 to 1819.
    Fall,
    /// If runs enter main, the fall comes after each clock at which the handler's first instruction may begin.
    FallAfterEntry,
    /// Of a half: its lines stand in the frame.
    InFrame,
    /// Of a half: the frame's fall is a clock of half a line.
    FallInHalf,
    /// Of a half: no earlier one names one of its lines.
    HalfOnce,
    /// A stack and a cell lie in RAM (ATmega644 data sheet: data addresses 256 to 4351).
    Ram,
    /// Main and the handler push at most 32 bytes each.
    Depth,
    /// A stack has room for what they push, and for a return address.
    Room,
    /// A cell lies off the stack.
    OffStack,
    /// A fact is of a register or of a pointer.
    Place,
    /// The values of a cell, or of a fact of a register, are bytes.
    ByteRange,
    /// The first value of a handler's cell is one of its values.
    FirstValue,
    /// A cell isn't the 17th.
    CellCount,
    /// No other cell has its address.
    CellOnce,
    /// A start, lines or a stack are the first of their kind.
    Once,
    /// Some hint is a start.
    HasStart,
    /// Some hint tells the lines.
    HasLines,
    /// Some hint tells the stack.
    HasStack,
}

/// The rules of single hints, in the order in which they are told.
const HINT_RULES: [Rule; 19] = [
    Rule::Instruction,
    Rule::Owner,
    Rule::Order,
    Rule::LineCount,
    Rule::Fall,
    Rule::FallAfterEntry,
    Rule::InFrame,
    Rule::FallInHalf,
    Rule::HalfOnce,
    Rule::Ram,
    Rule::Depth,
    Rule::Room,
    Rule::OffStack,
    Rule::Place,
    Rule::ByteRange,
    Rule::FirstValue,
    Rule::CellCount,
    Rule::CellOnce,
    Rule::Once,
];

impl Rule {
    ghost use Rattle.std.specs.Prelude.{◌≡◌};
    ghost use Rattle.uz_paths.specs.Rules.{words_of};

    /// What is said of a hint that breaks it, or of hints that do: a sentence in plain English, without a full stop.
    #[tactic(auto, unfolding(crate::specs::Rules::words_of))]
    pub fn words(self) -> &'static str
        ensures { result.now ≡ words_of self }
    {
        match self {
            Rule::Instruction => "no instruction stands at its address",
            Rule::Owner => "the part of the program that it names can't have such a hint",
            Rule::Order => "its range ends before it begins",
            Rule::LineCount => "the number of lines isn't from 1 to 525",
            Rule::Fall => "the clock of the fall isn't from 1 to 1819",
            Rule::FallAfterEntry => {
                "the fall doesn't come after each clock at which the handler's first instruction may begin"
            }
            Rule::InFrame => "its last line isn't a line of the frame, whose lines count from 0",
            Rule::FallInHalf => {
                "the clock of the fall in .lines isn't below 910, the length of half a line"
            }
            Rule::HalfOnce => "an earlier .half names one of its lines",
            Rule::Ram => "it doesn't lie in RAM, whose addresses are 256 to 4351",
            Rule::Depth => "main or the handler may push more than 32 bytes",
            Rule::Room => {
                "the stack is too small for what main and the handler push and a return address of 2 bytes"
            }
            Rule::OffStack => "its address lies on the stack",
            Rule::Place => "it is of no register and no pointer",
            Rule::ByteRange => "its range goes above 255, the greatest value of a byte",
            Rule::FirstValue => "the handler's first value isn't in its range",
            Rule::CellCount => "16 cells stand before it, and there can't be more",
            Rule::CellOnce => "another .cell has its address",
            Rule::Once => "an earlier line has the same directive, which may stand once",
            Rule::HasStart => "there is no .start",
            Rule::HasLines => "there is no .lines",
            Rule::HasStack => "there is no .stack",
        }
    }
}

fn start_obeys(image: &Image, hints: &[Hint], i: usize, kind: Kind, at: u16, rule: Rule) -> bool
    requires { i < length hints.now }
    ensures { IsTrue result ↔ StartObeys image.now hints.now i kind at rule }
{
    match rule {
        Rule::Instruction => is_instruction(image, at),
        Rule::Owner => kind != Kind::Handler,
        Rule::Once => first_start(&hints[..i]).is_none(),
        _ => true,
    }
}

fn lines_obey(irq: Response, hints: &[Hint], i: usize, lines: u16, fall: u16, rule: Rule) -> bool
    requires { i < length hints.now }
    ensures { IsTrue result ↔ LinesObey irq hints.now i lines fall rule }
{
    match rule {
        Rule::LineCount => 1 <= lines && usize::from(lines) <= MOST_LINES,
        Rule::Fall => 1 <= fall && fall < CLOCK_LIMIT,
        Rule::FallAfterEntry => !starts_main(first_start(hints)) || irq.clocks() + 3 < fall,
        Rule::Once => first_lines(&hints[..i]).is_none(),
        _ => true,
    }
}

/// Whether a line stands in the frame.
fn stands_in(line: u16, size: Option<FrameSize>) -> bool
    ensures { IsTrue result ↔ StandsIn line size }
{
    match size {
        None => true,
        Some(size) => line < size.lines,
    }
}

/// Whether the frame's fall is a clock of half a line.
fn falls_in_half(size: Option<FrameSize>) -> bool
    ensures { IsTrue result ↔ FallsInHalf size }
{
    match size {
        None => true,
        Some(size) => size.fall < HALF_LINE,
    }
}

/// Whether no hint halves a line from one to another.
#[tactic(auto, using(crate::proofs::HalfLemmas::none_halved, crate::proofs::HalfLemmas::none_shared))]
fn names_new(earlier: &[Hint], from: u16, to: u16) -> bool
    ensures { IsTrue result ↔ NamesNew earlier.now from to }
{
    !has_half(earlier, from, to)
}

fn half_obeys(hints: &[Hint], i: usize, from: u16, to: u16, rule: Rule) -> bool
    requires { i < length hints.now }
    ensures { IsTrue result ↔ HalfObeys hints.now i from to rule }
{
    match rule {
        Rule::Order => from <= to,
        Rule::InFrame => stands_in(to, first_lines(hints)),
        Rule::FallInHalf => falls_in_half(first_lines(hints)),
        Rule::HalfOnce => names_new(&hints[..i], from, to),
        _ => true,
    }
}

fn stack_obeys(
    hints: &[Hint],
    i: usize,
    lo: u16,
    hi: u16,
    main: u8,
    handler: u8,
    rule: Rule,
) -> bool
    requires { i < length hints.now }
    ensures { IsTrue result ↔ StackObeys hints.now i lo hi main handler rule }
{
    match rule {
        Rule::Order => lo <= hi,
        Rule::Ram => RAM.0 <= lo && hi <= RAM.1,
        Rule::Depth => main <= MOST_SLOTS && handler <= MOST_SLOTS,
        Rule::Room => {
            u32::from(main) + 2 + u32::from(handler) <= u32::from(hi.saturating_sub(lo)) + 1
        }
        Rule::Once => first_stack(&hints[..i]).is_none(),
        _ => true,
    }
}

fn range_obeys(owner: Kind, lo: u8, hi: u8, first: u8, rule: Rule) -> bool
    ensures { IsTrue result ↔ RangeObeys owner lo hi first rule }
{
    match rule {
        Rule::Owner => owner != Kind::Alone,
        Rule::Order => lo <= hi,
        Rule::FirstValue => owner != Kind::Handler || (lo <= first && first <= hi),
        _ => true,
    }
}

/// Whether no other cell has this address.
fn is_only_cell(hints: &[Hint], i: usize, at: u16) -> bool
    requires { i < length hints.now }
    ensures { IsTrue result ↔ IsOnlyCell hints.now i at }
{
    !has_cell(&hints[..i], at) && !has_cell(&hints[i + 1..], at)
}

fn place_obeys(hints: &[Hint], i: usize, at: u16, rule: Rule) -> bool
    requires { i < length hints.now }
    ensures { IsTrue result ↔ PlaceObeys hints.now i at rule }
{
    match rule {
        Rule::Ram => RAM.0 <= at && at <= RAM.1,
        Rule::OffStack => is_off_stack(at, first_stack(hints)),
        Rule::CellCount => cell_count(&hints[..i]) < MOST_CELLS,
        Rule::CellOnce => is_only_cell(hints, i, at),
        _ => true,
    }
}

fn fact_obeys(image: &Image, at: u16, place: u8, lo: u16, hi: u16, rule: Rule) -> bool
    ensures { IsTrue result ↔ FactObeys image.now at place lo hi rule }
{
    match rule {
        Rule::Instruction => is_instruction(image, at),
        Rule::Order => lo <= hi,
        Rule::Place => place <= LAST_PLACE,
        Rule::ByteRange => 32 <= place || hi <= 255,
        _ => true,
    }
}

/// Whether the hint of an index obeys a rule.
fn obeys(image: &Image, irq: Response, hints: &[Hint], i: usize, hint: &Hint, rule: Rule) -> bool
    requires { i < length hints.now }
    ensures { IsTrue result ↔ Obeys image.now irq hints.now i hint.now rule }
{
    match *hint {
        Hint::Start { kind, at } => start_obeys(image, hints, i, kind, at, rule),
        Hint::Lines { lines, fall } => lines_obey(irq, hints, i, lines, fall, rule),
        Hint::Half { from, to } => half_obeys(hints, i, from, to, rule),
        Hint::Stack {
            lo,
            hi,
            main,
            handler,
        } => stack_obeys(hints, i, lo, hi, main, handler, rule),
        Hint::Cell {
            at,
            owner,
            lo,
            hi,
            first,
        } => range_obeys(owner, lo, hi, first, rule) && place_obeys(hints, i, at, rule),
        Hint::Fact { at, place, lo, hi } => fact_obeys(image, at, place, lo, hi, rule),
    }
}

/// The first of some rules that the hint of an index breaks.
fn first_broken(
    image: &Image,
    irq: Response,
    hints: &[Hint],
    i: usize,
    hint: &Hint,
    rules: &[Rule],
) -> Option<Rule>
    requires { i < length hints.now }
    ensures { MatchOption result (ObeysFirst image.now irq hints.now i hint.now rules.now (length rules.now))
        (λ r. IsBroken image.now irq hints.now i hint.now rules.now r) }
{
    for rule in rules {
        if !obeys(image, irq, hints, i, hint, *rule) {
            return Some(*rule);
        }
    }
    None
}

/// The same of all rules of single hints.
fn first_rule(image: &Image, irq: Response, hints: &[Hint], i: usize, hint: &Hint) -> Option<Rule>
    requires { i < length hints.now }
    ensures { MatchOption result (ObeysFirst image.now irq hints.now i hint.now hint_rules 19)
        (λ r. IsBroken image.now irq hints.now i hint.now hint_rules r) }
{
    first_broken(image, irq, hints, i, hint, &HINT_RULES)
}

/// Of start, lines and stack the first that no hint names.
fn missing(hints: &[Hint]) -> Option<Rule>
    ensures { result ≡ missing_in hints.now }
{
    if first_start(hints).is_none() {
        Some(Rule::HasStart)
    } else if first_lines(hints).is_none() {
        Some(Rule::HasLines)
    } else if first_stack(hints).is_none() {
        Some(Rule::HasStack)
    } else {
        None
    }
}

/// The same at an index that may be the number of hints, or beyond.
fn rule_at(image: &Image, irq: Response, hints: &[Hint], i: usize) -> Option<Rule>
    ensures { MatchOption result (NoRuleAt image.now irq hints.now i) (λ r. IsRuleAt image.now irq hints.now i r) }
{
    if i < hints.len() {
        return first_rule(image, irq, hints, i, &hints[i]);
    }
    if i == hints.len() {
        missing(hints)
    } else {
        None
    }
}

/// The rule for which hints are refused at an index, counted from 0: of the rules that the hint breaks the first in the order
/// of `Rule`; at the number of hints, the first of `HasStart`, `HasLines` and `HasStack` that they break. None exactly if
/// there is none, as for an index beyond.
pub fn broken_rule(image: &Image, irq: Response, hints: &[Hint], index: u32) -> Option<Rule>
    ensures rule { IfSome result (λ r. IsRuleAt image.now irq hints.now index r) }
    ensures exact { (r : Rule) → IsRuleAt image.now irq hints.now index r → result ≡ Some r }

    // Some rule is broken exactly where the hint is at fault, and wherever hints are refused.
    ensures fault { (h : Hint) → slice_get hints.now index ≡ Some h
        → MatchOption result (IsFine image.now irq hints.now index h) (λ _. IsFine image.now irq hints.now index h → ⊥) }
    ensures told { HintRefusal image.now irq hints.now index → IsSome result }
{
    rule_at(image, irq, hints, index as usize)
}

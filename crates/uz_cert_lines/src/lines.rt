//! The lines of a certificate's text, each read as what it says.

ghost use Rattle.std.specs.Prelude.{ℕ, ◌≡◌, ◌≢◌, ◌<◌, ◌≤◌, ◌+◌, ◌-◌, ◌/◌, IfOk, IfErr, Ok, Err, [], ◌∷◌, codes, length, map};
ghost use Rattle.uz_schedule.specs.Tracked.{depth_of as depth_of_kind};
ghost use Rattle.uz_cert_lines.specs.Grammar.{choice_of, next_as, number_of, rest_of};
ghost use Rattle.uz_cert_lines.specs.Forms.{reads, spans_of, finish as ends_with};
ghost use Rattle.uz_cert_lines.specs.declared.lines.ParsedLine.TheVariants as said_of;
ghost use Rattle.uz_cert_lines.specs.Lines.{size_form, irq_form, stack_form, cell_form, kind_form, event_form};
ghost use Rattle.uz_cert_lines.specs.Lines.{fall_form, run_form, rest_form};
ghost use Rattle.uz_cert_lines.specs.Lines.{entry_form, point_form, end_form, within as within_limits};
ghost use Rattle.uz_cert_lines.specs.Lines.{least_of as lesser_of, response_of as response_of_clocks};
ghost use Rattle.uz_cert_lines.specs.Lines.{owner_of as owner_of_place, off_stack as off_the_stack, none_in_main as none_of_main};
ghost use Rattle.uz_cert_lines.specs.Lines.{shape_of as shape_of_kind, is_timed as has_timer, is_compared as has_compared};
ghost use Rattle.uz_cert_lines.specs.Lines.{point_shape as shape_of_point};
ghost use Rattle.uz_cert_lines.specs.Lines.{span_of_fact as ends_of_fact};
ghost use Rattle.uz_cert_lines.specs.Lines.{entry_of as entry_of_facts, entry_kind as kind_of_entry, point_kind as kind_of_point};
ghost use Rattle.uz_cert_lines.specs.Lines.{pending_limit as limit_of_pending, count_limit as limit_of_count};
ghost use Rattle.uz_cert_lines.specs.Lines.{length_for as length_for_events, kind_after as kind_after_events};
ghost use Rattle.uz_schedule.specs.Schedule.{scanline};
ghost use Rattle.uz_cert_lines.specs.Lines.{event_after as event_after_clock, point_after as point_after_kind};

use crate::defaults::{is_handler, tracks};
use crate::items::{Facts, Shape, point_of, read_items};
use crate::numbers::{between, in_order, one_number_of, one_of, within};
use crate::version::Version;
use crate::{CertWhy, NumberBounds, Words};
use arrayvec::ArrayVec;
use uz_schedule::{
    CLOCK_LIMIT, Cell, Entry, Event, EventKind, Fact, HALF_LINE, Head, Kind, MOST_EVENTS, Owner,
    PairFact, Point, Response, Rest, RuleVersion, SCANLINE, Span, Wide,
};

/// Each clock of a text is below this.
const CLOCKS: u32 = CLOCK_LIMIT as u32;

/// The most events of a kind of line.
const EVENTS: u32 = MOST_EVENTS as u32;

/// The clocks of a scanline.
const WHOLE: u32 = SCANLINE as u32;

/// The clocks of half a scanline.
const HALF: u32 = HALF_LINE as u32;

/// How many of each there are.
#[derive(Clone, Copy)]
pub struct Sizes {
    pub kinds: u32,
    pub lines: u32,
    pub rests: u32,
    pub points: u32,
    pub cells: u32,
}

/// The stack's lowest and highest address, and what main and handler may push.
#[derive(Clone, Copy)]
pub struct StackLine {
    pub lo: u16,
    pub hi: u16,
    pub main: u8,
    pub handler: u8,
}

/// How many events a kind of line has, and its length.
#[derive(Clone, Copy)]
pub struct KindLine {
    pub events: u32,
    /// The clocks of a line of this kind.
    pub clocks: u16,
}

/// Lines of one kind that follow each other.
#[derive(Clone, Copy)]
pub struct Run {
    pub count: u32,
    pub kind: u32,
}

/// What a line says.
#[derive(Drop)]
pub enum ParsedLine {
    /// `size KINDS LINES RESTS POINTS CELLS`
    Size(Sizes),
    /// `irq R`
    Irq(Response),
    /// `stack LO HI MAIN HANDLER`
    Stack(StackLine),
    /// `cell ADDRESS OWNER LO HI`
    Cell(Cell),
    /// `kind EVENTS LENGTH`, and in version 1 `kind EVENTS`
    Kind(KindLine),
    /// `CLOCK sync V`, `CLOCK pixel`, `CLOCK sound` and `CLOCK leave`
    Event(Event),
    /// `fall CLOCK`
    Fall(u16),
    /// `run COUNT KIND`
    Run(Run),
    /// `rest LINE CLOCK VECTOR SPANS`
    Rest(Rest),
    /// `entry KIND ID PC LINE CLOCK ITEMS`
    Entry(Entry),
    /// `point KIND PC L0 L1 C0 C1 CLOCK SLOPE PENDING ITEMS`
    Point(Point),
    /// `end`
    End,
}

/// What the line says, where it ends here.
fn at_end(words: &mut Words, said: ParsedLine) -> Result<ParsedLine, CertWhy>
    ensures { result ≡ reads (ends_with said) words.old }
{
    words.finish()?;
    Ok(said)
}

fn least_of(a: u32, b: u32) -> u32
    ensures { result ≡ lesser_of a b }
{
    if a < b { a } else { b }
}

/// `size KINDS LINES RESTS POINTS CELLS`
pub fn size_line(words: &mut Words) -> Result<ParsedLine, CertWhy>
    ensures { result ≡ reads size_form words.old }
{
    words.fixed(b"size")?;
    let kinds = between(words, 1, 526)?;
    let lines = between(words, 1, 526)?;
    let rests = between(words, 0, lines + 1)?;
    let points = between(words, 1, 524289)?;
    let cells = between(words, 0, 17)?;
    at_end(
        words,
        ParsedLine::Size(Sizes {
            kinds,
            lines,
            rests,
            points,
            cells,
        }),
    )
}

fn response_of(clocks: u32) -> Response
    ensures { result ≡ response_of_clocks clocks }
{
    if clocks == 4 {
        Response::Four
    } else {
        Response::Five
    }
}

/// `irq R`
pub fn irq_line(words: &mut Words) -> Result<ParsedLine, CertWhy>
    ensures { result ≡ reads irq_form words.old }
{
    words.fixed(b"irq")?;
    let clocks = between(words, 4, 6)?;
    at_end(words, ParsedLine::Irq(response_of(clocks)))
}

/// The next word, which has to be a number of bytes that may be pushed where the stack has room for so many.
fn pushed(words: &mut Words, room: u32) -> Result<u32, CertWhy>
    ensures number { result ≡ next_as (number_of (within_limits 0 (lesser_of 33 room))) words.old }
    ensures few { IfOk result (λ n. n < 33) }
    ensures room { IfOk result (λ n. n ≤ room) }
    ensures rest { words.new ≡ rest_of words.old }
{
    between(words, 0, least_of(33, room))
}

/// `stack LO HI MAIN HANDLER`
pub fn stack_line(words: &mut Words) -> Result<ParsedLine, CertWhy>
    ensures { result ≡ reads stack_form words.old }
{
    words.fixed(b"stack")?;
    let lo = between(words, 256, 4351)?;
    let hi = between(words, lo + 1, 4352)?;
    let main = pushed(words, hi - lo)?;
    let handler = pushed(words, hi - lo - main)?;
    at_end(
        words,
        ParsedLine::Stack(StackLine {
            lo: lo as u16,
            hi: hi as u16,
            main: main as u8,
            handler: handler as u8,
        }),
    )
}

/// The next word, which has to be an owner; its place among them.
fn owner_word(words: &mut Words) -> Result<u32, CertWhy>
    ensures place { result ≡ next_as (choice_of (codes "main" ∷ codes "handler" ∷ [])) words.old }
    ensures rest { words.new ≡ rest_of words.old }
{
    words.choice(&[b"main", b"handler"])
}

fn owner_of(place: u32) -> Owner
    ensures { result ≡ owner_of_place place }
{
    if place == 0 {
        Owner::Main
    } else {
        Owner::Handler
    }
}

/// An address of RAM, off the stack.
fn off_stack(lo: u16, hi: u16, least: u32) -> NumberBounds
    ensures asked { result ≡ off_the_stack lo hi least }
    ensures limit { result.limit ≡ 4352 }
{
    NumberBounds {
        hole: u32::from(lo),
        hole_end: u32::from(hi) + 1,
        least,
        ..within(256, 4352)
    }
}

/// `cell ADDRESS OWNER LO HI`
pub fn cell_line(lo: u16, hi: u16, least: u32, words: &mut Words) -> Result<ParsedLine, CertWhy>
    ensures { result ≡ reads (cell_form lo hi least) words.old }
{
    words.fixed(b"cell")?;
    let at = words.number(off_stack(lo, hi, least))?;
    let owner = owner_word(words)?;
    let low = between(words, 0, 256)?;
    let high = between(words, low, 256)?;
    at_end(
        words,
        ParsedLine::Cell(Cell {
            at: at as u16,
            owner: owner_of(owner),
            range: Span::between(low as u8, high as u8),
        }),
    )
}

/// The clocks of half a scanline or of a whole one, and no fewer than there are events.
fn length_for(events: u32) -> NumberBounds
    ensures asked { result ≡ length_for_events events }
    ensures limit { result.limit ≡ scanline + 1 }
{
    let low = if HALF < events { WHOLE } else { HALF };
    NumberBounds {
        hole: HALF + 1,
        hole_end: WHOLE,
        ..within(low, WHOLE + 1)
    }
}

/// What follows the number of events.
fn kind_after(version: Version, events: u32, words: &mut Words) -> Result<ParsedLine, CertWhy>
    ensures { result ≡ reads (kind_after_events version events) words.old }
{
    match version {
        Version::First => at_end(
            words,
            ParsedLine::Kind(KindLine {
                events,
                clocks: SCANLINE,
            }),
        ),
        Version::Second | Version::Third => {
            let clocks = words.number(length_for(events))? as u16;
            at_end(words, ParsedLine::Kind(KindLine { events, clocks }))
        }
    }
}

/// `kind EVENTS LENGTH`, and in version 1 `kind EVENTS`
pub fn kind_line(version: Version, words: &mut Words) -> Result<ParsedLine, CertWhy>
    ensures { result ≡ reads (kind_form version) words.old }
{
    words.fixed(b"kind")?;
    let events = between(words, 1, EVENTS + 1)?;
    kind_after(version, events, words)
}

/// The next word, which has to be one of an event; its place among them.
fn event_word(words: &mut Words) -> Result<u32, CertWhy>
    ensures place { result ≡ next_as (choice_of (codes "sync" ∷ codes "pixel" ∷ codes "sound" ∷ codes "leave" ∷ [])) words.old }
    ensures rest { words.new ≡ rest_of words.old }
{
    words.choice(&[b"sync", b"pixel", b"sound", b"leave"])
}

/// What the word of this place, which isn't `sync`, says of an event.
fn plain_event(place: u32) -> EventKind
    requires { place ≢ 0 }
    ensures { (clock : ℕ) → event_after_clock clock place ≡ ends_with (said_of.Event (record { clock = clock; kind = result })) }
{
    if place == 1 {
        EventKind::Pixel
    } else if place == 2 {
        EventKind::Sound
    } else {
        EventKind::Leave
    }
}

/// What follows the clock of an event, whose word is of this place.
fn event_after(clock: u16, place: u32, words: &mut Words) -> Result<ParsedLine, CertWhy>
    ensures { result ≡ reads (event_after_clock clock place) words.old }
{
    let kind = if place == 0 {
        EventKind::Sync(between(words, 0, 2)? as u8)
    } else {
        plain_event(place)
    };
    at_end(words, ParsedLine::Event(Event { clock, kind }))
}

/// `CLOCK sync V`, `CLOCK pixel`, `CLOCK sound` and `CLOCK leave`, in a kind of line of so many clocks.
pub fn event_line(clocks: u16, least: u32, words: &mut Words) -> Result<ParsedLine, CertWhy>
    ensures { result ≡ reads (event_form clocks least) words.old }
{
    let clock = in_order(words, least, u32::from(clocks))?;
    let place = event_word(words)?;
    event_after(clock as u16, place, words)
}

/// `fall CLOCK`
pub fn fall_line(words: &mut Words) -> Result<ParsedLine, CertWhy>
    ensures { result ≡ reads fall_form words.old }
{
    words.fixed(b"fall")?;
    let clock = between(words, 1, CLOCKS)?;
    at_end(words, ParsedLine::Fall(clock as u16))
}

/// `run COUNT KIND`
pub fn run_line(
    kinds: u32,
    left: u32,
    before: u32,
    words: &mut Words,
) -> Result<ParsedLine, CertWhy>
    requires { left ≤ 525 }
    ensures { result ≡ reads (run_form kinds left before) words.old }
{
    words.fixed(b"run")?;
    let count = between(words, 1, left + 1)?;
    let kind = words.number(NumberBounds {
        other: before,
        ..one_of(kinds)
    })?;
    at_end(words, ParsedLine::Run(Run { count, kind }))
}

/// A range for each cell of the handler, each within the one of the header.
#[tactic(auto, using(crate::proofs::Spans::behind_more))]
fn spans(cells: &[Cell], words: &mut Words) -> Result<ArrayVec<Span, 16>, CertWhy>
    requires { length cells.now ≤ 16 }
    ensures ok { IfOk result (λ v. spans_of cells.now words.old ≡ Ok (v.items, words.new)) }
    ensures err { IfErr result (λ e. spans_of cells.now words.old ≡ Err e) }
{
    let mut list = ArrayVec::new();
    for cell in cells {
        if tracks(Kind::Handler, cell.owner) {
            list.push(words.span(cell.range)?);
        }
    }
    Ok(list)
}

/// `rest LINE CLOCK VECTOR SPANS`
pub fn rest_line(
    lines: u32,
    points: u32,
    cells: &[Cell],
    least: u32,
    words: &mut Words,
) -> Result<ParsedLine, CertWhy>
    requires lines { lines ≤ 525 }
    requires cells { length cells.now ≤ 16 }
    ensures { result ≡ reads (rest_form lines points cells.now least) words.old }
{
    words.fixed(b"rest")?;
    let line = in_order(words, least, lines)?;
    let clock = between(words, 0, CLOCKS)?;
    let vector = one_number_of(words, points)?;
    let cells = spans(cells, words)?;
    at_end(
        words,
        ParsedLine::Rest(Rest {
            line: line as u16,
            clock: clock as u16,
            vector,
            cells,
        }),
    )
}

/// The limit, or 1 in main, where 0 alone may stand.
fn none_in_main(kind: Kind, limit: u32) -> u32
    ensures value { result ≡ none_of_main kind limit }
    ensures few { 1 ≤ limit → result ≤ limit }
{
    match kind {
        Kind::Main => 1,
        Kind::Handler => limit,
        Kind::Alone => limit,
    }
}

/// The next word, which has to be a number from `low` on and below `limit`, and in main below 1.
fn of_kind(words: &mut Words, kind: Kind, low: u32, limit: u32) -> Result<u32, CertWhy>
    ensures number { result ≡ next_as (number_of (within_limits low (none_of_main kind limit))) words.old }
    ensures low { IfOk result (λ n. low ≤ n) }
    ensures below { 1 ≤ limit → IfOk result (λ n. n < limit) }
    ensures rest { words.new ≡ rest_of words.old }
{
    between(words, low, none_in_main(kind, limit))
}

fn depth_of(head: &Head, kind: Kind) -> u8
    ensures { result ≡ depth_of_kind head.now kind }
{
    match kind {
        Kind::Main => head.main,
        Kind::Handler => head.handler,
        Kind::Alone => head.main,
    }
}

fn shape_of(head: &Head, kind: Kind, plain: bool, points: u32) -> Shape
    ensures { result ≡ shape_of_kind head.now kind plain points }
{
    Shape {
        kind,
        plain,
        timed: false,
        compares: false,
        points,
        depth: usize::from(depth_of(head, kind)),
    }
}

fn span_of_fact(fact: &Fact) -> Span
    ensures { result ≡ ends_of_fact fact.now }
{
    match fact {
        Fact::Any => Span::between(0, 255),
        Fact::Between(s) => Span::between(s.lo(), s.hi()),
        Fact::Line(_, _) => Span::between(0, 255),
        Fact::Loop(_, _) => Span::between(0, 255),
        Fact::Old(_) => Span::between(0, 255),
        Fact::OldFlags => Span::between(0, 255),
    }
}

fn spans_of_regs(facts: &[Fact; 32]) -> [Span; 32]
    ensures { result ≡ map ends_of_fact facts.now }
{
    let mut spans = [Span::between(0, 255); 32];
    for r in 0..32usize {
        spans[r] = span_of_fact(&facts[r]);
    }
    spans
}

fn spans_of<const CAP: usize>(facts: &[Fact]) -> ArrayVec<Span, CAP>
    requires { length facts.now ≤ CAP }
    ensures { result.items ≡ map ends_of_fact facts.now }
{
    let mut spans = ArrayVec::new();
    for fact in facts {
        spans.push(span_of_fact(fact));
    }
    spans
}

#[tactic(auto, unfolding(crate::specs::Lines::entry_of))]
fn entry_of(kind: Kind, id: u32, pc: u16, line: u16, clock: u16, facts: &Facts) -> Entry
    ensures { result ≡ entry_of_facts kind id pc line clock facts.now }
{
    Entry {
        kind,
        id,
        pc,
        line,
        clock,
        regs: spans_of_regs(&facts.regs),
        flags: facts.flags,
        stack: spans_of(facts.stack.as_slice()),
        cells: spans_of(facts.cells.as_slice()),
    }
}

/// The next word, which has to be the kind of an entry; its place among them.
fn entry_word(words: &mut Words) -> Result<u32, CertWhy>
    ensures place { result ≡ next_as (choice_of (codes "main" ∷ codes "alone" ∷ [])) words.old }
    ensures rest { words.new ≡ rest_of words.old }
{
    words.choice(&[b"main", b"alone"])
}

fn entry_kind(place: u32) -> Kind
    ensures { result ≡ kind_of_entry place }
{
    if place == 0 { Kind::Main } else { Kind::Alone }
}

/// `entry KIND ID PC LINE CLOCK ITEMS`
pub fn entry_line(
    head: &Head,
    lines: u32,
    points: u32,
    words: &mut Words,
) -> Result<ParsedLine, CertWhy>
    requires lines { (1 ≤ lines) × (lines ≤ 525) }
    requires depth { (head.now.main ≤ 32) × (head.now.handler ≤ 32) }
    requires cells { length head.now.cells.items ≤ 16 }
    ensures { result ≡ reads (entry_form head.now lines points) words.old }
{
    words.fixed(b"entry")?;
    let kind = entry_kind(entry_word(words)?);
    let id = one_number_of(words, points)?;
    let pc = between(words, 0, 32768)?;
    let line = of_kind(words, kind, 0, lines)?;
    let clock = of_kind(words, kind, 0, CLOCKS)?;
    let shape = shape_of(head, kind, true, points);
    let facts = read_items(shape, head.cells.as_slice(), words)?;
    Ok(ParsedLine::Entry(entry_of(kind, id, pc as u16, line as u16, clock as u16, &facts)))
}

/// The next word, which has to be the kind of a point; its place among them.
fn point_word(words: &mut Words) -> Result<u32, CertWhy>
    ensures place { result ≡ next_as (choice_of (codes "main" ∷ codes "handler" ∷ codes "alone" ∷ [])) words.old }
    ensures rest { words.new ≡ rest_of words.old }
{
    words.choice(&[b"main", b"handler", b"alone"])
}

fn point_kind(place: u32) -> Kind
    ensures { result ≡ kind_of_point place }
{
    if place == 0 {
        Kind::Main
    } else if place == 1 {
        Kind::Handler
    } else {
        Kind::Alone
    }
}

/// The items of the timer stand in the handler's points, from version 2 on.
fn is_timed(version: Version, kind: Kind) -> bool
    ensures { result ≡ has_timer version kind }
{
    match version {
        Version::First => false,
        Version::Second => is_handler(kind),
        Version::Third => is_handler(kind),
    }
}

/// What the flags tell, and a register of a cover, stand in main's points, by the rules of version 3.
fn is_compared(version: RuleVersion, kind: Kind) -> bool
    ensures { result ≡ has_compared version kind }
{
    match version {
        RuleVersion::Two => false,
        RuleVersion::Three => match kind {
            Kind::Main => true,
            Kind::Handler => false,
            Kind::Alone => false,
        },
    }
}

fn point_shape(version: Version, head: &Head, kind: Kind, points: u32) -> Shape
    ensures { result ≡ shape_of_point version head.now kind points }
{
    Shape {
        timed: is_timed(version, kind),
        compares: is_compared(head.version, kind),
        ..shape_of(head, kind, false, points)
    }
}

fn pending_limit(kind: Kind) -> u32
    ensures { result ≡ limit_of_pending kind }
{
    match kind {
        Kind::Main => 1,
        Kind::Handler => 2,
        Kind::Alone => 1,
    }
}

/// A count at which a box of lines stays within what is left of the instances.
fn count_limit(kind: Kind, left: u32, l0: u32, l1: u32, c0: u32) -> u32
    requires lines { (l0 ≤ l1) × (l1 < 525) }
    requires left { left ≤ 16777216 }
    requires count { c0 < 256 }
    ensures limit { result ≡ limit_of_count kind left l0 l1 c0 }
    ensures few { result ≤ 256 }
{
    least_of(none_in_main(kind, 256), c0 + left / (l1 - l0 + 1))
}

/// The next word, which has to be the last count of a box whose lines and first count these are.
fn last_count(
    kind: Kind,
    left: u32,
    l0: u32,
    l1: u32,
    c0: u32,
    words: &mut Words,
) -> Result<u32, CertWhy>
    requires lines { (l0 ≤ l1) × (l1 < 525) }
    requires left { left ≤ 16777216 }
    requires count { c0 < 256 }
    ensures number { result ≡ next_as (number_of (within_limits c0 (limit_of_count kind left l0 l1 c0))) words.old }
    ensures few { IfOk result (λ n. n < 256) }
    ensures rest { words.new ≡ rest_of words.old }
{
    between(words, c0, count_limit(kind, left, l0, l1, c0))
}

/// Where a point stands: what its line says before its items.
#[derive(Clone, Copy)]
pub struct PointPlace {
    /// What it belongs to.
    pub kind: Kind,
    /// The word address of its instruction.
    pub pc: u16,
    /// The first line of its box.
    pub l0: u16,
    /// The last line of its box.
    pub l1: u16,
    /// The first count of its box.
    pub c0: u8,
    /// The last count of its box.
    pub c1: u8,
    /// The clock of its lines at count 0.
    pub clock: u16,
    /// How many clocks later it stands with each count.
    pub slope: i16,
    /// Whether an interrupt waits.
    pub pending: bool,
}

/// The same fact.
fn same_fact(fact: &Fact) -> Fact
    ensures { result ≡ fact.now }
{
    match fact {
        Fact::Any => Fact::Any,
        Fact::Between(s) => Fact::Between(Span::between(s.lo(), s.hi())),
        Fact::Line(a, b) => Fact::Line(*a, *b),
        Fact::Loop(a, b) => Fact::Loop(*a, *b),
        Fact::Old(r) => Fact::Old(*r),
        Fact::OldFlags => Fact::OldFlags,
    }
}

/// The same facts.
pub(crate) fn same_regs(facts: &[Fact; 32]) -> [Fact; 32]
    ensures { result ≡ facts.now }
{
    let mut copy = [Fact::Any; 32];
    for r in 0..32usize {
        copy[r] = same_fact(&facts[r]);
    }
    copy
}

/// The same fact.
fn same_pair(fact: &PairFact) -> PairFact
    ensures { result ≡ fact.now }
{
    match fact {
        PairFact::Any => PairFact::Any,
        PairFact::Between(w) => PairFact::Between(Wide::between(w.lo(), w.hi())),
        PairFact::Line(a, b) => PairFact::Line(*a, *b),
        PairFact::Loop(a, b) => PairFact::Loop(*a, *b),
    }
}

/// The same facts.
pub(crate) fn same_pairs(facts: &[PairFact; 3]) -> [PairFact; 3]
    ensures { result ≡ facts.now }
{
    let mut copy = [PairFact::Any; 3];
    for k in 0..3usize {
        copy[k] = same_pair(&facts[k]);
    }
    copy
}

/// What follows the kind of a point.
#[tactic(auto, unfolding(crate::specs::Lines::point_after))]
fn point_after(
    version: Version,
    head: &Head,
    lines: u32,
    points: u32,
    left: u32,
    kind: Kind,
    words: &mut Words,
) -> Result<ParsedLine, CertWhy>
    requires lines { (1 ≤ lines) × (lines ≤ 525) }
    requires left { left ≤ 16777216 }
    requires depth { (head.now.main ≤ 32) × (head.now.handler ≤ 32) }
    requires cells { length head.now.cells.items ≤ 16 }
    ensures { result ≡ reads (point_after_kind version head.now lines points left kind) words.old }
{
    let pc = between(words, 0, 32768)?;
    let l0 = of_kind(words, kind, 0, lines)?;
    let l1 = of_kind(words, kind, l0, lines)?;
    let c0 = of_kind(words, kind, 0, 256)?;
    let c1 = last_count(kind, left, l0, l1, c0, words)?;
    let clock = of_kind(words, kind, 0, CLOCKS)?;
    let slope = words.slope(none_in_main(kind, CLOCKS))?;
    let pending = between(words, 0, pending_limit(kind))?;
    let shape = point_shape(version, head, kind, points);
    let facts = read_items(shape, head.cells.as_slice(), words)?;
    let place = PointPlace {
        kind,
        pc: pc as u16,
        l0: l0 as u16,
        l1: l1 as u16,
        c0: c0 as u8,
        c1: c1 as u8,
        clock: clock as u16,
        slope,
        pending: pending == 1,
    };
    Ok(ParsedLine::Point(point_of(place, facts)))
}

/// `point KIND PC L0 L1 C0 C1 CLOCK SLOPE PENDING ITEMS`, where so many instances are left. In version 1 no item is one of
/// the timer. `flags=` and `split=` stand only where the head has the rules of version 3.
pub fn point_line(
    version: Version,
    head: &Head,
    lines: u32,
    points: u32,
    left: u32,
    words: &mut Words,
) -> Result<ParsedLine, CertWhy>
    requires lines { (1 ≤ lines) × (lines ≤ 525) }
    requires left { left ≤ 16777216 }
    requires depth { (head.now.main ≤ 32) × (head.now.handler ≤ 32) }
    requires cells { length head.now.cells.items ≤ 16 }
    ensures { result ≡ reads (point_form version head.now lines points left) words.old }
{
    words.fixed(b"point")?;
    let kind = point_kind(point_word(words)?);
    point_after(version, head, lines, points, left, kind, words)
}

/// `end`
pub fn end_line(words: &mut Words) -> Result<ParsedLine, CertWhy>
    ensures { result ≡ reads end_form words.old }
{
    words.fixed(b"end")?;
    at_end(words, ParsedLine::End)
}

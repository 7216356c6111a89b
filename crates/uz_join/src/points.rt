//! The point that says what an instance says, and the point of a handler's first states.

ghost use Rattle.std.specs.Prelude.{◌≡◌, ◌<◌, ◌≤◌, ◌&&◌, length, map};
ghost use Rattle.uz_schedule.specs.Instances.{hull_at, span_of_val};
ghost use Rattle.uz_schedule.specs.WellFormed.{RangeFits, is_default_flag as default_flag, is_carry_and_zero_default as both_default};
ghost use Rattle.uz_join.specs.Points.{AreOrdered, AreOrderedVals, IsOrdered, IsOrderedCompared, IsOrderedVal, byte_fact as fact_of_byte};
ghost use Rattle.uz_join.specs.Points.{fact_of as fact_of_val, same_ends, range_fact as fact_of_range};
ghost use Rattle.uz_join.specs.Points.{pair_fact as fact_of_pair, pair_facts as facts_of_pairs, point_of as point_for};
ghost use Rattle.uz_join.specs.Points.{old_facts as facts_of_old, vector_point as vector_for};

use arrayvec::ArrayVec;
use uz_schedule::{Bit, Compared, Fact, Instance, Kind, PairFact, Point, Span, Val, Wide, hull};

/// The word address of the vector of timer 1's compare match A (ATmega644 data sheet).
const VECTOR: u16 = 26;

/// The fact of a range of bytes.
fn byte_fact(range: Span) -> Fact
    ensures is { result ≡ fact_of_byte range }
    ensures ordered { RangeFits 255 range }
{
    if range.lo() == 0 && range.hi() == 255 {
        Fact::Any
    } else {
        Fact::Between(range)
    }
}

/// The fact of what is known of a byte.
fn fact_of(val: &Val) -> Fact
    ensures is { result ≡ fact_of_val val.now }
    ensures ordered { IsOrderedVal val.now }
{
    match *val {
        Val::Range(range) => byte_fact(range),
        Val::Old(r) => Fact::Old(r),
        Val::OldFlags => Fact::OldFlags,
    }
}

/// The facts of the registers.
fn register_facts(regs: &[Val; 32]) -> [Fact; 32]
    ensures is { result ≡ map fact_of_val regs.now }
    ensures ordered { AreOrderedVals regs.now }
{
    let mut facts = [Fact::Any; 32];
    for r in 0..32usize {
        facts[r] = fact_of(&regs[r]);
    }
    facts
}

/// The facts of the bytes of the stack.
fn slot_facts(slots: &ArrayVec<Val, 32>) -> ArrayVec<Fact, 32>
    ensures is { result.items ≡ map fact_of_val slots.now.items }
    ensures ordered { AreOrderedVals slots.now.items }
{
    let mut facts = ArrayVec::new();
    for slot in slots.as_slice() {
        facts.push(fact_of(slot));
    }
    facts
}

/// The facts of the cells.
fn cell_facts(cells: &ArrayVec<Span, 16>) -> ArrayVec<Fact, 16>
    ensures is { result.items ≡ map fact_of_byte cells.now.items }
    ensures ordered { AreOrdered 255 cells.now.items }
{
    let mut facts = ArrayVec::new();
    for range in cells.as_slice() {
        facts.push(byte_fact(*range));
    }
    facts
}

/// Whether two ranges are one.
fn is_same(a: Wide, b: Wide) -> bool
    ensures is { result ≡ same_ends a b }
    ensures ordered { RangeFits 65535 a }
{
    a.lo() == b.lo() && a.hi() == b.hi()
}

/// The values that a byte may have.
fn span_of(val: &Val) -> Span
    ensures { result ≡ span_of_val val.now }
{
    match *val {
        Val::Range(range) => range,
        Val::Old(_) | Val::OldFlags => Span::between(0, 255),
    }
}

/// What the bytes of the pair say whose low register is `low`.
pub(crate) fn hull_of(regs: &[Val; 32], low: usize) -> Wide
    requires { low < 31 }
    ensures { result ≡ hull_at regs.now low }
{
    hull(span_of(&regs[low]), span_of(&regs[low + 1]))
}

/// The fact of a pair's range; `ambiguous` says whether the text would take 0 and 1 for a flag.
fn range_fact(ambiguous: bool, range: Wide) -> PairFact
    ensures is { result ≡ fact_of_range ambiguous range }
    ensures ordered { RangeFits 65535 range }
{
    if ambiguous && (range.lo() == range.hi() && range.hi() < 2) {
        PairFact::Loop(1, range.lo())
    } else {
        PairFact::Between(range)
    }
}

/// The fact of a pair whose bytes say `hull`.
fn pair_fact(ambiguous: bool, hull: Wide, range: Wide) -> PairFact
    ensures is { result ≡ fact_of_pair ambiguous hull range }
    ensures ordered { RangeFits 65535 range }
{
    if is_same(range, hull) {
        PairFact::Any
    } else {
        range_fact(ambiguous, range)
    }
}

/// Whether the text leaves a flag out.
fn is_default_flag(kind: Kind, bit: Bit) -> bool
    ensures { result ≡ default_flag kind bit }
{
    match bit {
        Bit::Free => kind != Kind::Handler,
        Bit::Old => kind == Kind::Handler,
        Bit::Zero | Bit::One => false,
    }
}

/// Whether the text would take the pair Z that is 0 or 1 for the flag Z.
fn is_ambiguous(kind: Kind, flags: &[Bit; 7]) -> bool
    ensures { result ≡ both_default kind flags.now }
{
    is_default_flag(kind, flags[0]) && is_default_flag(kind, flags[1])
}

/// The facts of the pairs X, Y and Z, in this order, at the point of an instance. Takes no memory.
pub fn pair_facts(at: &Instance) -> [PairFact; 3]
    ensures is { result ≡ facts_of_pairs at.now.kind at.now.regs at.now.pairs at.now.flags }
    ensures ordered { AreOrdered 65535 at.now.pairs }
{
    let ambiguous = is_ambiguous(at.kind, &at.flags);
    [
        pair_fact(false, hull_of(&at.regs, 26), at.pairs[0]),
        pair_fact(false, hull_of(&at.regs, 28), at.pairs[1]),
        pair_fact(ambiguous, hull_of(&at.regs, 30), at.pairs[2]),
    ]
}

/// A range of bytes, whose ends are in order.
fn byte_range(range: Span) -> Span
    ensures is { result ≡ range }
    ensures ordered { RangeFits 255 range }
{
    Span::between(range.lo(), range.hi())
}

/// A range of numbers of 16 bits, whose ends are in order.
fn wide_range(range: Wide) -> Wide
    ensures is { result ≡ range }
    ensures ordered { RangeFits 65535 range }
{
    Wide::between(range.lo(), range.hi())
}

/// What the flags tell, whose range is in order.
fn compared_of(compared: Compared) -> Compared
    ensures is { result ≡ compared }
    ensures ordered { IsOrderedCompared compared }
{
    match compared {
        Compared::Nothing => Compared::Nothing,
        Compared::Byte(d, source) => Compared::Byte(d, source),
        Compared::Pair(d, low, high) => Compared::Pair(d, low, high),
        Compared::Result(d, k, old) => Compared::Result(d, k, byte_range(old)),
        Compared::PairResult(d, k, old) => Compared::PairResult(d, k, wide_range(old)),
        Compared::Value(d) => Compared::Value(d),
    }
}

/// The point of an instance at its line and count 0, with the numbers of the points where it leads. Takes no memory.
pub fn point_of(at: &Instance, next: ArrayVec<u32, 16>) -> Point
    ensures is { result ≡ point_for at.now next.items }
    ensures ordered { IsOrdered at.now }
{
    Point {
        kind: at.kind,
        pc: at.pc,
        l0: at.line,
        l1: at.line,
        c0: 0,
        c1: 0,
        clock: at.clock,
        slope: 0,
        pending: at.pending,
        top: at.top,
        temp: byte_range(at.temp),
        regs: register_facts(&at.regs),
        pairs: pair_facts(at),
        flags: at.flags,
        compared: compared_of(at.compared),
        split: None,
        stack: slot_facts(&at.stack),
        cells: cell_facts(&at.cells),
        next,
    }
}

/// The facts of the interrupted registers.
fn old_facts() -> [Fact; 32]
    ensures { result ≡ facts_of_old 0 32 }
{
    let mut facts = [Fact::Any; 32];
    for r in 0..32u8 {
        facts[r as usize] = Fact::Old(r);
    }
    facts
}

/// The point of a handler's first states, where its interrupt is taken at the clocks 0 to 3 of a line, and the timer came to this OCR1A.
/// Takes no memory.
pub fn vector_point(
    cells: &ArrayVec<Span, 16>,
    line: u16,
    response: u16,
    top: u16,
    next: ArrayVec<u32, 16>,
) -> Point
    ensures is { result ≡ vector_for cells.now.items line response top next.items }
    ensures ordered { AreOrdered 255 cells.now.items }
{
    Point {
        kind: Kind::Handler,
        pc: VECTOR,
        l0: line,
        l1: line,
        c0: 0,
        c1: 3,
        clock: response,
        slope: 1,
        pending: false,
        top,
        temp: Span::between(0, 255),
        regs: old_facts(),
        pairs: [PairFact::Any; 3],
        flags: [Bit::Old; 7],
        compared: Compared::Nothing,
        split: None,
        stack: ArrayVec::new(),
        cells: cell_facts(cells),
        next,
    }
}

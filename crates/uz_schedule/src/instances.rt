//! What is known of the machine where a point stands, at one line and one count of its box; where runs enter; and where
//! the handler's next run begins. Instances are made here alone.

ghost use Rattle.std.specs.Prelude.{◌≡◌, ◌<◌, ◌≤◌, ◌+ℤ◌, ◌*ℤ◌, pos, length, map};
ghost use Rattle.uz_schedule.specs.Instances.{val_of as val_of_fact, cell_span, hull_at, pairs_of};
ghost use Rattle.uz_schedule.specs.Instances.{is_in_box as box_holds, clock_below as below, clock_at as clock_at_count};
ghost use Rattle.uz_schedule.specs.Instances.{instance_of as instance_of_point, instance_in, instance_at};
ghost use Rattle.uz_schedule.specs.Instances.{level_or_zero as level_of_place, entry_instance, entry_instance_at};
ghost use Rattle.uz_schedule.specs.Instances.{old_from, rest_instance, handler_entry as entry_of_handler};
ghost use Rattle.uz_schedule.specs.declared.facts.Val.TheVariants.{Range};
ghost use Rattle.uz_schedule.specs.Limits.{ScheduleFits};
ghost use Rattle.uz_schedule.specs.WellFormed.{WellFormed};

use crate::certificate::Cert;
use crate::fact_values::{hull_of_bytes, pair_by, span_of, val_of};
use crate::facts::{Bit, Fact, PairFact, Val};
use crate::kinds::Kind;
use crate::lines::Schedule;
use crate::ranges::{Span, Wide};
use crate::states::{Entry, Instance, Point, Rest};
use arrayvec::ArrayVec;

/// The word address of the vector of timer 1's compare match A (ATmega644 data sheet).
const VECTOR: u16 = 26;

/// What facts say of the registers.
fn registers_of(facts: &[Fact; 32], line: u16, count: u8) -> [Val; 32]
    ensures { result ≡ map (val_of_fact line count) facts.now }
{
    let mut vals = [Val::OldFlags; 32];
    for r in 0..32 {
        vals[r] = val_of(&facts[r], line, count);
    }
    vals
}

/// What facts say of the bytes of the stack.
fn slots_of(facts: &ArrayVec<Fact, 32>, line: u16, count: u8) -> ArrayVec<Val, 32>
    ensures { result.items ≡ map (val_of_fact line count) facts.now.items }
{
    let mut slots = ArrayVec::new();
    for fact in facts.as_slice() {
        slots.push(val_of(fact, line, count));
    }
    slots
}

/// The values that cells may have by their facts.
fn cells_of(facts: &ArrayVec<Fact, 16>, line: u16, count: u8) -> ArrayVec<Span, 16>
    ensures { result.items ≡ map (cell_span line count) facts.now.items }
{
    let mut cells = ArrayVec::new();
    for fact in facts.as_slice() {
        cells.push(span_of(&val_of(fact, line, count)));
    }
    cells
}

/// What the bytes of the pair say whose low register is `low`.
fn hull_in(regs: &[Val; 32], low: usize) -> Wide
    requires { low < 31 }
    ensures { result ≡ hull_at regs.now low }
{
    hull_of_bytes(&regs[low], &regs[low + 1])
}

/// The values of the pairs X, Y and Z.
fn pairs_by(facts: &[PairFact; 3], line: u16, count: u8, regs: &[Val; 32]) -> [Wide; 3]
    ensures { result ≡ pairs_of line count regs.now facts.now }
{
    [
        pair_by(&facts[0], line, count, hull_in(regs, 26)),
        pair_by(&facts[1], line, count, hull_in(regs, 28)),
        pair_by(&facts[2], line, count, hull_in(regs, 30)),
    ]
}

/// Whether a line and a count are those of a point's box.
pub fn is_in_box(point: &Point, line: u16, count: u8) -> bool
    ensures { result ≡ box_holds point.now line count }
{
    (point.l0 <= line && line <= point.l1) && (point.c0 <= count && count <= point.c1)
}

/// A clock, where it is one of a line of this length in clocks: None exactly where it is below 0, or isn't below the length.
pub fn clock_below(length: u16, clock: i32) -> Option<u16>
    ensures { result ≡ below length clock }
{
    match u16::try_from(clock) {
        Ok(clock) if clock < length => Some(clock),
        _ => None,
    }
}

/// The clock of a point at a count, by the point's slope. It may be one of no line, also below 0.
pub fn clock_of(point: &Point, count: u8) -> i32
    ensures { result ≡ pos point.now.clock +ℤ point.now.slope *ℤ pos count }
{
    i32::from(point.clock) + i32::from(point.slope) * i32::from(count)
}

/// The instance of a point at a line and a count, with its clock and level. Takes no memory.
pub fn instance_of(point: &Point, line: u16, count: u8, clock: u16, level: u8) -> Instance
    ensures { result ≡ instance_of_point point.now line count clock level }
{
    let regs = registers_of(&point.regs, line, count);
    let pairs = pairs_by(&point.pairs, line, count, &regs);
    Instance {
        kind: point.kind,
        pc: point.pc,
        line,
        clock,
        level,
        pending: point.pending,
        top: point.top,
        temp: point.temp,
        regs,
        pairs,
        flags: point.flags,
        compared: point.compared,
        stack: slots_of(&point.stack, line, count),
        cells: cells_of(&point.cells, line, count),
        ..Instance::default()
    }
}

/// The instance of a point at a line and a count, if it has one there.
fn instance_of_box(schedule: &Schedule, point: &Point, line: u16, count: u8) -> Option<Instance>
    requires { ScheduleFits schedule.now }
    ensures { result ≡ instance_in schedule.now point.now line count }
{
    if !is_in_box(point, line, count) {
        return None;
    }
    let clock = clock_below(schedule.length(line), clock_of(point, count))?;
    let level = schedule.level_at_clock(line, clock)?;
    Some(instance_of(point, line, count, clock, level))
}

/// What the entry's ranges say of the registers.
fn vals_of(ranges: &[Span; 32]) -> [Val; 32]
    ensures { result ≡ map Range ranges.now }
{
    let mut vals = [Val::OldFlags; 32];
    for r in 0..32 {
        vals[r] = Val::Range(ranges[r]);
    }
    vals
}

/// What the entry's ranges say of the bytes of the stack.
fn slots_in(ranges: &ArrayVec<Span, 32>) -> ArrayVec<Val, 32>
    ensures { result.items ≡ map Range ranges.now.items }
{
    let mut slots = ArrayVec::new();
    for range in ranges.as_slice() {
        slots.push(Val::Range(*range));
    }
    slots
}

/// A copy of the ranges of cells.
fn spans_in(ranges: &ArrayVec<Span, 16>) -> ArrayVec<Span, 16>
    ensures { result.items ≡ ranges.now.items }
{
    let mut spans = ArrayVec::new();
    for range in ranges.as_slice() {
        spans.push(*range);
    }
    spans
}

/// The interrupted registers.
fn old_registers() -> [Val; 32]
    ensures { result ≡ old_from 0 32 }
{
    let mut vals = [Val::OldFlags; 32];
    for r in 0..32 {
        vals[r] = Val::Old(r as u8);
    }
    vals
}

/// The schedule's level at a clock of a line, 0 where it has none.
fn level_or_zero(schedule: &Schedule, line: u16, clock: u16) -> u8
    requires { ScheduleFits schedule.now }
    ensures { result ≡ level_of_place schedule.now line clock }
{
    match schedule.level_at_clock(line, clock) {
        Some(level) => level,
        None => 0,
    }
}

/// What is known of the machine where runs enter, at this level of sync: what the entry says, and for each pair the hull of
/// its bytes. Takes no memory.
pub fn entry_state(entry: &Entry, level: u8) -> Instance
    ensures { result ≡ entry_instance_at entry.now level }
{
    let regs = vals_of(&entry.regs);
    let pairs = [hull_in(&regs, 26), hull_in(&regs, 28), hull_in(&regs, 30)];
    Instance {
        kind: entry.kind,
        pc: entry.pc,
        line: entry.line,
        clock: entry.clock,
        level,
        regs,
        pairs,
        flags: entry.flags,
        stack: slots_in(&entry.stack),
        cells: spans_in(&entry.cells),
        ..Instance::default()
    }
}

/// The handler's first state, where its interrupt is taken at this clock of a line, these ranges hold of its cells and OCR1A is
/// `top`: no register and flag has changed, its stack is empty, and TEMP may be any byte. Takes no memory.
pub fn handler_entry(
    cells: &ArrayVec<Span, 16>,
    line: u16,
    clock: u16,
    level: u8,
    top: u16,
) -> Instance
    ensures { result ≡ entry_of_handler cells.now.items line clock level top }
{
    Instance {
        kind: Kind::Handler,
        pc: VECTOR,
        line,
        clock,
        level,
        top,
        regs: old_registers(),
        flags: [Bit::Old; 7],
        cells: spans_in(cells),
        ..Instance::default()
    }
}

impl Cert {
    /// What is known at a point, at line `l` and count `c` of its box, with the schedule's level there. None exactly where
    /// no point has the number, `l` or `c` is outside its box, the clock isn't one of the line, or the schedule has no
    /// level. Takes no memory.
    pub fn instance(&self, id: u32, l: u16, c: u8) -> Option<Instance>
        requires { WellFormed self.now }
        ensures { result ≡ instance_at self.now id l c }
    {
        let point = self.points.as_slice().get(id as usize)?;
        instance_of_box(&self.schedule, point, l, c)
    }

    /// The state in which runs enter: what the entry says, with the schedule's level at its place (0 where the schedule has
    /// none), and for each pair the hull of its bytes. Takes no memory.
    pub fn entry_instance(&self) -> Instance
        requires { ScheduleFits self.now.schedule }
        ensures { result ≡ entry_instance self.now }
    {
        entry_state(
            &self.entry,
            level_or_zero(&self.schedule, self.entry.line, self.entry.clock),
        )
    }

    /// The handler's first state after a rest, where its interrupt is taken at clock `c` of the next line: no register and
    /// flag has changed, the stack of the handler is empty, its cells are as the rest says, OCR1A is the last clock of the
    /// rest's line, and TEMP may be any byte. Takes no memory.
    pub fn rest_instance(&self, rest: &Rest, c: u8) -> Instance
        requires fits { ScheduleFits self.now.schedule }
        requires line { rest.now.line < length self.now.schedule.lines }
        ensures { result ≡ rest_instance self.now rest.now c }
    {
        let line = self.schedule.next(rest.line);
        let clock = u16::from(c) + self.head.irq.clocks();
        handler_entry(
            &rest.cells,
            line,
            clock,
            level_or_zero(&self.schedule, line, clock),
            self.schedule.length(rest.line) - 1,
        )
    }
}

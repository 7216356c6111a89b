//! The limits and orders of points, one by one and all together.

ghost use Rattle.std.specs.Prelude.{◌≡◌, ◌≤◌, ◌↔◌, ◌+◌, ◌-◌, ◌*◌, All, IsTrue, length, sum_by};
ghost use Rattle.uz_schedule.specs.WellFormed.{CoreFits, MemoryFits, BoxFits, IsAtBegin, TimerFits, IsTimerLeftOut};
ghost use Rattle.uz_schedule.specs.WellFormed.{PointKindFits, is_zero_or_one as names_flag};
ghost use Rattle.uz_schedule.specs.WellFormed.{is_carry_and_zero_default as carry_and_zero_default};
ghost use Rattle.uz_schedule.specs.WellFormed.{is_default_flag as default_flag, is_without_text as without_text};
ghost use Rattle.uz_schedule.specs.WellFormed.{SuccessorsFit, PointFits, instances_of as instances_of_point, PointsFit};

use crate::comparison_limits::rules_fit;
use crate::fact_limits::{cell_facts_fit, flags_fit, pairs_fit, registers_fit, slots_fit};
use crate::{
    Bit, CLOCK_LIMIT, Head, Kind, PairFact, Point, SCANLINE, Span, is_top, rises as numbers_rise,
};
use uz_hex::FLASH_WORDS;

/// The most points.
const MOST_POINTS: usize = 524288;

/// The most instances of all points together.
const MOST_INSTANCES: u64 = 16777216;

fn box_fits(lines: usize, point: &Point) -> bool
    ensures { IsTrue result ↔ BoxFits lines point.now }
{
    point.l0 <= point.l1
        && usize::from(point.l1) < lines
        && point.c0 <= point.c1
        && point.clock < CLOCK_LIMIT
        && point.slope.unsigned_abs() < CLOCK_LIMIT
}

/// Whether line, count, clock, slope and pending are all 0.
fn is_at_begin(point: &Point) -> bool
    ensures { IsTrue result ↔ IsAtBegin point.now }
{
    point.l0 == 0
        && point.l1 == 0
        && point.c0 == 0
        && point.c1 == 0
        && point.clock == 0
        && point.slope == 0
        && !point.pending
}

/// Whether OCR1A is the last clock of a line. TEMP is in a range of bytes by its type.
fn timer_fits(point: &Point) -> bool
    ensures { IsTrue result ↔ TimerFits point.now }
{
    is_top(point.top) && point.temp.lo() <= point.temp.hi()
}

/// Whether OCR1A and TEMP have the values that the text leaves out.
fn is_timer_left_out(point: &Point) -> bool
    ensures { IsTrue result ↔ IsTimerLeftOut point.now }
{
    point.top == SCANLINE - 1 && point.temp == Span::between(0, 255)
}

/// Whether main stands at the frame's begin, and in handlers alone an interrupt waits and the timer is known.
fn point_kind_fits(point: &Point) -> bool
    ensures { IsTrue result ↔ PointKindFits point.now.kind point.now }
{
    match point.kind {
        Kind::Main => is_at_begin(point) && is_timer_left_out(point),
        Kind::Handler => timer_fits(point),
        Kind::Alone => !point.pending && is_timer_left_out(point),
    }
}

/// Whether slots and cells are within their limits.
fn memory_fits(head: &Head, point: &Point) -> bool
    ensures { IsTrue result ↔ MemoryFits head.now point.now }
{
    let stack = point.stack.as_slice();
    let cells = point.cells.as_slice();
    stack.len() <= usize::from(head.depth(point.kind))
        && slots_fit(point.kind, stack)
        && cells.len() == head.tracked(point.kind)
        && cell_facts_fit(cells)
}

/// Whether registers, pairs and flags are within their limits.
fn core_fits(point: &Point) -> bool
    ensures { IsTrue result ↔ CoreFits point.now }
{
    registers_fit(point.kind, &point.regs)
        && pairs_fit(&point.pairs)
        && flags_fit(point.kind, &point.flags)
        && !is_without_text(point)
}

/// Whether a pair is exactly 0 or exactly 1.
fn is_zero_or_one(fact: &PairFact) -> bool
    ensures { result ≡ names_flag fact.now }
{
    match fact {
        PairFact::Between(wide) => wide.lo() == wide.hi() && wide.hi() < 2,
        _ => false,
    }
}

/// Whether the text leaves a flag out.
fn is_default_flag(kind: Kind, bit: Bit) -> bool
    ensures { result ≡ default_flag kind bit }
{
    match bit {
        Bit::Free => kind != Kind::Handler,
        Bit::Old => kind == Kind::Handler,
        _ => false,
    }
}

/// Whether the text leaves out the flags C and Z.
fn is_carry_and_zero_default(kind: Kind, flags: &[Bit; 7]) -> bool
    ensures count { length flags.now ≡ 7 }
    ensures value { result ≡ carry_and_zero_default kind flags.now }
{
    is_default_flag(kind, flags[0]) && is_default_flag(kind, flags[1])
}

/// Whether the text would say the flag Z where the pair Z is meant.
fn is_without_text(point: &Point) -> bool
    ensures { result ≡ without_text point.now }
{
    is_zero_or_one(&point.pairs[2]) && is_carry_and_zero_default(point.kind, &point.flags)
}

fn successors_fit(next: &[u32], points: usize) -> bool
    ensures { IsTrue result ↔ SuccessorsFit points next.now }
{
    next.len() <= 16 && next.iter().all(|id| (*id as usize) < points) && numbers_rise(next)
}

fn point_fits(head: &Head, lines: usize, points: usize, point: &Point) -> bool
    ensures { IsTrue result ↔ PointFits head.now lines points point.now }
{
    point_kind_fits(point)
        && rules_fit(head.version, point)
        && point.pc < FLASH_WORDS
        && box_fits(lines, point)
        && core_fits(point)
        && memory_fits(head, point)
        && successors_fit(point.next.as_slice(), points)
}

/// How many lines and counts a box has, taken together. It isn't asked whether its ends are in order.
#[tactic(auto, using(crate::proofs::LimitAmounts::product_few))]
fn box_size(l0: u16, l1: u16, c0: u8, c1: u8) -> u64
    ensures value { result ≡ (l1 - l0 + 1) * (c1 - c0 + 1) }
    ensures few { result ≤ 16777216 }
{
    let lines = u64::from(l1.saturating_sub(l0)) + 1;
    let counts = u64::from(c1.saturating_sub(c0)) + 1;
    lines * counts
}

/// How many instances a point has: one for each line and each count of its box.
fn instances_of(point: &Point) -> u64
    ensures value { result ≡ instances_of_point point.now }
    ensures few { result ≤ 16777216 }
{
    box_size(point.l0, point.l1, point.c0, point.c1)
}

/// Whether all points have at most so many instances together.
fn instances_fit(points: &[Point]) -> bool
    ensures { IsTrue result ↔ (sum_by instances_of_point points.now ≤ 16777216) }
{
    let mut sum: u64 = 0;
    for point in points {
        sum += instances_of(point);
        if sum > MOST_INSTANCES {
            return false;
        }
    }
    true
}

fn each_point_fits(head: &Head, lines: usize, points: &[Point]) -> bool
    ensures { IsTrue result ↔ All (PointFits head.now lines (length points.now)) points.now }
{
    points
        .iter()
        .all(|p| point_fits(head, lines, points.len(), p))
}

pub fn points_fit(head: &Head, lines: usize, points: &[Point]) -> bool
    ensures { IsTrue result ↔ PointsFit head.now lines points.now }
{
    1 <= points.len()
        && points.len() <= MOST_POINTS
        && each_point_fits(head, lines, points)
        && instances_fit(points)
}

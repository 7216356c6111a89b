//! The named successors of a point, and the instances that lie in them.

ghost use Rattle.std.specs.Prelude.{◌≡◌, ◌<◌, ◌↔◌, ◌-◌, suc, pos, ◌+ℤ◌, ◌*ℤ◌, IsTrue, Some, slice_get, true, ℕ};
ghost use Rattle.std.specs.Int.RustNames.{unsigned_abs};
ghost use Rattle.uz_schedule.specs.Limits.{ScheduleFits};
ghost use Rattle.uz_schedule.specs.WellFormed.{WellFormed};
ghost use Rattle.uz_rules.specs.Successors.{same_program_place, lies_in_box, any_from, lies_in_point, lies_in_any};
ghost use Rattle.uz_rules.specs.FactInclusion.{facts_inside, has_level, is_line_of, is_beside, IsAtCount, LiesAtSome};

use crate::count_keys::{CountKey, key_of, may_lie};
use crate::fact_inclusion::facts_inside;
use crate::inclusion::{same_kind, timer_inside};
use crate::periods::{last_of_period, periods_of};
use uz_schedule::{Cert, Instance, Point, Schedule, clock_of};

/// Whether a point has an instance's kind and pc.
fn is_same_place(point: &Point, at: &Instance) -> bool
    ensures { result ≡ same_program_place point.now at.now }
{
    same_kind(at.kind, point.kind) && at.pc == point.pc
}

/// Whether a line is one of a point's box.
fn is_line_of(point: &Point, line: u16) -> bool
    ensures { result ≡ is_line_of point.now line }
{
    point.l0 <= line && line <= point.l1
}

/// Whether a clock is one of its line and the schedule has a level there.
fn has_level(schedule: &Schedule, line: u16, clock: u16) -> bool
    requires { ScheduleFits schedule.now }
    ensures { result ≡ has_level schedule.now line clock }
{
    clock < schedule.length(line) && schedule.level_at_clock(line, clock).is_some()
}

/// Whether a point has an instance's kind and pc, the instance's timer lies in what it says, and its box has the instance's line. All of
/// this is the same at each count.
fn is_beside(point: &Point, at: &Instance) -> bool
    ensures { result ≡ is_beside point.now at.now }
{
    (is_same_place(point, at) && timer_inside(point, at)) && is_line_of(point, at.line)
}

/// Whether an instance lies in what a point's facts say at a count. The key's place is looked at first.
#[tactic(auto, using(crate::proofs::CountKeys::dismissed))]
fn lies_at_count(key: &CountKey, at: &Instance, point: &Point, count: u8) -> bool
    ensures { result ≡ facts_inside at.now point.now count }
{
    may_lie(key, at, point, count) && facts_inside(at, point, count)
}

/// Whether an instance lies in what a point's facts say at one of these counts, each of which is tried.
#[tactic(auto, using(crate::proofs::Below::any_none, crate::proofs::Below::any_found, crate::proofs::Below::any_more))]
fn lies_at_tried(key: &CountKey, at: &Instance, point: &Point, first: u8, last: u8) -> bool
    ensures { result ≡ any_from (facts_inside at.now point.now) first (suc last - first) }
{
    let end = last as u16 + 1;
    for count in first as u16..end {
        if lies_at_count(key, at, point, count as u8) {
            return true;
        }
    }
    false
}

/// Whether an instance lies in what a point's facts say at one of these counts. No more counts are tried than the facts' period
/// has, since what they say comes again from there on.
#[tactic(auto, using(crate::proofs::PeriodLaws::period_tells))]
fn lies_in_period(at: &Instance, point: &Point, first: u8, last: u8) -> bool
    ensures { result ≡ any_from (facts_inside at.now point.now) first (suc last - first) }
{
    let periods = periods_of(point);
    let tried = last_of_period(first, last, periods.exponent);
    lies_at_tried(&key_of(&periods), at, point, first, tried)
}

/// Whether an instance lies in what a point's facts say at one of these counts. No period is looked for where there is one count.
fn lies_at_one(at: &Instance, point: &Point, first: u8, last: u8) -> bool
    ensures { result ≡ any_from (facts_inside at.now point.now) first (suc last - first) }
{
    if first < last {
        lies_in_period(at, point, first, last)
    } else {
        lies_at_tried(&CountKey::Nothing, at, point, first, last)
    }
}

/// Whether an instance lies in what a point's facts say at one of its counts, where the point's clock is the same at all.
#[tactic(auto, using(crate::proofs::AtCounts::flat_found, crate::proofs::AtCounts::flat_clock, crate::proofs::AtCounts::flat_told))]
fn lies_at_any_count(point: &Point, at: &Instance) -> bool
    requires { unsigned_abs point.now.slope ≡ 0 }
    ensures found { result ≡ true → LiesAtSome point.now at.now }
    ensures told { LiesAtSome point.now at.now → result ≡ true }
{
    point.clock == at.clock && lies_at_one(at, point, point.c0, point.c1)
}

/// The count at which a clock is reached from another one by steps of a slope, where there is one.
#[tactic(auto, using(crate::proofs::AtCounts::steps_told))]
fn steps_between(from: u16, to: u16, slope: i16) -> u16
    requires { 0 < unsigned_abs slope }
    ensures { (c : ℕ) → pos from +ℤ slope *ℤ pos c ≡ pos to → c ≡ result }
{
    from.abs_diff(to) / slope.unsigned_abs()
}

/// Whether a point's clock is this one at a count.
fn is_at_clock(point: &Point, clock: u16, count: u8) -> bool
    ensures { IsTrue result ↔ (pos point.now.clock +ℤ point.now.slope *ℤ pos count ≡ pos clock) }
{
    clock_of(point, count) == i32::from(clock)
}

/// Whether a count is one of a point's box, and the point's clock there is this one.
fn is_at_count(point: &Point, clock: u16, count: u8) -> bool
    ensures { IsTrue result ↔ IsAtCount point.now clock count }
{
    (point.c0 <= count && count <= point.c1) && is_at_clock(point, clock, count)
}

/// Whether an instance lies in what a point's facts say at the one count that has its clock, where the clocks differ.
#[tactic(auto, using(crate::proofs::AtCounts::its_count))]
fn lies_at_its_count(point: &Point, at: &Instance) -> bool
    requires { 0 < unsigned_abs point.now.slope }
    ensures found { result ≡ true → LiesAtSome point.now at.now }
    ensures told { LiesAtSome point.now at.now → result ≡ true }
{
    let count = steps_between(point.clock, at.clock, point.slope);
    count <= u16::from(point.c1)
        && (is_at_count(point, at.clock, count as u8) && facts_inside(at, point, count as u8))
}

/// Whether an instance lies in what a point's facts say at a count of its box where the clocks are equal.
fn lies_at_some_count(point: &Point, at: &Instance) -> bool
    ensures found { result ≡ true → LiesAtSome point.now at.now }
    ensures told { LiesAtSome point.now at.now → result ≡ true }
{
    if point.slope.unsigned_abs() == 0 {
        lies_at_any_count(point, at)
    } else {
        lies_at_its_count(point, at)
    }
}

/// Whether an instance lies in an instance of a point's box. No instance is made: what is the same at each count is asked once,
/// and the facts at those counts alone that have the instance's clock. The level is asked last, since it costs most.
fn lies_in_box(cert: &Cert, id: u32, point: &Point, at: &Instance) -> bool
    requires fits { WellFormed cert.now }
    requires point { slice_get cert.now.points id ≡ Some point.now }
    ensures { result ≡ lies_in_box cert.now id (Some point.now) at.now }
{
    is_beside(point, at)
        && (lies_at_some_count(point, at) && has_level(&cert.schedule, at.line, at.clock))
}

/// Whether an instance lies in an instance of a point: that at the instance's own line and one of the counts of the point's box.
/// False where there is no such point. Takes no memory.
pub fn lies_in_point(cert: &Cert, id: u32, at: &Instance) -> bool
    requires fits { WellFormed cert.now }
    ensures { result ≡ lies_in_point cert.now id at.now }
{
    match cert.points.as_slice().get(id as usize) {
        Some(point) => lies_in_box(cert, id, point, at),
        None => false,
    }
}

/// Whether an instance lies in an instance of one of these points.
pub(crate) fn lies_in_any(cert: &Cert, ids: &[u32], at: &Instance) -> bool
    requires fits { WellFormed cert.now }
    ensures { result ≡ lies_in_any cert.now ids.now at.now }
{
    for id in ids {
        if lies_in_point(cert, *id, at) {
            return true;
        }
    }
    false
}

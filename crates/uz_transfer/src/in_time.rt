//! Whether the timer keeps time with the lines over a handler's instruction.

ghost use Rattle.std.specs.Prelude.{◌≡◌, ◌<◌, ◌≤◌, ◌+◌, ◌&&◌, ◌||◌, length, nat_eq, nat_le, nat_lt, suc};
ghost use Rattle.uz_core.specs.OperandRanges.{EffectFits};
ghost use Rattle.uz_schedule.specs.Limits.{most_lines};
ghost use Rattle.uz_schedule.specs.Schedule.{scanline};
ghost use Rattle.uz_schedule.specs.Lines.{order_of};
ghost use Rattle.uz_transfer.specs.Exits.{each_exit};
ghost use Rattle.uz_transfer.specs.InTime.{sets_ahead as is_set_ahead, returns_with_top as returns_with};
ghost use Rattle.uz_transfer.specs.InTime.{is_in_time as in_time_by, clock_holds as clock_by};

use crate::memory::is_handler;
use crate::one_step::is_return;
use crate::step::Exit;
use crate::timer::{stores_top, top_after};
use uz_core::Effect;
use uz_schedule::{Instance, Schedule};

/// Whether OCR1A is the last clock of a line of so many.
fn is_last_clock(top: u16, clocks: u16) -> bool
    ensures { result ≡ nat_eq (suc top) clocks }
{
    u32::from(top) + 1 == u32::from(clocks)
}

/// Whether a timer that counts to `top` comes to an end clock as a line of so many clocks does.
fn counts_along(top: u16, clocks: u16, end: u16) -> bool
    ensures { result ≡ (nat_eq (suc top) clocks || (nat_le end top && nat_lt end clocks)) }
{
    is_last_clock(top, clocks) || (end <= top && end < clocks)
}

/// Whether a store leaves OCR1A at the timer's count or above, which is the clock of the line on which it ends.
fn sets_ahead(schedule: &Schedule, e: Effect, at: &Instance, exit: Exit) -> bool
    requires count { length schedule.now.lines ≤ most_lines }
    requires line { at.now.line < length schedule.now.lines }
    requires clock { at.now.clock < scanline }
    requires fits { EffectFits e }
    ensures { result ≡ is_set_ahead (order_of schedule.now) e at.now exit }
{
    if !stores_top(e, at) {
        return true;
    }
    let (_, clock) = schedule.advance(at.line, at.clock + u16::from(exit.clocks));
    clock <= top_after(e, at)
}

/// Whether, at a return, OCR1A is the last clock of the line on which it ends.
fn returns_with_top(schedule: &Schedule, e: Effect, at: &Instance, exit: Exit) -> bool
    requires count { length schedule.now.lines ≤ most_lines }
    requires line { at.now.line < length schedule.now.lines }
    requires clock { at.now.clock < scanline }
    ensures { result ≡ returns_with (order_of schedule.now) e at.now exit }
{
    if !is_return(e) {
        return true;
    }
    let (line, _) = schedule.advance(at.line, at.clock + u16::from(exit.clocks));
    is_last_clock(at.top, schedule.length(line))
}

/// Whether the timer keeps time to an exit. It counts to the end clock with OCR1A as it is before the instruction, since a store acts
/// after the timer has counted.
fn is_in_time(schedule: &Schedule, e: Effect, at: &Instance, exit: Exit) -> bool
    requires count { length schedule.now.lines ≤ most_lines }
    requires line { at.now.line < length schedule.now.lines }
    requires clock { at.now.clock < scanline }
    requires fits { EffectFits e }
    ensures { result ≡ in_time_by (order_of schedule.now) e at.now exit }
{
    let end = at.clock + u16::from(exit.clocks);
    counts_along(at.top, schedule.length(at.line), end)
        && sets_ahead(schedule, e, at, exit)
        && returns_with_top(schedule, e, at, exit)
}

/// Whether the timer keeps time to each of these exits.
fn each_in_time(schedule: &Schedule, e: Effect, at: &Instance, exits: &[Exit]) -> bool
    requires count { length schedule.now.lines ≤ most_lines }
    requires line { at.now.line < length schedule.now.lines }
    requires clock { at.now.clock < scanline }
    requires fits { EffectFits e }
    ensures { result ≡ each_exit (λ exit. in_time_by (order_of schedule.now) e at.now exit) exits.now }
{
    for exit in exits {
        if !is_in_time(schedule, e, at, *exit) {
            return false;
        }
    }
    true
}

/// Whether an instruction is outside handlers, or the timer keeps time with the lines to each of its exits.
pub(crate) fn clock_holds(schedule: &Schedule, e: Effect, at: &Instance, exits: &[Exit]) -> bool
    requires count { length schedule.now.lines ≤ most_lines }
    requires line { at.now.line < length schedule.now.lines }
    requires clock { at.now.clock < scanline }
    requires fits { EffectFits e }
    ensures { result ≡ clock_by (order_of schedule.now) e at.now exits.now }
{
    !is_handler(at.kind) || each_in_time(schedule, e, at, exits)
}

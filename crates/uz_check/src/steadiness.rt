//! The first event of a schedule that isn't as it should be.

ghost use Rattle.std.specs.Prelude.{◌≡◌, ◌<◌, length};
ghost use Rattle.uz_schedule.specs.Limits.{ScheduleFits};
ghost use Rattle.uz_check.specs.Refusal.{ScheduleRefusal};
ghost use Rattle.uz_check.specs.Steadiness.{is_fall as falls, second_fall as second, break_clock as clock_of_break};
ghost use Rattle.uz_check.specs.Steadiness.{break_in_line as break_of_line, first_break as place_of_break};

use crate::refusal::RefusedWhy;
use uz_schedule::{Event, EventKind, Schedule};

/// Whether an event is the fall of sync.
fn is_fall(kind: EventKind) -> bool
    ensures { result ≡ falls kind }
{
    match kind {
        EventKind::Sync(level) => level == 0,
        _ => false,
    }
}

/// The clock of the first fall among these events.
fn second_fall(events: &[Event]) -> Option<u16>
    ensures { result ≡ second events.now }
{
    for event in events {
        if is_fall(event.kind) {
            return Some(event.clock);
        }
    }
    None
}

/// The clock of the first event of a line that isn't as it should be.
fn break_clock(fall: u16, events: &[Event]) -> Option<u16>
    ensures { result ≡ clock_of_break fall events.now }
{
    match events {
        [] => None,
        [first, later @ ..] => {
            if first.clock == fall && is_fall(first.kind) {
                second_fall(later)
            } else {
                Some(first.clock)
            }
        }
    }
}

/// The same of a line of the schedule.
fn break_in_line(schedule: &Schedule, line: u16) -> Option<u16>
    requires { line < length schedule.now.lines }
    ensures { result ≡ break_of_line schedule.now line }
{
    let lines = schedule.lines.as_slice();
    let kind = lines[line as usize];
    let events = schedule.kinds.as_slice().get(kind as usize)?;
    break_clock(schedule.fall, events.as_slice())
}

/// The line and the clock of the first event of the frame that isn't as it should be.
fn first_break(schedule: &Schedule) -> Option<(u16, u16)>
    requires { ScheduleFits schedule.now }
    ensures { result ≡ place_of_break schedule.now }
{
    for line in 0..schedule.lines.len() as u16 {
        if let Some(clock) = break_in_line(schedule, line) {
            return Some((line, clock));
        }
    }
    None
}

/// Why a schedule is refused.
#[tactic(auto, unfolding(crate::specs::Refusal::ScheduleRefusal))]
pub(crate) fn schedule_refusal(schedule: &Schedule) -> Option<RefusedWhy>
    requires { ScheduleFits schedule.now }
    ensures { ScheduleRefusal schedule.now result }
{
    match first_break(schedule) {
        Some((line, clock)) => Some(RefusedWhy::Schedule { line, clock }),
        None => None,
    }
}

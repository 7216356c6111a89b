//! The clock and the level of sync at which a point stands at a line and a count.

ghost use Rattle.std.specs.Prelude.{◌≡◌};
ghost use Rattle.uz_schedule.specs.Limits.{ScheduleFits};
ghost use Rattle.uz_rules.specs.Moving.{place_in};

use uz_schedule::{Point, Schedule, clock_below, clock_of, is_in_box};

/// The clock of a point at a line and a count, and the schedule's level there. None exactly where the line or the count is outside the
/// point's box, the clock isn't one of the line, or the schedule has no level.
pub fn place_of(schedule: &Schedule, point: &Point, line: u16, count: u8) -> Option<(u16, u8)>
    requires { ScheduleFits schedule.now }
    ensures { result ≡ place_in schedule.now point.now line count }
{
    if !is_in_box(point, line, count) {
        return None;
    }
    let clock = clock_below(schedule.length(line), clock_of(point, count))?;
    let level = schedule.level_at_clock(line, clock)?;
    Some((clock, level))
}

//! The comparison of what is emitted with the schedule.

ghost use Rattle.std.specs.Prelude.{◌≡◌, ◌<◌, ◌≤◌, ◌+◌, ◌-◌, length};
ghost use Rattle.uz_schedule.specs.Limits.{ScheduleFits};
ghost use Rattle.uz_schedule.specs.Schedule.{scanline, event_at};
ghost use Rattle.uz_rules.specs.EdgeRule.{position_of, is_kind, is_event, is_quiet, emits_as_scheduled, edges_fit};

use uz_schedule::{EventKind, Instance, Schedule};
use uz_transfer::Exit;

/// Whether two events are one.
fn is_kind(a: EventKind, b: EventKind) -> bool
    ensures { result ≡ is_kind a b }
{
    match (a, b) {
        (EventKind::Sync(a), EventKind::Sync(b)) => a == b,
        (EventKind::Pixel, EventKind::Pixel)
        | (EventKind::Sound, EventKind::Sound)
        | (EventKind::Leave, EventKind::Leave) => true,
        _ => false,
    }
}

/// Whether an event is this one, or there is none as there.
fn is_event(a: Option<EventKind>, b: Option<EventKind>) -> bool
    ensures { result ≡ is_event a b }
{
    match (a, b) {
        (None, None) => true,
        (Some(a), Some(b)) => is_kind(a, b),
        _ => false,
    }
}

/// Whether no event stands at this many clocks after an instance.
#[tactic(auto, using(crate::proofs::Below::quiet_none, crate::proofs::Below::quiet_more))]
fn is_quiet(schedule: &Schedule, at: &Instance, count: u8) -> bool
    requires schedule { ScheduleFits schedule.now }
    requires clock { at.now.clock < scanline }
    ensures { result ≡ is_quiet (event_at schedule.now) (position_of schedule.now at.now) count }
{
    let mut quiet = true;
    for k in 0..count {
        quiet = quiet
            && schedule
                .at_clock(at.line, at.clock + (k as u16 + 1))
                .is_none();
    }
    quiet
}

/// Whether the schedule's events after an instance, up to so many clocks on, are exactly what is emitted at the end.
fn emits_as_scheduled(
    schedule: &Schedule,
    at: &Instance,
    emitted: Option<EventKind>,
    clocks: u8,
) -> bool
    requires schedule { ScheduleFits schedule.now }
    requires clock { at.now.clock < scanline }
    ensures { result ≡ emits_as_scheduled schedule.now (position_of schedule.now at.now) emitted clocks }
{
    let quiet = is_quiet(schedule, at, clocks.saturating_sub(1));
    quiet
        && is_event(
            schedule.at_clock(at.line, at.clock + clocks as u16),
            emitted,
        )
}

/// Whether it is so at each exit.
pub(crate) fn edges_fit(
    schedule: &Schedule,
    at: &Instance,
    emitted: Option<EventKind>,
    exits: &[Exit],
) -> bool
    requires schedule { ScheduleFits schedule.now }
    requires clock { at.now.clock < scanline }
    ensures { result ≡ edges_fit schedule.now (position_of schedule.now at.now) emitted exits.now }
{
    for exit in exits {
        if !emits_as_scheduled(schedule, at, emitted, exit.clocks) {
            return false;
        }
    }
    true
}

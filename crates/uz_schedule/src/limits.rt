//! The limits and orders of a schedule.

ghost use Rattle.std.specs.Prelude.{◌≡◌, ◌<◌, ◌≤◌, ◌↔◌, IsTrue, map};
ghost use Rattle.uz_schedule.specs.Limits.{rises as rising, EventFits, EventsFit, KindsFit, LinesFit, ScheduleFits};
ghost use Rattle.uz_schedule.specs.Limits.{is_length as length_is, is_top as top_is, clocks_below as are_below};
ghost use Rattle.uz_schedule.specs.Limits.{lengths_fit as fit_lengths};

use crate::line_events::LineEvents;
use crate::line_length::{HALF_LINE, SCANLINE};
use crate::lines::{Event, EventKind, Schedule};

/// Each clock of a text is below this: that of the longest line.
pub const CLOCK_LIMIT: u16 = SCANLINE;

/// The most events of a line: one at each clock of the longest one.
pub const MOST_EVENTS: usize = SCANLINE as usize;

/// The most kinds of line, and the most lines of a frame.
pub const MOST_LINES: usize = 525;

/// Whether each number is above the one before it.
pub fn rises(numbers: &[u32]) -> bool
    ensures { result ≡ rising numbers.now }
{
    let mut least: u64 = 0;
    for n in numbers {
        if u64::from(*n) < least {
            return false;
        }
        least = u64::from(*n) + 1;
    }
    true
}

/// Whether each clock is above the one of the event before it.
pub fn clocks_rise(events: &[Event]) -> bool
    ensures { result ≡ rising (map (λ e. e.clock) events.now) }
{
    let mut least: u32 = 0;
    for e in events {
        if u32::from(e.clock) < least {
            return false;
        }
        least = u32::from(e.clock) + 1;
    }
    true
}

fn event_fits(event: &Event) -> bool
    ensures { IsTrue result ↔ EventFits event.now }
{
    event.clock < CLOCK_LIMIT
        && match event.kind {
            EventKind::Sync(level) => level <= 1,
            _ => true,
        }
}

fn events_fit(events: &[Event]) -> bool
    ensures { IsTrue result ↔ EventsFit events.now }
{
    1 <= events.len()
        && events.len() <= MOST_EVENTS
        && events.iter().all(|e| event_fits(e))
        && clocks_rise(events)
}

fn kinds_fit(kinds: &[LineEvents]) -> bool
    ensures { IsTrue result ↔ KindsFit kinds.now }
{
    1 <= kinds.len()
        && kinds.len() <= MOST_LINES
        && kinds.iter().all(|events| events_fit(events.as_slice()))
}

fn lines_fit(lines: &[u16], kinds: usize) -> bool
    ensures { IsTrue result ↔ LinesFit kinds lines.now }
{
    1 <= lines.len()
        && lines.len() <= MOST_LINES
        && lines.iter().all(|kind| usize::from(*kind) < kinds)
}

/// Whether a kind of line has the clocks of a scanline, or of half of one.
fn is_length(clocks: u16) -> bool
    ensures { result ≡ length_is clocks }
{
    clocks == HALF_LINE || clocks == SCANLINE
}

/// Whether OCR1A is the last clock of a line.
pub fn is_top(top: u16) -> bool
    ensures { result ≡ top_is top }
{
    top == HALF_LINE - 1 || top == SCANLINE - 1
}

/// Whether each event stands at a clock of a line of so many.
fn clocks_below(events: &[Event], clocks: u16) -> bool
    ensures { result ≡ are_below events.now clocks }
{
    for event in events {
        if event.clock >= clocks {
            return false;
        }
    }
    true
}

/// Whether each kind has a length and no other has, and the clocks of events are below the length of their kind.
fn lengths_fit(kinds: &[LineEvents], lengths: &[u16]) -> bool
    ensures { result ≡ fit_lengths kinds.now lengths.now }
{
    let mut next = 0;
    for events in kinds {
        match lengths.get(next) {
            Some(clocks) if is_length(*clocks) && clocks_below(events.as_slice(), *clocks) => {
                next += 1
            }
            _ => return false,
        }
    }
    next == lengths.len()
}

/// Whether a schedule is within the limits and orders of its text. Takes no memory.
pub fn schedule_fits(schedule: &Schedule) -> bool
    ensures { IsTrue result ↔ ScheduleFits schedule.now }
{
    kinds_fit(schedule.kinds.as_slice())
        && lengths_fit(schedule.kinds.as_slice(), schedule.lengths.as_slice())
        && lines_fit(schedule.lines.as_slice(), schedule.kinds.len())
        && 1 <= schedule.fall
        && schedule.fall < CLOCK_LIMIT
}

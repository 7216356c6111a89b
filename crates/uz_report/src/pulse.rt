//! The pulse of a line.

ghost use Rattle.std.specs.Prelude.{◌≡◌};
ghost use Rattle.uz_report.specs.Pulses.{high_of, kind_of_pulse as meant_kind, low_from as pulse_from, low_of, pulse_in as first_pulse, rise_in as first_rise, sets as sets_level};

use crate::pulse_kind::PulseKind;
use uz_schedule::{Event, EventKind};

/// A pulse of sync on a line.
#[derive(Clone, Copy)]
pub(crate) struct Pulse {
    /// The clock of the line at which sync falls.
    pub(crate) fall: u16,
    /// The clock of the line at which it rises.
    pub(crate) rise: u16,
}

impl Pulse {
    /// The clocks for which sync is low.
    pub(crate) fn low(self) -> u32
        ensures { result ≡ low_of self }
    {
        u32::from(self.rise.saturating_sub(self.fall))
    }

    /// The clocks from the rise to the fall of the next line, in a line of this length.
    pub(crate) fn high(self, clocks: u16) -> u32
        ensures { result ≡ high_of clocks self }
    {
        (u32::from(clocks) + u32::from(self.fall)).saturating_sub(u32::from(self.rise))
    }
}

/// Whether an event sets sync to a level.
fn sets(kind: EventKind, level: u8) -> bool
    ensures { result ≡ sets_level level kind }
{
    match kind {
        EventKind::Sync(new) => new == level,
        _ => false,
    }
}

/// The clock of the first of these events with which sync rises.
fn rise_in(events: &[Event]) -> Option<u16>
    ensures { result ≡ first_rise events.now }
{
    for event in events {
        if sets(event.kind, 1) {
            return Some(event.clock);
        }
    }
    None
}

/// The pulse that begins at this clock, of which the rise is among these events.
fn low_from(fall: u16, later: &[Event]) -> Option<Pulse>
    ensures { result ≡ pulse_from fall (first_rise later.now) }
{
    match rise_in(later) {
        Some(rise) => Some(Pulse { fall, rise }),
        None => None,
    }
}

/// The pulse of a line with these events.
pub(crate) fn pulse_in(events: &[Event]) -> Option<Pulse>
    ensures { result ≡ first_pulse events.now }
{
    for index in 0..events.len() {
        let event = events[index];
        if sets(event.kind, 0) {
            return low_from(event.clock, &events[index + 1..]);
        }
    }
    None
}

/// What the pulse of a line with these events is.
pub(crate) fn kind_of_pulse(events: &[Event]) -> PulseKind
    ensures { result ≡ meant_kind (first_pulse events.now) }
{
    match pulse_in(events) {
        Some(pulse) => PulseKind::of(pulse.low()),
        None => PulseKind::Other,
    }
}

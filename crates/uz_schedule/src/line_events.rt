//! The events of a kind of line, which find an event and a level at a clock by halving.

ghost use Rattle.std.specs.List.Sorted.{IsNonDecreasingBy, IsPartitionPoint};
ghost use Rattle.std.specs.Prelude.{◌≡◌, ◌≤◌, ◌↔◌, true, false, nat_lt, [], ◌∷◌, ◌++◌, length, map, slice_get, OnOk, OnErr, IsTrue};
ghost use Rattle.uz_schedule.specs.LineEvents.{is_sync as sets_sync, event_here};
ghost use Rattle.uz_schedule.specs.Schedule.{event_in, level_set};
ghost use Rattle.uz_schedule.specs.Levels.{last_set};
ghost use Rattle.uz_schedule.specs.Limits.{rises};

use crate::lines::{Event, EventKind};
use std::alloc::{AllocError, Global};
use std::marker::Model;

/// The events of a kind of line, in their order. Contracts see it as their list. Beside them those of sync are kept once
/// more, apart, so that the last level before a clock is found without going over pixels.
#[derive(Drop)]
pub struct LineEvents {
    events: Vec<Event>,
    syncs: Vec<Event>,
}

impl Model for LineEvents {
    ghost use Rattle.std.specs.Prelude.{◌≡◌, List, filter};
    ghost use Rattle.uz_schedule.specs.declared.lines.Event.{Event};

    ghost Value = { List Event };

    ghost use Rattle.uz_schedule.specs.LineEvents.{is_sync};

    ghost view = { λ s. s.events.items };

    ghost invariant = { λ s. s.syncs.items ≡ filter is_sync s.events.items };
}

/// Whether an event sets the level of sync.
fn is_sync(event: &Event) -> bool
    ensures { result ≡ sets_sync event.now }
{
    match event.kind {
        EventKind::Sync(_) => true,
        _ => false,
    }
}

/// The level that an event sets.
fn level_set_by(event: &Event) -> Option<u8>
    ensures { result ≡ level_set event.now.kind }
{
    match event.kind {
        EventKind::Sync(level) => Some(level),
        _ => None,
    }
}

/// The place of the first event whose clock isn't below this one, found by halving.
fn first_from(events: &[Event], clock: u16) -> usize
    requires { IsNonDecreasingBy (λ e. e.clock) events.now }
    ensures bound { result ≤ length events.now }
    ensures place { IsPartitionPoint (λ e. nat_lt e.clock clock ≡ true) (λ e. nat_lt e.clock clock ≡ false) events.now result }
{
    events.partition_point(|e| e.clock < clock)
}

/// What stands at this place of a list, where it is at this clock.
fn event_at_place(events: &[Event], place: usize, clock: u16) -> Option<EventKind>
    ensures { result ≡ event_here clock (slice_get events.now place) }
{
    match events.get(place) {
        Some(e) if e.clock == clock => Some(e.kind),
        _ => None,
    }
}

impl LineEvents {
    /// No event.
    pub fn new(alloc: Global) -> Self
        ensures { result ≡ [] }
    {
        LineEvents {
            events: Vec::new(alloc),
            syncs: Vec::new(alloc),
        }
    }

    /// Puts an event at the end. Only want of memory refuses it; the events are then as before.
    pub fn push(&mut self, event: Event) -> Result<(), AllocError>
        ensures ok { OnOk result (self.new ≡ self.old ++ event ∷ []) }
        ensures err { OnErr result (self.new ≡ self.old) }
    {
        self.events.push(event)?;
        if is_sync(&event) {
            if let Err(e) = self.syncs.push(event) {
                self.events.pop();
                return Err(e.into());
            }
        }
        Ok(())
    }

    /// The number of events.
    pub fn len(&self) -> usize
        ensures { result ≡ length self.now }
    {
        self.events.len()
    }

    /// Whether there is no event.
    pub fn is_empty(&self) -> bool
        ensures { IsTrue result ↔ (self.now ≡ []) }
    {
        self.events.is_empty()
    }

    /// The events, lent.
    pub fn as_slice(&self) -> &[Event]
        ensures { result.now ≡ self.now }
    {
        self.events.as_slice()
    }

    /// The event at a clock, found by halving.
    pub fn at(&self, clock: u16) -> Option<EventKind>
        requires { IsTrue (rises (map (λ e. e.clock) self.now)) }
        ensures { result ≡ event_in self.now clock }
    {
        let events = self.events.as_slice();
        let place = first_from(events, clock);
        event_at_place(events, place, clock)
    }

    /// The level that the last event before a clock sets, found by halving.
    pub fn level_before(&self, clock: u16) -> Option<u8>
        requires { IsTrue (rises (map (λ e. e.clock) self.now)) }
        ensures { result ≡ last_set self.now clock }
    {
        let syncs = self.syncs.as_slice();
        let place = first_from(syncs, clock);
        if place == 0 {
            None
        } else {
            level_set_by(&syncs[place - 1])
        }
    }
}

//! The schedule that a search's marks make: lines that are equal in events and length share a kind.

ghost use Rattle.std.specs.Prelude.{◌≡◌, ◌<◌, ◌≤◌, ◌+◌, ◌++◌, ℕ, IfOk, OnOk, IsTrue, ◌↔◌, MatchOption, length, slice_get, Some};
ghost use Rattle.uz_schedule.specs.Limits.{most_lines};
ghost use Rattle.uz_schedule.specs.declared.lines.Event.{Event};
ghost use Rattle.uz_paths.specs.Kinds.{noted as noted_event, event_here, line_events as events_of_marks, AddsKind, IsKind, IsScheduleOf};

use std::alloc::{AllocError, Global};
use uz_schedule::{Event, EventKind, LineEvents, SCANLINE, Schedule, Sequence};
use uz_search::Mark;

/// What is noted of a position.
fn noted(marks: &[Mark], position: usize) -> Option<EventKind>
    ensures { result ≡ noted_event (slice_get marks.now position) }
{
    match marks.get(position) {
        Some(mark) => mark.event(),
        None => None,
    }
}

/// Puts the event at a clock, where there is one, at the end of others.
fn push_event(
    events: &mut LineEvents,
    clock: u16,
    kind: Option<EventKind>,
) -> Result<(), AllocError>
    ensures { OnOk result (events.new ≡ events.old ++ event_here clock kind) }
{
    if let Some(kind) = kind {
        events.push(Event { clock, kind })?;
    }
    Ok(())
}

/// The events of the marks on a line of so many clocks.
fn line_events(
    alloc: Global,
    marks: &[Mark],
    line: u16,
    clocks: u16,
) -> Result<LineEvents, AllocError>
    ensures { IfOk result (λ events. events ≡ events_of_marks marks.now line clocks) }
{
    let start = SCANLINE as usize * line as usize;
    let mut events = LineEvents::new(alloc);
    for clock in 0..clocks {
        push_event(&mut events, clock, noted(marks, start + clock as usize))?;
    }
    Ok(events)
}

/// Whether two events are one.
fn is_same(a: &Event, b: &Event) -> bool
    ensures { IsTrue result ↔ (a.now ≡ b.now) }
{
    a.clock == b.clock && a.kind == b.kind
}

/// Whether two lines have the same events, as many.
fn are_same_each(a: &[Event], b: &[Event]) -> bool
    requires { length a.now ≡ length b.now }
    ensures { IsTrue result ↔ (a.now ≡ b.now) }
{
    for i in 0..a.len() {
        if !is_same(&a[i], &b[i]) {
            return false;
        }
    }
    true
}

/// Whether two lines have the same events.
fn are_same(a: &[Event], b: &[Event]) -> bool
    ensures { IsTrue result ↔ (a.now ≡ b.now) }
{
    a.len() == b.len() && are_same_each(a, b)
}

/// Whether the kind at a place has so many clocks.
fn has_length(lengths: &[u16], i: usize, clocks: u16) -> bool
    requires { i < length lengths.now }
    ensures { IsTrue result ↔ (slice_get lengths.now i ≡ Some clocks) }
{
    lengths[i] == clocks
}

/// The number of the first kind with these events and so many clocks.
fn kind_with(kinds: &[LineEvents], lengths: &[u16], events: &[Event], clocks: u16) -> Option<usize>
    requires { length lengths.now ≡ length kinds.now }
    ensures { MatchOption result ((i : ℕ) → IsKind kinds.now lengths.now i events.now clocks → ⊥)
        (λ i. IsKind kinds.now lengths.now i events.now clocks) }
{
    for (i, kind) in kinds.iter().enumerate() {
        if has_length(lengths, i, clocks) && are_same(kind.as_slice(), events) {
            return Some(i);
        }
    }
    None
}

/// The number of the kind with these events and so many clocks, which is put last where there is none.
fn number_of(
    kinds: &mut Vec<LineEvents>,
    lengths: &mut Vec<u16>,
    events: LineEvents,
    clocks: u16,
) -> Result<u16, AllocError>
    requires sizes { length lengths.old.items ≡ length kinds.old.items }
    requires few { length kinds.old.items < 65536 }
    ensures { IfOk result (λ n. AddsKind kinds.old.items lengths.old.items events clocks kinds.new.items lengths.new.items n) }
{
    match kind_with(
        kinds.as_slice(),
        lengths.as_slice(),
        events.as_slice(),
        clocks,
    ) {
        Some(i) => Ok(i as u16),
        None => {
            let number = kinds.len() as u16;
            kinds.push(events)?;
            lengths.push(clocks)?;
            Ok(number)
        }
    }
}

/// The schedule of a frame's lines and lengths.
pub(crate) fn schedule_of(
    alloc: Global,
    marks: &[Mark],
    frame: &Schedule,
) -> Result<Schedule, AllocError>
    requires { length frame.now.lines ≤ most_lines }
    ensures { IfOk result (IsScheduleOf marks.now frame.now) }
{
    let mut kinds = Vec::new(alloc);
    let mut lengths = Vec::new(alloc);
    let mut numbers = Vec::new(alloc);
    for line in 0..frame.lines.len() as u16 {
        let clocks = frame.length(line);
        let events = line_events(alloc, marks, line, clocks)?;
        let number = number_of(&mut kinds, &mut lengths, events, clocks)?;
        numbers.push(number)?;
    }
    Ok(Schedule {
        kinds: Sequence::from_vec(kinds),
        lengths: Sequence::from_vec(lengths),
        lines: Sequence::from_vec(numbers),
        fall: frame.fall,
    })
}

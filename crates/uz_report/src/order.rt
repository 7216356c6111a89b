//! The pulses of the frame's lines in their order.

ghost use Rattle.std.specs.Prelude.{◌≡◌, ◌<◌, ◌≤◌, ◌+◌, ◌-◌, ◌%◌, IfOk, IfSome, length, slice_index_or};
ghost use Rattle.uz_report.specs.Order.{are_wanted, begins_broad as begins, first_broad as first_begin, is_broad as broad_kind, is_field as are_field};
ghost use Rattle.uz_report.specs.Order.{is_field_from, is_wanted as is_as_wanted, kinds_pulses as of_kinds, pulses_of};
ghost use Rattle.uz_report.specs.Order.{wanted as wanted_kind, wanted_clocks as clocks_wanted};
ghost use Rattle.uz_report.specs.declared.pulse_kind.PulseKind.TheVariants.{Other};

use crate::pulse::kind_of_pulse;
use crate::pulse_kind::PulseKind;
use std::alloc::{AllocError, Global};
use uz_schedule::{HALF_LINE, SCANLINE, Schedule};

/// The half lines of a field: 6 equalizing pulses, 6 broad ones and 6 equalizing ones.
const HALF_LINES: usize = 18;

/// The pulse of each kind of line.
fn kinds_pulses(alloc: Global, schedule: &Schedule) -> Result<Vec<PulseKind>, AllocError>
    ensures { IfOk result (λ pulses. pulses.items ≡ of_kinds schedule.now) }
{
    let mut pulses = Vec::new(alloc);
    for events in schedule.kinds.as_slice() {
        pulses.push(kind_of_pulse(events.as_slice()))?;
    }
    Ok(pulses)
}

/// The pulse at a place of a list; past its end, no pulse of NTSC.
fn pulse_at(pulses: &[PulseKind], place: usize) -> PulseKind
    ensures { result ≡ slice_index_or pulses.now place Other }
{
    match pulses.get(place) {
        Some(pulse) => *pulse,
        None => PulseKind::Other,
    }
}

/// The pulse of each line.
#[tactic(auto, unfolding(crate::specs::Order::pulses_of))]
pub(crate) fn line_pulses(alloc: Global, schedule: &Schedule) -> Result<Vec<PulseKind>, AllocError>
    ensures pulses { IfOk result (λ pulses. pulses.items ≡ pulses_of schedule.now) }
    ensures count { IfOk result (λ pulses. length pulses.items ≡ length schedule.now.lines) }
{
    let kinds = kinds_pulses(alloc, schedule)?;
    let mut pulses = Vec::new(alloc);
    for kind in schedule.lines.as_slice() {
        pulses.push(pulse_at(kinds.as_slice(), usize::from(*kind)))?;
    }
    Ok(pulses)
}

/// What the i-th pulse of a field is, from its first equalizing one.
fn wanted(i: usize) -> PulseKind
    ensures { result ≡ wanted_kind i }
{
    if i < 6 {
        PulseKind::Equalizing
    } else if i < 12 {
        PulseKind::Broad
    } else if i < HALF_LINES {
        PulseKind::Equalizing
    } else {
        PulseKind::Horizontal
    }
}

/// The length of the i-th line of a field.
fn wanted_clocks(i: usize) -> u16
    ensures { result ≡ clocks_wanted i }
{
    if i < HALF_LINES { HALF_LINE } else { SCANLINE }
}

/// Whether a line is as the i-th line of a field is.
fn is_wanted(schedule: &Schedule, pulses: &[PulseKind], i: usize, line: usize) -> bool
    requires { line < 65536 }
    ensures { result ≡ is_as_wanted schedule.now pulses.now i line }
{
    pulse_at(pulses, line).is_same(wanted(i)) && schedule.length(line as u16) == wanted_clocks(i)
}

/// The line that comes i after the sixth one before this one, round the frame.
fn line_after(lines: usize, broad: usize, i: usize) -> usize
    requires lines { 6 ≤ lines }
    requires few { lines ≤ 525 }
    requires broad { broad ≤ lines }
    requires i { i ≤ lines }
    ensures value { result ≡ (broad + (lines - 6) + i) % lines }
    ensures there { result < lines }
{
    (broad + (lines - 6) + i) % lines
}

/// Whether the lines of the frame are those of a field, if its broad pulses begin at this one.
fn is_field_at(schedule: &Schedule, pulses: &[PulseKind], broad: usize) -> bool
    requires some { 6 ≤ length pulses.now }
    requires few { length pulses.now ≤ 525 }
    requires broad { broad ≤ length pulses.now }
    ensures { result ≡ are_wanted schedule.now pulses.now broad (length pulses.now) }
{
    let mut is_field = true;
    for i in 0..pulses.len() {
        let line = line_after(pulses.len(), broad, i);
        is_field = is_field && is_wanted(schedule, pulses, i, line);
    }
    is_field
}

/// Whether a pulse is a broad one.
fn is_broad(pulse: PulseKind) -> bool
    ensures { result ≡ broad_kind pulse }
{
    matches!(pulse, PulseKind::Broad)
}

/// Whether broad pulses begin at a line.
fn begins_broad(pulses: &[PulseKind], line: usize) -> bool
    requires there { line < length pulses.now }
    requires few { length pulses.now ≤ 525 }
    ensures { result ≡ begins pulses.now line }
{
    let before = (line + pulses.len() - 1) % pulses.len();
    is_broad(pulse_at(pulses, line)) && !is_broad(pulse_at(pulses, before))
}

/// The first line at which broad pulses begin.
fn first_broad(pulses: &[PulseKind]) -> Option<usize>
    requires { length pulses.now ≤ 525 }
    ensures first { result ≡ first_begin pulses.now (length pulses.now) }
    ensures there { IfSome result (λ line. line < length pulses.now) }
{
    let mut first = None;
    for line in 0..pulses.len() {
        if first.is_none() && begins_broad(pulses, line) {
            first = Some(line);
        }
    }
    first
}

/// Whether the pulses of the frame's lines are those of a field of NTSC, wherever the frame begins in it.
#[tactic(auto, unfolding(crate::specs::Order::is_field))]
pub(crate) fn is_field(schedule: &Schedule, pulses: &[PulseKind]) -> bool
    requires { length pulses.now ≤ 525 }
    ensures { result ≡ are_field schedule.now pulses.now }
{
    if pulses.len() < HALF_LINES {
        return false;
    }
    match first_broad(pulses) {
        Some(broad) => is_field_at(schedule, pulses, broad),
        None => false,
    }
}

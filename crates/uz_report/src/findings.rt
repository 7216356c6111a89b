//! How many lines that NTSC says something of end in `out`.

ghost use Rattle.std.specs.Prelude.{◌≡◌, ◌≤◌, ◌*◌, length, slice_get};
ghost use Rattle.uz_schedule.specs.Limits.{ScheduleFits};
ghost use Rattle.uz_report.specs.Findings.{kind_out as out_in_kind, kinds_out_below, one_unless as one_or_none, out_of, serration_out as out_behind, sync_out as out_in};

use crate::kind_text::length_of_kind;
use crate::places::has;
use crate::pulse::{Pulse, pulse_in};
use crate::pulse_kind::PulseKind;
use crate::range::{Range, SERRATION};
use uz_schedule::Schedule;

/// One, unless this holds.
pub(crate) fn one_unless(is_ok: bool) -> u32
    ensures value { result ≡ one_or_none is_ok }
    ensures few { result ≤ 1 }
{
    if is_ok { 0 } else { 1 }
}

/// One, unless so many clocks are in their range.
fn out(clocks: u32, range: Option<Range>) -> u32
    ensures value { result ≡ out_of clocks range }
    ensures few { result ≤ 1 }
{
    match range {
        Some(range) => one_unless(range.has(clocks)),
        None => 1,
    }
}

/// One, unless sync is high for a serration behind a broad pulse, or this is another one.
fn serration_out(kind: PulseKind, high: u32) -> u32
    ensures value { result ≡ out_behind kind high }
    ensures few { result ≤ 1 }
{
    match kind {
        PulseKind::Broad => one_unless(SERRATION.has(high)),
        _ => 0,
    }
}

/// How many lines of sync are out.
fn sync_out(clocks: u16, pulse: Option<Pulse>) -> u32
    ensures value { result ≡ out_in clocks pulse }
    ensures few { result ≤ 2 }
{
    match pulse {
        Some(pulse) => {
            let low = pulse.low();
            let kind = PulseKind::of(low);
            out(low, kind.range()) + serration_out(kind, pulse.high(clocks))
        }
        None => 1,
    }
}

/// How many lines of a kind's block are out.
fn kind_out(schedule: &Schedule, kind: u16) -> u32
    ensures value { result ≡ out_in_kind schedule.now kind (slice_get schedule.now.kinds kind) }
    ensures few { result ≤ 2 }
{
    match schedule.kinds.as_slice().get(usize::from(kind)) {
        Some(events) if has(kind, schedule.lines.as_slice()) => {
            sync_out(length_of_kind(schedule, kind), pulse_in(events.as_slice()))
        }
        _ => 0,
    }
}

/// How many lines of all kinds are out.
pub(crate) fn kinds_out(schedule: &Schedule) -> u32
    requires { ScheduleFits schedule.now }
    ensures value { result ≡ kinds_out_below schedule.now (length schedule.now.kinds) }
    ensures few { result ≤ 2 * length schedule.now.kinds }
{
    let mut out: u32 = 0;
    for kind in 0..schedule.kinds.len() as u16 {
        out += kind_out(schedule, kind);
    }
    out
}

//! The lines of one kind of line.

ghost use Rattle.std.specs.Prelude.{◌≡◌, ◌≤◌, ◌++◌, OnOk, length, slice_get};
ghost use Rattle.uz_schedule.specs.Limits.{ScheduleFits};
ghost use Rattle.uz_schedule.specs.Schedule.{scanline};
ghost use Rattle.uz_report.specs.KindText.{block_of, blocks_below, count_line, distance_line, distance_lines_below, each_return, ends_of, ends_words};
ghost use Rattle.uz_report.specs.KindText.{event_lines, head_line, high_line, kind_block, low_words, length_of_kind as kind_length, odd_line, pixel_lines};
ghost use Rattle.uz_report.specs.KindText.{pulse_line, return_line, return_lines, serration_line, sync_lines};

use crate::distances::{count_at, distances, odd_in, tally};
use crate::places::{has, put_places};
use crate::pulse::{Pulse, pulse_in};
use crate::pulse_kind::PulseKind;
use crate::range::SERRATION;
use crate::shown::{Shown, clocks_of};
use crate::words::{put_judged, put_number, put_time};
use std::alloc::{AllocError, Global};
use uz_schedule::{Event, SCANLINE, Schedule};

/// An interrupt is taken up to so many clocks after its line's end, while an instruction of main ends.
const LATEST: u64 = 3;

/// The clocks of a kind of line.
pub(crate) fn length_of_kind(schedule: &Schedule, kind: u16) -> u16
    ensures { result ≡ kind_length schedule.now kind }
{
    match schedule.lengths.as_slice().get(usize::from(kind)) {
        Some(clocks) => *clocks,
        None => SCANLINE,
    }
}

/// Puts the number of the kind, its length and its lines.
#[tactic(auto, unfolding(crate::specs::KindText::head_line))]
fn put_head(
    text: &mut Vec<u8>,
    schedule: &Schedule,
    kind: u16,
    clocks: u16,
) -> Result<(), AllocError>
    ensures { OnOk result (text.new.items ≡ text.old.items ++ head_line schedule.now kind clocks) }
{
    put_number(text, b"kind ", u64::from(kind))?;
    put_number(text, b" clocks ", u64::from(clocks))?;
    text.extend_from_slice(b" lines")?;
    put_places(text, schedule.lines.as_slice(), kind)?;
    text.extend_from_slice(b"\n")
}

/// Puts where a pulse begins and ends.
fn put_ends(text: &mut Vec<u8>, pulse: Pulse) -> Result<(), AllocError>
    ensures { OnOk result (text.new.items ≡ text.old.items ++ ends_words pulse) }
{
    put_number(text, b"sync falls ", u64::from(pulse.fall))?;
    put_number(text, b" rises ", u64::from(pulse.rise))?;
    text.extend_from_slice(b" low ")
}

/// Puts for how long sync is low, and what that is of this kind.
#[tactic(auto, unfolding(crate::specs::KindText::low_words))]
fn put_low(text: &mut Vec<u8>, low: u32, kind: PulseKind) -> Result<(), AllocError>
    ensures { OnOk result (text.new.items ≡ text.old.items ++ low_words low kind) }
{
    put_time(text, low)?;
    text.extend_from_slice(kind.name())?;
    put_judged(text, low, kind.range())
}

/// Puts the line of a pulse.
#[tactic(auto, unfolding(crate::specs::KindText::pulse_line))]
fn put_pulse(text: &mut Vec<u8>, pulse: Pulse) -> Result<(), AllocError>
    ensures { OnOk result (text.new.items ≡ text.old.items ++ pulse_line pulse) }
{
    let low = pulse.low();
    put_ends(text, pulse)?;
    put_low(text, low, PulseKind::of(low))
}

/// Puts the line of a serration.
#[tactic(auto, unfolding(crate::specs::KindText::high_line))]
fn put_high(text: &mut Vec<u8>, high: u32) -> Result<(), AllocError>
    ensures { OnOk result (text.new.items ≡ text.old.items ++ high_line high) }
{
    text.extend_from_slice(b"serration ")?;
    put_time(text, high)?;
    put_judged(text, high, Some(SERRATION))
}

/// Puts the line of the serration behind a broad pulse.
fn put_serration(text: &mut Vec<u8>, kind: PulseKind, high: u32) -> Result<(), AllocError>
    ensures { OnOk result (text.new.items ≡ text.old.items ++ serration_line kind high) }
{
    match kind {
        PulseKind::Broad => put_high(text, high),
        _ => Ok(()),
    }
}

/// Puts the lines of sync.
#[tactic(auto, unfolding(crate::specs::KindText::sync_lines))]
fn put_sync(text: &mut Vec<u8>, clocks: u16, pulse: Option<Pulse>) -> Result<(), AllocError>
    ensures { OnOk result (text.new.items ≡ text.old.items ++ sync_lines clocks pulse) }
{
    match pulse {
        Some(pulse) => {
            put_pulse(text, pulse)?;
            put_serration(text, PulseKind::of(pulse.low()), pulse.high(clocks))
        }
        None => text.extend_from_slice(b"sync none out\n"),
    }
}

/// Puts the first clock and the last.
fn put_first_and_last(text: &mut Vec<u8>, clocks: &[u16]) -> Result<(), AllocError>
    ensures { OnOk result (text.new.items ≡ text.old.items ++ ends_of clocks.now) }
{
    match clocks {
        [] => Ok(()),
        [first, later @ ..] => {
            put_number(text, b" first ", u64::from(*first))?;
            put_number(text, b" last ", u64::from(clocks[later.len()]))
        }
    }
}

/// Puts how many clocks there are, the first and the last.
#[tactic(auto, unfolding(crate::specs::KindText::count_line))]
fn put_count(text: &mut Vec<u8>, name: &[u8], clocks: &[u16]) -> Result<(), AllocError>
    ensures { OnOk result (text.new.items ≡ text.old.items ++ count_line name.now clocks.now) }
{
    put_number(text, name, clocks.len() as u64)?;
    put_first_and_last(text, clocks)?;
    text.extend_from_slice(b"\n")
}

/// Puts how often a distance comes, where it does.
fn put_distance(text: &mut Vec<u8>, distance: u16, count: usize) -> Result<(), AllocError>
    ensures { OnOk result (text.new.items ≡ text.old.items ++ distance_line distance count) }
{
    if count == 0 {
        return Ok(());
    }
    put_number(text, b"distance ", u64::from(distance))?;
    put_number(text, b" times ", count as u64)?;
    text.extend_from_slice(b"\n")
}

/// Puts the distances below one and how often each comes, from the shortest on.
#[tactic(auto, unfolding(crate::specs::KindText::distance_lines_below))]
fn put_distances(
    text: &mut Vec<u8>,
    alloc: Global,
    all: &[u16],
    below: u16,
) -> Result<(), AllocError>
    requires { below ≤ scanline }
    ensures { OnOk result (text.new.items ≡ text.old.items ++ distance_lines_below all.now below) }
{
    let counts = tally(alloc, all)?;
    for distance in 0..below {
        put_distance(text, distance, count_at(counts.as_slice(), distance))?;
    }
    Ok(())
}

/// Puts the clock of the first odd pixel.
fn put_odd(text: &mut Vec<u8>, clock: Option<u16>) -> Result<(), AllocError>
    ensures { OnOk result (text.new.items ≡ text.old.items ++ odd_line clock) }
{
    match clock {
        Some(clock) => {
            put_number(text, b"odd pixel ", u64::from(clock))?;
            text.extend_from_slice(b"\n")
        }
        None => Ok(()),
    }
}

/// Puts the lines of pixels that come at these clocks.
#[tactic(auto, unfolding(crate::specs::KindText::pixel_lines))]
fn put_pixels(text: &mut Vec<u8>, alloc: Global, clocks: &[u16]) -> Result<(), AllocError>
    ensures { OnOk result (text.new.items ≡ text.old.items ++ pixel_lines clocks.now) }
{
    let all = distances(alloc, clocks)?;
    put_count(text, b"pixels ", clocks)?;
    put_distances(text, alloc, all.as_slice(), SCANLINE)?;
    put_odd(text, odd_in(clocks))
}

/// Puts the line of a return at this clock of a line of so many.
fn put_return(text: &mut Vec<u8>, clocks: u16, at: u16) -> Result<(), AllocError>
    ensures { OnOk result (text.new.items ≡ text.old.items ++ return_line clocks at) }
{
    let least = u64::from(clocks.saturating_sub(at));
    put_number(text, b"return ", u64::from(at))?;
    put_number(text, b" main ", least)?;
    put_number(text, b" to ", least + LATEST)?;
    text.extend_from_slice(b"\n")
}

/// Puts a line for each return.
fn put_each_return(text: &mut Vec<u8>, clocks: u16, ats: &[u16]) -> Result<(), AllocError>
    ensures { OnOk result (text.new.items ≡ text.old.items ++ each_return clocks ats.now) }
{
    for at in ats {
        put_return(text, clocks, *at)?;
    }
    Ok(())
}

/// Puts the lines of returns.
#[tactic(auto, unfolding(crate::specs::KindText::return_lines))]
fn put_returns(text: &mut Vec<u8>, clocks: u16, ats: &[u16]) -> Result<(), AllocError>
    ensures { OnOk result (text.new.items ≡ text.old.items ++ return_lines clocks ats.now) }
{
    if ats.is_empty() {
        text.extend_from_slice(b"return none\n")
    } else {
        put_each_return(text, clocks, ats)
    }
}

/// Puts the lines of a kind's events, in a line of so many clocks.
#[tactic(auto, unfolding(crate::specs::KindText::event_lines))]
fn put_events(
    text: &mut Vec<u8>,
    alloc: Global,
    clocks: u16,
    events: &[Event],
) -> Result<(), AllocError>
    ensures { OnOk result (text.new.items ≡ text.old.items ++ event_lines clocks events.now) }
{
    let pixels = clocks_of(alloc, Shown::Pixels, events)?;
    let sounds = clocks_of(alloc, Shown::Sounds, events)?;
    let returns = clocks_of(alloc, Shown::Returns, events)?;
    put_sync(text, clocks, pulse_in(events))?;
    put_pixels(text, alloc, pixels.as_slice())?;
    put_count(text, b"sounds ", sounds.as_slice())?;
    put_returns(text, clocks, returns.as_slice())
}

/// Puts the lines of a kind of line.
#[tactic(auto, unfolding(crate::specs::KindText::kind_block))]
fn put_kind(
    text: &mut Vec<u8>,
    alloc: Global,
    schedule: &Schedule,
    kind: u16,
    events: &[Event],
) -> Result<(), AllocError>
    ensures { OnOk result (text.new.items ≡ text.old.items ++ kind_block schedule.now kind events.now) }
{
    let clocks = length_of_kind(schedule, kind);
    put_head(text, schedule, kind, clocks)?;
    put_events(text, alloc, clocks, events)
}

/// Puts the block of a kind of line, where a line of the frame is of it.
fn put_block(
    text: &mut Vec<u8>,
    alloc: Global,
    schedule: &Schedule,
    kind: u16,
) -> Result<(), AllocError>
    ensures { OnOk result (text.new.items ≡ text.old.items ++ block_of schedule.now kind (slice_get schedule.now.kinds kind)) }
{
    match schedule.kinds.as_slice().get(usize::from(kind)) {
        Some(events) if has(kind, schedule.lines.as_slice()) => {
            put_kind(text, alloc, schedule, kind, events.as_slice())
        }
        _ => Ok(()),
    }
}

/// Puts a block for each kind that a line is of. It takes time for each event, and for each kind and line, 275,625 at most.
pub(crate) fn put_kinds(
    text: &mut Vec<u8>,
    alloc: Global,
    schedule: &Schedule,
) -> Result<(), AllocError>
    requires { ScheduleFits schedule.now }
    ensures { OnOk result (text.new.items ≡ text.old.items ++ blocks_below schedule.now (length schedule.now.kinds)) }
{
    for kind in 0..schedule.kinds.len() as u16 {
        put_block(text, alloc, schedule, kind)?;
    }
    Ok(())
}

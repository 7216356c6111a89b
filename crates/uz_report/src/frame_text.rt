//! The lines of the whole frame.

ghost use Rattle.std.specs.Prelude.{◌≡◌, ◌<◌, ◌≤◌, ◌++◌, IfOk, OnOk, length};
ghost use Rattle.uz_schedule.specs.Limits.{ScheduleFits};
ghost use Rattle.uz_report.specs.FrameText.{distance_line, each_words, falls_line, falls_lines, frame_line, hundredths as rate_of, is_frame as is_field_long};
ghost use Rattle.uz_report.specs.FrameText.{lengths_of, order_words, rate_words, run_words, runs, runs_after, size_words};

use crate::kind_text::length_of_kind;
use crate::places::{has, put_places};
use crate::pulse_kind::PulseKind;
use crate::words::{put_decimal, put_number, put_range, put_verdict};
use std::alloc::{AllocError, Global};
use uz_schedule::{HALF_LINE, SCANLINE, Schedule};

/// The clocks of the shortest frame: 262 lines.
const SHORTEST: u32 = 476_840;

/// The clocks of the longest frame: 263 lines.
const LONGEST: u32 = 478_660;

/// Whether a frame of so many clocks is as long as a field of NTSC, to the next whole line.
pub(crate) fn is_frame(clocks: u32) -> bool
    ensures { result ≡ is_field_long clocks }
{
    SHORTEST <= clocks && clocks <= LONGEST
}

/// Frames of so many clocks in a hundred seconds.
fn hundredths(clocks: u32) -> u64
    requires { 0 < clocks }
    ensures { result ≡ rate_of clocks }
{
    let elevenfold = 11 * u64::from(clocks);
    (31_500_000_000 + elevenfold / 2) / elevenfold
}

/// Puts a rate in hundredths with two decimals.
fn put_rate(text: &mut Vec<u8>, rate: u64) -> Result<(), AllocError>
    ensures { OnOk result (text.new.items ≡ text.old.items ++ rate_words rate) }
{
    put_number(text, b" Hz ", rate / 100)?;
    put_number(text, b".", rate / 10 % 10)?;
    put_decimal(text, rate % 10)
}

/// Puts the number of lines and of clocks.
fn put_size(text: &mut Vec<u8>, lines: u64, clocks: u32) -> Result<(), AllocError>
    ensures { OnOk result (text.new.items ≡ text.old.items ++ size_words lines clocks) }
{
    put_number(text, b" lines ", lines)?;
    put_number(text, b" clocks ", u64::from(clocks))
}

/// Puts the line of the frame's length.
#[tactic(auto, unfolding(crate::specs::FrameText::frame_line))]
pub(crate) fn put_frame(text: &mut Vec<u8>, lines: usize, clocks: u32) -> Result<(), AllocError>
    requires { 0 < clocks }
    ensures { OnOk result (text.new.items ≡ text.old.items ++ frame_line lines clocks) }
{
    text.extend_from_slice(b"frame")?;
    put_size(text, lines as u64, clocks)?;
    put_range(text, SHORTEST, LONGEST)?;
    put_rate(text, hundredths(clocks))?;
    put_verdict(text, is_frame(clocks))
}

/// Puts so many pulses of a kind.
fn put_run(text: &mut Vec<u8>, count: usize, kind: PulseKind) -> Result<(), AllocError>
    ensures { OnOk result (text.new.items ≡ text.old.items ++ run_words count kind) }
{
    put_number(text, b" ", count as u64)?;
    text.extend_from_slice(kind.name())
}

/// Puts how the pulses follow each other, after one.
fn put_runs_after(
    text: &mut Vec<u8>,
    first: PulseKind,
    later: &[PulseKind],
) -> Result<(), AllocError>
    ensures { OnOk result (text.new.items ≡ text.old.items ++ runs_after 1 first later.now) }
{
    let mut kind = first;
    let mut count: usize = 1;
    for next in later {
        if next.is_same(kind) {
            count += 1;
        } else {
            put_run(text, count, kind)?;
            kind = *next;
            count = 1;
        }
    }
    put_run(text, count, kind)
}

/// Puts how the pulses follow each other.
fn put_runs(text: &mut Vec<u8>, pulses: &[PulseKind]) -> Result<(), AllocError>
    ensures { OnOk result (text.new.items ≡ text.old.items ++ runs pulses.now) }
{
    match pulses {
        [] => Ok(()),
        [first, later @ ..] => put_runs_after(text, *first, later),
    }
}

/// Puts the line of the pulses' order.
#[tactic(auto, unfolding(crate::specs::FrameText::order_words))]
pub(crate) fn put_order(
    text: &mut Vec<u8>,
    pulses: &[PulseKind],
    is_field: bool,
) -> Result<(), AllocError>
    ensures { OnOk result (text.new.items ≡ text.old.items ++ order_words pulses.now is_field) }
{
    text.extend_from_slice(b"pulses")?;
    put_runs(text, pulses)?;
    put_verdict(text, is_field)
}

/// The length of each line.
#[tactic(auto, unfolding(crate::specs::FrameText::lengths_of))]
fn line_lengths(alloc: Global, schedule: &Schedule) -> Result<Vec<u16>, AllocError>
    ensures { IfOk result (λ lengths. lengths.items ≡ lengths_of schedule.now) }
{
    let mut lengths = Vec::new(alloc);
    for kind in schedule.lines.as_slice() {
        lengths.push(length_of_kind(schedule, *kind))?;
    }
    Ok(lengths)
}

/// Puts how far apart falls are.
fn put_each(text: &mut Vec<u8>, clocks: u16) -> Result<(), AllocError>
    ensures { OnOk result (text.new.items ≡ text.old.items ++ each_words clocks) }
{
    put_number(text, b"falls each ", u64::from(clocks))?;
    text.extend_from_slice(b" clocks")
}

/// Puts the lines from whose fall of sync to the next it is so many clocks.
#[tactic(auto, unfolding(crate::specs::FrameText::distance_line))]
fn put_distance(text: &mut Vec<u8>, lengths: &[u16], clocks: u16) -> Result<(), AllocError>
    ensures { OnOk result (text.new.items ≡ text.old.items ++ distance_line lengths.now clocks) }
{
    put_each(text, clocks)?;
    text.extend_from_slice(b" lines")?;
    put_places(text, lengths, clocks)?;
    text.extend_from_slice(b"\n")
}

/// Puts those lines, where there are some: from whose fall of sync to the next it is so many clocks.
#[tactic(auto, unfolding(crate::specs::FrameText::falls_line))]
fn put_falls(text: &mut Vec<u8>, lengths: &[u16], clocks: u16) -> Result<(), AllocError>
    ensures { OnOk result (text.new.items ≡ text.old.items ++ falls_line lengths.now clocks) }
{
    if has(clocks, lengths) {
        put_distance(text, lengths, clocks)
    } else {
        Ok(())
    }
}

/// Puts how far apart falls of sync are in lines of these lengths, and on which lines.
#[tactic(auto, unfolding(crate::specs::FrameText::falls_lines))]
fn put_both_falls(text: &mut Vec<u8>, lengths: &[u16]) -> Result<(), AllocError>
    ensures { OnOk result (text.new.items ≡ text.old.items ++ falls_lines lengths.now) }
{
    put_falls(text, lengths, HALF_LINE)?;
    put_falls(text, lengths, SCANLINE)
}

/// Puts how far apart falls of sync are, and on which lines.
pub(crate) fn put_all_falls(
    text: &mut Vec<u8>,
    alloc: Global,
    schedule: &Schedule,
) -> Result<(), AllocError>
    ensures { OnOk result (text.new.items ≡ text.old.items ++ falls_lines (lengths_of schedule.now)) }
{
    let lengths = line_lengths(alloc, schedule)?;
    put_both_falls(text, lengths.as_slice())
}

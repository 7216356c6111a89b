//! The frame of a program without interrupts: a line begins where sync falls.

ghost use Rattle.std.specs.Prelude.{◌≡◌, ◌<◌, ◌≤◌};

use crate::frame::{Frame, have_lengths, no_frame, odd_frame, part};
use crate::no_hints::NoHints;
use crate::{Fall, Line, Period, is_broad, lines_between, mix, period_in};
use std::alloc::{AllocError, Global};
use uz_core::Edge;
use uz_schedule::HALF_LINE;

/// The words of the flash.
const WORDS: usize = 32768;

/// How often sync falls at each pc.
fn counts(alloc: Global, falls: &[Fall]) -> Result<Vec<u32>, AllocError> {
    let mut all = vec![in alloc; 0u32; WORDS]?;
    for fall in falls {
        if let Some(count) = all.get_mut(usize::from(fall.pc)) {
            *count = count.saturating_add(1);
        }
    }
    Ok(all)
}

/// The pc at which sync falls least often, but twice at least: once a frame where there is such a one.
fn rarest(counts: &[u32]) -> Option<u16> {
    let mut best = None;
    let mut least = u32::MAX;
    for (pc, count) in counts.iter().enumerate() {
        if *count >= 2 && *count < least {
            least = *count;
            best = u16::try_from(pc).ok();
        }
    }
    best
}

/// The clocks at which lines begin.
fn begins(alloc: Global, falls: &[Fall]) -> Result<Vec<u64>, AllocError> {
    let mut all = Vec::new(alloc);
    for fall in falls {
        all.push(fall.clock)?;
    }
    Ok(all)
}

/// The period of the lines by their lengths and events and the pcs at which they begin.
fn period_alone(
    alloc: Global,
    lines: &[Line],
    falls: &[Fall],
) -> Result<Option<Period>, AllocError> {
    let mut keys = Vec::new(alloc);
    for (n, line) in lines.iter().enumerate() {
        let pc = falls.get(n).map_or(0, |fall| u64::from(fall.pc));
        keys.push(mix(mix(line.length, line.events), pc))?;
    }
    Ok(period_in(keys.as_slice()))
}

/// How well a line is line 0: less is better.
fn rank_alone(line: &Line) -> u8 {
    if line.length == u64::from(HALF_LINE) {
        0
    } else if is_broad(line) {
        1
    } else {
        2
    }
}

/// The best line that begins at a pc.
fn zero_alone(frame: &[Line], falls: &[Fall], from: usize, pc: u16) -> Option<usize> {
    let mut best = None;
    let mut least = u8::MAX;
    for (n, line) in frame.iter().enumerate() {
        let here = falls
            .get(from.saturating_add(n))
            .map_or(false, |fall| fall.pc == pc);
        let rank = rank_alone(line);
        if here && rank < least {
            least = rank;
            best = Some(n);
        }
    }
    best
}

/// Where a program alone starts, and its frame.
#[derive(Drop)]
pub(crate) struct Alone {
    pub(crate) lines: Vec<Line>,
    pub(crate) frame: Frame,
    /// The fall on line 0.
    pub(crate) start: Fall,
}

/// The frame of a period.
fn frame_alone(
    lines: &[Line],
    falls: &[Fall],
    period: Period,
    pc: u16,
) -> Result<(Frame, Fall), NoHints> {
    let frame = part(lines, period.from, period.lines);
    if !have_lengths(frame) {
        return Err(odd_frame(lines));
    }
    let zero = zero_alone(frame, falls, period.from, pc).ok_or(NoHints::Fall)?;
    let start = falls
        .get(period.from.saturating_add(zero))
        .copied()
        .ok_or(NoHints::Fall)?;
    let frame = Frame {
        from: period.from,
        lines: period.lines,
        zero,
        fall: start.clock.saturating_sub(start.began),
        falling: u16::try_from(period.lines).unwrap_or(u16::MAX),
    };
    Ok((frame, start))
}

/// The frame of a program without interrupts.
pub(crate) fn find_alone(alloc: Global, edges: &[Edge], falls: &[Fall]) -> Result<Alone, NoHints> {
    let counts = counts(alloc, falls)?;
    let pc = rarest(counts.as_slice()).ok_or(NoHints::Loop)?;
    let clocks = begins(alloc, falls)?;
    let lines = lines_between(alloc, edges, clocks.as_slice())?;
    match period_alone(alloc, lines.as_slice(), falls)? {
        None => Err(no_frame(lines.as_slice())),
        Some(period) => {
            let (frame, start) = frame_alone(lines.as_slice(), falls, period, pc)?;
            Ok(Alone {
                lines,
                frame,
                start,
            })
        }
    }
}

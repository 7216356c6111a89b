//! The frame of a run: its lines, its line 0, and where sync falls.

ghost use Rattle.std.specs.Prelude.{◌≡◌, ◌<◌, ◌≤◌, ◌+◌, length};

use crate::no_hints::{NoFrame, NoHints};
use crate::{Line, Period, is_broad, mix, period_in};
use std::alloc::{AllocError, Global};
use uz_schedule::{HALF_LINE, SCANLINE};

/// The bytes at the entries of the interrupt, so many an entry.
#[derive(Clone, Copy)]
pub(crate) struct Cells<'a> {
    pub(crate) bytes: &'a [u8],
    pub(crate) width: usize,
}

impl<'a> Cells<'a> {
    /// The byte of a cell at an entry.
    pub(crate) fn at(&self, entry: usize, cell: usize) -> Option<u8> {
        let place = entry.saturating_mul(self.width).saturating_add(cell);
        self.bytes.get(place).copied()
    }

    /// The byte of a cell at the entry on a line.
    pub(crate) fn on(&self, line: &Line, cell: usize) -> Option<u8> {
        match line.entry {
            None => None,
            Some(entry) => self.at(entry, cell),
        }
    }
}

/// A frame.
#[derive(Clone, Copy)]
pub(crate) struct Frame {
    /// Where it begins among the lines, and how many it has.
    pub(crate) from: usize,
    pub(crate) lines: usize,
    /// The place of line 0 in it.
    pub(crate) zero: usize,
    /// The clock at which sync falls on most lines, and on how many.
    pub(crate) fall: u64,
    pub(crate) falling: u16,
}

/// A number for a cell's byte when the handler was entered on a line.
fn cell_key(key: u64, line: &Line, cells: Cells, cell: usize) -> u64 {
    mix(key, cells.on(line, cell).map_or(256, u64::from))
}

/// Whether the lines have a frame of at most 525 lines with a cell's byte at their entries.
pub(crate) fn is_periodic(
    alloc: Global,
    lines: &[Line],
    cells: Cells,
    cell: usize,
) -> Result<bool, AllocError> {
    let mut keys = Vec::new(alloc);
    for line in lines {
        keys.push(cell_key(line.length, line, cells, cell))?;
    }
    Ok(period_in(keys.as_slice()).is_some())
}

/// A number for a line: its length, the bytes of some cells, and maybe its events.
fn line_key(line: &Line, cells: Cells, chosen: &[usize], with_events: bool) -> u64 {
    let mut key = line.length;
    for cell in chosen {
        key = cell_key(key, line, cells, *cell);
    }
    if with_events {
        mix(key, line.events)
    } else {
        key
    }
}

fn keys_of(
    alloc: Global,
    lines: &[Line],
    cells: Cells,
    chosen: &[usize],
    with_events: bool,
) -> Result<Vec<u64>, AllocError> {
    let mut keys = Vec::new(alloc);
    for line in lines {
        keys.push(line_key(line, cells, chosen, with_events))?;
    }
    Ok(keys)
}

/// The period of the lines with their events, or without them where there is none: then the search says what is wrong with them.
fn period_of(
    alloc: Global,
    lines: &[Line],
    cells: Cells,
    chosen: &[usize],
) -> Result<Option<Period>, AllocError> {
    let keys = keys_of(alloc, lines, cells, chosen, true)?;
    if let Some(found) = period_in(keys.as_slice()) {
        return Ok(Some(found));
    }
    let keys = keys_of(alloc, lines, cells, chosen, false)?;
    Ok(period_in(keys.as_slice()))
}

/// Whether all lines are scanlines or half lines.
pub(crate) fn have_lengths(lines: &[Line]) -> bool {
    for line in lines {
        if line.length != u64::from(SCANLINE) && line.length != u64::from(HALF_LINE) {
            return false;
        }
    }
    true
}

/// The clocks of two fields of NTSC, of 525 half lines each.
const TWO_FIELDS: u64 = 2 * 525 * 910;

/// Whether the lines have fewer clocks than two fields of NTSC. If the handler has a byte then with which they aren't periodic, it may
/// count lines of a frame that is longer.
pub(crate) fn is_short(lines: &[Line]) -> bool {
    let mut clocks = 0u64;
    for line in lines {
        clocks = clocks.saturating_add(line.length);
    }
    clocks < TWO_FIELDS
}

/// On how many lines sync falls at a clock.
fn falling(lines: &[Line], clock: u64) -> u16 {
    let mut count = 0u16;
    for line in lines {
        if line.fall == Some(clock) {
            count = count.saturating_add(1);
        }
    }
    count
}

/// The clock at which sync falls on most lines, and on how many.
fn fall_of(lines: &[Line]) -> Option<(u64, u16)> {
    let mut best = None;
    let mut most = 0;
    for line in lines {
        if let Some(clock) = line.fall {
            let count = falling(lines, clock);
            if count > most {
                most = count;
                best = Some((clock, count));
            }
        }
    }
    best
}

/// So many cells tell lines apart.
const TELLING: usize = 6;

/// How well a line is line 0: the first of the half lines, else of the broad pulses, else where the cells are least. Less is better.
fn rank_of(before: &Line, line: &Line, cells: Cells, chosen: &[usize]) -> u64 {
    let half = line.length == u64::from(HALF_LINE) && before.length != u64::from(HALF_LINE);
    let broad = is_broad(line) && !is_broad(before);
    let mut rank = if half {
        0
    } else if broad {
        1
    } else {
        2
    };
    for (n, cell) in chosen.iter().enumerate() {
        if n < TELLING {
            let byte = cells.on(line, *cell).map_or(0, u64::from);
            rank = u64::wrapping_add(u64::wrapping_mul(rank, 256), byte);
        }
    }
    rank
}

/// The first line with an entry whose rank is least.
fn zero_of(frame: &[Line], cells: Cells, chosen: &[usize]) -> Option<usize> {
    let mut best = None;
    let mut least = u64::MAX;
    let count = frame.len();
    for n in 0..count {
        let before = if n == 0 { count - 1 } else { n - 1 };
        let rank = rank_of(&frame[before], &frame[n], cells, chosen);
        if frame[n].entry.is_some() && (rank < least || best.is_none()) {
            least = rank;
            best = Some(n);
        }
    }
    best
}

/// A part of some lines, as far as they go.
pub(crate) fn part(lines: &[Line], from: usize, count: usize) -> &[Line] {
    if from <= lines.len() && count <= lines.len() - from {
        &lines[from..from + count]
    } else {
        lines
    }
}

/// Why lines that come again without a fall of sync, or without an entry, make no frame: sync falls on none of all lines, or the frame is
/// longer than that.
fn no_part(lines: &[Line]) -> NoHints {
    if fall_of(lines).is_some() {
        no_frame(lines)
    } else {
        NoHints::Fall
    }
}

/// The frame of a period. The handler is entered in each frame: a period without an entry is a part of one.
fn frame_at(
    lines: &[Line],
    period: Period,
    cells: Cells,
    chosen: &[usize],
) -> Result<Frame, NoHints> {
    let frame = part(lines, period.from, period.lines);
    if !have_lengths(frame) {
        return Err(odd_frame(lines));
    }
    let (fall, falling) = match fall_of(frame) {
        None => return Err(no_part(lines)),
        Some(fall) => fall,
    };
    let zero = match zero_of(frame, cells, chosen) {
        None => return Err(no_part(lines)),
        Some(zero) => zero,
    };
    Ok(Frame {
        from: period.from,
        lines: period.lines,
        zero,
        fall,
        falling,
    })
}

fn frameless(lines: usize, short: bool) -> NoHints {
    NoHints::Frame(NoFrame {
        lines: u32::try_from(lines).unwrap_or(u32::MAX),
        apart: [0; 4],
        short,
    })
}

/// The lines have no frame. Two of the longest frames don't fit into fewer than 1050 lines.
pub(crate) fn no_frame(lines: &[Line]) -> NoHints {
    frameless(lines.len(), lines.len() < 1050)
}

/// There is no line yet.
pub(crate) fn no_line() -> NoHints {
    frameless(0, true)
}

/// The lines have a frame, with a line that is no scanline and no half line.
pub(crate) fn odd_frame(lines: &[Line]) -> NoHints {
    frameless(lines.len(), false)
}

/// The frame that the lines make.
pub(crate) fn frame_of(
    alloc: Global,
    lines: &[Line],
    cells: Cells,
    chosen: &[usize],
) -> Result<Frame, NoHints> {
    match period_of(alloc, lines, cells, chosen)? {
        None => Err(no_frame(lines)),
        Some(period) => frame_at(lines, period, cells, chosen),
    }
}

impl Frame {
    /// A line of the frame, counted from line 0.
    pub(crate) fn line<'a>(&self, lines: &'a [Line], n: usize) -> Option<&'a Line> {
        let behind = self.lines.saturating_sub(self.zero);
        let place = if n < behind {
            self.zero.saturating_add(n)
        } else {
            n - behind
        };
        lines.get(self.from.saturating_add(place))
    }
}

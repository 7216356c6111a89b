//! The limits and orders of a head: its stack and its cells, and the ranges that a kind gives them.

ghost use Rattle.std.specs.Prelude.{◌≡◌, ◌↔◌, IsTrue, map, filter};
ghost use Rattle.uz_schedule.specs.Limits.{rises};
ghost use Rattle.uz_schedule.specs.Tracked.{tracks as kind_tracks, tracked};
ghost use Rattle.uz_schedule.specs.WellFormed.{CellFits, HeadFits, spans_fit as fits_spans, SpansFit, StackFits};

use crate::range_limits::{is_within, ranges_fit};
use crate::{Cell, Head, Kind, Span, tracks};

/// The lowest and the highest address of RAM in the data space (ATmega644 data sheet).
const RAM: (u16, u16) = (256, 4351);

/// The most bytes that a kind may push.
const MOST_SLOTS: u8 = 32;

/// Whether a cell lies in RAM and off the stack.
fn cell_fits(head: &Head, cell: &Cell) -> bool
    ensures { IsTrue result ↔ CellFits head.now cell.now }
{
    RAM.0 <= cell.at
        && cell.at <= RAM.1
        && (cell.at < head.lo || head.hi < cell.at)
        && cell.range.lo() <= cell.range.hi()
}

/// Whether the addresses of cells rise.
fn addresses_rise(cells: &[Cell]) -> bool
    ensures { result ≡ rises (map (λ c. c.at) cells.now) }
{
    let mut least: u32 = 0;
    for cell in cells {
        if u32::from(cell.at) < least {
            return false;
        }
        least = u32::from(cell.at) + 1;
    }
    true
}

/// Whether the stack lies in RAM with room for what is pushed.
fn stack_fits(head: &Head) -> bool
    ensures { IsTrue result ↔ StackFits head.now }
{
    RAM.0 <= head.lo
        && head.lo <= head.hi
        && head.hi <= RAM.1
        && head.main <= MOST_SLOTS
        && head.handler <= MOST_SLOTS
        && u16::from(head.main) + 2 + u16::from(head.handler) <= head.hi - head.lo + 1
}

/// Whether the head is within its limits.
pub fn head_fits(head: &Head) -> bool
    ensures { IsTrue result ↔ HeadFits head.now }
{
    let cells = head.cells.as_slice();
    stack_fits(head)
        && cells.len() <= 16
        && cells.iter().all(|c| cell_fits(head, c))
        && addresses_rise(cells)
}

/// Whether there is one range for each of these cells that a kind tracks, within the cell's own.
fn spans_within(cells: &[Cell], kind: Kind, spans: &[Span]) -> bool
    ensures { result ≡ fits_spans (filter (λ c. kind_tracks kind c.owner) cells.now) spans.now }
{
    let mut next = 0;
    for cell in cells {
        if tracks(kind, cell.owner) {
            match spans.get(next) {
                Some(span) if is_within(span, &cell.range) => next += 1,
                _ => return false,
            }
        }
    }
    next == spans.len()
}

/// Whether the ranges are those of the cells that a kind tracks.
pub fn spans_fit(head: &Head, kind: Kind, spans: &[Span]) -> bool
    ensures { IsTrue result ↔ SpansFit (tracked head.now kind) spans.now }
{
    ranges_fit(spans) && spans_within(head.cells.as_slice(), kind, spans)
}

//! The lines of a window: what lies between two clocks at which lines begin.

ghost use Rattle.std.specs.Prelude.{◌≡◌, ◌-◌, IfOk};
ghost use Rattle.uz_proposal.specs.Lines.{edges_from, either, fall_at, fall_in, is_fall, line_shapes, shapes_from, shapes_of};

use std::alloc::{AllocError, Global};
use uz_core::{Edge, EdgeKind};

/// What is between two clocks, as between two matches of the timer.
#[derive(Clone, Copy)]
pub(crate) struct Line {
    /// Its clocks.
    pub length: u64,
    /// A number that lines with other events or other clocks of them seldom share. An entry isn't one: its clock varies.
    pub events: u64,
    /// The clock of the first fall of sync, counted from the line's begin, and of the first rise behind it.
    pub fall: Option<u64>,
    pub rise: Option<u64>,
    /// The place of the first entry among all entries.
    pub entry: Option<usize>,
}

/// A broad sync pulse takes so many clocks at least.
const BROAD: u64 = 300;

/// Puts one more number into another (FNV).
pub(crate) fn mix(all: u64, value: u64) -> u64 {
    (all ^ value).wrapping_mul(0x0000_0100_0000_01B3)
}

/// What is known of a line without edges.
fn empty_line(length: u64) -> Line
    ensures { result ≡ record { length = length; events = 0xCBF29CE484222325; fall = None; rise = None; entry = None } }
{
    Line {
        length,
        events: 0xCBF2_9CE4_8422_2325,
        fall: None,
        rise: None,
        entry: None,
    }
}

/// What an edge is, by a number.
fn event(kind: EdgeKind) -> u64 {
    match kind {
        EdgeKind::Sync(0) => 1,
        EdgeKind::Sync(_) => 2,
        EdgeKind::Pixel(_) => 3,
        EdgeKind::Sound(_) => 4,
        EdgeKind::Enter(_) => 5,
        EdgeKind::Leave => 6,
    }
}

/// Whether sync falls by an edge.
fn falls(kind: EdgeKind) -> bool
    ensures { result ≡ is_fall kind }
{
    match kind {
        EdgeKind::Sync(level) => level == 0,
        _ => false,
    }
}

/// The first fall of sync with one more edge, at a clock counted from the line's begin.
fn with_fall(fall: Option<u64>, clock: u64, kind: EdgeKind) -> Option<u64>
    ensures { result ≡ either fall (fall_at clock kind) }
{
    match fall {
        Some(earlier) => Some(earlier),
        None => if falls(kind) { Some(clock) } else { None },
    }
}

/// The first rise behind the first fall, with one more edge.
fn with_rise(line: &Line, clock: u64, kind: EdgeKind) -> Option<u64> {
    match kind {
        EdgeKind::Sync(level) if level != 0 && line.fall.is_some() && line.rise.is_none() => {
            Some(clock)
        }
        _ => line.rise,
    }
}

/// All events with one more edge.
fn with_event(events: u64, clock: u64, kind: EdgeKind) -> u64 {
    match kind {
        EdgeKind::Enter(_) => events,
        kind => mix(mix(events, clock), event(kind)),
    }
}

fn is_enter(kind: EdgeKind) -> bool {
    matches!(kind, EdgeKind::Enter(_))
}

/// A line with one more edge; so many entries came before it.
fn with_edge(line: &Line, began: u64, edge: Edge, entries: usize) -> Line
    ensures length { result.length ≡ line.now.length }
    ensures fall { result.fall ≡ either line.now.fall (fall_at (edge.clock - began) edge.kind) }
{
    let clock = edge.clock.saturating_sub(began);
    let entry = if is_enter(edge.kind) && line.entry.is_none() {
        Some(entries)
    } else {
        line.entry
    };
    Line {
        length: line.length,
        events: with_event(line.events, clock, edge.kind),
        fall: with_fall(line.fall, clock, edge.kind),
        rise: with_rise(line, clock, edge.kind),
        entry,
    }
}

/// The line between two clocks, and the edges from its end on.
#[tactic(auto, using(crate::proofs::LineLemmas::either_assoc, crate::proofs::LineLemmas::either_none))]
fn line_between<'a>(
    edges: &'a [Edge],
    began: u64,
    ended: u64,
    entries: &mut usize,
) -> (Line, &'a [Edge])
    ensures length { result.0.length ≡ ended - began }
    ensures fall { result.0.fall ≡ fall_in began ended edges.now }
    ensures rest { result.1.now ≡ edges_from ended edges.now }
{
    let mut line = empty_line(ended.saturating_sub(began));
    let mut rest = edges;
    while let [edge, tail @ ..] = rest {
        if edge.clock >= ended {
            break;
        }
        line = with_edge(&line, began, *edge, *entries);
        if is_enter(edge.kind) {
            *entries = entries.saturating_add(1);
        }
        rest = tail;
    }
    (line, rest)
}

/// The lines that end at some clocks, of which the first one begins at a clock.
fn lines_from(
    alloc: Global,
    edges: &[Edge],
    began: u64,
    clocks: &[u64],
    entries: usize,
) -> Result<Vec<Line>, AllocError>
    ensures { IfOk result (λ lines. shapes_of lines.items ≡ shapes_from began edges.now clocks.now) }
{
    let mut lines = Vec::new(alloc);
    let mut entries = entries;
    let mut began = began;
    let mut rest = edges;
    let mut left = clocks;
    while let [clock, later @ ..] = left {
        let (line, behind) = line_between(rest, began, *clock, &mut entries);
        lines.push(line)?;
        began = *clock;
        rest = behind;
        left = later;
    }
    Ok(lines)
}

/// The lines between clocks that rise, with the edges of a run in the order of time.
pub(crate) fn lines_between(
    alloc: Global,
    edges: &[Edge],
    clocks: &[u64],
) -> Result<Vec<Line>, AllocError>
    ensures { IfOk result (λ lines. shapes_of lines.items ≡ line_shapes edges.now clocks.now) }
{
    match clocks {
        [] => Ok(Vec::new(alloc)),
        [first, later @ ..] => {
            let mut entries = 0;
            let (_, rest) = line_between(edges, 0, *first, &mut entries);
            lines_from(alloc, rest, *first, later, entries)
        }
    }
}

/// Whether the line has a broad sync pulse.
pub(crate) fn is_broad(line: &Line) -> bool {
    let fall = line.fall.unwrap_or(0);
    line.rise.unwrap_or(line.length).saturating_sub(fall) >= BROAD
}

//! The points that chains are joined into.

use crate::chains::Chains;
use crate::copies::copy_of;
use crate::source::Source;
use crate::successors::with_numbers;
use crate::{Dimension, fact_along};
use arrayvec::ArrayVec;
use std::alloc::{AllocError, Global};
use uz_schedule::{Fact, Point};

/// What is known of each register all along a box.
fn registers(
    dimension: Dimension,
    first: &[Fact; 32],
    second: &[Fact; 32],
    start: u16,
) -> [Fact; 32] {
    let mut facts = [Fact::Any; 32];
    for r in 0..32usize {
        facts[r] = fact_along(dimension, &first[r], &second[r], start);
    }
    facts
}

/// The fact at a place, or what is known where there is none.
fn fact_at(facts: &[Fact], i: usize) -> Fact {
    match facts.get(i) {
        Some(fact) => *fact,
        None => Fact::Any,
    }
}

/// What is known of each byte of the stack, or of each cell.
fn facts<const CAP: usize>(
    dimension: Dimension,
    first: &[Fact],
    second: &[Fact],
    start: u16,
) -> ArrayVec<Fact, CAP> {
    let mut facts = ArrayVec::new();
    for i in 0..first.len() {
        let _full = facts
            .try_push(fact_along(dimension, &first[i], &fact_at(second, i), start))
            .is_err();
    }
    facts
}

/// The last count of the box of so many points: one for each, where they go on by counts.
fn last_count(dimension: Dimension, count: usize, first: &Point) -> u8 {
    match dimension {
        Dimension::Lines => first.c1,
        Dimension::Counts if count < 2 => first.c1,
        Dimension::Counts => u8::try_from(count - 1).unwrap_or(255),
    }
}

/// The clocks from one count of the box of so many points to the next.
fn slope(dimension: Dimension, count: usize, first: &Point, second: &Point) -> i16 {
    match dimension {
        Dimension::Lines => first.slope,
        Dimension::Counts if count < 2 => first.slope,
        Dimension::Counts => i16::try_from(second.clock.saturating_sub(first.clock)).unwrap_or(0),
    }
}

/// The box of so many points up to a line, of which these are the first and the second one.
fn box_between(
    dimension: Dimension,
    count: usize,
    first: &Point,
    second: &Point,
    line: u16,
    next: ArrayVec<u32, 16>,
) -> Point {
    let start = dimension.start(first);
    Point {
        l1: line,
        c1: last_count(dimension, count, first),
        slope: slope(dimension, count, first, second),
        regs: registers(dimension, &first.regs, &second.regs, start),
        pairs: copy_of(&first.pairs),
        stack: facts(
            dimension,
            first.stack.as_slice(),
            second.stack.as_slice(),
            start,
        ),
        cells: facts(
            dimension,
            first.cells.as_slice(),
            second.cells.as_slice(),
            start,
        ),
        next,
        ..*first
    }
}

/// Where points lead, by the numbers of all points.
fn next_of(source: &Source, ids: &[u32], numbers: &[u32]) -> ArrayVec<u32, 16> {
    let mut next = ArrayVec::new();
    for id in ids {
        let from = source.next(*id);
        next = with_numbers(next, from.as_slice(), numbers);
    }
    next
}

/// The point at a place of a chain.
fn point_at(source: &Source, ids: &[u32], at: usize) -> Option<Point> {
    match ids.get(at) {
        Some(id) => source.point(*id),
        None => None,
    }
}

/// The last line of the last point of a chain.
fn last_line(source: &Source, ids: &[u32]) -> Option<u16> {
    match point_at(source, ids, ids.len().wrapping_sub(1)) {
        Some(last) => Some(last.l1),
        None => None,
    }
}

/// The box of a chain of these points up to a line, of which this is the first one.
fn box_from(
    dimension: Dimension,
    source: &Source,
    ids: &[u32],
    numbers: &[u32],
    first: &Point,
    line: u16,
) -> Option<Point> {
    match point_at(source, ids, usize::from(ids.len() > 1)) {
        Some(second) => Some(box_between(
            dimension,
            ids.len(),
            first,
            &second,
            line,
            next_of(source, ids, numbers),
        )),
        None => None,
    }
}

/// The box of a chain of these points, which leads to points of these numbers. None where they aren't there.
pub(crate) fn box_of(
    dimension: Dimension,
    source: &Source,
    ids: &[u32],
    numbers: &[u32],
) -> Option<Point> {
    let line = last_line(source, ids)?;
    match point_at(source, ids, 0) {
        Some(first) => box_from(dimension, source, ids, numbers, &first, line),
        None => None,
    }
}

/// The boxes of chains, where each point is in one.
pub(crate) fn chain_points(
    alloc: Global,
    dimension: Dimension,
    source: &Source,
    chains: &Chains,
) -> Result<Vec<Point>, AllocError> {
    let mut ids = Vec::new(alloc);
    let mut joined = Vec::new(alloc);
    joined.reserve_exact(chains.count() as usize)?;
    for number in 0..chains.count() {
        chains.put_points(number, &mut ids)?;
        if let Some(point) = box_of(dimension, source, ids.as_slice(), chains.numbers()) {
            joined.push(point)?;
        }
    }
    Ok(joined)
}

//! Points joined line by line, and count by count.

ghost use Rattle.std.specs.Prelude.{◌≡◌, IfOk, None as NoneOf};
ghost use Rattle.uz_join.specs.Same.{SameInstances};

use crate::chains::Chains;
use crate::finding::chains_of;
use crate::replacing::{Joined, replace_chains};
use crate::source::Source;
use crate::successors::{Numbering, cut_to_successors};
use crate::{Dimension, number_at};
use std::alloc::{AllocError, Global};
use uz_schedule::Point;

/// The chains of points along a dimension, each of which leads to at most 16 others. None where there are none, or they were cut too often.
fn chains_along(
    alloc: Global,
    dimension: Dimension,
    points: &[Point],
) -> Result<Option<Chains>, AllocError> {
    let source = Source::of_points(points);
    let mut chains = chains_of(alloc, dimension, &source)?;
    if chains.count() == 0 {
        return Ok(None);
    }
    if cut_to_successors(alloc, Numbering::ByPoints, &source, &mut chains)? {
        Ok(Some(chains))
    } else {
        Ok(None)
    }
}

/// Points joined along a dimension: they say what the points say, and nothing else. Each point is let go when a joined one stands for it.
pub(crate) fn join_along(
    alloc: Global,
    dimension: Dimension,
    points: Vec<Point>,
) -> Result<Joined, AllocError>
    ensures same { IfOk result (λ j. SameInstances points.items j.points.items) }
    ensures stay { IfOk result (λ j. j.numbers ≡ NoneOf → j.points.items ≡ points.items) }
{
    match chains_along(alloc, dimension, points.as_slice())? {
        Some(chains) => replace_chains(alloc, dimension, points, chains),
        None => Ok(Joined {
            points,
            numbers: None,
        }),
    }
}

/// Of each point the number of the one that it is joined into, where those of one list are joined again.
pub(crate) fn joined_numbers(numbers: Vec<u32>, again: &[u32]) -> Vec<u32> {
    let mut numbers = numbers;
    for number in numbers.as_mut_slice() {
        *number = number_at(again, *number);
    }
    numbers
}

/// So where points may have been joined or not, each time.
fn numbers_through(lines: Option<Vec<u32>>, counts: Option<Vec<u32>>) -> Option<Vec<u32>>
    ensures { result ≡ NoneOf → (lines ≡ NoneOf) × (counts ≡ NoneOf) }
{
    match (lines, counts) {
        (Some(lines), Some(counts)) => Some(joined_numbers(lines, counts.as_slice())),
        (Some(lines), None) => Some(lines),
        (None, counts) => counts,
    }
}

/// Points joined line by line, and then count by count: they say what the points say, and nothing else.
pub(crate) fn join_both(alloc: Global, points: Vec<Point>) -> Result<Joined, AllocError>
    ensures same { IfOk result (λ j. SameInstances points.items j.points.items) }
    ensures stay { IfOk result (λ j. j.numbers ≡ NoneOf → j.points.items ≡ points.items) }
{
    let lines = join_along(alloc, Dimension::Lines, points)?;
    let counts = join_along(alloc, Dimension::Counts, lines.points)?;
    Ok(Joined {
        points: counts.points,
        numbers: numbers_through(lines.numbers, counts.numbers),
    })
}

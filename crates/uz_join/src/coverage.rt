//! Whether points say what instances of a search say, and nothing else.

ghost use Rattle.std.specs.Prelude.{◌≡◌, ◌<◌, ◌≤◌, ℕ, IfOk, IfSome, Some, true, length, map, slice_get};
ghost use Rattle.uz_schedule.specs.declared.states.Point.{Point};
ghost use Rattle.uz_join.specs.Coverage.{AreSaid, AreSaidBack, IsOnLine, IsSaid, IsSaidBack, IsSaidOver};
ghost use Rattle.uz_join.specs.Coverage.{SaidAt, SaidPlace, SaysInstances};

use crate::comparing::says;
use crate::numbers::{nones, number_of};
use crate::sameness::{Guide, count_at, offset, starts_of};
use std::alloc::{AllocError, Global};
use std::marker::Model;
use uz_schedule::{Instance, Point, clock_of, is_in_box};

/// Whether a point has a line and a count, and the instance's line and clock there.
fn says_place(point: &Point, at: &Instance, line: u16, count: u8) -> bool
    ensures { result ≡ true → SaidPlace point.now line count at.now }
{
    is_in_box(point, line, count)
        && (at.line == line && i32::from(at.clock) == clock_of(point, count))
}

/// Whether a point says at a line and a count what an instance says.
#[tactic(auto, using(crate::proofs::CoverageLemmas::said))]
fn is_said(point: &Point, at: &Instance, line: u16, count: u8) -> bool
    ensures { result ≡ true → IsSaid point.now line count at.now }
{
    says_place(point, at, line, count) && says(point, at, line, count)
}

/// The count at which the point of a number says what an instance says, where it does.
fn count_of(points: &[Point], number: u32, at: &Instance) -> Option<u8>
    ensures { IfSome result (λ c. SaidAt points.now number c at.now) }
{
    match points.get(number as usize) {
        Some(point) => {
            let count = count_at(point, i32::from(at.clock), 0);
            if is_said(point, at, at.line, count) {
                Some(count)
            } else {
                None
            }
        }
        None => None,
    }
}

/// The number at a place of a list.
fn number_in(numbers: &[u32], i: usize) -> u32
    requires { i < length numbers.now }
    ensures { slice_get numbers.now i ≡ Some result }
{
    numbers[i]
}

/// The instance at a place of a list.
fn node_in(nodes: &[Instance], i: usize) -> &Instance
    requires { i < length nodes.now }
    ensures { slice_get nodes.now i ≡ Some result.now }
{
    &nodes[i]
}

/// The counts at which points say what instances say, each the point of its number; None where one doesn't.
fn counts_of(
    alloc: Global,
    points: &[Point],
    numbers: &[u32],
    nodes: &[Instance],
) -> Result<Option<Vec<u8>>, AllocError>
    requires { length numbers.now ≡ length nodes.now }
    ensures { IfOk result (λ o. IfSome o (λ counts. AreSaid points.now numbers.now counts.items nodes.now)) }
{
    let mut counts = Vec::new(alloc);
    for i in 0..nodes.len() {
        match count_of(points, number_in(numbers, i), node_in(nodes, i)) {
            Some(count) => counts.push(count)?,
            None => return Ok(None),
        }
    }
    Ok(Some(counts))
}

/// Notes an instance at the place of its line and count in the box of its point.
fn note(guide: &mut Guide, points: &[Point], number: u32, id: u32, at: &Instance, count: u8) {
    if let Some(point) = points.get(number as usize) {
        if let Some(start) = guide.starts.get(number as usize) {
            let place = start.saturating_add(offset(point, at.line, count));
            if let Some(slot) = guide.numbers.get_mut(place as usize) {
                *slot = id;
            }
        }
    }
}

/// From the lines and counts of points back to the instances.
fn back(
    alloc: Global,
    points: &[Point],
    numbers: &[u32],
    counts: &[u8],
    nodes: &[Instance],
) -> Result<Guide, AllocError> {
    let (starts, count) = starts_of(alloc, points)?;
    let mut guide = Guide {
        starts,
        numbers: nones(alloc, count)?,
    };
    for (i, at) in nodes.iter().enumerate() {
        if let (Some(number), Some(count)) = (numbers.get(i), counts.get(i)) {
            note(&mut guide, points, *number, number_of(i), at, *count);
        }
    }
    Ok(guide)
}

/// Whether the number at a place of a list is this one.
fn has_number(numbers: &[u32], i: usize, number: usize) -> bool
    ensures { result ≡ true → slice_get numbers.now i ≡ Some number }
{
    match numbers.get(i) {
        Some(of) => *of as usize == number,
        None => false,
    }
}

/// Whether the count at a place of a list is this one.
fn has_count(counts: &[u8], i: usize, count: u8) -> bool
    ensures { result ≡ true → slice_get counts.now i ≡ Some count }
{
    match counts.get(i) {
        Some(of) => *of == count,
        None => false,
    }
}

/// Whether the instance at a place of a list stands on this line.
fn is_on_line(nodes: &[Instance], i: usize, line: u16) -> bool
    ensures { result ≡ true → IsOnLine nodes.now i line }
{
    match nodes.get(i) {
        Some(at) => at.line == line,
        None => false,
    }
}

/// Points that say what instances say.
///
/// A clause sees the points and the instances.
#[derive(Drop)]
struct Coverage<'a> {
    points: &'a [Point],
    nodes: &'a [Instance],
    /// Of each instance the number of the point that says it.
    numbers: &'a [u32],
    /// And the count at which it does.
    counts: &'a [u8],
    /// From the lines and counts of points back to the instances, of which nothing is believed.
    guide: Guide,
}

impl<'a> Model for Coverage<'a> {
    ghost use Rattle.uz_join.specs.Coverage.{AreSaid, Coverage};

    ghost Value = { Coverage };

    ghost view = { λ t. record { points = t.points.now; nodes = t.nodes.now } };

    ghost invariant = { λ t. AreSaid t.points.now t.numbers.now t.counts.now t.nodes.now };
}

impl Coverage<'_> {
    /// Whether the instance at a place is what the point of a number says at a line and a count.
    fn is_noted(&self, i: usize, number: usize, line: u16, count: u8) -> bool
        ensures { result ≡ true → (q : Point) → slice_get self.now.points number ≡ Some q → IsSaidBack self.now.nodes q line count }
    {
        has_number(self.numbers, i, number)
            && (has_count(self.counts, i, count) && is_on_line(self.nodes, i, line))
    }

    /// Whether each count on a line of a point, whose number this is, is of an instance.
    fn has_counts(&self, number: usize, point: &Point, line: u16) -> bool
        requires { slice_get self.now.points number ≡ Some point.now }
        ensures { result ≡ true → (c : ℕ) → point.now.c0 ≤ c → c ≤ point.now.c1 → IsSaidBack self.now.nodes point.now line c }
    {
        for count in u16::from(point.c0)..u16::from(point.c1) + 1 {
            let i = self
                .guide
                .number(number_of(number), point, line, count as u8) as usize;
            if !self.is_noted(i, number, line, count as u8) {
                return false;
            }
        }
        true
    }

    /// Whether each line and count of a point, whose number this is, is of an instance.
    fn has_lines(&self, number: usize, point: &Point) -> bool
        requires { slice_get self.now.points number ≡ Some point.now }
        ensures { result ≡ true → IsSaidOver self.now.nodes point.now }
    {
        for line in u32::from(point.l0)..u32::from(point.l1) + 1 {
            if !self.has_counts(number, point, line as u16) {
                return false;
            }
        }
        true
    }

    /// Whether each line and count of the points is of an instance.
    fn has_all(&self) -> bool
        ensures { result ≡ true → AreSaidBack self.now.nodes self.now.points }
    {
        for i in 0..self.points.len() {
            if !self.has_lines(i, &self.points[i]) {
                return false;
            }
        }
        true
    }
}

/// Whether points say what instances say, and nothing else, where of each instance the number of its point is known.
pub fn say_instances(
    alloc: Global,
    points: &[Point],
    numbers: &[u32],
    nodes: &[Instance],
) -> Result<bool, AllocError>
    ensures { IfOk result (λ same. same ≡ true → SaysInstances nodes.now points.now) }
{
    if numbers.len() != nodes.len() {
        return Ok(false);
    }
    let counts = match counts_of(alloc, points, numbers, nodes)? {
        Some(counts) => counts,
        None => return Ok(false),
    };
    let coverage = Coverage {
        points,
        nodes,
        numbers,
        counts: counts.as_slice(),
        guide: back(alloc, points, numbers, counts.as_slice(), nodes)?,
    };
    Ok(coverage.has_all())
}

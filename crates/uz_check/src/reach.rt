//! What is asked of a point whatever the line.

ghost use Rattle.std.specs.Prelude.{◌≡◌, ◌<◌, ◌≤◌, length, slice_get, Some};
ghost use Rattle.uz_schedule.specs.Limits.{ScheduleFits};
ghost use Rattle.uz_schedule.specs.declared.states.Point.{Point};
ghost use Rattle.uz_check.specs.ImpliedLines.{HoldTo, IsReach};

use crate::facts::is_plain;
use uz_schedule::{Cert, Point};

/// What is asked of a point whatever the line.
#[derive(Clone, Copy)]
pub struct Reach {
    /// Whether no fact of the point and of its named successors is `Line`.
    pub plain: bool,
    /// The first of the lines that are in the box of every named successor.
    pub first: u16,
    /// The last of them. Where it is below `first` there is none.
    pub last: u16,
}

/// A range of lines, cut down to those in the box of the point of this number, where there is one.
fn cut(cert: &Cert, id: u32, first: u16, last: u16) -> (u16, u16)
    ensures first { first ≤ result.0 }
    ensures last { result.1 ≤ last }
    ensures there { (q : Point) → slice_get cert.now.points id ≡ Some q → (q.l0 ≤ result.0) × (result.1 ≤ q.l1) }
{
    match cert.points.as_slice().get(id as usize) {
        Some(point) => (first.max(point.l0), last.min(point.l1)),
        None => (first, last),
    }
}

/// The lines in the box of each of these points, none of them above `end`.
fn lines_of_all(cert: &Cert, ids: &[u32], end: u16) -> (u16, u16)
    ensures last { result.1 ≤ end }
    ensures boxes { HoldTo cert.now ids.now result.0 result.1 (length ids.now) }
{
    let mut first = 0;
    let mut last = end;
    'each: for id in ids {
        (first, last) = cut(cert, *id, first, last);
    }
    (first, last)
}

/// What is asked of a point whatever the line. No memory.
pub fn reach_of(cert: &Cert, point: &Point) -> Reach
    requires { ScheduleFits cert.now.schedule }
    ensures { IsReach cert.now point.now result }
{
    let end = (cert.schedule.lines.len() - 1) as u16;
    let (first, last) = lines_of_all(cert, point.next.as_slice(), end);
    Reach {
        plain: is_plain(cert, point),
        first,
        last,
    }
}

//! Which lines the boxes of a point's named successors hold alike.

ghost use Rattle.std.specs.Prelude.{◌≡◌, ◌<◌, ◌&&◌, length, slice_get};
ghost use Rattle.uz_schedule.specs.Limits.{ScheduleFits};
ghost use Rattle.uz_schedule.specs.Schedule.{next_line};
ghost use Rattle.uz_rules.specs.Inside.{same_bool};
ghost use Rattle.uz_check.specs.Folding.{is_on_line as on_line, is_even as even, boxes_even as all_even};

use uz_schedule::{Cert, Point};

/// Whether a line is in a point's box.
fn is_on_line(point: &Point, line: u16) -> bool
    ensures { result ≡ on_line point.now line }
{
    point.l0 <= line && line <= point.l1
}

/// Whether a point's box holds all of three lines or none.
fn is_even(point: &Point, line: u16, next: u16, after: u16) -> bool
    ensures { result ≡ (same_bool (on_line point.now line) (on_line point.now next) && same_bool (on_line point.now line)
        (on_line point.now after)) }
{
    let here = is_on_line(point, line);
    here == is_on_line(point, next) && here == is_on_line(point, after)
}

/// Whether the box of the point of this number does, which is so where there is no such point.
fn is_even_there(cert: &Cert, id: u32, line: u16, next: u16, after: u16) -> bool
    requires next { next ≡ next_line cert.now.schedule line }
    requires after { after ≡ next_line cert.now.schedule next }
    ensures { result ≡ even cert.now.schedule line (slice_get cert.now.points id) }
{
    match cert.points.as_slice().get(id as usize) {
        Some(point) => is_even(point, line, next, after),
        None => true,
    }
}

/// Whether the box of each of a point's named successors holds a line and the two that follow it, or none of them.
pub(crate) fn boxes_even(cert: &Cert, point: &Point, line: u16) -> bool
    requires fits { ScheduleFits cert.now.schedule }
    requires line { line < length cert.now.schedule.lines }
    ensures { result ≡ all_even cert.now point.now line }
{
    let next = cert.schedule.next(line);
    let after = cert.schedule.next(next);
    'each: for id in point.next.as_slice() {
        if !is_even_there(cert, *id, line, next, after) {
            return false;
        }
    }
    true
}

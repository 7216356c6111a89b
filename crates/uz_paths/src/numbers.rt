//! The numbers of the points of instances: first the vectors', one for each rest, then one for each other instance in the order in which
//! it was found.

ghost use Rattle.std.specs.Prelude.{◌≡◌, ◌<◌, ◌≤◌, ◌+◌, ◌^◌, [], ℕ, IfOk, length, slice_get, Some};
ghost use Rattle.uz_schedule.specs.Limits.{most_lines};
ghost use Rattle.uz_schedule.specs.Lines.{order_of};
ghost use Rattle.uz_schedule.specs.Schedule.{response_clocks};
ghost use Rattle.uz_schedule.specs.declared.states.Rest.{Rest};
ghost use Rattle.uz_paths.specs.Linked.{ArePoints};
ghost use Rattle.uz_paths.specs.Numbers.{AreNumbers};
ghost use Rattle.uz_paths.specs.Plan.{AreCounted};
ghost use Rattle.uz_join.specs.Points.{AreOrdered, vector_after as vector_for};

use crate::vectors::vector_of;
use arrayvec::ArrayVec;
use std::alloc::{AllocError, Global};
use uz_join::vector_point;
use uz_schedule::{Instance, Point, Response, Rest, Schedule};
use uz_search::last_clock;

/// The numbers of points.
#[derive(Drop)]
pub(crate) struct Numbers {
    /// Of each instance's point, by the place of the instance.
    pub of: Vec<u32>,
    /// How many points there are.
    pub count: u32,
}

/// The vector's point of a rest, without successors.
fn bare_vector(response: Response, schedule: &Schedule, rest: &Rest) -> Point
    requires few { length schedule.now.lines ≤ most_lines }
    requires line { rest.now.line < length schedule.now.lines }
    ensures is { result ≡ vector_for (response_clocks response) (order_of schedule.now) rest.now [] }
    ensures ordered { AreOrdered 255 rest.now.cells.items }
{
    vector_point(
        &rest.cells,
        schedule.next(rest.line),
        response.clocks(),
        last_clock(schedule, rest.line),
        ArrayVec::new(),
    )
}

/// The points of the rests' vectors, without successors.
pub(crate) fn vectors_of(
    alloc: Global,
    response: Response,
    schedule: &Schedule,
    rests: &[Rest],
) -> Result<Vec<Point>, AllocError>
    requires lines { length schedule.now.lines ≤ most_lines }
    requires line { (k : ℕ) (rest : Rest) → slice_get rests.now k ≡ Some rest → rest.line < length schedule.now.lines }
    ensures { IfOk result (λ points. ArePoints (response_clocks response) (order_of schedule.now) rests.now [] []
        (length rests.now) points.items) }
{
    let mut points = Vec::new(alloc);
    for rest in rests {
        points.push(bare_vector(response, schedule, rest))?;
    }
    Ok(points)
}

/// The numbers of the points of instances: of a rest's vector, or on from the vectors in the order in which they were found.
pub(crate) fn numbers_of(
    alloc: Global,
    response: Response,
    schedule: &Schedule,
    rests: &[Rest],
    nodes: &[Instance],
) -> Result<Numbers, AllocError>
    requires few { length rests.now + length nodes.now < 2 ^ 32 }
    requires lines { length schedule.now.lines ≤ most_lines }
    requires line { (k : ℕ) (rest : Rest) → slice_get rests.now k ≡ Some rest → rest.line < length schedule.now.lines }
    ensures numbers { IfOk result (λ r. AreNumbers (response_clocks response) (order_of schedule.now) rests.now nodes.now
        r.of.items r.count) }
    ensures counted { IfOk result (λ r. AreCounted (response_clocks response) (order_of schedule.now) rests.now nodes.now r.of.items) }
{
    let mut of = Vec::new(alloc);
    let mut count = rests.len() as u32;
    for at in nodes {
        let own = count;
        let number = match vector_of(response, schedule, rests, at) {
            Some(k) => k,
            None => {
                count += 1;
                own
            }
        };
        of.push(number)?;
    }
    Ok(Numbers { of, count })
}

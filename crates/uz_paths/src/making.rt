//! Points made of instances, each of which is let go when its point is there.

ghost use Rattle.std.specs.Prelude.{◌≡◌, ◌<◌, ◌≤◌, ◌++◌, ◌∷◌, [], ℕ, List, IfOk, OnOk, length};
ghost use Rattle.uz_paths.specs.Lists.{HasListAt, IsListAt};
ghost use Rattle.uz_paths.specs.Plan.{ByAnyPlan, HavePoints};
ghost use Rattle.uz_join.specs.Points.{IsOrdered, point_of as point_for};

use crate::linking::Plan;
use crate::lists::{Lists, list_at};
use indexmap::IndexSet;
use std::alloc::AllocError;
use uz_join::point_of;
use uz_schedule::{Instance, Point, Rest};

/// How often memory is given back while instances are let go: each time costs as much as there are instances left.
const TIMES: usize = 128;

/// Gives back the memory of instances that are let go, after every so many.
fn give_back(nodes: &mut IndexSet<Instance>, every: usize)
    requires { 0 < every }
    ensures { nodes.new.keys ≡ nodes.old.keys }
{
    if nodes.len() % every == 0 {
        nodes.shrink_to_fit();
    }
}

/// Takes the last instance.
fn take_last(nodes: &mut IndexSet<Instance>, every: usize) -> Instance
    requires some { 0 < length nodes.old.keys }
    requires often { 0 < every }
    ensures { nodes.old.keys ≡ nodes.new.keys ++ result ∷ [] }
{
    let at = nodes.pop().unwrap();
    give_back(nodes, every);
    at
}

/// Puts the point of an instance behind others, where it has one of its own.
fn put_point(
    rests: &[Rest],
    links: &Lists,
    i: usize,
    number: u32,
    at: &Instance,
    points: &mut Vec<Point>,
) -> Result<(), AllocError>
    requires { HasListAt links.now i }
    ensures own { length rests.now ≤ number → OnOk result ((list : List ℕ) → IsListAt links.now i list
        → points.new.items ≡ points.old.items ++ point_for at.now list ∷ []) }
    ensures vector { number < length rests.now → points.new.items ≡ points.old.items }
    ensures ordered { length rests.now ≤ number → IsOrdered at.now }
{
    if (number as usize) < rests.len() {
        return Ok(());
    }
    points.push(point_of(at, list_at(links, i)))?;
    Ok(())
}

/// Puts the points of instances behind those of the vectors, by their numbers and where each leads, and lets each instance go.
fn put_points(
    rests: &[Rest],
    numbers: &[u32],
    links: &Lists,
    nodes: &mut IndexSet<Instance>,
    points: &mut Vec<Point>,
) -> Result<(), AllocError>
    requires lengths { length numbers.now ≡ length nodes.old.keys }
    requires linked { (i : ℕ) → i < length nodes.old.keys → HasListAt links.now i }
    ensures { OnOk result (ByAnyPlan rests.now nodes.old.keys numbers.now links.now points.old.items
        (λ image p s count. HavePoints image p s rests.now nodes.old.keys numbers.now count points.new.items)) }
{
    let every = numbers.len() / TIMES + 1;
    nodes.reverse();
    for (i, number) in numbers.iter().enumerate() {
        let at = take_last(nodes, every);
        put_point(rests, links, i, *number, &at, points)?;
    }
    Ok(())
}

/// The points of instances, by their plan.
pub(crate) fn points_of(
    rests: &[Rest],
    nodes: IndexSet<Instance>,
    plan: Plan,
) -> Result<Vec<Point>, AllocError>
    requires lengths { length plan.numbers.items ≡ length nodes.keys }
    requires linked { (i : ℕ) → i < length nodes.keys → HasListAt plan.links i }
    ensures { IfOk result (λ points. ByAnyPlan rests.now nodes.keys plan.numbers.items plan.links plan.points.items
        (λ image p s count. HavePoints image p s rests.now nodes.keys plan.numbers.items (length points.items) points.items)) }
{
    let Plan {
        numbers,
        links,
        mut points,
        ..
    } = plan;
    let mut left = nodes;
    if let Err(AllocError) = points.reserve_exact(numbers.len()) {
        drop(left);
        drop(numbers);
        drop(links);
        drop(points);
        return Err(AllocError);
    }
    let put = put_points(rests, numbers.as_slice(), &links, &mut left, &mut points);
    drop(left);
    drop(numbers);
    drop(links);
    match put {
        Ok(()) => Ok(points),
        Err(AllocError) => {
            drop(points);
            Err(AllocError)
        }
    }
}

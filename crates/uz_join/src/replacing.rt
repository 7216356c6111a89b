//! Points of which some are joined: a box stands for these, which are let go.

ghost use Rattle.std.specs.Prelude.{◌≡◌, ◌≤◌, ◌+◌, ◌++◌, ℕ, List, [], true, IfOk, IfSome, IsNone, IsSome, OnOk, length, option_to_list};
ghost use Rattle.uz_schedule.specs.declared.states.Point.{Point as PointType};
ghost use Rattle.uz_join.specs.Same.{IsWhollyTold, SameInstances};
ghost use Rattle.uz_join.specs.Replacing.{AreSoFar, IsPut};

use crate::boxes::box_of;
use crate::chains::Chains;
use crate::source::Source;
use crate::successors::with_numbers;
use crate::{Dimension, Guide, NONE, is_wholly_told, number_at, number_of};
use arrayvec::ArrayVec;
use std::alloc::{AllocError, Global};
use uz_schedule::Point;

/// How often memory is given back while points are let go.
const TIMES: usize = 1024;

/// Points that are joined.
#[derive(Drop)]
pub(crate) struct Joined {
    /// The joined points.
    pub(crate) points: Vec<Point>,
    /// Of each point the number of the one that it is joined into. None where all are as they were.
    pub(crate) numbers: Option<Vec<u32>>,
}

/// How points are joined.
#[derive(Drop)]
struct Plan {
    /// Along which dimension.
    dimension: Dimension,
    /// Into which boxes: one for each chain, numbered in the order of the least numbers of their points.
    chains: Chains,
    /// Of each point the number of the one that it is joined into.
    into: Guide,
    /// How many points there are.
    count: usize,
}

/// What is used again for each box.
#[derive(Drop)]
struct Room {
    /// The numbers of its points.
    ids: Vec<u32>,
    /// Where each of its lines and counts is said.
    guide: Guide,
}

/// Points on their way: each goes from those that are left to the joined ones, or is let go.
#[derive(Drop)]
pub(crate) struct Replacing {
    /// The points that are left, the next one last.
    left: Vec<Point>,
    /// How many boxes are among the joined ones.
    begun: u32,
    /// The joined ones.
    joined: Vec<Point>,
}

/// Gives back the memory of points that are let go, after every so many.
fn give_back(left: &mut Vec<Point>, every: usize)
    ensures { left.new.items ≡ left.old.items }
{
    if left.len().checked_rem(every) == Some(0) {
        left.shrink_to_fit();
    }
}

/// Notes where each line and count of a box is said by the points that it stands for.
fn note_points(source: &Source, room: &mut Room, point: &Point) -> Result<(), AllocError> {
    room.guide.begin(point)?;
    for id in room.ids.as_slice() {
        let place = source.made_place(*id);
        if let Some(said) = source.made.get(place) {
            room.guide.note(point, number_of(place), said);
        }
    }
    Ok(())
}

/// The box of a chain whose points are left. None where it says what those don't say.
fn box_for(
    plan: &Plan,
    left: &[Point],
    room: &mut Room,
    number: u32,
) -> Result<Option<Point>, AllocError>
    ensures { IfOk result (λ o. IfSome o (IsWhollyTold left.now)) }
{
    let source = Source::of_left(left, plan.count);
    plan.chains.put_points(number, &mut room.ids)?;
    let point = match box_of(
        plan.dimension,
        &source,
        room.ids.as_slice(),
        plan.into.numbers(),
    ) {
        Some(point) => point,
        None => return Ok(None),
    };
    note_points(&source, room, &point)?;
    if is_wholly_told(&room.guide, left, 0, &point) {
        Ok(Some(point))
    } else {
        Ok(None)
    }
}

impl Replacing {
    /// Points of which all are left; so many are joined ones in the end.
    fn new(alloc: Global, points: Vec<Point>, joined: u32) -> Result<Replacing, AllocError>
        ensures { IfOk result (AreSoFar points.items 0) }
    {
        let mut room = Vec::new(alloc);
        room.reserve_exact(joined as usize)?;
        let mut left = points;
        left.reverse();
        Ok(Replacing {
            left,
            begun: 0,
            joined: room,
        })
    }

    /// The next one of the joined points is the box of a chain, where the points that are left say all that it says.
    fn begin_box(&mut self, plan: &Plan, room: &mut Room, number: u32) -> Result<(), AllocError>
        ensures { OnOk result ((points : List PointType) (i : ℕ) → AreSoFar points i self.old → AreSoFar points i self.new) }
    {
        match box_for(plan, self.left.as_slice(), room, number)? {
            Some(point) => {
                self.joined.push(point)?;
                self.begun = self.begun.saturating_add(1);
                Ok(())
            }
            None => {
                self.begun = self.begun.saturating_add(1);
                Ok(())
            }
        }
    }

    /// So it is where that chain's box is the next one that begins.
    fn begin(&mut self, plan: &Plan, room: &mut Room, number: u32) -> Result<(), AllocError>
        ensures { OnOk result ((points : List PointType) (i : ℕ) → AreSoFar points i self.old → AreSoFar points i self.new) }
    {
        if number == self.begun {
            self.begin_box(plan, room, number)
        } else {
            Ok(())
        }
    }

    /// Takes the next point.
    fn take(&mut self, every: usize) -> Option<Point>
        ensures left { self.old.left.items ≡ self.new.left.items ++ option_to_list result }
        ensures none { IsNone result → self.old.left.items ≡ [] }
        ensures joined { self.new.joined.items ≡ self.old.joined.items }
    {
        give_back(&mut self.left, every);
        self.left.pop()
    }

    /// Keeps a point: it is the next one of the joined points, with the numbers that its successors have among those.
    fn keep(&mut self, into: &[u32], point: Point) -> Result<(), AllocError>
        ensures put { OnOk result (IsPut self.old.joined.items self.new.joined.items point) }
        ensures left { OnOk result (self.new.left.items ≡ self.old.left.items) }
    {
        let mut point = point;
        point.next = with_numbers(ArrayVec::new(), point.next.as_slice(), into);
        self.joined.push(point)?;
        Ok(())
    }

    /// Whether a box has a point's number and all that the point says is said.
    fn is_said(&self, plan: &Plan, number: u32, id: u32, point: &Point) -> bool
        ensures { result ≡ true → IsWhollyTold self.now.joined.items point.now }
    {
        number != NONE && is_wholly_told(&plan.into, self.joined.as_slice(), id, point)
    }

    /// Lets the next point go where a box has its number and all that the point says is said, and else keeps it.
    fn pass(
        &mut self,
        plan: &Plan,
        every: usize,
        room: &mut Room,
        id: u32,
    ) -> Result<(), AllocError>
        ensures { OnOk result ((points : List PointType) (i : ℕ) → AreSoFar points i self.old → AreSoFar points (i + 1) self.new) }
    {
        let number = number_at(plan.chains.numbers(), id);
        self.begin(plan, room, number)?;
        let point = match self.take(every) {
            Some(point) => point,
            None => return Ok(()),
        };
        if self.is_said(plan, number, id, &point) {
            return Ok(());
        }
        self.keep(plan.into.numbers(), point)?;
        Ok(())
    }
}

/// The joined points of a plan.
fn join_by(
    alloc: Global,
    points: Vec<Point>,
    plan: &Plan,
    joined: u32,
) -> Result<Vec<Point>, AllocError>
    requires { length points.items ≤ plan.now.count }
    ensures { IfOk result (λ joined. SameInstances points.items joined.items) }
{
    let every = points.len() / TIMES + 1;
    let mut room = Room {
        ids: Vec::new(alloc),
        guide: Guide::by_numbers(alloc, Vec::new(alloc)),
    };
    let mut replacing = Replacing::new(alloc, points, joined)?;
    for i in 0..plan.count {
        replacing.pass(plan, every, &mut room, number_of(i))?;
    }
    let Replacing { joined, .. } = replacing;
    Ok(joined)
}

/// Points with a box in place of those of each chain. Each point is let go when a box stands for it. Where a chain's points don't say what
/// its box would, or the joined points don't say what one of them says, the points are kept; where others lead may be wrong then.
pub(crate) fn replace_chains(
    alloc: Global,
    dimension: Dimension,
    points: Vec<Point>,
    chains: Chains,
) -> Result<Joined, AllocError>
    ensures same { IfOk result (λ j. SameInstances points.items j.points.items) }
    ensures numbered { IfOk result (λ j. IsSome j.numbers) }
{
    let (into, joined) = chains.joined_numbers(alloc)?;
    let plan = Plan {
        dimension,
        chains,
        into: Guide::by_numbers(alloc, into),
        count: points.len(),
    };
    let points = join_by(alloc, points, &plan, joined)?;
    let Plan { into, .. } = plan;
    Ok(Joined {
        points,
        numbers: Some(into.into_numbers()),
    })
}

//! The points into which the instances of a search are joined: none is made of each instance before.

ghost use Rattle.std.specs.Prelude.{◌≡◌, IfOk, IfSome};
ghost use Rattle.uz_join.specs.Coverage.{SaysInstances};

use crate::boxes::chain_points;
use crate::finding::chains_of;
use crate::joining::{join_along, joined_numbers};
use crate::source::Source;
use crate::successors::{Numbering, cut_to_successors, with_number};
use crate::{Dimension, say_instances};
use std::alloc::{AllocError, Global};
use uz_schedule::{Instance, Point};

/// So many points are made beside the instances however few those are.
const FEW: usize = 4096;

/// And of more one for so many instances.
const SHARE: usize = 8;

/// The points into which instances are joined.
#[derive(Drop)]
pub struct JoinedNodes {
    /// The points.
    pub points: Vec<Point>,
    /// Of each instance the number of the point that says it.
    pub numbers: Vec<u32>,
    /// Of each point that was there before the number of the one that it is joined into.
    pub into: Vec<u32>,
}

/// Puts the numbers of the points where an instance leads among the successors of a made point that stands for it.
fn put_next(source: &Source, place: usize, point: &mut Point) {
    let ids = source.next_of_node(place);
    for id in ids.as_slice() {
        if let Some(next) = with_number(&point.next, *id) {
            point.next = next;
        }
    }
}

/// Puts the numbers of the points where instances lead among the successors of the made points that stand for them.
fn put_successors(
    made: &mut [Point],
    nodes: &[Instance],
    numbers: &[u32],
    starts: &[u32],
    places: &[u32],
) {
    let source = Source::new(&[], nodes, numbers, starts, places);
    for (place, number) in numbers.iter().enumerate() {
        if let Some(point) = made.get_mut(*number as usize) {
            put_next(&source, place, point);
        }
    }
}

/// Whether it pays to join instances: so many points come of so many instances, and are there beside them.
fn pays(points: usize, instances: usize) -> bool {
    points < instances && (points <= FEW || points <= instances / SHARE)
}

/// Points and of each of the others the number of the one that it is joined into, where these are joined again count by count.
fn join_again(
    alloc: Global,
    points: Vec<Point>,
    numbers: Vec<u32>,
) -> Result<(Vec<Point>, Vec<u32>), AllocError> {
    let joined = join_along(alloc, Dimension::Counts, points)?;
    let numbers = match &joined.numbers {
        Some(again) => joined_numbers(numbers, again.as_slice()),
        None => numbers,
    };
    Ok((joined.points, numbers))
}

/// The points into which those of a source are joined, and of each of those its number. None where there are none to join line by line, or
/// so few that the points would be too many beside the instances.
fn joined_source(
    alloc: Global,
    source: &Source,
) -> Result<Option<(Vec<Point>, Vec<u32>)>, AllocError> {
    let mut chains = chains_of(alloc, Dimension::Lines, source)?;
    if pays(chains.count_with_others(source), source.points()) {
        chains.begin_others(source)?;
        if cut_to_successors(alloc, Numbering::ByLines, source, &mut chains)? {
            let points = chain_points(alloc, Dimension::Lines, source, &chains)?;
            let joined = join_again(alloc, points, chains.into_numbers())?;
            return Ok(Some(joined));
        }
    }
    Ok(None)
}

/// The points into which the points of instances are joined, and of each of those its number. None where there are none to join line by
/// line, or so few that the points would be too many beside the instances.
fn joined_points(
    alloc: Global,
    made: Vec<Point>,
    nodes: &[Instance],
    numbers: &[u32],
    starts: &[u32],
    places: &[u32],
) -> Result<Option<(Vec<Point>, Vec<u32>)>, AllocError> {
    let mut made = made;
    put_successors(made.as_mut_slice(), nodes, numbers, starts, places);
    joined_source(
        alloc,
        &Source::new(made.as_slice(), nodes, numbers, starts, places),
    )
}

/// The points into which instances of a search are joined, line by line and then count by count: they say what the
/// instances say, and nothing else. None where there are none to join line by line, or so few that the points would be too many beside the
/// instances.
///
/// `made` are points that each stand for some of the instances, without successors; `numbers` has of each instance the number of
/// its point, the made ones first and then one for each place; `places` the places of the instances where each one leads, part
/// after part, and `starts` where its part begins. Of these nothing is believed: what they say decides only what is joined.
pub fn joined_nodes(
    alloc: Global,
    made: Vec<Point>,
    nodes: &[Instance],
    numbers: Vec<u32>,
    starts: &[u32],
    places: &[u32],
) -> Result<Option<JoinedNodes>, AllocError>
    ensures { IfOk result (λ o. IfSome o (λ j. SaysInstances nodes.now j.points.items)) }
{
    match joined_points(alloc, made, nodes, numbers.as_slice(), starts, places)? {
        Some((points, into)) => {
            let joined = JoinedNodes {
                points,
                numbers: joined_numbers(numbers, into.as_slice()),
                into,
            };
            if say_instances(
                alloc,
                joined.points.as_slice(),
                joined.numbers.as_slice(),
                nodes,
            )? {
                Ok(Some(joined))
            } else {
                Ok(None)
            }
        }
        None => Ok(None),
    }
}

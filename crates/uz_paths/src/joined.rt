//! The certificate of an ended search whose points are joined, with no point made of each instance.

ghost use Rattle.std.specs.Prelude.{◌≡◌, ◌<◌, ◌≤◌, ◌^◌, IfOk, IfErr, IfSome, length, slice_get, Some, ℕ};
ghost use Rattle.uz_schedule.specs.Limits.{most_lines};
ghost use Rattle.uz_schedule.specs.WellFormed.{WellFormed};
ghost use Rattle.uz_schedule.specs.declared.states.Rest.{Rest};
ghost use Rattle.uz_check.specs.Acceptance.{Accepts};
ghost use Rattle.uz_search.specs.Fitting.{ProgramFits};
ghost use Rattle.uz_search.specs.Searching.{IsEnded};
ghost use Rattle.uz_join.specs.Joined.{entry_unnumbered};
ghost use Rattle.uz_join.specs.Coverage.{SaysInstances};
ghost use Rattle.uz_paths.specs.Finding.{IsFoundBy};
ghost use Rattle.uz_paths.specs.JoinedParts.{AreJoinedOf, joined_cert};
ghost use Rattle.uz_paths.specs.Rests.{rests_of as rests_of_returns};

use crate::certificate::{made_schedule, take_head, with_id};
use crate::numbers::vectors_of;
use crate::rests::rests_of;
use crate::splits::split_points;
use crate::vectors::vector_of;
use std::alloc::{AllocError, Global};
use std::mem::swap;
use uz_hex::Image;
use uz_join::{JoinedNodes, entry_of, joined_nodes, passes, rests_of as rests_into};
use uz_schedule::{Cert, Entry, Instance, Point, Response, Rest, Schedule, Sequence, entry_state};
use uz_search::{Found, Program, nodes_are_reached};

/// What a search makes of a certificate whose points are joined.
#[derive(Drop)]
pub(crate) struct JoinedParts {
    /// The events of each line.
    pub schedule: Schedule,
    /// Where the handler returns.
    pub rests: Sequence<Rest>,
    /// Where runs enter.
    pub entry: Entry,
    /// The points.
    pub points: Vec<Point>,
}

/// The word address of the vector of timer 1's compare match A (ATmega644 data sheet).
const VECTOR: u16 = 26;

/// The number of the point of the instance at a place: that of a rest's vector, or its own behind all vectors.
fn number_of(
    response: Response,
    schedule: &Schedule,
    rests: &[Rest],
    place: usize,
    at: &Instance,
) -> u32
    requires few { length rests.now < 2 ^ 32 }
    requires lines { length schedule.now.lines ≤ most_lines }
    requires line { (k : ℕ) (rest : Rest) → slice_get rests.now k ≡ Some rest → rest.line < length schedule.now.lines }
{
    let own = u32::try_from(rests.len().saturating_add(place)).unwrap_or(u32::MAX);
    if at.pc != VECTOR {
        return own;
    }
    match vector_of(response, schedule, rests, at) {
        Some(k) => k,
        None => own,
    }
}

/// The numbers of the points of instances.
fn numbers_of(
    alloc: Global,
    response: Response,
    schedule: &Schedule,
    rests: &[Rest],
    nodes: &[Instance],
) -> Result<Vec<u32>, AllocError>
    requires few { length rests.now < 2 ^ 32 }
    requires lines { length schedule.now.lines ≤ most_lines }
    requires line { (k : ℕ) (rest : Rest) → slice_get rests.now k ≡ Some rest → rest.line < length schedule.now.lines }
{
    let mut numbers = Vec::new(alloc);
    for (place, at) in nodes.iter().enumerate() {
        numbers.push(number_of(response, schedule, rests, place, at))?;
    }
    Ok(numbers)
}

/// The number of the point of the instance in which runs enter, by the numbers of all.
fn entry_number(found: &Found, entry: &Entry, numbers: &[u32]) -> u32 {
    match found.nodes.get_index_of(&entry_state(entry, 1)) {
        Some(place) => match numbers.get(place) {
            Some(number) => *number,
            None => 0,
        },
        None => 0,
    }
}

/// An entry whose point has a number.
fn entry_at(entry: &Entry, id: u32) -> Entry
    ensures { entry_unnumbered result ≡ entry_unnumbered entry.now }
{
    with_id(entry_of(entry, &[]), id)
}

/// The points into which the instances that a search has found are joined. None where there are none to join line by
/// line.
fn joined_points(
    alloc: Global,
    program: &Program,
    found: &Found,
    rests: &[Rest],
) -> Result<Option<JoinedNodes>, AllocError>
    requires few { length rests.now < 2 ^ 32 }
    requires lines { length program.now.schedule.lines ≤ most_lines }
    requires line { (k : ℕ) (rest : Rest) → slice_get rests.now k ≡ Some rest
        → rest.line < length program.now.schedule.lines }
    ensures { IfOk result (λ o. IfSome o (λ j. SaysInstances found.now.nodes.keys j.points.items)) }
{
    let numbers = numbers_of(
        alloc,
        program.head.irq,
        &program.schedule,
        rests,
        found.nodes.as_slice(),
    )?;
    let vectors = vectors_of(alloc, program.head.irq, &program.schedule, rests)?;
    joined_nodes(
        alloc,
        vectors,
        found.nodes.as_slice(),
        numbers,
        found.successors.starts(),
        found.successors.places(),
    )
}

/// The joined points. All else is let go.
fn points_in(joined: JoinedNodes) -> Vec<Point>
    ensures { result ≡ joined.points }
{
    let JoinedNodes { points, .. } = joined;
    points
}

/// The parts of the certificate of what a search has found, whose rests are these and whose points are joined so.
fn parts_with(
    alloc: Global,
    image: &Image,
    program: &Program,
    entry: &Entry,
    found: &Found,
    rests: &[Rest],
    joined: JoinedNodes,
) -> Result<JoinedParts, AllocError>
    requires fits { ProgramFits program.now }
    requires ended { IsEnded image.now program.now found.now }
    requires rests { rests.now ≡ rests_of_returns found.now.returns.items }
    requires said { SaysInstances found.now.nodes.keys joined.points.items }
    ensures { IfOk result (AreJoinedOf program.now entry.now found.now) }
{
    let rests = match rests_into(alloc, rests, joined.into.as_slice()) {
        Ok(rests) => rests,
        Err(AllocError) => {
            drop(joined);
            return Err(AllocError);
        }
    };
    let schedule = match made_schedule(alloc, image, program, found) {
        Ok(schedule) => schedule,
        Err(AllocError) => {
            drop(rests);
            drop(joined);
            return Err(AllocError);
        }
    };
    let number = entry_number(found, entry, joined.numbers.as_slice());
    Ok(JoinedParts {
        schedule,
        rests,
        entry: entry_at(entry, number),
        points: points_in(joined),
    })
}

/// The parts of the certificate of what a search has found, whose points are joined. None where there are none to join line by
/// line.
fn joined_parts(
    alloc: Global,
    image: &Image,
    program: &Program,
    entry: &Entry,
    found: &Found,
) -> Result<Option<JoinedParts>, AllocError>
    requires fits { ProgramFits program.now }
    requires ended { IsEnded image.now program.now found.now }
    ensures { IfOk result (λ o. IfSome o (AreJoinedOf program.now entry.now found.now)) }
{
    let rests = rests_of(alloc, found.returns.as_slice())?;
    let joined = match joined_points(alloc, program, found, rests.as_slice())? {
        Some(joined) => joined,
        None => return Ok(None),
    };
    let parts = parts_with(
        alloc,
        image,
        program,
        entry,
        found,
        rests.as_slice(),
        joined,
    )?;
    Ok(Some(parts))
}

/// The certificate of joined points, where the check accepts it, and else the program as it was.
fn choose(image: &Image, program: Program, parts: JoinedParts) -> Result<Cert, Program>
    ensures cert { IfOk result (λ cert. cert ≡ joined_cert program parts) }
    ensures fits { IfOk result WellFormed }
    ensures accepted { IfOk result (Accepts image.now) }
    ensures same { IfErr result (λ p. p ≡ program) }
{
    let mut program = program;
    let JoinedParts {
        schedule,
        rests,
        entry,
        points,
    } = parts;
    let points = split_points(&program.splits, points);
    let mut cert = Cert {
        head: take_head(&mut program),
        schedule,
        rests,
        entry,
        points,
    };
    let accepted = passes(image, &cert);
    if accepted {
        drop(program);
        Ok(cert)
    } else {
        swap(&mut program.head, &mut cert.head);
        drop(cert);
        Err(program)
    }
}

/// The certificate of an ended search whose points are joined line by line and count by count, where there are points to join line
/// by line and the check accepts it so; and else the program as it was. Its points say what the instances of the search say, and nothing
/// else.
pub(crate) fn joined_certificate(
    alloc: Global,
    image: &Image,
    program: Program,
    entry: &Entry,
    found: &Found,
) -> Result<Cert, Program>
    requires fits { ProgramFits program }
    requires ended { IsEnded image.now program found.now }
    ensures fits { IfOk result WellFormed }
    ensures accepted { IfOk result (Accepts image.now) }
    ensures found { IfOk result (IsFoundBy image.now program entry.now) }
    ensures said { IfOk result (λ cert. SaysInstances found.now.nodes.keys cert.points) }
    ensures same { IfErr result (λ p. p ≡ program) }
{
    nodes_are_reached();
    match joined_parts(alloc, image, &program, entry, found) {
        Ok(Some(parts)) => choose(image, program, parts),
        _ => Err(program),
    }
}

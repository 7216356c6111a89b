//! The certificate that an ended search makes.

ghost use Rattle.std.specs.Prelude.{◌≡◌, ◌<◌, IfOk, length};
ghost use Rattle.uz_schedule.specs.Instances.{entry_instance_at};
ghost use Rattle.uz_schedule.specs.Limits.{ScheduleFits};
ghost use Rattle.uz_search.specs.Fitting.{ProgramFits};
ghost use Rattle.uz_search.specs.Following.{Among};
ghost use Rattle.uz_search.specs.Searching.{IsEnded};
ghost use Rattle.uz_paths.specs.Kinds.{IsScheduleOf};
ghost use Rattle.uz_paths.specs.Linked.{AreEntered, AreSearched};
ghost use Rattle.uz_paths.specs.Rests.{rests_of as rests_of_returns};
ghost use Rattle.uz_paths.specs.Certificate.{ArePartsOf, IsNumberOf, cert_of};

use crate::kinds::schedule_of;
use crate::linking::{number_at, place_of, plan_of};
use crate::making::points_of;
use crate::rests::rests_of;
use crate::splits::split_points;
use arrayvec::ArrayVec;
use indexmap::IndexSet;
use std::alloc::{AllocError, Global};
use std::mem::replace;
use uz_hex::Image;
use uz_schedule::{
    Cert, Entry, Head, Instance, Point, Rest, Schedule, Sequence, entry_state, event_by_line,
};
use uz_search::{
    Found, Program, ended_falls_once, ended_levels_fit, ended_rests_enter, nodes_are_reached,
};

/// What a search makes of a certificate.
#[derive(Drop)]
pub(crate) struct Parts {
    /// The events of each line.
    pub schedule: Schedule,
    /// Where the handler returns.
    pub rests: Vec<Rest>,
    /// Where runs enter.
    pub entry: Entry,
    /// The points.
    pub points: Vec<Point>,
}

/// The number of the point of an instance of the search.
fn number_of(nodes: &IndexSet<Instance>, numbers: &[u32], at: &Instance) -> u32
    requires lengths { length numbers.now ≡ length nodes.now.keys }
    requires node { Among nodes.now.keys at.now }
    ensures { IsNumberOf nodes.now.keys numbers.now at.now result }
{
    number_at(numbers, place_of(nodes, at))
}

/// An entry at the point of this number.
pub(crate) fn with_id(entry: Entry, id: u32) -> Entry
    ensures { result ≡ record entry { id = id } }
{
    let mut entry = entry;
    entry.id = id;
    entry
}

/// The schedule of an ended search is one of a certificate.
pub(crate) fn made_schedule(
    alloc: Global,
    image: &Image,
    program: &Program,
    found: &Found,
) -> Result<Schedule, AllocError>
    requires fits { ProgramFits program.now }
    requires ended { IsEnded image.now program.now found.now }
    ensures made { IfOk result (IsScheduleOf found.now.marks.items program.now.schedule) }
    ensures fits { IfOk result ScheduleFits }
{
    event_by_line();
    ended_falls_once();
    ended_levels_fit();
    schedule_of(alloc, found.marks.as_slice(), &program.schedule)
}

/// An ended search has entered the handler after each of its rests. Does nothing.
fn rests_are_entered(
    image: &Image,
    program: &Program,
    entry: &Entry,
    schedule: &Schedule,
    found: &Found,
)
    requires fits { ProgramFits program.now }
    requires ended { IsEnded image.now program.now found.now }
    requires schedule { IsScheduleOf found.now.marks.items program.now.schedule schedule.now }
    ensures { AreEntered program.now schedule.now (rests_of_returns found.now.returns.items) found.now.nodes.keys }
{
    let _ = image; // said of in the contract alone
    let _ = program; // said of in the contract alone
    let _ = entry; // said of in the contract alone
    let _ = schedule; // said of in the contract alone
    let _ = found; // said of in the contract alone
    event_by_line();
    ended_falls_once();
    ended_levels_fit();
    ended_rests_enter();
}

/// The instances of an ended search stand in its frame, with all their results. Does nothing.
fn nodes_are_searched(image: &Image, program: &Program, found: &Found)
    requires fits { ProgramFits program.now }
    requires ended { IsEnded image.now program.now found.now }
    ensures { AreSearched image.now program.now found.now.nodes.keys }
{
    let _ = image; // said of in the contract alone
    let _ = program; // said of in the contract alone
    let _ = found; // said of in the contract alone
    nodes_are_reached();
}

/// The instances that a search has found. All else is let go.
fn nodes_of(found: Found) -> IndexSet<Instance>
    ensures { result ≡ found.nodes }
{
    let Found { nodes, .. } = found;
    nodes
}

/// The parts of the certificate of what a search has found, whose runs enter where the search starts. Each instance is let go when its
/// point is made, so that the instances and the points aren't all there at once.
pub(crate) fn parts_of(
    alloc: Global,
    image: &Image,
    program: &Program,
    entry: Entry,
    found: Found,
) -> Result<Parts, AllocError>
    requires fits { ProgramFits program.now }
    requires ended { IsEnded image.now program.now found }
    requires few { length found.nodes.keys < 524288 }
    requires start { Among program.now.starts (entry_instance_at entry 1) }
    ensures { IfOk result (ArePartsOf image.now program.now entry found) }
{
    let schedule = match made_schedule(alloc, image, program, &found) {
        Ok(schedule) => schedule,
        Err(AllocError) => {
            drop(found);
            drop(entry);
            return Err(AllocError);
        }
    };
    let rests = match rests_of(alloc, found.returns.as_slice()) {
        Ok(rests) => rests,
        Err(AllocError) => {
            drop(schedule);
            drop(found);
            drop(entry);
            return Err(AllocError);
        }
    };
    nodes_are_searched(image, program, &found);
    rests_are_entered(image, program, &entry, &schedule, &found);
    let plan = match plan_of(
        alloc,
        image,
        program,
        &schedule,
        rests.as_slice(),
        &found.nodes,
    ) {
        Ok(plan) => plan,
        Err(AllocError) => {
            drop(rests);
            drop(schedule);
            drop(found);
            drop(entry);
            return Err(AllocError);
        }
    };
    let id = number_of(
        &found.nodes,
        plan.numbers.as_slice(),
        &entry_state(&entry, 1),
    );
    match points_of(rests.as_slice(), nodes_of(found), plan) {
        Ok(points) => Ok(Parts {
            schedule,
            rests,
            entry: with_id(entry, id),
            points,
        }),
        Err(AllocError) => {
            drop(rests);
            drop(schedule);
            drop(entry);
            Err(AllocError)
        }
    }
}

/// Takes the header out of a program, which is left with one that has no cells.
pub(crate) fn take_head(program: &mut Program) -> Head
    ensures head { result ≡ program.old.head }
    ensures rest { program.new ≡ record program.old { head = program.new.head } }
{
    let bare = Head {
        irq: program.head.irq,
        lo: 0,
        hi: 0,
        main: 0,
        handler: 0,
        cells: ArrayVec::new(),
        version: program.head.version,
    };
    replace(&mut program.head, bare)
}

/// The certificate of these parts, in which each point is split as the program is.
pub(crate) fn certificate_of(program: Program, parts: Parts) -> Cert
    ensures { result ≡ cert_of program parts }
{
    let mut program = program;
    let Parts {
        schedule,
        rests,
        entry,
        points,
    } = parts;
    let points = split_points(&program.splits, points);
    let head = take_head(&mut program);
    drop(program);
    Cert {
        head,
        schedule,
        rests: Sequence::from_vec(rests),
        entry,
        points,
    }
}

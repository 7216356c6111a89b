//! The successors of points: the numbers of the points where instances lead.

ghost use Rattle.std.specs.Prelude.{◌≡◌, ◌<◌, ◌≤◌, IfOk, Some, length, slice_get};
ghost use Rattle.uz_search.specs.Following.{Among};
ghost use Rattle.uz_paths.specs.Linked.{AreEntered, AreSearched, SuccessorsFit, Renamed};
ghost use Rattle.uz_paths.specs.Plan.{IsPlan};

use crate::lists::{Lists, no_lists, put_list};
use crate::numbers::{Numbers, numbers_of, vectors_of};
use crate::rests::first_after;
use crate::successors::put_number;
use arrayvec::ArrayVec;
use indexmap::IndexSet;
use std::alloc::{AllocError, Global};
use uz_hex::Image;
use uz_rules::{Next, put_after};
use uz_schedule::{Instance, Point, Rest, Schedule, equal_instances_are_one};
use uz_search::{Program, put_pieces, widened_copy};

/// What is known of the points of instances before they are made.
#[derive(Drop)]
pub(crate) struct Plan {
    /// The number of each instance's point, by the place of the instance.
    pub numbers: Vec<u32>,
    /// How many points there are.
    pub count: u32,
    /// Where each instance leads that has a point of its own.
    pub links: Lists,
    /// The points of the vectors, with their successors.
    pub points: Vec<Point>,
}

/// The number at a place.
pub(crate) fn number_at(numbers: &[u32], i: usize) -> u32
    requires { i < length numbers.now }
    ensures { slice_get numbers.now i ≡ Some result }
{
    numbers[i]
}

/// The place of an instance of the search.
pub(crate) fn place_of(nodes: &IndexSet<Instance>, at: &Instance) -> usize
    requires { Among nodes.now.keys at.now }
    ensures { slice_get nodes.now.keys result ≡ Some at.now }
{
    equal_instances_are_one();
    match nodes.get_index_of(at) {
        Some(i) => i,
        None => 0,
    }
}

/// The instances of a search, and the numbers of their points: by these the successors of points are found.
#[derive(Clone, Copy)]
pub(crate) struct Linking<'a> {
    /// The flash.
    image: &'a Image,
    /// The program that is searched.
    program: &'a Program,
    /// The instances that the search has found.
    nodes: &'a IndexSet<Instance>,
    /// The number of each one's point.
    numbers: &'a [u32],
    /// How many points there are.
    count: u32,
}

/// Gives a point its successors.
fn set_successors(point: &mut Point, count: u32, successors: ArrayVec<u32, 16>)
    requires { SuccessorsFit count successors.items }
    ensures { Renamed count successors.items point.old point.new }
{
    let _ = count; // said of in the contract alone
    point.next = successors;
}

impl Linking<'_> {
    ghost use Rattle.std.specs.Prelude.{◌≡◌, ◌<◌, ◌≤◌, ◌+◌, [], IfOk, false, length};
    ghost use Rattle.uz_schedule.specs.Schedule.{response_clocks};
    ghost use Rattle.uz_schedule.specs.declared.states.Instance.{Instance};
    ghost use Rattle.uz_search.specs.Following.{Among, order_of_program};
    ghost use Rattle.uz_search.specs.Widened.{widened};
    ghost use Rattle.uz_paths.specs.Linked.{SuccessorsFit, AddsSuccessors};
    ghost use Rattle.uz_paths.specs.Linking.{AreEnteredBy, AreLinksBy, HasFewBy, HasSuccessorBy, IsEnteredBy, IsLinking, LeadsToEntriesBy};
    ghost use Rattle.uz_paths.specs.Linking.{LeadsToResultsBy, VectorsLeadBy, pieces_by};
    ghost use Rattle.uz_paths.specs.Plan.{AreMade};

    /// Puts the number of an instance's point among others.
    fn put_successor(&self, to: &Instance, successors: &mut ArrayVec<u32, 16>)
        requires linking { IsLinking self.now }
        requires node { Among self.now.nodes.now.keys to.now }
        requires room { length successors.old.items < 16 }
        ensures more { AddsSuccessors self.now.count 1 successors.old.items successors.new.items }
        ensures named { HasSuccessorBy self.now to.now successors.new.items }
    {
        let place = place_of(self.nodes, to);
        put_number(successors, number_at(self.numbers, place));
    }

    /// Puts the numbers of the points of results, widened by the facts of their program counters, among others.
    fn put_all(&self, results: &[Instance], successors: &mut ArrayVec<u32, 16>)
        requires linking { IsLinking self.now }
        requires nodes { (y : Instance) → Among results.now y → Among self.now.nodes.now.keys (widened self.now.program.now y) }
        requires room { length successors.old.items + length results.now ≤ 16 }
        ensures more { AddsSuccessors self.now.count (length results.now) successors.old.items successors.new.items }
        ensures named { (y : Instance) → Among results.now y → HasSuccessorBy self.now (widened self.now.program.now y) successors.new.items }
    {
        for to in results {
            self.put_successor(&widened_copy(self.program, to), successors);
        }
    }

    /// Puts the numbers of the points of what an instruction makes of an instance among others, piece by piece where a register is split
    /// there. A return has none.
    fn put_next(&self, at: &Instance, next: &mut Next, successors: &mut ArrayVec<u32, 16>)
        requires linking { IsLinking self.now }
        requires nodes { next.old.back ≡ false → (y : Instance) → Among (pieces_by self.now at.now next.old) y
            → Among self.now.nodes.now.keys (widened self.now.program.now y) }
        requires room { length successors.old.items + length (pieces_by self.now at.now next.old) ≤ 16 }
        ensures more { AddsSuccessors self.now.count (length (pieces_by self.now at.now next.old)) successors.old.items successors.new.items }
        ensures named { next.old.back ≡ false → (y : Instance) → Among (pieces_by self.now at.now next.old) y
            → HasSuccessorBy self.now (widened self.now.program.now y) successors.new.items }
    {
        if next.back {
            return;
        }
        put_pieces(self.program, at, next);
        self.put_all(next.out.as_slice(), successors);
    }

    /// Puts the numbers of the points where an instance leads among others, of which there are at most `most`; its results are put in place
    /// of others.
    #[tactic(auto, using(crate::proofs::MadeSchedule::length_short))]
    fn put_results_of(
        &self,
        at: &Instance,
        most: u32,
        successors: &mut ArrayVec<u32, 16>,
        next: &mut Next,
    )
        requires linking { IsLinking self.now }
        requires node { Among self.now.nodes.now.keys at.now }
        requires few { HasFewBy self.now at.now most }
        requires room { length successors.old.items + most ≤ 16 }
        ensures more { AddsSuccessors self.now.count most successors.old.items successors.new.items }
        ensures named { LeadsToResultsBy self.now at.now successors.new.items }
    {
        let _ = most; // said of in the contract alone
        let program = self.program;
        match put_after(self.image, &program.head, &program.schedule, at, next) {
            Ok(()) => self.put_next(at, next, successors),
            Err(_) => {}
        }
    }

    /// The numbers of the points where an instance leads, whose results are put in place of others.
    fn successors_of(&self, at: &Instance, next: &mut Next) -> ArrayVec<u32, 16>
        requires linking { IsLinking self.now }
        requires node { Among self.now.nodes.now.keys at.now }
        ensures fits { SuccessorsFit self.now.count result.items }
        ensures named { LeadsToResultsBy self.now at.now result.items }
    {
        let mut successors = ArrayVec::new();
        self.put_results_of(at, 16, &mut successors, next);
        successors
    }

    /// The numbers of the points where the handler's first states after a rest lead.
    fn vector_successors(
        &self,
        schedule: &Schedule,
        rest: &Rest,
        next: &mut Next,
    ) -> ArrayVec<u32, 16>
        requires linking { IsLinking self.now }
        requires entered { IsEnteredBy self.now schedule.now rest.now }
        ensures fits { SuccessorsFit self.now.count result.items }
        ensures named { LeadsToEntriesBy self.now schedule.now rest.now result.items }
    {
        let mut successors = ArrayVec::new();
        for c in 0..4u16 {
            let at = first_after(self.program, schedule, rest, c);
            self.put_results_of(&at, 2, &mut successors, next);
        }
        successors
    }

    /// Names the points where the handler's first states after each rest lead among the successors of their vector.
    fn link_vectors(
        &self,
        schedule: &Schedule,
        rests: &[Rest],
        points: &mut [Point],
        next: &mut Next,
    )
        requires linking { IsLinking self.now }
        requires entered { AreEnteredBy self.now schedule.now rests.now }
        requires size { length points.old ≡ length rests.now }
        requires made { AreMade (response_clocks self.now.program.now.head.irq) (order_of_program self.now.program.now) rests.now [] []
            self.now.count points.old }
        ensures size { length points.new ≡ length rests.now }
        ensures made { AreMade (response_clocks self.now.program.now.head.irq) (order_of_program self.now.program.now) rests.now [] []
            self.now.count points.new }
        ensures named { VectorsLeadBy self.now schedule.now rests.now (length rests.now) points.new }
    {
        for (k, rest) in rests.iter().enumerate() {
            let successors = self.vector_successors(schedule, rest, next);
            set_successors(&mut points[k], self.count, successors);
        }
    }

    /// The numbers of the points where an instance leads, where it has a point of its own, by its number.
    fn link_of(
        &self,
        rests: &[Rest],
        number: usize,
        at: &Instance,
        next: &mut Next,
    ) -> ArrayVec<u32, 16>
        requires linking { IsLinking self.now }
        requires node { Among self.now.nodes.now.keys at.now }
        ensures fits { SuccessorsFit self.now.count result.items }
        ensures named { length rests.now ≤ number → LeadsToResultsBy self.now at.now result.items }
    {
        if number >= rests.len() {
            return self.successors_of(at, next);
        }
        ArrayVec::new()
    }

    /// The numbers of the points where each instance leads that has a point of its own.
    fn links_of(&self, alloc: Global, rests: &[Rest], next: &mut Next) -> Result<Lists, AllocError>
        requires linking { IsLinking self.now }
        requires few { length self.now.nodes.now.keys < 524288 }
        ensures { IfOk result (λ lists. AreLinksBy self.now (length rests.now) lists (length self.now.nodes.now.keys)) }
    {
        let mut links = no_lists(alloc)?;
        for (i, at) in self.nodes.as_slice().iter().enumerate() {
            let number = number_at(self.numbers, i) as usize;
            let successors = self.link_of(rests, number, at, next);
            put_list(&mut links, i, successors.as_slice())?;
        }
        Ok(links)
    }

    /// The points of the vectors, of which each names the points where the handler's first states lead.
    fn vector_points(
        &self,
        alloc: Global,
        schedule: &Schedule,
        rests: &[Rest],
        next: &mut Next,
    ) -> Result<Vec<Point>, AllocError>
        requires linking { IsLinking self.now }
        requires entered { AreEnteredBy self.now schedule.now rests.now }
        requires some { length rests.now ≤ self.now.count }
        ensures size { IfOk result (λ points. length points.items ≡ length rests.now) }
        ensures made { IfOk result (λ points. AreMade (response_clocks self.now.program.now.head.irq)
            (order_of_program self.now.program.now) rests.now [] [] self.now.count points.items) }
        ensures named { IfOk result (λ points. VectorsLeadBy self.now schedule.now rests.now (length rests.now) points.items) }
    {
        let program = self.program;
        let mut points = vectors_of(alloc, program.head.irq, &program.schedule, rests)?;
        self.link_vectors(schedule, rests, points.as_mut_slice(), next);
        Ok(points)
    }
}

/// The numbers of the points of all instances, where each leads, and the points of the vectors.
pub(crate) fn plan_of(
    alloc: Global,
    image: &Image,
    program: &Program,
    schedule: &Schedule,
    rests: &[Rest],
    nodes: &IndexSet<Instance>,
) -> Result<Plan, AllocError>
    requires searched { AreSearched image.now program.now nodes.now.keys }
    requires entered { AreEntered program.now schedule.now rests.now nodes.now.keys }
    requires rests { length rests.now ≤ 525 }
    requires few { length nodes.now.keys < 524288 }
    ensures { IfOk result (λ plan. IsPlan image.now program.now schedule.now rests.now nodes.now.keys plan.numbers.items plan.count
        plan.links plan.points.items) }
{
    let mut next = Next::empty();
    let Numbers { of, count } = numbers_of(
        alloc,
        program.head.irq,
        &program.schedule,
        rests,
        nodes.as_slice(),
    )?;
    let linking = Linking {
        image,
        program,
        nodes,
        numbers: of.as_slice(),
        count,
    };
    let points = linking.vector_points(alloc, schedule, rests, &mut next)?;
    let links = linking.links_of(alloc, rests, &mut next)?;
    Ok(Plan {
        numbers: of,
        count,
        links,
        points,
    })
}

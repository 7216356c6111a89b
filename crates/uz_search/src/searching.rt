//! The search.

ghost use Rattle.std.specs.Prelude.{◌≡◌, ◌<◌, ◌≤◌, ◌+◌, ℕ, true, None, Some, IfOk, IfErr, OnOk};
ghost use Rattle.std.specs.Prelude.{length, slice_get, replicate};
ghost use Rattle.uz_schedule.specs.Limits.{most_lines};
ghost use Rattle.uz_schedule.specs.declared.kinds.Kind.TheVariants.{Main};
ghost use Rattle.uz_schedule.specs.declared.states.Instance.{Instance};
ghost use Rattle.uz_search.specs.declared.program.Program.{Program};
ghost use Rattle.uz_search.specs.Fitting.{ProgramFits};
ghost use Rattle.uz_search.specs.Following.{Among, Flash, followers_by, frame_of, lines_of};
ghost use Rattle.uz_search.specs.Refusing.{Refusal};
ghost use Rattle.uz_search.specs.Returning.{SomeReturn};
ghost use Rattle.uz_search.specs.Searching.{IsSearchOf, IsEnded, StopHolds};
ghost use Rattle.uz_search.specs.Trails.{ComeEarlier};
ghost use Rattle.uz_search.specs.Visiting.{AddsAll, ComeFrom, IsTree};

use crate::examination::{Examined, Stop, examine};
use crate::found::{Found, NotFound};
use crate::instances::Instances;
use crate::marks::{Mark, unpassed};
use crate::passing::line_start;
use crate::program::{Program, copied_starts, entries_after, starts_in_main};
use crate::returns::{Return, is_without_return};
use crate::splitting::{split_at, split_results};
use crate::successors::Successors;
use crate::trail::{node_at, trail_to};
use crate::visited::{add_all, add_widened};
use indexmap::IndexSet;
use std::alloc::{AllocError, Global};
use uz_hex::Image;
use uz_rules::Next;
use uz_schedule::Instance;

/// The refusal of a search that stops at the instance of this number.
fn refused(
    alloc: Global,
    nodes: &[Instance],
    parents: &[Option<u32>],
    done: u32,
    stop: Stop,
) -> NotFound
    requires lengths { length parents.now ≡ length nodes.now }
    requires earlier { ComeEarlier parents.now }
    requires within { done < length nodes.now }
    requires other { (other : ℕ) → stop ≡ Stop.Split other → other < length nodes.now }
    ensures { (image : Flash) (p : Program) (limit : ℕ) (x : Instance) → IsTree image p nodes.now parents.now →
        slice_get nodes.now done ≡ Some x → StopHolds image p nodes.now x stop → Refusal image p limit result }
{
    match stop {
        Stop::Memory => NotFound::Memory,
        Stop::Stuck(why) => match trail_to(alloc, nodes, parents, done) {
            Ok(trail) => NotFound::Stuck { trail, why },
            Err(_) => NotFound::Memory,
        },
        Stop::Split(other) => match (
            trail_to(alloc, nodes, parents, other),
            trail_to(alloc, nodes, parents, done),
        ) {
            (Ok(first), Ok(second)) => NotFound::Split { first, second },
            _ => NotFound::Memory,
        },
    }
}

/// Adds what follows the instance of this number, which has these results, and at which this register is split. The pieces of a result
/// are put in place of it.
fn add_followers(
    alloc: Global,
    program: &Program,
    found: &mut Found,
    done: u32,
    split: Option<u8>,
    next: &mut Next,
) -> Result<(), AllocError>
    requires lines { lines_of program.now ≤ most_lines }
    requires each { next.old.back ≡ true → (x : Instance) → Among next.old.out.items x → x.line < lines_of program.now }
    ensures added { OnOk result ((image : Flash) (p : Program) →
        IsTree image p found.old.nodes.keys found.old.parents.items →
        ComeFrom image p found.old.nodes.keys (Some done) (followers_by program.now split next.old) →
        AddsAll image p found.old.nodes.keys (followers_by program.now split next.old) found.new.nodes.keys
        found.new.parents.items) }
    ensures marks { found.new.marks ≡ found.old.marks }
    ensures returns { found.new.returns ≡ found.old.returns }
{
    found.successors.begin()?;
    if next.back {
        let entries = entries_after(alloc, program, next.out.as_slice())?;
        add_all(&mut found.nodes, &mut found.parents, entries, Some(done))
    } else {
        split_results(split, &mut next.out);
        add_widened(
            program,
            &mut found.nodes,
            &mut found.parents,
            &mut found.successors,
            next.out.as_slice(),
            done,
        )
    }
}

/// Treats the instance of this number: asks it, and adds what follows it. Its results are put in place of others.
fn step(
    alloc: Global,
    image: &Image,
    program: &Program,
    found: &mut Found,
    done: u32,
    next: &mut Next,
) -> Result<(), NotFound>
    requires fits { ProgramFits program.now }
    requires so_far { IsSearchOf image.now program.now found.old done }
    requires within { done < length found.old.nodes.keys }
    ensures ok { OnOk result (IsSearchOf image.now program.now found.new (done + 1)) }
    ensures refusal { IfErr result (λ e. (limit : ℕ) → Refusal image.now program.now limit e) }
{
    let nodes = found.nodes.as_slice();
    let at = node_at(nodes, done as usize);
    let split = split_at(program, at);
    match examine(
        image,
        program,
        nodes,
        Examined { at, by: done },
        found.marks.as_mut_slice(),
        found.returns.as_mut_slice(),
        next,
    ) {
        Err(stop) => Err(refused(
            alloc,
            found.nodes.as_slice(),
            found.parents.as_slice(),
            done,
            stop,
        )),
        Ok(()) => {
            add_followers(alloc, program, found, done, split, next)?;
            Ok(())
        }
    }
}

/// A list with nothing at each of this many places.
fn blank<T: Drop>(alloc: Global, count: u32) -> Result<Vec<Option<T>>, AllocError>
    ensures { IfOk result (λ v. v.items ≡ replicate count None) }
{
    let mut places = Vec::new(alloc);
    'fill: for _ in 0..count {
        places.push(None)?;
    }
    Ok(places)
}

/// A search that has these starts, before any instance is treated, with these marks and returns.
fn started(
    alloc: Global,
    starts: Vec<Instance>,
    marks: Vec<Mark>,
    returns: Vec<Option<Return>>,
) -> Result<Found, AllocError>
    ensures { IfOk result (λ s. (image : Flash) (p : Program) → starts.items ≡ p.starts →
        marks.items ≡ replicate (frame_of p) Mark.Unpassed → returns.items ≡ replicate (lines_of p) None →
        IsSearchOf image p s 0) }
{
    let mut found = Found {
        nodes: IndexSet::new(alloc),
        parents: Vec::new(alloc),
        marks,
        returns,
        successors: Successors::new(alloc),
    };
    match add_all(&mut found.nodes, &mut found.parents, starts, None) {
        Ok(()) => Ok(found),
        Err(error) => {
            drop(found);
            Err(error)
        }
    }
}

/// The search before any instance is treated: it has the starts.
fn begin(alloc: Global, program: &Program) -> Result<Found, AllocError>
    requires { lines_of program.now ≤ most_lines }
    ensures { IfOk result (λ s. (image : Flash) → IsSearchOf image program.now s 0) }
{
    let lines = program.lines();
    let marks = unpassed(alloc, line_start(lines))?;
    let returns = blank(alloc, u32::from(lines))?;
    let starts = copied_starts(alloc, program.starts.as_slice())?;
    started(alloc, starts, marks, returns)
}

/// The refusal of a search that has reached its limit: the instances that it reached first, as many as the limit.
fn full(found: Found, limit: u32) -> NotFound
    requires many { limit ≤ length found.nodes.keys }
    ensures { (image : Flash) (p : Program) → IsTree image p found.nodes.keys found.parents.items → Refusal image p limit result }
{
    let Found {
        nodes,
        parents,
        marks,
        returns,
        successors,
    } = found;
    drop(parents);
    drop(marks);
    drop(returns);
    drop(successors);
    NotFound::Full {
        instances: Instances::first(nodes, limit),
    }
}

/// Searches until every instance found is treated, or the search is refused.
fn explore(alloc: Global, image: &Image, program: &Program, limit: u32) -> Result<Found, NotFound>
    requires fits { ProgramFits program.now }
    requires some { 0 < limit }
    ensures ended { IfOk result (IsEnded image.now program.now) }
    ensures few { IfOk result (λ s. length s.nodes.keys < limit) }
    ensures refusal { IfErr result (Refusal image.now program.now limit) }
{
    let mut found = begin(alloc, program)?;
    let mut next = Next::empty();
    let mut done = 0;
    'work: while (done as usize) < found.nodes.len() {
        if found.nodes.len() >= limit as usize {
            drop(next);
            return Err(full(found, limit));
        }
        if let Err(refusal) = step(alloc, image, program, &mut found, done, &mut next) {
            drop(found);
            drop(next);
            return Err(refusal);
        }
        done += 1;
    }
    drop(next);
    Ok(found)
}

/// Searches for the instances that a program reaches: from the starts it goes on to what follows each instance, until nothing new comes.
///
/// Ok has all instances that lie on trails, fewer than `limit`, and a return where some start is of main. Stuck and Split come only
/// with trails that show them, Full only with `limit` distinct instances that lie on trails, NoRest only where some start is of
/// main and the instances on trails hold no return. Hint never comes. Time is linear in the instances and their results.
pub fn search(
    alloc: Global,
    image: &Image,
    program: &Program,
    limit: u32,
) -> Result<Found, NotFound>
    requires fits { ProgramFits program.now }
    requires some { 0 < limit }
    ensures ended { IfOk result (IsEnded image.now program.now) }
    ensures few { IfOk result (λ s. length s.nodes.keys < limit) }
    ensures returns { IfOk result (λ s. (x : Instance) → Among program.now.starts x → x.kind ≡ Main → SomeReturn s.returns.items) }
    ensures refusal { IfErr result (Refusal image.now program.now limit) }
{
    let found = match explore(alloc, image, program, limit) {
        Ok(found) => found,
        Err(refusal) => return Err(refusal),
    };
    if starts_in_main(program.starts.as_slice()) && is_without_return(found.returns.as_slice()) {
        let count = found.nodes.len();
        drop(found);
        return Err(NotFound::NoRest {
            count: count as u32,
        });
    }
    Ok(found)
}

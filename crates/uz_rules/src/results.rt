//! The abstract results of an instance, one by one.

ghost use Rattle.std.specs.Prelude.{◌≡◌, ◌<◌, ◌≤◌, ◌++◌, [], Ok, Err, OnOk, IfErr, length};
ghost use Rattle.uz_schedule.specs.Lines.{order_of};
ghost use Rattle.uz_schedule.specs.Limits.{most_lines};
ghost use Rattle.uz_schedule.specs.Schedule.{scanline, length_of};
ghost use Rattle.uz_transfer.specs.Kinds.{depth_limit};
ghost use Rattle.uz_transfer.specs.Narrowed.{narrowed as narrowed_at_exit};
ghost use Rattle.uz_transfer.specs.Step.{at_exit, successor};
ghost use Rattle.uz_rules.specs.After.{timed, if_there, results_of, next_of, IsAfter};

use crate::local_rule::first_exit;
use crate::next::Next;
use arrayvec::ArrayVec;
use uz_hex::Image;
use uz_schedule::{EventKind, Head, Instance, Schedule};
use uz_transfer::{Exit, Fail, Step, Test, abstract_step, copied, left_at, put_at, put_left};

/// What is emitted, with its clock.
fn timed(emitted: Option<EventKind>, clocks: u8) -> Option<(u8, EventKind)>
    ensures { result ≡ timed emitted clocks }
{
    match emitted {
        Some(kind) => Some((clocks, kind)),
        None => None,
    }
}

/// A result, narrowed by what its exit tells of main. None: no state goes there.
fn narrowed(known: Instance, test: Test, exit: Exit) -> Option<Instance>
    ensures { result ≡ narrowed_at_exit test exit known }
{
    let mut known = known;
    match left_at(&known, test, exit) {
        Some(left) => {
            put_left(&mut known, left);
            Some(known)
        }
        None => None,
    }
}

/// What is known at one exit. The draft becomes the result.
fn result_at(
    draft: Instance,
    schedule: &Schedule,
    at: &Instance,
    emitted: Option<EventKind>,
    clears: bool,
    test: Test,
    exit: Exit,
) -> Option<Instance>
    requires count { length schedule.now.lines ≤ most_lines }
    requires line { at.now.line < length schedule.now.lines }
    requires clock { at.now.clock < scanline }
    ensures { result ≡ narrowed_at_exit test exit (at_exit (order_of schedule.now) at.now draft emitted clears exit) }
{
    let mut known = draft;
    put_at(&mut known, schedule, at, emitted, clears, exit);
    match test {
        Test::Nothing => Some(known),
        _ => narrowed(known, test, exit),
    }
}

/// Adds a result, where there is one.
fn push_some(out: &mut ArrayVec<Instance, 16>, known: Option<Instance>)
    requires { length out.old.items < 16 }
    ensures { out.new.items ≡ out.old.items ++ if_there known }
{
    if let Some(known) = known {
        out.push(known);
    }
}

/// Puts what is known at each of these exits into an empty list.
fn push_results(
    step: &Step,
    schedule: &Schedule,
    at: &Instance,
    exits: &[Exit],
    out: &mut ArrayVec<Instance, 16>,
)
    requires count { length schedule.now.lines ≤ most_lines }
    requires line { at.now.line < length schedule.now.lines }
    requires clock { at.now.clock < scanline }
    requires empty { out.old.items ≡ [] }
    requires few { length exits.now ≤ 16 }
    ensures { out.new.items ≡ results_of (order_of schedule.now) at.now step.now exits.now }
{
    for exit in exits {
        let draft = copied(&step.draft);
        push_some(
            out,
            result_at(
                draft,
                schedule,
                at,
                step.emit,
                step.clears,
                step.test,
                *exit,
            ),
        );
    }
}

/// What is known at the last exit: the step's draft itself.
fn last_result(step: Step, schedule: &Schedule, at: &Instance, exit: Exit) -> Option<Instance>
    requires count { length schedule.now.lines ≤ most_lines }
    requires line { at.now.line < length schedule.now.lines }
    requires clock { at.now.clock < scanline }
    ensures { result ≡ narrowed_at_exit step.test exit (successor (order_of schedule.now) at.now step exit) }
{
    let Step {
        draft,
        exits: _exits,
        emit,
        back: _,
        clears,
        test,
    } = step;
    result_at(draft, schedule, at, emit, clears, test, exit)
}

/// Puts what is known at each exit in place of a list. The draft itself becomes the last result, and is copied for those before it.
#[tactic(auto, using(crate::proofs::AfterLaws::results_more, crate::proofs::AfterLaws::few_results))]
fn put_results(step: Step, schedule: &Schedule, at: &Instance, out: &mut ArrayVec<Instance, 16>)
    requires count { length schedule.now.lines ≤ most_lines }
    requires line { at.now.line < length schedule.now.lines }
    requires clock { at.now.clock < scanline }
    ensures { out.new.items ≡ results_of (order_of schedule.now) at.now step step.exits.items }
{
    out.clear();
    if let Some((last, others)) = step.exits.as_slice().split_last() {
        let last = *last;
        push_results(&step, schedule, at, others, out);
        push_some(out, last_result(step, schedule, at, last));
    }
}

/// Puts the results of a step in place of others.
fn put_next(schedule: &Schedule, at: &Instance, step: Step, next: &mut Next)
    requires count { length schedule.now.lines ≤ most_lines }
    requires line { at.now.line < length schedule.now.lines }
    requires clock { at.now.clock < scanline }
    ensures { Ok next.new ≡ next_of (order_of schedule.now) at.now (Ok step) }
{
    next.emit = timed(step.emit, first_exit(step.exits.as_slice()).clocks);
    next.back = step.back;
    put_results(step, schedule, at, &mut next.out);
}

/// Puts the abstract results of an instance in place of others, as `after` gives them; where there are none, it answers the reason, and
/// what `next` then has isn't told. A caller that asks for many instances keeps one `Next`, so that only the results that there are
/// get written. Takes no memory.
#[tactic(auto, using(crate::proofs::AfterLaws::after_ok, crate::proofs::AfterLaws::after_err))]
pub fn put_after(
    image: &Image,
    head: &Head,
    schedule: &Schedule,
    at: &Instance,
    next: &mut Next,
) -> Result<(), Fail>
    requires depth { depth_limit head.now at.now.kind ≤ 32 }
    requires count { length schedule.now.lines ≤ most_lines }
    requires line { at.now.line < length schedule.now.lines }
    requires long { length_of schedule.now at.now.line ≤ scanline }
    requires clock { at.now.clock < length_of schedule.now at.now.line }
    ensures ok { OnOk result (IsAfter head.now (order_of schedule.now) image.now at.now (Ok next.new)) }
    ensures err { IfErr result (λ why. IsAfter head.now (order_of schedule.now) image.now at.now (Err why)) }
{
    match abstract_step(image, head, schedule, at) {
        Ok(step) => {
            put_next(schedule, at, step, next);
            Ok(())
        }
        Err(why) => Err(why),
    }
}

/// The abstract results of an instance under the instruction at its pc, in a frame of this schedule's lines; or the least of the reasons
/// Opcode, Flag, Mask, Stack, Return, Store, Io, Edge and Clock that stands, where Edge is an emission that isn't known, and Clock that the
/// timer of a handler doesn't go on with the line. The header is within its limits, and the instance has no more slots than its kind's
/// depth. The schedule has at most 525 lines, the instance's line is one of them, no longer than a scanline, and its clock is one of that
/// line. A pc counts modulo 32,768, and a level by its bit 0. Takes no memory.
pub fn after(image: &Image, head: &Head, schedule: &Schedule, at: &Instance) -> Result<Next, Fail>
    requires depth { depth_limit head.now at.now.kind ≤ 32 }
    requires count { length schedule.now.lines ≤ most_lines }
    requires line { at.now.line < length schedule.now.lines }
    requires long { length_of schedule.now at.now.line ≤ scanline }
    requires clock { at.now.clock < length_of schedule.now at.now.line }
    ensures { IsAfter head.now (order_of schedule.now) image.now at.now result }
{
    let mut next = Next::empty();
    match put_after(image, head, schedule, at, &mut next) {
        Ok(()) => Ok(next),
        Err(why) => Err(why),
    }
}

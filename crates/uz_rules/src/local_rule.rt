//! The local rule: why an instance of a point is refused.

ghost use Rattle.std.specs.Prelude.{◌≡◌, ◌<◌, Ok, Some, length, slice_get};
ghost use Rattle.uz_core.specs.Effects.{effect_of};
ghost use Rattle.uz_core.specs.OperandRanges.{EffectFits};
ghost use Rattle.uz_schedule.specs.WellFormed.{WellFormed};
ghost use Rattle.uz_schedule.specs.Lines.{order_of};
ghost use Rattle.uz_transfer.specs.Step.{IsReadAt, at_exit};
ghost use Rattle.uz_rules.specs.EdgeRule.{each_exit};
ghost use Rattle.uz_transfer.specs.Kinds.{is_main};
ghost use Rattle.uz_transfer.specs.Refusals.{refuse_if};
ghost use Rattle.uz_rules.specs.Limits.{InstanceLimits};
ghost use Rattle.uz_transfer.specs.Narrowed.{narrowed};
ghost use Rattle.uz_rules.specs.Local.{is_stop, rest_in, return_fail, first_exit, end_of, has_successors, passes, result_fail};
ghost use Rattle.uz_rules.specs.Local.{compares_edges, step_fail, instance_fail, IsLocal, reason, counted};

use crate::cover::lies_or_is_covered;
use crate::edge_rule::edges_fit;
use crate::inclusion::{cells_inside, restored};
use crate::visit::{LastInstance, Visit};
use avr_decode::decode;
use avr_table::Instr;
use uz_core::Effect;
use uz_hex::Image;
use uz_schedule::{Cert, EventKind, Instance, Kind, Point, Rest};
use uz_transfer::{
    Exit, Fail, Step, Test, left_at, main_emits, put_at, put_left, put_step, word_after,
};

/// The reason, where it stands, else the later one.
fn refuse_if(stands: bool, why: Fail, later: Option<Fail>) -> Option<Fail>
    ensures { result ≡ refuse_if stands why later }
{
    if stands { Some(why) } else { later }
}

/// Whether an effect is that of SPM, which stops the machine.
pub(crate) fn is_stop(e: Effect) -> bool
    ensures { result ≡ is_stop e }
{
    matches!(e, Effect::Stop)
}

/// Whether an instance is of main.
fn is_main(at: &Instance) -> bool
    ensures { result ≡ is_main at.now.kind }
{
    matches!(at.kind, Kind::Main)
}

/// Why a return that ends in this state is refused, where its line has this rest.
fn rest_fail(rest: &Rest, end: &Instance) -> Option<Fail>
    ensures { result ≡ return_fail (Some rest.now) end.now }
{
    let kept = restored(end) && cells_inside(end.cells.as_slice(), rest.cells.as_slice());
    let restore = refuse_if(!kept, Fail::Restore, None);
    refuse_if(end.clock != rest.clock, Fail::Clock, restore)
}

/// Why a return that ends in this state is refused.
fn return_fail(rests: &[Rest], end: &Instance) -> Option<Fail>
    ensures { result ≡ return_fail (rest_in rests.now end.now.line) end.now }
{
    for rest in rests {
        if rest.line == end.line {
            return rest_fail(rest, end);
        }
    }
    Some(Fail::Clock)
}

/// A return's one exit.
pub(crate) fn first_exit(exits: &[Exit]) -> Exit
    ensures { result ≡ first_exit exits.now }
{
    match exits.first() {
        Some(exit) => *exit,
        None => Exit { pc: 0, clocks: 0 },
    }
}

/// Why RETI is refused. The step's draft is put to where it ends.
fn end_fail(cert: &Cert, at: &Instance, step: &mut Step) -> Option<Fail>
    requires fits { WellFormed cert.now }
    requires limits { InstanceLimits cert.now at.now }
    ensures { result ≡ return_fail (rest_in cert.now.rests (end_of cert.now at.now step.old).line) (end_of cert.now at.now step.old) }
{
    let exit = first_exit(step.exits.as_slice());
    put_at(
        &mut step.draft,
        &cert.schedule,
        at,
        step.emit,
        step.clears,
        exit,
    );
    return_fail(cert.rests.as_slice(), &step.draft)
}

/// Whether a result passes, narrowed by what its exit tells of main, or no state goes there. The narrower ranges stand in the result
/// while it is looked for, and the old ones again afterwards.
fn passes_narrowed(cert: &Cert, point: &Point, test: Test, exit: Exit, at: &mut Instance) -> bool
    requires fits { WellFormed cert.now }
    ensures passes { result ≡ passes cert.now point.now.next.items point.now.split (narrowed test exit at.old) }
    ensures stays { at.new ≡ at.old }
{
    match left_at(at, test, exit) {
        Some(left) => {
            let old = put_left(at, left);
            let passes = lies_or_is_covered(cert, point, at);
            put_left(at, old);
            passes
        }
        None => true,
    }
}

/// Whether a result passes.
fn passes(cert: &Cert, point: &Point, test: Test, exit: Exit, at: &mut Instance) -> bool
    requires fits { WellFormed cert.now }
    ensures passes { result ≡ passes cert.now point.now.next.items point.now.split (narrowed test exit at.old) }
    ensures stays { at.new ≡ at.old }
{
    match test {
        Test::Nothing => lies_or_is_covered(cert, point, at),
        _ => passes_narrowed(cert, point, test, exit, at),
    }
}

/// What is the same at each exit of a step.
#[derive(Clone, Copy)]
struct Way {
    /// What is emitted.
    emitted: Option<EventKind>,
    /// Whether the compare match is cleared.
    clears: bool,
    /// What is asked of main's state.
    test: Test,
}

/// Whether what is known after an instruction passes at each of these exits. `draft` is put to one exit after another, so that no list of
/// results is made.
fn lie_in_successors(
    cert: &Cert,
    point: &Point,
    at: &Instance,
    draft: &mut Instance,
    way: Way,
    exits: &[Exit],
) -> bool
    requires fits { WellFormed cert.now }
    requires limits { InstanceLimits cert.now at.now }
    ensures { result ≡ each_exit (λ exit. passes cert.now point.now.next.items point.now.split
        (narrowed way.test exit (at_exit (order_of cert.now.schedule) at.now draft.old way.emitted way.clears exit))) exits.now }
{
    for exit in exits {
        put_at(draft, &cert.schedule, at, way.emitted, way.clears, *exit);
        if !passes(cert, point, way.test, *exit, draft) {
            return false;
        }
    }
    true
}

/// Whether each result passes. The step's draft is put to one exit after another.
fn has_successors(cert: &Cert, point: &Point, at: &Instance, step: &mut Step) -> bool
    requires fits { WellFormed cert.now }
    requires limits { InstanceLimits cert.now at.now }
    ensures { result ≡ has_successors cert.now point.now.next.items point.now.split at.now step.old }
{
    let way = Way {
        emitted: step.emit,
        clears: step.clears,
        test: step.test,
    };
    lie_in_successors(cert, point, at, &mut step.draft, way, step.exits.as_slice())
}

/// Why the results of an instance are refused.
fn result_fail(cert: &Cert, point: &Point, at: &Instance, step: &mut Step) -> Option<Fail>
    requires fits { WellFormed cert.now }
    requires limits { InstanceLimits cert.now at.now }
    ensures { result ≡ result_fail cert.now point.now.next.items point.now.split at.now step.old }
{
    if step.back {
        end_fail(cert, at, step)
    } else {
        refuse_if(
            !has_successors(cert, point, at, step),
            Fail::Successor,
            None,
        )
    }
}

/// Whether what is emitted is the schedule's, which isn't asked of main.
fn compares_edges(cert: &Cert, at: &Instance, step: &Step) -> bool
    requires fits { WellFormed cert.now }
    requires limits { InstanceLimits cert.now at.now }
    ensures { result ≡ compares_edges cert.now at.now step.now }
{
    is_main(at) || edges_fit(&cert.schedule, at, step.emit, step.exits.as_slice())
}

/// Why an instance is refused, whose instruction has this step.
fn step_fail(
    cert: &Cert,
    point: &Point,
    at: &Instance,
    emits: bool,
    step: &mut Step,
) -> Option<Fail>
    requires fits { WellFormed cert.now }
    requires limits { InstanceLimits cert.now at.now }
    ensures { result ≡ step_fail cert.now point.now.next.items point.now.split at.now emits (Ok step.old) }
{
    if emits || !compares_edges(cert, at, step) {
        return Some(Fail::Edge);
    }
    result_fail(cert, point, at, step)
}

/// Why an instance is refused, under its instruction and the instruction's effect. `step` is room for its step, whatever it has.
pub(crate) fn instance_fail(
    image: &Image,
    cert: &Cert,
    point: &Point,
    i: &Instr,
    e: Effect,
    at: &Instance,
    step: &mut Step,
) -> Option<Fail>
    requires fits { WellFormed cert.now }
    requires limits { InstanceLimits cert.now at.now }
    requires effect { e ≡ effect_of i.now }
    requires operands { EffectFits e }
    ensures { result ≡ instance_fail image.now cert.now point.now.next.items point.now.split (Some i.now) (Some at.now) }
{
    let emits = is_main(at) && main_emits(e, at);
    match put_step(image, &cert.head, &cert.schedule, at, i, e, step) {
        Ok(()) => step_fail(cert, point, at, emits, step),
        Err(why) => Some(why),
    }
}

/// The answer where this is the reason.
pub(crate) fn answer(why: Option<Fail>) -> Result<(), Fail>
    ensures { reason result ≡ why }
{
    match why {
        Some(why) => Err(why),
        None => Ok(()),
    }
}

/// A point of the certificate.
pub(crate) fn point_of(cert: &Cert, id: u32) -> &Point
    requires { id < length cert.now.points }
    ensures { slice_get cert.now.points id ≡ Some result.now }
{
    &cert.points.as_slice()[id as usize]
}

/// The instruction at a pc, where there is one.
pub(crate) fn read_at(image: &Image, pc: u16) -> Option<Instr>
    ensures { IsReadAt image.now pc result }
{
    decode(image.word(word_after(pc, 0)), image.word(word_after(pc, 1)))
}

/// One more call is counted.
pub(crate) fn count(looked: &mut u64)
    ensures { looked.new ≡ counted looked.old }
{
    *looked = looked.saturating_add(1);
}

/// The local rule of point `id` at line `l` and count `c`: the least reason that stands, or none. The instruction is that at the point's
/// pc. Box where the point has no instance there. Adds one to `looked`, which stays at the greatest u64. Takes no memory.
pub fn local(
    image: &Image,
    cert: &Cert,
    id: u32,
    l: u16,
    c: u8,
    looked: &mut u64,
) -> Result<(), Fail>
    requires fits { WellFormed cert.now }
    requires point { id < length cert.now.points }
    ensures answer { IsLocal image.now cert.now id l c (reason result) }
    ensures counted { looked.new ≡ counted looked.old }
{
    Visit::new(image, cert, id).local(&mut LastInstance::none(), l, c, looked)
}

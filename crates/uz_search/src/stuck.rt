//! Why a trail is refused at an instance that has results.

ghost use Rattle.std.specs.Prelude.{◌≡◌, ◌<◌, ◌≤◌, ◌+◌, ◌↔◌, ◌≢◌, true, false, IsTrue, IfSome, IfNone, ℕ, length, slice_get};
ghost use Rattle.avr_table.specs.declared.Instr.{Instr};
ghost use Rattle.uz_schedule.specs.declared.kinds.Kind.TheVariants.{Main};
ghost use Rattle.uz_schedule.specs.declared.lines.EventKind.{EventKind};
ghost use Rattle.uz_transfer.specs.declared.fail.Fail.{Fail};
ghost use Rattle.uz_transfer.specs.Step.{IsReadAt};
ghost use Rattle.uz_rules.specs.Local.{row_emits_in_main};
ghost use Rattle.uz_search.specs.Following.{Among, clock_on as clock_of, shown_at};
ghost use Rattle.uz_search.specs.Stuck.{EmitsInMain, IsUnrestored, IsUnsteady, PassesUnsteady, StuckWith};
ghost use Rattle.uz_search.specs.Tests.{is_fall as falls, is_clear_at, is_clear_way};
ghost use Rattle.uz_schedule.specs.declared.states.Instance.{Instance};
ghost use Rattle.uz_rules.specs.Inside.{restored as restored_at};

use crate::passing::{clock_on, most_clocks, shown_after};
use crate::program::Program;
use avr_decode::{at_most_one, decode};
use avr_table::Instr;
use uz_core::effect;
use uz_hex::Image;
use uz_rules::{Next, restored};
use uz_schedule::{EventKind, Instance, Kind};
use uz_transfer::{Fail, main_emits, word_after};

/// Whether an instance is of main.
pub(crate) fn is_main(at: &Instance) -> bool
    ensures { IsTrue result ↔ (at.now.kind ≡ Main) }
{
    matches!(at.kind, Kind::Main)
}

/// The instruction at a pc, where there is one.
pub(crate) fn read_at(image: &Image, pc: u16) -> Option<Instr>
    ensures { IsReadAt image.now pc result }
{
    decode(image.word(word_after(pc, 0)), image.word(word_after(pc, 1)))
}

/// Whether the instruction of an instance in main stores what is seen outside.
fn row_emits(row: Option<Instr>, at: &Instance) -> bool
    ensures { result ≡ row_emits_in_main row at.now }
{
    match row {
        Some(i) => is_main(at) && main_emits(effect(&i), at),
        None => false,
    }
}

/// Whether an instance is of main, and its instruction stores what is seen outside.
fn emits_in_main(image: &Image, at: &Instance) -> bool
    ensures { IsTrue result ↔ EmitsInMain image.now at.now }
{
    at_most_one();
    row_emits(read_at(image, at.pc), at)
}

/// Whether an event is sync 0.
fn is_fall(event: EventKind) -> bool
    ensures { result ≡ falls event }
{
    match event {
        EventKind::Sync(level) => level == 0,
        EventKind::Pixel | EventKind::Sound | EventKind::Leave => false,
    }
}

/// Whether what is shown at a clock of a line is sync 0 exactly at the fall, and nothing before it.
fn is_clear(fall: u32, clock: u32, shown: Option<EventKind>) -> bool
    ensures { result ≡ is_clear_at fall clock shown }
{
    match shown {
        None => clock != fall,
        Some(event) => {
            if is_fall(event) {
                clock == fall
            } else {
                fall < clock
            }
        }
    }
}

/// Whether it is so that many clocks after an instance.
fn is_clear_after(program: &Program, at: &Instance, next: &Next, clocks: u32) -> bool
    requires { clocks ≤ 140000 }
    ensures { result ≡ is_clear_at program.now.schedule.fall (clock_of program.now at.now clocks) (shown_at next.now.emit clocks) }
{
    is_clear(
        u32::from(program.schedule.fall),
        clock_on(program, at, clocks),
        shown_after(next.emit, clocks),
    )
}

/// Whether it is so at each clock that an instance passes.
#[tactic(auto, using(crate::proofs::ClearWay::way_none, crate::proofs::ClearWay::way_more))]
fn passes_clear(program: &Program, at: &Instance, next: &Next, most: u32) -> bool
    requires { most < 140000 }
    ensures { result ≡ is_clear_way program.now at.now next.now.emit most }
{
    let mut clear = true;
    'each: for step in 0..most {
        clear = clear && is_clear_after(program, at, next, step + 1);
    }
    clear
}

/// Whether an instance outside main passes a clock that is unsteady.
fn passes_unsteady(program: &Program, at: &Instance, next: &Next) -> bool
    ensures { IsTrue result ↔ PassesUnsteady program.now at.now next.now }
{
    !is_main(at)
        && !passes_clear(
            program,
            at,
            next,
            most_clocks(program, at, next.out.as_slice()),
        )
}

/// Whether one of these ends isn't restored.
fn has_unrestored(ends: &[Instance]) -> bool
    ensures { IsTrue result ↔ ((end : Instance) × Among ends.now end × (restored_at end ≡ false)) }
{
    'each: for end in ends {
        if !restored(end) {
            return true;
        }
    }
    false
}

/// Whether results are a return from the handler that isn't restored.
fn is_unrestored(next: &Next) -> bool
    ensures { IsTrue result ↔ IsUnrestored next.now }
{
    next.back && has_unrestored(next.out.as_slice())
}

/// Why a trail that ends in this instance is refused, though it has these results.
pub(crate) fn stuck(image: &Image, program: &Program, at: &Instance, next: &Next) -> Option<Fail>
    ensures some { IfSome result (StuckWith image.now program.now at.now next.now) }
    ensures none { IfNone result ((why : Fail) → StuckWith image.now program.now at.now next.now why → ⊥) }
{
    if emits_in_main(image, at) {
        return Some(Fail::Edge);
    }
    if passes_unsteady(program, at, next) {
        return Some(Fail::Edge);
    }
    if is_unrestored(next) {
        return Some(Fail::Restore);
    }
    None
}

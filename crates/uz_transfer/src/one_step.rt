//! The abstract step of an instance under its instruction.

ghost use Rattle.std.specs.Prelude.{Some, ◌≡◌, ◌<◌, ◌≤◌, ◌+◌, ◌-◌, ◌%◌, true, None, length, Ok, Err, OnOk, IfErr};
ghost use Rattle.avr_table.specs.Rows.{words_of, clocks_of};
ghost use Rattle.uz_core.specs.Core.{sample_clock, returns_from_interrupt};
ghost use Rattle.uz_core.specs.Effects.{effect_of};
ghost use Rattle.uz_core.specs.OperandRanges.{EffectFits};
ghost use Rattle.avr_table.specs.declared.Outcome.TheVariants.{Next};
ghost use Rattle.uz_core.specs.declared.machine.Effect.TheVariants.{Return, SkipIf};
ghost use Rattle.uz_transfer.specs.Kinds.{depth_limit as limit_of_depth};
ghost use Rattle.uz_transfer.specs.Memory.{depth_of};
ghost use Rattle.uz_schedule.specs.Limits.{most_lines};
ghost use Rattle.uz_schedule.specs.Lines.{order_of};
ghost use Rattle.uz_schedule.specs.Schedule.{scanline, length_of};
ghost use Rattle.uz_transfer.specs.Refusals.{fail_of as fail_of_effect};
ghost use Rattle.uz_transfer.specs.Step.{draft_of as known_after, step_of_row, step_of as step_of_effect, IsStep};
ghost use Rattle.uz_transfer.specs.declared.fail.Fail.TheVariants.{Clock, Edge};

use crate::branch_test::test_of;
use crate::comparing::put_compared;
use crate::copies::copy_to;
use crate::emission::{clears, emission};
use crate::exits::exits;
use crate::fail::Fail;
use crate::in_time::clock_holds;
use crate::refusals::fail_of;
use crate::step::Step;
use crate::timer::put_timer;
use crate::transfer::transfer;
use avr_decode::decode;
use avr_table::{Instr, Outcome, clocks, words};
use uz_core::{Effect, effect};
use uz_hex::Image;
use uz_schedule::{Head, Instance, Schedule};

/// Whether an effect is RETI's.
pub(crate) fn is_return(e: Effect) -> bool
    ensures { result ≡ returns_from_interrupt e }
{
    matches!(
        e,
        Effect::Return {
            from_interrupt: true
        }
    )
}

/// How many clocks after the start an effect's loads sample.
fn sample(e: Effect, i: &Instr) -> u8
    ensures { result ≡ sample_clock e (clocks_of i.now) }
{
    match e {
        Effect::SkipIf { .. } => 0,
        _ => clocks(i, Outcome::Next).saturating_sub(1),
    }
}

/// The clock at which an instruction's loads sample, of a line of this length.
fn sampled(clock: u16, line_length: u16, late: u8) -> u16
    requires clock { clock < line_length }
    requires line { line_length ≤ scanline }
    ensures { result ≡ (clock + late) % line_length }
{
    (clock + late as u16) % line_length
}

/// The word address so many words on, round the flash of 32,768 words.
pub fn word_after(pc: u16, words: u8) -> u16
    ensures { result ≡ (pc + words) % 32768 }
{
    ((pc as u32 + words as u32) % 32768) as u16
}

/// Puts what is known after an instruction of `at` that isn't refused, wherever it leads, into a copy of `at`. `line_length` is that of
/// the instance's line, in clocks.
fn put_known(
    draft: &mut Instance,
    image: &Image,
    head: &Head,
    line_length: u16,
    at: &Instance,
    i: &Instr,
    e: Effect,
)
    requires copy { draft.old ≡ at.now }
    requires limits { limit_of_depth head.now at.now.kind ≤ 32 }
    requires clock { at.now.clock < line_length }
    requires line { line_length ≤ scanline }
    requires fits { EffectFits e }
    requires fine { fail_of_effect head.now e at.now ≡ None }
    ensures { draft.new ≡ known_after head.now line_length image.now e (words_of i.now) (clocks_of i.now) at.now }
{
    let following = word_after(at.pc, words(i));
    let sampled = sampled(at.clock, line_length, sample(e, i));
    transfer(draft, head, image, following, sampled, e);
    put_timer(draft, at, sampled, e);
    put_compared(draft, head, at, e);
}

/// Puts the abstract step of an instance under an instruction in place of another, in a frame of this schedule's lines. Where there is
/// none, it answers the reason, and what `step` then has isn't told. A caller that asks for many instances keeps one `Step`, so that
/// little is copied, and finds the instruction's effect `e` once. The head and the instance are within the limits of a certificate; the
/// schedule has at most 525 lines, the instance's line is one of them, no longer than a scanline, and its clock is one of that line.
/// Takes no memory.
pub fn put_step(
    image: &Image,
    head: &Head,
    schedule: &Schedule,
    at: &Instance,
    i: &Instr,
    e: Effect,
    step: &mut Step,
) -> Result<(), Fail>
    requires limits { limit_of_depth head.now at.now.kind ≤ 32 }
    requires count { length schedule.now.lines ≤ most_lines }
    requires line { at.now.line < length schedule.now.lines }
    requires long { length_of schedule.now at.now.line ≤ scanline }
    requires clock { at.now.clock < length_of schedule.now at.now.line }
    requires effect { e ≡ effect_of i.now }
    requires fits { EffectFits e }
    ensures ok { OnOk result (Ok step.new ≡ step_of_row head.now (order_of schedule.now) image.now (Some i.now) at.now) }
    ensures err { IfErr result (λ why. Err why ≡ step_of_row head.now (order_of schedule.now) image.now (Some i.now) at.now) }
{
    if let Some(why) = fail_of(head, e, at) {
        return Err(why);
    }
    let Some(emit) = emission(e, at) else {
        return Err(Fail::Edge);
    };
    step.exits = exits(at, head, image, i, e, word_after(at.pc, words(i)));
    if !clock_holds(schedule, e, at, step.exits.as_slice()) {
        return Err(Fail::Clock);
    }
    copy_to(&mut step.draft, at);
    put_known(
        &mut step.draft,
        image,
        head,
        schedule.length(at.line),
        at,
        i,
        e,
    );
    step.emit = emit;
    step.back = is_return(e);
    step.clears = clears(e, at);
    step.test = test_of(head, e, at);
    Ok(())
}

/// The abstract step of an instance under an instruction.
fn step_of(
    image: &Image,
    head: &Head,
    schedule: &Schedule,
    at: &Instance,
    i: &Instr,
) -> Result<Step, Fail>
    requires limits { limit_of_depth head.now at.now.kind ≤ 32 }
    requires count { length schedule.now.lines ≤ most_lines }
    requires line { at.now.line < length schedule.now.lines }
    requires long { length_of schedule.now at.now.line ≤ scanline }
    requires clock { at.now.clock < length_of schedule.now at.now.line }
    ensures { result ≡ step_of_effect head.now (order_of schedule.now) image.now (effect_of i.now) (words_of i.now) (clocks_of i.now)
        at.now }
{
    let mut step = Step::empty();
    match put_step(image, head, schedule, at, i, effect(i), &mut step) {
        Ok(()) => Ok(step),
        Err(why) => Err(why),
    }
}

/// The abstract step of an instance, in a frame of this schedule's lines. The head and the instance are within the limits of a
/// certificate; the schedule has at most 525 lines, the instance's line is one of them, no longer than a scanline, and its clock is
/// one of that line. A pc counts modulo 32,768 words. Takes no memory.
#[tactic(auto, using(crate::proofs::StepsOf::steps_none))]
pub fn abstract_step(
    image: &Image,
    head: &Head,
    schedule: &Schedule,
    at: &Instance,
) -> Result<Step, Fail>
    requires limits { limit_of_depth head.now at.now.kind ≤ 32 }
    requires count { length schedule.now.lines ≤ most_lines }
    requires line { at.now.line < length schedule.now.lines }
    requires long { length_of schedule.now at.now.line ≤ scanline }
    requires clock { at.now.clock < length_of schedule.now at.now.line }
    ensures { IsStep head.now (order_of schedule.now) image.now at.now result }
{
    match decode(
        image.word(word_after(at.pc, 0)),
        image.word(word_after(at.pc, 1)),
    ) {
        Some(i) => step_of(image, head, schedule, at, &i),
        None => Err(Fail::Opcode),
    }
}

//! Where an instruction leads.

ghost use Rattle.std.specs.Prelude.{◌≡◌, ◌<◌, ◌≤◌, ◌+◌, ◌-◌, ◌%◌, ◌∷◌, ◌++◌, [], false, true, Option, None, Some, ◌&&◌};
ghost use Rattle.std.specs.Prelude.{nat_le, ◌||◌, nat_lt, ◌*◌, map, suc};
ghost use Rattle.avr_table.specs.Rows.{clocks_of};
ghost use Rattle.uz_core.specs.OperandRanges.{EffectFits, SkipTestFits, JumpTargetFits};
ghost use Rattle.avr_table.specs.declared.Outcome.TheVariants.{Next, Taken};
ghost use Rattle.uz_core.specs.declared.machine.Effect.TheVariants.{Jump, Return, Branch, SkipIf};
ghost use Rattle.uz_transfer.specs.Exits.{outcomes, decided as decides_it, flag_of_kind as flag_by_kind};
ghost use Rattle.uz_transfer.specs.Exits.{are_equal as are_equal_bytes, test_decides as test_decided};
ghost use Rattle.uz_transfer.specs.Exits.{choices as choices_of, skip_outcome as outcome_of_skip, numbers_from};
ghost use Rattle.uz_transfer.specs.Exits.{skipped as words_skipped};
ghost use Rattle.uz_transfer.specs.Memory.{depth_of};
ghost use Rattle.uz_transfer.specs.Refusals.{fail_of as fail_of_effect, target_fails as fails_target};
ghost use Rattle.uz_transfer.specs.Step.{exits_of};

use crate::arithmetic::known;
use crate::memory::{is_main, slot};
use crate::step::Exit;
use crate::values::{flag, is_single, pair_range, span, span_of};
use arrayvec::ArrayVec;
use avr_decode::length as words_by_first;
use avr_table::{Instr, Outcome, clocks};
use uz_core::{Effect, JumpTarget, SkipTest};
use uz_hex::Image;
use uz_range::bst;
use uz_schedule::{Bit, Head, Instance, Span, Wide};

/// What a flag that must have this value decided.
fn decided(b: Bit, set: bool) -> Option<bool>
    ensures { result ≡ decides_it b set }
{
    match b {
        Bit::Zero => Some(!set),
        Bit::One => Some(set),
        _ => None,
    }
}

/// A flag of SREG; I is the kind's.
fn flag_of_kind(at: &Instance, k: u8) -> Bit
    requires { k < 8 }
    ensures { result ≡ flag_by_kind at.now k }
{
    if k < 7 {
        flag(at, k)
    } else {
        known(is_main(at.kind))
    }
}

/// Whether two bytes are equal, where that is known.
fn are_equal(a: &Span, b: &Span) -> Option<bool>
    ensures { result ≡ are_equal_bytes a.now b.now }
{
    if is_single(a) && is_single(b) && a.lo() == b.lo() {
        Some(true)
    } else if a.hi() < b.lo() || b.hi() < a.lo() {
        Some(false)
    } else {
        None
    }
}

/// Whether a skip skips, where that is known.
fn test_decides(at: &Instance, test: SkipTest) -> Option<bool>
    requires { SkipTestFits test }
    ensures { result ≡ test_decided test at.now }
{
    match test {
        SkipTest::Equal { d, r } => if d == r {
            Some(true)
        } else {
            are_equal(&span(at, d), &span(at, r))
        },
        SkipTest::RegisterBit { r, bit, set } => decided(bst(span(at, r), bit), set),
        SkipTest::IoBit { .. } => None,
    }
}

/// Over how many words a skip goes.
fn skip_outcome(image: &Image, following: u16) -> Outcome
    requires { following < 32768 }
    ensures { result ≡ outcome_of_skip image.now following }
{
    if words_by_first(image.word(following)) == 2 {
        Outcome::SkipTwo
    } else {
        Outcome::SkipOne
    }
}

/// The words that are skipped.
fn skipped(o: Outcome) -> u8
    ensures { result ≡ words_skipped o }
{
    match o {
        Outcome::SkipOne => 1,
        Outcome::SkipTwo => 2,
        _ => 0,
    }
}

/// An exit by an outcome.
fn exit(i: &Instr, o: Outcome, pc: u16) -> Exit
    ensures { result ≡ record { pc = pc; clocks = clocks_of i.now o } }
{
    Exit {
        pc,
        clocks: clocks(i, o),
    }
}

/// The one exit.
fn one(exit: Exit) -> ArrayVec<Exit, 16>
    ensures { result.items ≡ exit ∷ [] }
{
    let mut exits = ArrayVec::new();
    exits.push(exit);
    exits
}

/// The exits of a choice: on, or away.
fn chosen(decision: Option<bool>, on: Exit, away: Exit) -> ArrayVec<Exit, 16>
    ensures yes { decision ≡ Some true → result.items ≡ away ∷ [] }
    ensures no { decision ≡ Some false → result.items ≡ on ∷ [] }
    ensures both { decision ≡ None → result.items ≡ on ∷ away ∷ [] }
{
    match decision {
        Some(true) => one(away),
        Some(false) => one(on),
        None => {
            let mut exits = one(on);
            exits.push(away);
            exits
        }
    }
}

/// A word address moved on, round the flash.
fn moved(pc: u16, words: u16) -> u16
    requires pc { pc < 32768 }
    requires words { words < 32768 }
    ensures { result ≡ (pc + words) % 32768 }
{
    (pc + words) % 32768
}

/// BRBS, BRBC.
pub fn branch(
    at: &Instance,
    i: &Instr,
    following: u16,
    k: u8,
    set: bool,
    offset: u16,
) -> ArrayVec<Exit, 16>
    requires following { following < 32768 }
    requires fits { EffectFits (Branch k set offset) }
    ensures { result.items ≡ exits_of (Branch k set offset) (clocks_of i.now) following at.now
        (choices_of (decides_it (flag_by_kind at.now k) set) Taken) }
{
    let on = exit(i, Outcome::Next, following);
    let away = exit(i, Outcome::Taken, moved(following, offset));
    chosen(decided(flag_of_kind(at, k), set), on, away)
}

/// CPSE, SBRC, SBRS, SBIC, SBIS.
pub fn skip(
    at: &Instance,
    image: &Image,
    i: &Instr,
    following: u16,
    test: SkipTest,
) -> ArrayVec<Exit, 16>
    requires following { following < 32768 }
    requires fits { SkipTestFits test }
    ensures { result.items ≡ exits_of (SkipIf test) (clocks_of i.now) following at.now
        (choices_of (test_decided test at.now) (outcome_of_skip image.now following)) }
{
    let over = skip_outcome(image, following);
    let on = exit(i, Outcome::Next, moved(following, 0));
    let away = exit(i, over, moved(following, skipped(over) as u16));
    chosen(test_decides(at, test), on, away)
}

/// RJMP, JMP, IJMP and calls. The target is known.
pub(crate) fn jump(
    at: &Instance,
    i: &Instr,
    following: u16,
    target: JumpTarget,
    call: bool,
) -> ArrayVec<Exit, 16>
    requires following { following < 32768 }
    requires fits { JumpTargetFits target }
    requires known { fails_target target at.now ≡ false }
    ensures { result.items ≡ exits_of (Jump target call) (clocks_of i.now) following at.now (Next ∷ []) }
{
    match target {
        JumpTarget::Absolute(k) => one(exit(i, Outcome::Next, k)),
        JumpTarget::Relative(k) => one(exit(i, Outcome::Next, moved(following, k))),
        JumpTarget::Indirect => indirect(pair_range(at, 30), clocks(i, Outcome::Next)),
    }
}

/// The exits to each word of a range.
fn indirect(z: Wide, clocks: u8) -> ArrayVec<Exit, 16>
    requires { (nat_le (16 + z.lo) z.hi || nat_lt 0x7FFF z.hi) ≡ false }
    ensures { result.items ≡ map (λ pc. record { pc = pc; clocks = clocks }) (numbers_from z.lo (suc z.hi - z.lo)) ++ [] }
{
    let mut exits = ArrayVec::new();
    let first = z.lo();
    let last = z.hi();
    for pc in first..last + 1 {
        exits.push(Exit { pc, clocks });
    }
    exits
}

/// RET, whose two slots are known.
pub(crate) fn returned(at: &Instance, i: &Instr, following: u16) -> ArrayVec<Exit, 16>
    requires { 2 ≤ depth_of at.now }
    ensures { result.items ≡ exits_of (Return false) (clocks_of i.now) following at.now (Next ∷ []) }
{
    let _ = following; // said of in the contract alone
    let high = span_of(&slot(at, 1)).lo() as u16;
    let low = span_of(&slot(at, 2)).lo() as u16;
    one(exit(i, Outcome::Next, (low + 256 * high) % 32768))
}

/// Onward, at one pc.
pub(crate) fn onward(i: &Instr, pc: u16) -> ArrayVec<Exit, 16>
    ensures { result.items ≡ record { pc = pc; clocks = clocks_of i.now Next } ∷ [] }
{
    one(exit(i, Outcome::Next, pc))
}

/// Where it goes. The effect isn't refused.
pub(crate) fn exits(
    at: &Instance,
    head: &Head,
    image: &Image,
    i: &Instr,
    e: Effect,
    following: u16,
) -> ArrayVec<Exit, 16>
    requires following { following < 32768 }
    requires fits { EffectFits e }
    requires fine { fail_of_effect head.now e at.now ≡ None }
    ensures { result.items ≡ exits_of e (clocks_of i.now) following at.now (outcomes image.now following e at.now) }
{
    match e {
        Effect::Branch { flag, set, offset } => branch(at, i, following, flag, set, offset),
        Effect::SkipIf { test } => skip(at, image, i, following, test),
        Effect::Jump { target, call } => jump_known(at, head, i, following, target, call),
        Effect::Return {
            from_interrupt: false,
        } => return_known(at, head, i, following),
        Effect::Return {
            from_interrupt: true,
        } => onward(i, at.pc % 32768),
        _ => onward(i, following),
    }
}

/// The exits of a jump that isn't refused.
#[tactic(auto, using(crate::proofs::Refused::jump_known))]
fn jump_known(
    at: &Instance,
    head: &Head,
    i: &Instr,
    following: u16,
    target: JumpTarget,
    call: bool,
) -> ArrayVec<Exit, 16>
    requires following { following < 32768 }
    requires fits { EffectFits (Jump target call) }
    requires fine { fail_of_effect head.now (Jump target call) at.now ≡ None }
    ensures { result.items ≡ exits_of (Jump target call) (clocks_of i.now) following at.now (Next ∷ []) }
{
    let _ = head; // said of in the contract alone
    jump(at, i, following, target, call)
}

/// The exit of RET that isn't refused.
#[tactic(auto, using(crate::proofs::Refused::return_slots))]
fn return_known(at: &Instance, head: &Head, i: &Instr, following: u16) -> ArrayVec<Exit, 16>
    requires { fail_of_effect head.now (Return false) at.now ≡ None }
    ensures { result.items ≡ exits_of (Return false) (clocks_of i.now) following at.now (Next ∷ []) }
{
    let _ = head; // said of in the contract alone
    returned(at, i, following)
}

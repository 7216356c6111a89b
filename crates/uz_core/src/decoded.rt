//! An instruction with what the instruction table says of its row.

ghost use Rattle.std.specs.Prelude.{◌≡◌, ◌<◌, ◌↔◌, IsTrue};
ghost use Rattle.avr_table.specs.Rows.{clocks_of};
ghost use Rattle.uz_core.specs.declared.machine.Effect.TheVariants.{Stop};
ghost use Rattle.uz_core.specs.Effects.{effect_of};
ghost use Rattle.uz_core.specs.Core.{sample_clock, owes_instruction, returns_from_interrupt};
ghost use Rattle.uz_core.specs.OperandRanges.{EffectFits};
ghost use Rattle.uz_core.specs.RowClocks.{clocks_in};

use crate::Effect;
use crate::effects::effect;
use crate::internal::Internal;
use crate::known_store::KnownStore;
use crate::operation::I;
use avr_decode::decode;
use avr_table::{Instr, Outcome, clocks, words};

/// The clocks of a row by outcome.
#[derive(Clone, Copy)]
pub(crate) struct Clocks {
    pub(crate) next: u8,
    pub(crate) taken: u8,
    pub(crate) skip_one: u8,
    pub(crate) skip_two: u8,
}

/// What a step needs of an instruction: its row's effect, words and clocks, and what follows from them, so that no step finds
/// them anew.
#[derive(Clone, Copy)]
pub(crate) struct Decoded {
    pub(crate) effect: Effect,
    pub(crate) words: u8,
    /// The clocks from the instruction's start to where its loads are sampled.
    pub(crate) late: u8,
    pub(crate) clocks: Clocks,
    ghost short: { words < 3 },
    ghost late_is: { late ≡ sample_clock effect (clocks_in clocks) },
}

/// What is read at a word of the flash.
#[derive(Clone, Copy)]
pub(crate) enum Reading {
    /// An instruction that touches the core alone.
    Internal(Internal),
    /// An instruction that makes one store, to an address that is known, and nothing else.
    Stores(KnownStore),
    /// Another instruction that runs.
    Runs(Decoded),
    /// SPM, which this project's profile leaves out.
    Spm,
    /// Words that no row of the instruction table reads.
    NoRow,
}

impl Clocks {
    /// The clocks of an instruction's row.
    #[tactic(auto, using(crate::proofs::Decoding::same_clocks))]
    fn of(i: &Instr) -> Clocks
        ensures { clocks_in result ≡ clocks_of i.now }
    {
        Clocks {
            next: clocks(i, Outcome::Next),
            taken: clocks(i, Outcome::Taken),
            skip_one: clocks(i, Outcome::SkipOne),
            skip_two: clocks(i, Outcome::SkipTwo),
        }
    }

    /// The clocks with this outcome.
    #[inline(always)]
    pub(crate) fn at(self, outcome: Outcome) -> u8
        ensures { result ≡ clocks_in self outcome }
    {
        match outcome {
            Outcome::Next => self.next,
            Outcome::Taken => self.taken,
            Outcome::SkipOne => self.skip_one,
            Outcome::SkipTwo => self.skip_two,
        }
    }
}

impl Decoded {
    ghost use Rattle.uz_core.specs.Programs.{IsDecoded};

    fn of(i: &Instr) -> Decoded
        ensures { IsDecoded i.now result }
    {
        let effect = effect(i);
        let clocks = Clocks::of(i);
        Decoded {
            effect,
            words: words(i),
            late: sample_clock(effect, clocks),
            clocks,
        }
    }
}

impl Reading {
    ghost use Rattle.std.specs.Prelude.{ℕ, ◌+◌, ◌%◌};
    ghost use Rattle.std.specs.Ordering.{nat_cmp};
    ghost use Rattle.std.specs.FinMap.{FinMap};
    ghost use Rattle.uz_hex.specs.Cells.{word_of};
    ghost use Rattle.uz_core.specs.Programs.{IsReading, IsRunning};

    /// An instruction that was decoded at this address, in the form that runs fastest.
    fn running(at: u16, decoded: Decoded) -> Reading
        requires at { at < 32768 }
        requires fits { EffectFits decoded.effect }
        ensures { IsRunning at decoded result }
    {
        match Internal::of(at, &decoded) {
            Some(internal) => Reading::Internal(internal),
            None => match KnownStore::of(at, &decoded) {
                Some(known) => Reading::Stores(known),
                None => Reading::Runs(decoded),
            },
        }
    }

    /// What is read in two words: the one at this address and the next one.
    pub(crate) fn of(at: u16, first: u16, second: u16) -> Reading
        requires { at < 32768 }
        ensures { (image : FinMap nat_cmp ℕ) → first ≡ word_of image at → second ≡ word_of image ((at + 1) % 32768)
            → IsReading image at result }
    {
        match &decode(first, second) {
            None => Reading::NoRow,
            Some(i) => {
                let decoded = Decoded::of(i);
                if stops(decoded.effect) {
                    Reading::Spm
                } else {
                    Reading::running(at, decoded)
                }
            }
        }
    }
}

/// How many clocks after the start a load is sampled: a skip's test at the start, all else one clock before the end.
fn sample_clock(e: Effect, clocks: Clocks) -> u8
    ensures { result ≡ sample_clock e (clocks_in clocks) }
{
    match e {
        Effect::SkipIf { .. } => 0,
        _ => clocks.next.saturating_sub(1),
    }
}

/// Whether one more instruction is made before the next interrupt.
pub(crate) fn owes_instruction(e: Effect) -> bool
    ensures { result ≡ owes_instruction e }
{
    match e {
        Effect::WriteFlag { flag, set } => set && flag == I,
        Effect::Return { from_interrupt } => from_interrupt,
        _ => false,
    }
}

/// Whether it is RETI.
pub(crate) fn returns_from_interrupt(e: Effect) -> bool
    ensures { result ≡ returns_from_interrupt e }
{
    match e {
        Effect::Return {
            from_interrupt: true,
        } => true,
        _ => false,
    }
}

fn stops(e: Effect) -> bool
    ensures { IsTrue result ↔ (e ≡ Stop) }
{
    match e {
        Effect::Stop => true,
        _ => false,
    }
}

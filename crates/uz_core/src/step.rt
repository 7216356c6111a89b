//! One instruction, and an interrupt's entry.

ghost use Rattle.std.specs.Prelude.{◌≡◌, ◌≢◌, ◌<◌, ◌≤◌, ◌+◌, ◌-◌, [], ◌∷◌, filter};
ghost use Rattle.uz_core.specs.declared.machine.Effect.TheVariants.{Stop};
ghost use Rattle.uz_core.specs.Core.{Core, LoadModel, changed_core, loaded_bytes, content_after_loads};
ghost use Rattle.uz_core.specs.Core.{load_addresses, stores_of, pc_stores, leaves_core, next_pc, outcome_of};
ghost use Rattle.uz_core.specs.Core.{interrupted_core};
ghost use Rattle.uz_core.specs.OperandRanges.{EffectFits};
ghost use Rattle.uz_core.specs.KnownStores.{StoreFits};
ghost use Rattle.uz_core.specs.Programs.{IsReading, decoded_result};
ghost use Rattle.uz_core.specs.Steps.{IsStep};
ghost use Rattle.uz_core.specs.declared.step.Step.TheVariants.{Took};

use crate::address::TIMER1_COMPA;
use crate::decoded::{Decoded, Reading, owes_instruction, returns_from_interrupt};
use crate::instruction::bit_equals;
use crate::operation::{I, with_bit};
use crate::program::{Program, read_at};
use crate::{Cpu, Data, Effect, HeldStore};
use avr_decode::length;
use avr_table::Outcome;
use uz_hex::Image;

/// Why a step stopped.
#[derive(Clone, Copy, Debug)]
pub enum Why {
    /// No row of the instruction table reads the words at pc. It holds the first word.
    Opcode(u16),
    /// SPM, which this project's profile leaves out.
    Spm,
}

/// What a step did.
#[derive(Clone, Copy)]
pub enum Step {
    /// One instruction, of so many clocks. `owed` is true exactly after RETI and BSET 7: one more instruction is made
    /// before the next interrupt. `returned` is true exactly after RETI.
    Took {
        clocks: u8,
        owed: bool,
        returned: bool,
    },
    /// Nothing: core and data space are unchanged.
    Stopped(Why),
}

/// Holds a store for the turn's end.
fn hold<D: Data>(space: &mut D, store: HeldStore)
    requires fits { StoreFits store }
    requires free { D.held space.old ≡ [] }
    ensures held { D.held space.new ≡ store ∷ [] }
    ensures content { D.content space.new ≡ D.content space.old }
{
    match store {
        HeldStore::Byte { at, value } => space.store(at, value),
        HeldStore::Bit { at, bit, set } => space.bit(at, bit, set),
    }
}

impl Cpu {
    /// Makes an effect of a row with these words, its loads sampled at this clock. Answers the outcome.
    fn perform<D: Data>(
        &mut self,
        e: &Effect,
        flash: &Image,
        words: u8,
        late: u8,
        space: &mut D,
    ) -> Outcome
        requires fits { EffectFits e.now }
        requires words { words < 3 }
        requires free { D.held space.old ≡ [] }
        requires runs { e.now ≢ Stop }
        ensures core { let loaded = loaded_bytes D.model self.old late (D.content space.old)
            (load_addresses e.now self.old) in self.new
            ≡ record (changed_core e.now flash.now words loaded self.old)
            { pc = next_pc e.now result words loaded self.old } }
        ensures content { D.content space.new ≡ content_after_loads D.model late (D.content space.old) (load_addresses e.now self.old) }
        ensures held { D.held space.new ≡ filter leaves_core (stores_of e.now words self.old) }
        ensures outcome { let loaded = loaded_bytes D.model self.old late (D.content space.old)
            (load_addresses e.now self.old) in result ≡ outcome_of e.now flash.now words loaded self.old }
    {
        let following = self.following_pc(words);
        let _same = following;
        match *e {
            Effect::NoOperation => {}
            Effect::CopyByte { d, source } => self.copy_byte(d, source),
            Effect::CopyPair { d, r } => self.copy_pair(d, r),
            Effect::Binary {
                op,
                d,
                source,
                compare,
            } => self.binary(op, d, source, compare),
            Effect::Unary { op, d } => self.unary(op, d),
            Effect::AddToPair {
                d,
                constant,
                subtract,
            } => self.add_to_pair(d, constant, subtract),
            Effect::Multiply {
                d,
                r,
                d_signed,
                r_signed,
                shifted,
            } => self.multiply(d, r, d_signed, r_signed, shifted),
            Effect::Load { d, from } => self.load(space, d, from, late),
            Effect::Store { to, r } => self.store(space, to, r),
            Effect::PushByte { r } => self.push_byte(space, r),
            Effect::PopByte { d } => self.pop_byte(space, d, late),
            Effect::LoadProgram { d, increment } => self.load_program(flash, d, increment),
            Effect::WriteIoBit { address, bit, set } => space.bit(u16::from(address), bit, set),
            Effect::WriteFlag { flag, set } => self.write_flag(flag, set),
            Effect::LoadBit { d, bit } => self.load_bit(d, bit),
            Effect::StoreBit { d, bit } => self.store_bit(d, bit),
            Effect::Branch { flag, set, offset } => {
                if bit_equals(self.sreg(), flag, set) {
                    self.set_pc((following + offset) % 32768);
                    return Outcome::Taken;
                }
            }
            Effect::SkipIf { test } => {
                if self.test_holds(space, test, late) {
                    if length(flash.word(following)) == 2 {
                        self.set_pc((following + 2) % 32768);
                        return Outcome::SkipTwo;
                    }
                    self.set_pc((following + 1) % 32768);
                    return Outcome::SkipOne;
                }
            }
            Effect::Jump { target, call } => {
                let target = self.jump_address(target, words);
                if call {
                    self.push_pc(space, following);
                }
                self.set_pc(target);
                return Outcome::Next;
            }
            Effect::Return { from_interrupt } => {
                let pc = self.pop_pc(space, late, from_interrupt);
                self.set_pc(pc);
                return Outcome::Next;
            }
            Effect::Stop => {}
        }
        self.set_pc(following);
        Outcome::Next
    }

    /// Runs an instruction that was decoded.
    fn execute<D: Data>(&mut self, decoded: &Decoded, flash: &Image, space: &mut D) -> Step
        requires free { D.held space.old ≡ [] }
        requires fits { EffectFits decoded.now.effect }
        requires runs { decoded.now.effect ≢ Stop }
        ensures core { self.new ≡ (decoded_result D.model flash.now decoded.now self.old (D.content space.old)).core }
        ensures content { D.content space.new ≡ (decoded_result D.model flash.now decoded.now self.old (D.content space.old)).content }
        ensures held { D.held space.new ≡ (decoded_result D.model flash.now decoded.now self.old (D.content space.old)).stores }
        ensures took { let r = decoded_result D.model flash.now decoded.now self.old (D.content space.old) in result
            ≡ Took r.clocks r.owed r.returned }
    {
        let outcome = self.perform(&decoded.effect, flash, decoded.words, decoded.late, space);
        Step::Took {
            clocks: decoded.clocks.at(outcome),
            owed: owes_instruction(decoded.effect),
            returned: returns_from_interrupt(decoded.effect),
        }
    }

    /// Runs what is read at pc.
    #[inline(always)]
    fn run<D: Data>(&mut self, reading: &Reading, flash: &Image, space: &mut D) -> Step
        requires free { D.held space.old ≡ [] }
        requires reading { IsReading flash.now self.old.pc reading.now }
        ensures { IsStep D.model flash.now self.old (D.content space.old) self.new (D.content space.new) (D.held space.new) result }
    {
        match reading {
            Reading::Internal(internal) => Step::Took {
                clocks: self.act(internal),
                owed: false,
                returned: false,
            },
            Reading::Stores(known) => {
                let store = self.pass_store(known);
                hold(space, store);
                Step::Took {
                    clocks: known.clocks,
                    owed: false,
                    returned: false,
                }
            }
            Reading::Runs(decoded) => self.execute(decoded, flash, space),
            Reading::Spm => Step::Stopped(Why::Spm),
            Reading::NoRow => Step::Stopped(Why::Opcode(flash.word(self.pc()))),
        }
    }

    /// Runs one instruction, of the instruction table, over any data space. The data space's own part is done by its
    /// loads, sampled as the table of phases says, and by the stores that it then holds, at most two and in order.
    ///
    /// Stopped comes exactly where no row reads the words at pc, or where the row is SPM; all is then unchanged.
    pub fn step<D: Data>(&mut self, flash: &Image, space: &mut D) -> Step
        requires { D.held space.old ≡ [] }
        ensures { IsStep D.model flash.now self.old (D.content space.old) self.new (D.content space.new) (D.held space.new) result }
    {
        let reading = read_at(flash, self.pc());
        self.run(&reading, flash, space)
    }

    /// Runs one instruction, as `step` does over the program's image, without decoding its words again.
    #[inline(always)]
    pub fn step_in<D: Data>(&mut self, program: &Program, space: &mut D) -> Step
        requires { D.held space.old ≡ [] }
        ensures { IsStep D.model program.now self.old (D.content space.old) self.new (D.content space.new) (D.held space.new) result }
    {
        self.run(program.reading(self.pc()), program.image(), space)
    }

    /// Makes the core's part of an interrupt's entry: pushes pc as a call does, then clears I, then sets pc to 0x001A,
    /// the vector of TIMER1_COMPA.
    pub fn interrupt<D: Data>(&mut self, space: &mut D)
        requires { D.held space.old ≡ [] }
        ensures core { self.new ≡ interrupted_core self.old }
        ensures held { D.held space.new ≡ filter leaves_core (pc_stores self.old.pc self.old) }
        ensures content { D.content space.new ≡ D.content space.old }
    {
        let pc = self.pc();
        self.push_pc(space, pc);
        let sreg = with_bit(I, false, self.sreg());
        self.set_sreg(sreg);
        self.set_pc(TIMER1_COMPA);
    }
}

//! What each effect makes of the core and of the data space.

ghost use Rattle.std.specs.Prelude.{◌≡◌, ◌≢◌, ◌<◌, ◌+◌, ◌-◌, ◌++◌, ◌∷◌, [], length, slice_index, filter, fold, ◌%◌, ◌*◌, true, false};
ghost use Rattle.std.specs.FinMap as map;
ghost use Rattle.uz_core.specs.declared.machine.HeldStore.TheVariants.{Byte, Bit};
ghost use Rattle.uz_core.specs.declared.machine.Effect.TheVariants.{CopyByte, CopyPair, Binary, Unary, AddToPair, Multiply};
ghost use Rattle.uz_core.specs.declared.machine.Effect.TheVariants.{Load, Store, PushByte, PopByte, LoadProgram, WriteIoBit};
ghost use Rattle.uz_core.specs.declared.machine.Effect.TheVariants.{WriteFlag, LoadBit, StoreBit, Branch, SkipIf, Jump};
ghost use Rattle.uz_core.specs.declared.machine.Effect.TheVariants.{Return};
ghost use Rattle.uz_core.specs.Core.{Core, LoadModel, test_holds, bit_equals, jump_address, load_addresses, with_sp};
ghost use Rattle.uz_core.specs.Core.{changed_core, loaded_bytes, content_after_loads, with_store, leaves_core};
ghost use Rattle.uz_core.specs.Core.{stores_of, pc_stores, following_pc};
ghost use Rattle.uz_core.specs.OperandRanges.{EffectFits, SkipTestFits, JumpTargetFits};

use crate::address::is_core_address;
use crate::arithmetic::mul16;
use crate::operation::{I, T, add_to_pair, binary, bit_is_set, unary, with_bit};
use crate::{AddressMode, BinaryOp, Cpu, Data, JumpTarget, Operand, SkipTest, UnaryOp};
use uz_hex::{ERASED, Image};

impl Cpu {
    /// Reads a byte of the whole data space. The core's own addresses don't reach `space`.
    pub(crate) fn read<D: Data>(&self, space: &mut D, at: u16, late: u8) -> u8
        ensures byte { result ≡ slice_index (loaded_bytes D.model self.now late (D.content space.old) (at ∷ [])) 0 }
        ensures after { D.content space.new ≡ content_after_loads D.model late (D.content space.old) (at ∷ []) }
        ensures held { D.held space.new ≡ D.held space.old }
    {
        if is_core_address(at) {
            self.core_byte(at)
        } else {
            space.load(at, late)
        }
    }

    /// Makes a store to one of the core's own addresses, or holds it for the turn's end.
    pub(crate) fn write<D: Data>(&mut self, space: &mut D, at: u16, value: u8)
        requires { length (D.held space.old) < 2 }
        ensures core { self.new ≡ with_store self.old (Byte at value) }
        ensures held { D.held space.new ≡ D.held space.old ++ filter leaves_core (Byte at value ∷ []) }
        ensures content { D.content space.new ≡ D.content space.old }
    {
        if is_core_address(at) {
            self.set_core_byte(at, value);
        } else {
            space.store(at, value);
        }
    }

    pub(crate) fn copy_byte(&mut self, d: u8, source: Operand)
        requires { EffectFits (CopyByte d source) }
        ensures { self.new ≡ changed_core (CopyByte d source) map.empty 0 [] self.old }
    {
        let value = self.operand(source);
        self.set_reg(d, value);
    }

    pub(crate) fn copy_pair(&mut self, d: u8, r: u8)
        requires { EffectFits (CopyPair d r) }
        ensures { self.new ≡ changed_core (CopyPair d r) map.empty 0 [] self.old }
    {
        let value = self.pair(r);
        self.set_pair(d, value);
    }

    pub(crate) fn binary(&mut self, op: BinaryOp, d: u8, source: Operand, compare: bool)
        requires { EffectFits (Binary op d source compare) }
        ensures { self.new ≡ changed_core (Binary op d source compare) map.empty 0 [] self.old }
    {
        let (result, flags) = binary(op, self.reg(d), self.operand(source), self.sreg());
        if !compare {
            self.set_reg(d, result);
        }
        self.merge_flags(flags);
    }

    pub(crate) fn unary(&mut self, op: UnaryOp, d: u8)
        requires { EffectFits (Unary op d) }
        ensures { self.new ≡ changed_core (Unary op d) map.empty 0 [] self.old }
    {
        let (result, flags) = unary(op, self.reg(d), self.sreg());
        self.set_reg(d, result);
        self.merge_flags(flags);
    }

    pub(crate) fn add_to_pair(&mut self, d: u8, constant: u8, subtract: bool)
        requires { EffectFits (AddToPair d constant subtract) }
        ensures { self.new ≡ changed_core (AddToPair d constant subtract) map.empty 0 [] self.old }
    {
        let (result, flags) = add_to_pair(subtract, self.pair(d), constant);
        self.set_pair(d, result);
        self.merge_flags(flags);
    }

    pub(crate) fn multiply(&mut self, d: u8, r: u8, d_signed: bool, r_signed: bool, shifted: bool)
        requires { EffectFits (Multiply d r d_signed r_signed shifted) }
        ensures { self.new ≡ changed_core (Multiply d r d_signed r_signed shifted) map.empty 0 [] self.old }
    {
        let (result, flags) = mul16(self.reg(d), self.reg(r), d_signed, r_signed, shifted);
        self.set_pair(0, result);
        self.merge_flags(flags);
    }

    pub(crate) fn load<D: Data>(&mut self, space: &mut D, d: u8, from: AddressMode, late: u8)
        requires { EffectFits (Load d from) }
        ensures core { self.new ≡ changed_core (Load d from) map.empty 0
            (loaded_bytes D.model self.old late (D.content space.old) (load_addresses (Load d from) self.old)) self.old }
        ensures after { D.content space.new ≡ content_after_loads D.model late (D.content space.old)
            (load_addresses (Load d from) self.old) }
        ensures held { D.held space.new ≡ D.held space.old }
    {
        let at = self.effective_address(from);
        let value = self.read(space, at, late);
        self.step_pointer(from, at);
        self.set_reg(d, value);
    }

    pub(crate) fn store<D: Data>(&mut self, space: &mut D, to: AddressMode, r: u8)
        requires fits { EffectFits (Store to r) }
        requires free { D.held space.old ≡ [] }
        ensures core { self.new ≡ changed_core (Store to r) map.empty 0 [] self.old }
        ensures held { D.held space.new ≡ filter leaves_core (stores_of (Store to r) 0 self.old) }
        ensures content { D.content space.new ≡ D.content space.old }
    {
        let at = self.effective_address(to);
        self.write(space, at, self.reg(r));
        self.step_pointer(to, at);
    }

    pub(crate) fn push_byte<D: Data>(&mut self, space: &mut D, r: u8)
        requires fits { EffectFits (PushByte r) }
        requires free { D.held space.old ≡ [] }
        ensures core { self.new ≡ changed_core (PushByte r) map.empty 0 [] self.old }
        ensures held { D.held space.new ≡ filter leaves_core (stores_of (PushByte r) 0 self.old) }
        ensures content { D.content space.new ≡ D.content space.old }
    {
        let sp = self.sp();
        self.write(space, sp, self.reg(r));
        self.set_sp(sp.wrapping_sub(1));
    }

    pub(crate) fn pop_byte<D: Data>(&mut self, space: &mut D, d: u8, late: u8)
        requires { EffectFits (PopByte d) }
        ensures core { self.new ≡ changed_core (PopByte d) map.empty 0
            (loaded_bytes D.model self.old late (D.content space.old) (load_addresses (PopByte d) self.old)) self.old }
        ensures after { D.content space.new ≡ content_after_loads D.model late (D.content space.old) (load_addresses (PopByte d) self.old) }
        ensures held { D.held space.new ≡ D.held space.old }
    {
        let at = self.sp().wrapping_add(1);
        let value = self.read(space, at, late);
        self.set_sp(at);
        self.set_reg(d, value);
    }

    /// Pushes a pc, the low byte first.
    pub(crate) fn push_pc<D: Data>(&mut self, space: &mut D, pc: u16)
        requires { D.held space.old ≡ [] }
        ensures core { self.new ≡ with_sp ((self.old.sp + 65534) % 65536) (fold with_store self.old (pc_stores pc self.old)) }
        ensures held { D.held space.new ≡ filter leaves_core (pc_stores pc self.old) }
        ensures content { D.content space.new ≡ D.content space.old }
    {
        let sp = self.sp();
        self.write(space, sp, (pc % 256) as u8);
        self.write(space, sp.wrapping_sub(1), (pc / 256) as u8);
        self.set_sp(sp.wrapping_sub(2));
    }

    /// Pops a pc, the high byte first, and sets I for RETI.
    pub(crate) fn pop_pc<D: Data>(&mut self, space: &mut D, late: u8, from_interrupt: bool) -> u16
        ensures core { self.new ≡ changed_core (Return from_interrupt) map.empty 0 [] self.old }
        ensures pc { let loaded = loaded_bytes D.model self.old late (D.content space.old)
            (load_addresses (Return from_interrupt) self.old) in result
            ≡ (slice_index loaded 1 + 256 * slice_index loaded 0) % 32768 }
        ensures below { result < 32768 }
        ensures after { D.content space.new ≡ content_after_loads D.model late (D.content space.old)
            (load_addresses (Return from_interrupt) self.old) }
        ensures held { D.held space.new ≡ D.held space.old }
    {
        let sp = self.sp();
        let high = self.read(space, sp.wrapping_add(1), late);
        let low = self.read(space, sp.wrapping_add(2), late);
        self.set_sp(sp.wrapping_add(2));
        if from_interrupt {
            self.set_sreg(with_bit(I, true, self.sreg()));
        }
        (u16::from(low) + 256 * u16::from(high)) % 32768
    }

    pub(crate) fn load_program(&mut self, flash: &Image, d: u8, increment: bool)
        requires { EffectFits (LoadProgram d increment) }
        ensures { self.new ≡ changed_core (LoadProgram d increment) flash.now 0 [] self.old }
    {
        let at = self.pair(30);
        let value = flash.byte(at).unwrap_or(ERASED);
        if increment {
            self.set_pair(30, at.wrapping_add(1));
        }
        self.set_reg(d, value);
    }

    pub(crate) fn write_flag(&mut self, flag: u8, set: bool)
        requires { EffectFits (WriteFlag flag set) }
        ensures { self.new ≡ changed_core (WriteFlag flag set) map.empty 0 [] self.old }
    {
        let sreg = with_bit(flag, set, self.sreg());
        self.set_sreg(sreg);
    }

    pub(crate) fn load_bit(&mut self, d: u8, bit: u8)
        requires { EffectFits (LoadBit d bit) }
        ensures { self.new ≡ changed_core (LoadBit d bit) map.empty 0 [] self.old }
    {
        let value = with_bit(bit, bit_is_set(self.sreg(), T), self.reg(d));
        self.set_reg(d, value);
    }

    pub(crate) fn store_bit(&mut self, d: u8, bit: u8)
        requires { EffectFits (StoreBit d bit) }
        ensures { self.new ≡ changed_core (StoreBit d bit) map.empty 0 [] self.old }
    {
        let sreg = with_bit(T, bit_is_set(self.reg(d), bit), self.sreg());
        self.set_sreg(sreg);
    }

    /// The word address after this instruction, which has this many words.
    pub(crate) fn following_pc(&self, words: u8) -> u16
        requires { words < 3 }
        ensures value { result ≡ following_pc words self.now }
        ensures below { result < 32768 }
    {
        (self.pc() + u16::from(words)) % 32768
    }

    pub(crate) fn jump_address(&self, target: JumpTarget, words: u8) -> u16
        requires words { words < 3 }
        requires fits { JumpTargetFits target }
        ensures value { result ≡ jump_address target words self.now }
        ensures below { result < 32768 }
    {
        match target {
            JumpTarget::Absolute(k) => k,
            JumpTarget::Relative(k) => (self.following_pc(words) + k) % 32768,
            JumpTarget::Indirect => self.pair(30) % 32768,
        }
    }

    /// Whether a skip's test holds. It samples at the start of the instruction.
    pub(crate) fn test_holds<D: Data>(&self, space: &mut D, test: SkipTest, late: u8) -> bool
        requires { SkipTestFits test }
        ensures value { result ≡ test_holds test (loaded_bytes D.model self.now late (D.content space.old)
            (load_addresses (SkipIf test) self.now)) self.now }
        ensures after { D.content space.new ≡ content_after_loads D.model late (D.content space.old)
            (load_addresses (SkipIf test) self.now) }
        ensures held { D.held space.new ≡ D.held space.old }
    {
        match test {
            SkipTest::Equal { d, r } => self.reg(d) == self.reg(r),
            SkipTest::RegisterBit { r, bit, set } => bit_equals(self.reg(r), bit, set),
            SkipTest::IoBit { address, bit, set } => {
                let value = self.read(space, u16::from(address), late);
                bit_equals(value, bit, set)
            }
        }
    }
}

/// Whether bit k of a byte has this value.
pub(crate) fn bit_equals(n: u8, k: u8, set: bool) -> bool
    requires { k < 8 }
    ensures { result ≡ bit_equals n k set }
{
    bit_is_set(n, k) == set
}

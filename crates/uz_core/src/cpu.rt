//! The registers.

ghost use Rattle.std.specs.Prelude.{◌≡◌, ◌<◌, ◌≤◌, ◌+◌, ◌*◌, ◌%◌};
ghost use Rattle.uz_core.specs.Core.{Core, reset_core, register, pair, with_register, with_pair, with_sp, with_sreg};
ghost use Rattle.uz_core.specs.Core.{operand_value, core_byte, with_core_byte, effective_address};
ghost use Rattle.uz_core.specs.Core.{with_pointer_after};
ghost use Rattle.uz_core.specs.Arithmetic.{FitsMask, flags_of, merged_sreg};
ghost use Rattle.uz_core.specs.OperandRanges.{OperandFits, AddressModeFits};

use crate::address::{IO_BASE, RAM_END, SPH, SPL};
use crate::{AddressMode, Flags, Operand};
use std::marker::Model;

/// The core's registers: pc (a word address below 32,768), R0 to R31, SREG and SP.
#[derive(Drop)]
pub struct Cpu {
    pc: u16,
    registers: [u8; 32],
    sreg: u8,
    sp: u16,
}

impl Model for Cpu {
    ghost use Rattle.std.specs.Prelude.{◌≡◌, ◌<◌, length};
    ghost use Rattle.uz_core.specs.Core.{Core};

    ghost Value = { Core };

    ghost view = { λ s. record { pc = s.pc; registers = s.registers; sreg = s.sreg; sp = s.sp } };

    ghost invariant = { λ s. s.pc < 32768 };
}

impl Cpu {
    /// The core after a reset: all 0, but SP is 0x10FF, the last address of the RAM.
    pub fn reset() -> Cpu
        ensures { result ≡ reset_core }
    {
        Cpu {
            pc: 0,
            registers: [0; 32],
            sreg: 0,
            sp: RAM_END,
        }
    }

    /// A core with these registers.
    pub fn at(pc: u16, registers: [u8; 32], sreg: u8, sp: u16) -> Cpu
        requires { pc < 32768 }
        ensures { result ≡ record { pc = pc; registers = registers; sreg = sreg; sp = sp } }
    {
        Cpu {
            pc,
            registers,
            sreg,
            sp,
        }
    }

    /// R0 to R31.
    pub fn registers(&self) -> [u8; 32]
        ensures { result ≡ self.now.registers }
    {
        self.registers
    }

    /// A core with the same registers.
    pub fn copy(&self) -> Cpu
        ensures { result ≡ self.now }
    {
        Cpu {
            pc: self.pc,
            registers: self.registers,
            sreg: self.sreg,
            sp: self.sp,
        }
    }

    /// The program counter: the word address of the next instruction, below 32,768.
    pub fn pc(&self) -> u16
        ensures value { result ≡ self.now.pc }
        ensures below { result < 32768 }
    {
        self.pc
    }

    /// The status register: C, Z, N, V, S, H, T, I from bit 0 on.
    pub fn sreg(&self) -> u8
        ensures { result ≡ self.now.sreg }
    {
        self.sreg
    }

    /// The stack pointer: the data address that the next push stores at.
    pub fn sp(&self) -> u16
        ensures { result ≡ self.now.sp }
    {
        self.sp
    }

    /// Register n.
    pub fn reg(&self, n: u8) -> u8
        requires { n < 32 }
        ensures { result ≡ register self.now n }
    {
        let registers = &self.registers;
        registers[n as usize]
    }

    pub(crate) fn set_reg(&mut self, n: u8, value: u8)
        requires { n < 32 }
        ensures { self.new ≡ with_register n value self.old }
    {
        let registers = &mut self.registers;
        registers[n as usize] = value;
    }

    /// The pair of registers n and n + 1.
    pub(crate) fn pair(&self, n: u8) -> u16
        requires { n < 31 }
        ensures { result ≡ pair self.now n }
    {
        u16::from(self.reg(n)) + 256 * u16::from(self.reg(n + 1))
    }

    pub(crate) fn set_pair(&mut self, n: u8, word: u16)
        requires { n < 31 }
        ensures { self.new ≡ with_pair n word self.old }
    {
        self.set_reg(n, (word % 256) as u8);
        self.set_reg(n + 1, (word / 256) as u8);
    }

    pub(crate) fn set_sp(&mut self, sp: u16)
        ensures { self.new ≡ with_sp sp self.old }
    {
        self.sp = sp;
    }

    pub(crate) fn set_pc(&mut self, pc: u16)
        requires { pc < 32768 }
        ensures { self.new ≡ record self.old { pc = pc } }
    {
        self.pc = pc;
    }

    pub(crate) fn set_sreg(&mut self, sreg: u8)
        ensures { self.new ≡ with_sreg sreg self.old }
    {
        self.sreg = sreg;
    }

    /// Sets and clears the flags in the mask.
    #[tactic(auto, using(crate::proofs::SregFlags::replaced_bits))]
    pub(crate) fn merge_flags(&mut self, flags: Flags)
        requires { FitsMask flags }
        ensures { self.new ≡ with_sreg (merged_sreg (flags_of flags) self.old.sreg) self.old }
    {
        self.sreg = self.sreg & (255 - flags.mask) | flags.value;
    }

    pub(crate) fn operand(&self, source: Operand) -> u8
        requires { OperandFits source }
        ensures { result ≡ operand_value source self.now }
    {
        match source {
            Operand::Register(r) => self.reg(r),
            Operand::Constant(k) => k,
        }
    }

    /// The byte at one of the core's own data addresses.
    pub(crate) fn core_byte(&self, at: u16) -> u8
        ensures { result ≡ core_byte self.now at }
    {
        match at {
            0..=31 => self.reg(at as u8),
            SPL => (self.sp % 256) as u8,
            SPH => (self.sp / 256) as u8,
            _ => self.sreg,
        }
    }

    pub(crate) fn set_core_byte(&mut self, at: u16, value: u8)
        ensures { self.new ≡ with_core_byte at value self.old }
    {
        if at < IO_BASE {
            self.set_reg(at as u8, value);
        } else if at == SPL {
            self.sp = self.sp / 256 * 256 + u16::from(value);
        } else if at == SPH {
            self.sp = u16::from(value) * 256 + self.sp % 256;
        } else {
            self.sreg = value;
        }
    }

    pub(crate) fn effective_address(&self, mode: AddressMode) -> u16
        requires { AddressModeFits mode }
        ensures { result ≡ effective_address mode self.now }
    {
        match mode {
            AddressMode::Direct(k) => k,
            AddressMode::Displacement { pointer, offset } => self
                .pair(pointer)
                .wrapping_add(u16::from(offset)),
            AddressMode::PostIncrement { pointer } => self.pair(pointer),
            AddressMode::PreDecrement { pointer } => self.pair(pointer).wrapping_sub(1),
        }
    }

    /// Gives the pointer its new value, where `at` is the effective address.
    pub(crate) fn step_pointer(&mut self, mode: AddressMode, at: u16)
        requires { AddressModeFits mode }
        ensures { self.new ≡ with_pointer_after mode at self.old }
    {
        match mode {
            AddressMode::Direct(_) => {}
            AddressMode::Displacement { .. } => {}
            AddressMode::PostIncrement { pointer } => self.set_pair(pointer, at.wrapping_add(1)),
            AddressMode::PreDecrement { pointer } => self.set_pair(pointer, at),
        }
    }
}

//! Brings a core into the state of a case, by its own instructions.

ghost use Rattle.std.specs.Prelude.{◌≡◌, ◌<◌, ◌≤◌, []};

use crate::case::Case;
use crate::echo::Echo;
use uz_core::Cpu;
use uz_core::address::{IO_BASE, SPH, SPL, SREG};
use uz_hex::Image;

/// Writes a word into the flash, at a word address.
pub(crate) fn put(flash: &mut Image, at: u16, word: u16) {
    let low = 2 * (at % 32768);
    flash.set(low, (word % 256) as u8);
    flash.set(low + 1, (word / 256) as u8);
}

/// Runs one instruction from address 0 on.
fn instruct(cpu: &mut Cpu, flash: &mut Image, space: &mut Echo, first: u16, second: u16)
    requires { space.old.held.items ≡ [] }
    ensures { space.new.held.items ≡ [] }
{
    let pc = cpu.pc();
    put(flash, pc, first);
    put(flash, (pc + 1) % 32768, second);
    let _step = cpu.step(flash, space);
    space.clear();
}

/// `ldi`: register d, 16 to 31, takes a value.
fn load_upper(cpu: &mut Cpu, flash: &mut Image, space: &mut Echo, d: u16, value: u8)
    requires held { space.old.held.items ≡ [] }
    requires upper { (15 < d) × (d < 32) }
    ensures { space.new.held.items ≡ [] }
{
    let value = u16::from(value);
    let word = 0xE000 + value / 16 * 256 + (d - 16) * 16 + value % 16;
    instruct(cpu, flash, space, word, 0);
}

/// `out` from r16, to the I/O register at a data address.
fn out(cpu: &mut Cpu, flash: &mut Image, space: &mut Echo, at: u16, value: u8)
    requires held { space.old.held.items ≡ [] }
    requires first { 32 ≤ at }
    requires last { at < 96 }
    ensures { space.new.held.items ≡ [] }
{
    let io = at - IO_BASE;
    load_upper(cpu, flash, space, 16, value);
    instruct(cpu, flash, space, 0xB900 + io / 16 * 512 + io % 16, 0);
}

/// Sets SREG, SP, the registers and pc, and puts the case's words at pc.
pub(crate) fn prepare(cpu: &mut Cpu, flash: &mut Image, space: &mut Echo, case: &Case)
    requires { space.old.held.items ≡ [] }
    ensures { space.new.held.items ≡ [] }
{
    out(cpu, flash, space, SREG, case.sreg);
    out(cpu, flash, space, SPL, (case.sp % 256) as u8);
    out(cpu, flash, space, SPH, (case.sp / 256) as u8);
    for d in 0..16u16 {
        load_upper(cpu, flash, space, 16, case.registers[d as usize]);
        instruct(cpu, flash, space, 0x2E00 + d * 16, 0);
    }
    for d in 16..32u16 {
        load_upper(cpu, flash, space, d, case.registers[d as usize]);
    }
    instruct(cpu, flash, space, 0x940C, case.pc % 32768);
    for (k, word) in [(0, case.words[0]), (1, case.words[1]), (2, case.words[2])] {
        put(flash, case.pc.wrapping_add(k), word);
    }
}

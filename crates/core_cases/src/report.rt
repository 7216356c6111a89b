//! Prints what a step or an interrupt's entry made of a case.

use crate::case::Case;
use crate::echo::Echo;
use anyhow::Result;
use uz_core::{Cpu, HeldStore, Step, Why};

/// The step's answer.
pub(crate) fn print_step(rt: &impl Print, step: Step) -> Result<()> {
    match step {
        Step::Stopped(Why::Opcode(word)) => print!(rt; "opcode {word:04X}")?,
        Step::Stopped(Why::Spm) => print!(rt; "spm")?,
        Step::Took {
            clocks,
            owed,
            returned,
        } => print!(rt; "clocks {clocks} owed {owed} returned {returned}")?,
    }
    Ok(())
}

/// The rest of the line: the core, the registers that changed, and the held stores.
pub(crate) fn print_core(rt: &impl Print, case: &Case, cpu: &Cpu, space: &Echo) -> Result<()> {
    print!(rt;
        " pc {:04X} sp {:04X} sreg {:02X}",
        cpu.pc(),
        cpu.sp(),
        cpu.sreg()
    )?;
    for n in 0..32u8 {
        let value = cpu.reg(n);
        if value != case.registers[n as usize] {
            print!(rt; " r{n} {value:02X}")?;
        }
    }
    for store in space.stores() {
        match *store {
            HeldStore::Byte { at, value } => print!(rt; " store {at:04X} {value:02X}")?,
            HeldStore::Bit { at, bit, set } => print!(rt; " bit {at:04X}.{bit} {set}")?,
        }
    }
    println!(rt; "")?;
    Ok(())
}

//! The benchmark.

ghost use Rattle.std.specs.Prelude.{◌≡◌, []};

use crate::memory::Memory;
use crate::prepare::put;
use anyhow::Result;
use std::alloc::Global;
use uz_core::{Cpu, Program, Step};
use uz_hex::Image;

/// `ldi r26,0`, `ldi r27,2`, then the loop `ld r17,X`, `add r16,r17`, `eor r18,r19`, `inc r19`, `st X,r18`, `brne` and
/// `rjmp` to its first instruction.
const LOOP: [u16; 9] = [
    0xE0A0, 0xE0B2, 0x911C, 0x0F01, 0x2723, 0x9533, 0x932C, 0xF7D1, 0xCFF9,
];

/// What a run has come to.
#[derive(Clone, Copy)]
struct Count {
    clocks: u64,
    steps: u64,
}

/// Runs until so many clocks have passed. Each step takes one clock at least.
fn run(cpu: &mut Cpu, program: &Program, memory: &mut Memory, clocks: u32) -> Count
    requires { memory.old.held.items ≡ [] }
{
    let mut count = Count {
        clocks: 0,
        steps: 0,
    };
    for _ in 0..clocks {
        if count.clocks >= u64::from(clocks) {
            break;
        }
        match cpu.step_in(program, memory) {
            Step::Took { clocks, .. } => {
                memory.finish();
                count.clocks = count.clocks.wrapping_add(u64::from(clocks));
                count.steps = count.steps.wrapping_add(1);
            }
            Step::Stopped(_) => break,
        }
    }
    count
}

/// Runs the loop for so many clocks, and prints the clocks, the steps and what the loop leaves.
pub(crate) fn measure(rt: &impl Print, alloc: Global, clocks: u32) -> Result<()> {
    let mut flash = Image::empty(alloc)?;
    let mut at = 0u16;
    for word in LOOP {
        put(&mut flash, at, word);
        at = at.wrapping_add(1);
    }
    let program = Program::new(alloc, flash)?;
    let mut memory = Memory::new(alloc)?;
    let mut cpu = Cpu::reset();
    let count = run(&mut cpu, &program, &mut memory, clocks);
    println!(rt;
        "clocks {} steps {} r16 {} r18 {} r19 {}",
        count.clocks,
        count.steps,
        cpu.reg(16),
        cpu.reg(18),
        cpu.reg(19)
    )?;
    Ok(())
}

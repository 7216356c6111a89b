//! Runs the core alone.
//!
//! Without a word it reads cases from standard input, one a line, and prints what one instruction, or an interrupt's
//! entry, makes of each: the expected lines come from the Boolean equations of the AVR Instruction Set Manual. With a
//! word, a number of clocks, it
//! runs a loop of arithmetic, loads, stores and branches for so long: the benchmark of docs/BENCHMARKS.md.
#![tactic(auto)]

ghost use Rattle.std.specs.Prelude.{◌≡◌, []};

mod case;
mod echo;
mod looping;
mod memory;
mod prepare;
mod report;

use anyhow::Result;
use case::Case;
use echo::Echo;
use std::env;
use uz_core::Cpu;
use uz_hex::Image;

fn main(rt: HostRuntime) -> Result<()> {
    match env::args(&rt)?.nth(1) {
        Some(word) => looping::measure(&rt, rt.alloc(), word.parse::<u32>().unwrap_or(0)),
        None => run_cases(&rt),
    }
}

fn run_cases(rt: &HostRuntime) -> Result<()> {
    let alloc = rt.alloc();
    let mut flash = Image::empty(alloc)?;
    for line in rt.lines(alloc) {
        let line = line?;
        if let Some(case) = Case::read(line.as_str()) {
            let mut cpu = Cpu::reset();
            let mut space = Echo::new();
            prepare::prepare(&mut cpu, &mut flash, &mut space, &case);
            if case.interrupts {
                cpu.interrupt(&mut space);
                print!(rt; "interrupted")?;
            } else {
                report::print_step(rt, cpu.step(&flash, &mut space))?;
            }
            report::print_core(rt, &case, &cpu, &space)?;
        }
    }
    Ok(())
}

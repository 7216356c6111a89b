//! Makes sources of demos and assembles them: one of each width of the picture, each at another height. It prints the length, the
//! lines and a sum of four texts, and the sums of all texts' bytes, their images' bytes and their hints.
//!
//! What it is to print comes of another program, which makes the texts by the same rules and counts their instructions.
#![tactic(auto)]

use anyhow::Result;
use avr_asm::assemble;
use std::alloc::Global;
use uz_demo::demo_source;

/// How many heights there are, and how many widths. A width's number times the heights, and the height's number, is a demo's.
const HEIGHTS: u16 = 161;

const WIDTHS: u16 = 65;

/// What is counted of many sources.
#[derive(Clone, Copy)]
struct Sums {
    assembled: u32,
    text: u64,
    image: u64,
    hints: u64,
}

impl Sums {
    /// Makes and assembles the source of a number, and counts it.
    fn add(self, alloc: Global, number: u16) -> Result<Sums> {
        let text = demo_source(alloc, number)?;
        let mut sums = self;
        sums.text = sums.text.wrapping_add(text.len() as u64);
        if let Ok(built) = assemble(alloc, text.as_slice()) {
            sums.assembled = sums.assembled.wrapping_add(1);
            sums.image = sums.image.wrapping_add(u64::from(built.image.count()));
            sums.hints = sums.hints.wrapping_add(built.hints.len() as u64);
        }
        Ok(sums)
    }
}

/// Prints the length, the lines and the sum of a source.
fn print_source(rt: &HostRuntime, alloc: Global, number: u16) -> Result<()> {
    let text = demo_source(alloc, number)?;
    let mut lines = 0u32;
    let mut sum = 0u64;
    for byte in text.as_slice() {
        if *byte == b'\n' {
            lines = lines.wrapping_add(1);
        }
        sum = sum.wrapping_mul(31).wrapping_add(u64::from(*byte));
    }
    println!(rt;
        "demo {number} bytes {} lines {lines} sum {sum}",
        text.len()
    )?;
    Ok(())
}

fn main(rt: HostRuntime) -> Result<()> {
    let alloc = rt.alloc();
    for number in [0, 24, 10464, 65535] {
        print_source(&rt, alloc, number)?;
    }
    let mut sums = Sums {
        assembled: 0,
        text: 0,
        image: 0,
        hints: 0,
    };
    for width in 0..WIDTHS {
        sums = sums.add(alloc, width * HEIGHTS + width * 2)?;
    }
    println!(rt;
        "assembled {} text {} image {} hints {}",
        sums.assembled, sums.text, sums.image, sums.hints
    )?;
    Ok(())
}

//! What is printed.

use anyhow::Result;
use uz_console::Console;
use uz_core::{Edge, EdgeKind, Why};

/// Each edge on a line.
pub(crate) fn print_edges(rt: &impl Print, edges: &[Edge]) -> Result<()> {
    for edge in edges {
        match edge.kind {
            EdgeKind::Sync(level) => println!(rt; "{} sync {}", edge.clock, level)?,
            EdgeKind::Pixel(value) => println!(rt; "{} pixel {}", edge.clock, value)?,
            EdgeKind::Sound(value) => println!(rt; "{} sound {}", edge.clock, value)?,
            EdgeKind::Enter(count) => println!(rt; "{} enter {}", edge.clock, count)?,
            EdgeKind::Leave => println!(rt; "{} leave", edge.clock)?,
        }
    }
    Ok(())
}

/// Why there is no turn.
pub(crate) fn print_stop(rt: &impl Print, why: Why) -> Result<()> {
    match why {
        Why::Opcode(word) => println!(rt; "stopped opcode {word:04X}")?,
        Why::Spm => println!(rt; "stopped spm")?,
    }
    Ok(())
}

/// Where a console is.
pub(crate) fn print_place(rt: &impl Print, console: &Console) -> Result<()> {
    println!(rt;
        "clock {} pc {:04X} word {:04X}",
        console.clock(),
        console.pc(),
        console.word()
    )?;
    Ok(())
}

//! Pad files, and the lines of the pads.

use crate::text::unescaped;
use anyhow::Result;
use uz_pads::{Pad, PadError, Pads, read_pads};

/// The pairs that a text lists, or its first fault.
fn read(rt: HostRuntime, text: &str) -> Result<std::result::Result<Vec<Pad>, PadError>> {
    let text = unescaped(rt.alloc(), text)?;
    let text = text.as_slice();
    if text.len() >= 1_000_000 {
        return Ok(Ok(Vec::new(rt.alloc())));
    }
    Ok(read_pads(rt.alloc(), text))
}

/// The pairs of a text, or its first fault.
pub(crate) fn tell(rt: HostRuntime, text: &str) -> Result<()> {
    match read(rt, text)? {
        Ok(list) => {
            print!(rt; "pairs {}", list.len())?;
            for pad in &list {
                print!(rt; " {:04X} {:04X}", pad.one, pad.two)?;
            }
            println!(rt; "")?;
        }
        Err(error) => println!(rt; "line {} {:?}", error.line, error.why)?,
    }
    Ok(())
}

/// The lines of a text's pads at first and after each move: a rise and a fall of PORTA's bit 2, or of its bit 3.
pub(crate) fn tell_moves(rt: HostRuntime, row: &str) -> Result<()> {
    let (text, moves) = row.rsplit_once(" ").unwrap_or(("", row));
    if let Ok(list) = read(rt, text)? {
        let mut pads = Pads::new(list);
        print!(rt; "lines {}", pads.lines())?;
        for &letter in moves.as_bytes() {
            pads.levels(if letter == b'L' { 4 } else { 8 });
            pads.levels(0);
            print!(rt; " {}", pads.lines())?;
        }
        println!(rt; "")?;
    }
    Ok(())
}

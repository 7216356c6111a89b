//! Reads texts of each kind, as a table on standard input says, and prints what they give. The expected answers come from
//! outside: from GNU as, srec_cat and objcopy, or worked by hand from the rules of the texts.
//!
//! The table's rows, in whose texts `\n`, `\r` and `\t` stand for LF, CR and tab:
//!
//! - `hex TEXT`: the bytes of a text in Intel HEX with their addresses, or its first fault.
//! - `runs`, `full`: two runs of bytes, and all bytes of the flash, are written as Intel HEX.
//! - `pads TEXT`: the pairs of a pad file, or its first fault.
//! - `moves TEXT MOVES`: the lines of the pads at first and after each move, a latch (`L`) or a shift (`S`).
//! - `words FIRST SECOND`: the instruction of two words, `----` for none, as text, and the words that encode it.
//! - `listing TEXT`: the listing of an image in Intel HEX.
//! - `labels TEXT`: the labels of a source with their addresses, and the lines of its hints.
//! - `nearest ADDRESSES TEXT`: the nearest label to each address, and the distance.
//! - `file NAME TEXT`, `expand NAME`: files, and what one of them expands to.
//!
//! Other rows are printed as they are.
#![tactic(auto)]

mod hex;
mod instructions;
mod labels;
mod macros;
mod pads;
mod text;

use anyhow::Result;
use text::unescaped;
use uz_shelf::MemoryShelf;

/// What a row says, but for its files.
fn tell(rt: HostRuntime, row: &str) -> Result<()> {
    let (word, rest) = row.split_once(" ").unwrap_or((row, ""));
    match word {
        "hex" => hex::tell(rt, rest),
        "runs" => hex::tell_runs(rt),
        "full" => hex::tell_full(rt),
        "pads" => pads::tell(rt, rest),
        "moves" => pads::tell_moves(rt, rest),
        "words" => instructions::tell(rt, rest),
        "listing" => instructions::tell_listing(rt, rest),
        "labels" => labels::tell(rt, rest),
        "nearest" => labels::tell_nearest(rt, rest),
        _ => {
            println!(rt; "{row}")?;
            Ok(())
        }
    }
}

fn main(rt: HostRuntime) -> Result<()> {
    let alloc = rt.alloc();
    let mut shelf = MemoryShelf::new(alloc, &[])?;
    for row in rt.lines(alloc) {
        let row = row?;
        let row = row.as_str();
        if let Some(file) = row.strip_prefix("file ") {
            let (name, text) = file.split_once(" ").unwrap_or((file, ""));
            shelf.add(alloc, name, unescaped(alloc, text)?.as_slice())?;
        } else if let Some(name) = row.strip_prefix("expand ") {
            macros::tell(rt, name, &mut shelf)?;
        } else {
            tell(rt, row)?;
        }
    }
    Ok(())
}

//! Instructions: their text, and listings.

use crate::text::unescaped;
use anyhow::Result;
use avr_decode::{decode, encode};
use avr_dis::{listing, print_one};
use std::io::{self, Write};
use uz_hex::read_hex;

/// The number that digits of base 16 spell, if they do.
fn word(digits: &str) -> Option<u16> {
    u16::from_str_radix(digits, 16).ok()
}

/// The instruction of two words, of which the second may be missing: the words that encode it, and its text.
pub(crate) fn tell(rt: HostRuntime, row: &str) -> Result<()> {
    let (first, second) = row.split_once(" ").unwrap_or((row, ""));
    let read = word(first).and_then(|first| decode(first, word(second).unwrap_or(0)));
    match read {
        Some(instruction) => {
            let text = print_one(rt.alloc(), 0, &instruction)?;
            let code = encode(&instruction);
            print!(rt; "{:04X} ", code.first)?;
            if code.words == 2 {
                print!(rt; "{:04X}", code.second)?;
            } else {
                print!(rt; "----")?;
            }
            println!(rt; " {}", text.as_str())?;
        }
        None => println!(rt; "no row")?,
    }
    Ok(())
}

/// The listing of an image in Intel HEX.
pub(crate) fn tell_listing(rt: HostRuntime, text: &str) -> Result<()> {
    let text = unescaped(rt.alloc(), text)?;
    let text = text.as_slice();
    if text.len() >= 1_000_000 {
        return Ok(());
    }
    match read_hex(rt.alloc(), text) {
        Ok(image) => io::writer(&rt).write_all(listing(rt.alloc(), &image)?.as_slice())?,
        Err(error) => println!(rt; "line {} {:?}", error.line, error.why)?,
    }
    Ok(())
}

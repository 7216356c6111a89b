//! Intel HEX.

use crate::text::unescaped;
use anyhow::Result;
use std::io::{self, Write};
use uz_hex::{Image, read_hex, write_hex};

/// The bytes of a text, or its first fault.
pub(crate) fn tell(rt: HostRuntime, text: &str) -> Result<()> {
    let text = unescaped(rt.alloc(), text)?;
    let text = text.as_slice();
    if text.len() >= 1_000_000 {
        return Ok(());
    }
    match read_hex(rt.alloc(), text) {
        Ok(image) => {
            print!(rt; "bytes {}", image.count())?;
            for at in 0..65536u32 {
                if let Some(byte) = image.byte(at as u16) {
                    print!(rt; " {at:04X} {byte:02X}")?;
                }
            }
            println!(rt; "")?;
        }
        Err(error) => println!(rt; "line {} {:?}", error.line, error.why)?,
    }
    Ok(())
}

/// 20 bytes from 0x0103 on and 17 from 0xFFEF on: the word at 0x0081, of which the first is the high byte, and the text.
pub(crate) fn tell_runs(rt: HostRuntime) -> Result<()> {
    let mut image = Image::empty(rt.alloc())?;
    for i in 0..20u16 {
        image.set(0x0103 + i, ((i * 37 + 11) % 256) as u8);
    }
    for i in 0..17u16 {
        image.set(0xFFEF + i, ((i * 91 + 200) % 256) as u8);
    }
    image.is_flash();
    println!(rt; "word {:04X}", image.word(0x0081))?;
    io::writer(&rt).write_all(write_hex(rt.alloc(), &image)?.as_slice())?;
    Ok(())
}

/// The byte at an address in the full flash.
fn full_byte(at: u32) -> u8 {
    (at % 251) as u8
}

/// How many bytes the text of a full flash has, and how many of the image are read back from it.
pub(crate) fn tell_full(rt: HostRuntime) -> Result<()> {
    let mut image = Image::empty(rt.alloc())?;
    for at in 0..65536u32 {
        image.set(at as u16, full_byte(at));
    }
    let text = write_hex(rt.alloc(), &image)?;
    if let Ok(read) = read_hex(rt.alloc(), text.as_slice()) {
        let mut same = 0u32;
        for at in 0..65536u32 {
            if read.byte(at as u16) == Some(full_byte(at)) {
                same = same.wrapping_add(1);
            }
        }
        println!(rt; "text {} bytes {} same {}", text.len(), read.count(), same)?;
    }
    Ok(())
}

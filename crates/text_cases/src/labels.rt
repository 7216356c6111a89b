//! The labels of a source, and the lines of its hints.

use crate::text::unescaped;
use anyhow::Result;
use avr_asm::{SourceMap, source_map};
use std::io::{self, Write};

/// The map of a source.
fn read(rt: HostRuntime, text: &str) -> Result<Option<SourceMap>> {
    let text = unescaped(rt.alloc(), text)?;
    let text = text.as_slice();
    if text.len() >= 1_000_000 {
        return Ok(None);
    }
    let map = source_map(rt.alloc(), text)?;
    Ok(Some(map))
}

/// The labels of a source with their addresses, and the lines of its hints.
pub(crate) fn tell(rt: HostRuntime, text: &str) -> Result<()> {
    if let Some(map) = read(rt, text)? {
        print!(rt; "labels")?;
        for label in map.labels.as_slice() {
            print!(rt; " ")?;
            io::writer(&rt).write_all(label.name.as_slice())?;
            print!(rt; "={}", label.address)?;
        }
        print!(rt; " hints")?;
        for line in &map.hint_lines {
            print!(rt; " {line}")?;
        }
        println!(rt; "")?;
    }
    Ok(())
}

/// The label that is the nearest to each of some addresses, and how far it is.
pub(crate) fn tell_nearest(rt: HostRuntime, row: &str) -> Result<()> {
    let (addresses, text) = row.split_once(" ").unwrap_or((row, ""));
    if let Some(map) = read(rt, text)? {
        print!(rt; "nearest")?;
        for address in addresses.split(",") {
            let address = address.parse().unwrap_or(0u32);
            match map.labels.nearest(address) {
                Some(label) => {
                    print!(rt; " ")?;
                    io::writer(&rt).write_all(label.name.as_slice())?;
                    print!(rt; "+{}", address.wrapping_sub(label.address))?;
                }
                None => print!(rt; " none")?,
            }
        }
        println!(rt; "")?;
    }
    Ok(())
}

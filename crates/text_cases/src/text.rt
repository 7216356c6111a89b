//! The texts of the table.

use anyhow::Result;
use std::alloc::Global;

/// What a letter after a backslash stands for.
fn control(letter: u8) -> u8 {
    match letter {
        b'n' => b'\n',
        b'r' => b'\r',
        b't' => b'\t',
        other => other,
    }
}

/// The bytes of a text, in which `\n`, `\r` and `\t` stand for LF, CR and tab.
pub(crate) fn unescaped(alloc: Global, text: &str) -> Result<Vec<u8>> {
    let mut bytes = Vec::new(alloc);
    let mut is_escaped = false;
    for &byte in text.as_bytes() {
        if is_escaped {
            bytes.push(control(byte))?;
            is_escaped = false;
        } else if byte == b'\\' {
            is_escaped = true;
        } else {
            bytes.push(byte)?;
        }
    }
    Ok(bytes)
}

//! Certificates that are read, and written again.

use anyhow::Result;
use std::alloc::Global;
use uz_cert::{read_cert, read_cert_1, write_cert};

/// Reads a text of version 1, and gives the text of version 2 that is written of it.
pub(crate) fn migrate(rt: &HostRuntime, alloc: Global, text: &[u8]) -> Result<Vec<u8>> {
    if text.len() < u32::MAX as usize {
        match read_cert_1(alloc, text) {
            Ok(cert) => {
                let written = write_cert(alloc, &cert)?;
                println!(rt;
                    "points {} bytes {} of version 1",
                    cert.points.len(),
                    written.len()
                )?;
                return Ok(written);
            }
            Err(error) => println!(rt; "refused line {}", error.line)?,
        }
    }
    Ok(Vec::new(alloc))
}

/// Reads a text, writes what it says, and prints whether that is the text again; and whether the text is what was written of
/// the one of version 1 before it, where there is one.
pub(crate) fn tell_again(
    rt: &HostRuntime,
    alloc: Global,
    text: &[u8],
    migrated: &[u8],
) -> Result<()> {
    if text.len() >= u32::MAX as usize {
        println!(rt; "too long")?;
        return Ok(());
    }
    match read_cert(alloc, text) {
        Ok(cert) => {
            let written = write_cert(alloc, &cert)?;
            let same = written.as_slice() == text;
            let points = cert.points.len();
            let bytes = written.len();
            if migrated.is_empty() {
                println!(rt; "points {} bytes {} same {}", points, bytes, same)?;
            } else {
                let whole = migrated == text;
                println!(rt;
                    "points {} bytes {} same {} migrated {}",
                    points, bytes, same, whole
                )?;
            }
        }
        Err(error) => println!(rt; "refused line {}", error.line)?,
    }
    Ok(())
}

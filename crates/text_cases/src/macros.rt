//! What files expand to.

use anyhow::Result;
use avr_macro::expand;
use std::io::{self, Write};
use uz_shelf::MemoryShelf;

/// The flat text, and for each line of it the place of its file and its line in that; or the first line that is refused.
/// Then the names of the files.
pub(crate) fn tell(rt: HostRuntime, name: &str, shelf: &mut MemoryShelf) -> Result<()> {
    let mut names = Vec::new(rt.alloc());
    names.push(String::from_str(rt.alloc(), "of an earlier call")?)?;
    match expand(rt.alloc(), name, shelf, &mut names) {
        Ok(flat) => {
            io::writer(&rt).write_all(flat.text.as_slice())?;
            print!(rt; "origins")?;
            for origin in &flat.origins {
                print!(rt; " {}:{}", origin.file, origin.line)?;
            }
        }
        Err(error) => print!(rt; "{:?} {}:{}", error.why, error.at.file, error.at.line)?,
    }
    print!(rt; " names")?;
    for name in &names {
        print!(rt; " {}", name.as_str())?;
    }
    println!(rt; "")?;
    Ok(())
}

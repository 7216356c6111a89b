//! Proposes hints for kernels, and has the search try them. Standard input has images in Intel HEX, each behind a line
//! `run CLOCKS NAME`; what is printed of each is its name, its hints and whether a certificate is found by them, or why there are none.
//! An entry of the interrupt takes 4 clocks, and no pad is connected.
#![tactic(auto)]

use anyhow::Result;
use std::alloc::{AllocError, Global};
use uz_console::{Console, Response};
use uz_hex::{Image, read_hex};
use uz_paths::find;
use uz_proposal::{NoHints, Remarked, hint_source, propose};

/// The hints for a console's program.
fn hints(alloc: Global, console: &mut Console, clocks: u32) -> Result<Vec<Remarked>, NoHints> {
    propose(alloc, console, u64::from(clocks))
}

/// Whether a certificate is found by some hints.
fn is_accepted(alloc: Global, image: &Image, remarked: &[Remarked]) -> Result<bool, AllocError> {
    let mut hints = Vec::new(alloc);
    for remarked in remarked {
        if hints.len() < 1000 {
            hints.push(remarked.hint)?;
        }
    }
    if hints.len() > 1000 {
        return Ok(false);
    }
    let found = find(alloc, image, hints.as_slice(), Response::Four);
    Ok(found.is_ok())
}

/// Prints some hints, and whether a certificate is found by them.
fn print_hints(rt: &HostRuntime, image: &Image, hints: &[Remarked]) -> Result<()> {
    let alloc = rt.alloc();
    let source = hint_source(alloc, hints)?;
    for byte in &source {
        print!(rt; "{}", char::from(*byte))?;
    }
    if is_accepted(alloc, image, hints)? {
        println!(rt; "found")?;
    } else {
        println!(rt; "not found")?;
    }
    Ok(())
}

/// Tries an image.
fn try_image(rt: &HostRuntime, image: Image, clocks: u32) -> Result<()> {
    let alloc = rt.alloc();
    let mut console = Console::reset(alloc, image, Vec::new(alloc), Response::Four)?;
    match hints(alloc, &mut console, clocks) {
        Ok(hints) => print_hints(rt, console.image(), hints.as_slice()),
        Err(why) => {
            println!(rt; "no hints {:?}", why)?;
            Ok(())
        }
    }
}

/// Tries a HEX text.
fn try_text(rt: &HostRuntime, text: &[u8], clocks: u32) -> Result<()> {
    if text.is_empty() || text.len() > 1_000_000 {
        return Ok(());
    }
    match read_hex(rt.alloc(), text) {
        Ok(image) => try_image(rt, image, clocks),
        Err(fault) => {
            println!(rt; "line {} {:?}", fault.line, fault.why)?;
            Ok(())
        }
    }
}

/// The clocks of a row, whose name is printed.
fn begin_row(rt: &HostRuntime, words: &str) -> Result<u32> {
    match words.split_once(" ") {
        Some((count, name)) => {
            println!(rt; "{}", name)?;
            Ok(count.parse().unwrap_or(0))
        }
        None => Ok(0),
    }
}

fn main(rt: HostRuntime) -> Result<()> {
    let alloc = rt.alloc();
    let mut text = Vec::new(alloc);
    let mut clocks = 0;
    for line in rt.lines(alloc) {
        let line = line?;
        if let Some(words) = line.strip_prefix("run ") {
            try_text(&rt, text.as_slice(), clocks)?;
            text.clear();
            clocks = begin_row(&rt, words)?;
        } else {
            text.extend_from_slice(line.as_bytes())?;
            text.push(b'\n')?;
        }
    }
    try_text(&rt, text.as_slice(), clocks)
}

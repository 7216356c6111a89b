//! Asks a certificate's schedule and points, the event that an edge is, and the picture of a list of edges, as a table on
//! standard input says, and prints the answers. The expected answers are worked by hand from the definitions.
//!
//! The table's rows:
//!
//! - `text`: a new text of a certificate. `|LINE`: a line at the end of the text. `read` reads the text.
//! - `at P`, `level P`, `place P`: the event and the level at a position, and its line and clock.
//! - `clock LINE CLOCK`: the event and the level so many clocks after a line's begin.
//! - `line N`: the length and the start of a line. `frame`: the frame's clocks and its number of lines.
//! - `advance LINE CLOCK`: the line and clock at a clock that may lie past a line's end.
//! - `instance ID LINE COUNT`, `entry`, `vector REST CLOCK`: what is known at a point, where runs enter, and where the
//!   handler is entered after a rest.
//! - `hull LO HI LO HI`, `tracks`, `event KIND VALUE`, `picture`: calls that need no certificate.
//!
//! Other rows are printed as they are.
#![tactic(auto)]

mod certificate;
mod edges;
mod instance;
mod picture;

use anyhow::Result;
use std::mem::size_of;
use table_rows::Row;
use uz_cert::{CertError, read_cert};
use uz_schedule::{Cert, Point};

/// A point is kept small, since a certificate may have 524,288 of them.
const _: () = prove!(size_of::<Point>() < 600);

/// Says what is wrong with a text that is no certificate.
fn tell_fault(rt: HostRuntime, fault: CertError) -> Result<()> {
    println!(rt; "line {} {:?}", fault.line, fault.why)?;
    Ok(())
}

/// The certificate of a text. Says what is wrong with a text that is none.
fn read(rt: HostRuntime, text: &[u8]) -> Result<Option<Cert>> {
    if text.len() >= 1_000_000 {
        return Ok(None);
    }
    let fault = match read_cert(rt.alloc(), text) {
        Ok(cert) => return Ok(Some(cert)),
        Err(fault) => fault,
    };
    tell_fault(rt, fault)?;
    Ok(None)
}

/// What a row says that needs no certificate.
fn tell(rt: HostRuntime, line: &str) -> Result<()> {
    let mut row = Row::new(line);
    match row.word() {
        "hull" => instance::tell_hull(rt, &mut row),
        "tracks" => certificate::tell_tracks(rt),
        "event" => edges::tell_event(rt, &mut row),
        "picture" => picture::tell(rt),
        _ => {
            println!(rt; "{line}")?;
            Ok(())
        }
    }
}

fn main(rt: HostRuntime) -> Result<()> {
    let mut text: Vec<u8> = Vec::new(rt.alloc());
    let mut cert = None;
    for line in rt.lines(rt.alloc()) {
        let line = line?;
        let line = line.as_str();
        if let Some(part) = line.strip_prefix("|") {
            text.extend_from_slice(part.as_bytes())?;
            text.push(b'\n')?;
        } else if line == "text" {
            text.clear();
        } else if line == "read" {
            cert = read(rt, text.as_slice())?;
        } else if !certificate::tell(rt, &cert, line)? {
            tell(rt, line)?;
        }
    }
    Ok(())
}

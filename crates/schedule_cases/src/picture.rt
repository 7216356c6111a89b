//! A list of edges with two broad lines, as a whole picture and edge by edge.

use anyhow::Result;
use uz_core::{Edge, EdgeKind};
use uz_scan::{Scan, Scanner, end_record, picture, row_record};

macro_rules! edge {
    ($clock:literal, $kind:ident($value:literal)) => {
        Edge {
            clock: $clock,
            kind: EdgeKind::$kind($value),
        }
    };
}

/// A broad line, then three lines of a frame of which the last is broad, then a line that shows the frame's end.
const EDGES: [Edge; 12] = [
    edge!(10, Sync(1)),
    edge!(100, Sync(0)),
    edge!(500, Sync(1)),
    edge!(2000, Sync(0)),
    edge!(2050, Sync(1)),
    edge!(2104, Pixel(5)),
    edge!(3000, Sync(0)),
    edge!(3010, Sync(1)),
    edge!(4000, Sync(0)),
    edge!(4400, Sync(1)),
    edge!(5000, Sync(0)),
    edge!(5040, Sync(1)),
];

/// Adds the record of what the scanner shows, if it is one.
fn add(records: &mut Vec<u8>, shown: &Scan, row: &[u8; 455]) -> Result<()> {
    match shown {
        Scan::More => {}
        Scan::Line(line) => {
            if line.frame > 0 {
                records.extend_from_slice(&row_record(line, row))?;
            }
        }
        Scan::Frame(frame) => records.extend_from_slice(&end_record(frame))?,
    }
    Ok(())
}

/// The records of the edges, one after another.
fn scanned(rt: HostRuntime) -> Result<Vec<u8>> {
    let mut records = Vec::new(rt.alloc());
    let mut scanner = Scanner::new();
    for edge in EDGES {
        if scanner.clock() <= edge.clock {
            let shown = scanner.edge(edge);
            add(&mut records, &shown, scanner.row())?;
        }
    }
    Ok(records)
}

/// Prints bytes, each run of equal ones as `COUNTxBYTE`.
fn print_runs(rt: HostRuntime, bytes: &[u8]) -> Result<()> {
    let mut last = 0;
    let mut count = 0u32;
    for &byte in bytes {
        if byte != last && count > 0 {
            print!(rt; " {count}x{last}")?;
            count = 0;
        }
        last = byte;
        count = count.wrapping_add(1);
    }
    println!(rt; " {count}x{last}")?;
    Ok(())
}

/// How many rows and frames the picture has, its bytes, and whether the scanner's records are the same bytes.
pub(crate) fn tell(rt: HostRuntime) -> Result<()> {
    let mut whole = Vec::new(rt.alloc());
    let (rows, frames) = picture(rt.alloc(), &EDGES, &mut whole)?;
    print!(rt; "rows {rows} frames {frames}:")?;
    print_runs(rt, whole.as_slice())?;
    println!(rt;
        "the same edge by edge {}",
        scanned(rt)?.as_slice() == whole.as_slice()
    )?;
    Ok(())
}

//! Rings: programs that are alone and drive sync by themselves, one scanline a turn. As a table on standard input says, a
//! ring is checked against its certificate, whole or changed in one place, its points are joined line by line, or its
//! instances are searched. The expected answers are worked by hand.
//!
//! The table's rows:
//!
//! - `check JUMP THIRD LINES POINTS FALL RISE PC`: the first refusal, if there is one, and of how many instances the local
//!   rule is asked. The jump back stands at word JUMP, word 3 is THIRD, the frame has LINES lines, the certificate POINTS
//!   points, the schedule's fall is at FALL, sync rises at RISE, and runs enter at PC.
//! - `join`: how many points a ring of two lines has once they are joined, and how many of them stand for both lines.
//! - `search FALL LIMIT`: how many instances a ring of ten words has, and what it shows at clocks 1, 2 and 3.
//!
//! Other rows are printed as they are.
#![tactic(auto)]

mod checked;
mod joining;
mod searched;

use anyhow::Result;
use table_rows::Row;

fn main(rt: HostRuntime) -> Result<()> {
    for line in rt.lines(rt.alloc()) {
        let line = line?;
        let mut row = Row::new(line.as_str());
        match row.word() {
            "check" => checked::tell(rt, &mut row)?,
            "join" => joining::tell(rt)?,
            "search" => searched::tell(rt, &mut row)?,
            _ => println!(rt; "{}", line.as_str())?,
        }
    }
    Ok(())
}

//! What a play gives, printed.

use anyhow::Result;
use uz_pads::Pad;
use uz_player::{Frame, Play, Shown};

/// No turn begins at this clock or after it.
const LAST: u64 = 1 << 62;

/// A sum of bytes, in their order.
fn sum_of(bytes: &[u8]) -> u32 {
    let mut sum: u32 = 0;
    for byte in bytes {
        sum = sum.wrapping_mul(31).wrapping_add(u32::from(*byte));
    }
    sum
}

fn name_of(frame: Frame) -> &'static str {
    match frame {
        Frame::Over => "over",
        Frame::Quiet => "quiet",
        Frame::Stopped => "stopped",
    }
}

/// Plays a frame with buttons held: how it ended, its rows, the sum of its records' bytes, and how many latches more find the pair.
pub(crate) fn frame(rt: &HostRuntime, play: &mut Play, pad: Pad, clocks: u32) -> Result<()> {
    let mut records = Vec::new(rt.alloc());
    let ended = play.frame(rt.alloc(), pad, clocks, &mut records)?;
    println!(rt;
        "{} rows {} sum {} left {}",
        name_of(ended),
        records.len() / 461,
        sum_of(records.as_slice()),
        play.pads_left()
    )?;
    Ok(())
}

/// The next record within so many clocks: its kind and the sum of its bytes.
pub(crate) fn advance(rt: &HostRuntime, play: &mut Play, clocks: u32) -> Result<()> {
    let until = play.clock().saturating_add(u64::from(clocks)).min(LAST);
    match play.advance(until) {
        Shown::Row(row) => println!(rt; "row sum {}", sum_of(&row))?,
        Shown::End(end) => println!(rt; "end sum {}", sum_of(&end))?,
        Shown::Quiet => println!(rt; "quiet")?,
        Shown::Stopped => println!(rt; "stopped")?,
    }
    Ok(())
}

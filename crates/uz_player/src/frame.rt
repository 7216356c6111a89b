//! A frame at a time.

ghost use Rattle.std.specs.Prelude.{◌≤◌, ◌^◌, IfOk};

use crate::play::Play;
use crate::shown::Shown;
use std::alloc::{AllocError, Global};
use uz_pads::Pad;

/// No turn begins at this clock or after it: 5,000 years.
const LAST: u64 = 1 << 62;

/// How a call of `frame` ended.
#[derive(Clone, Copy)]
pub enum Frame {
    /// A frame is over, and its record is the last one.
    Over,
    /// So many clocks passed without the end of a frame.
    Quiet,
    /// The next turn's instruction is in no row of the instruction table, or it is SPM.
    Stopped,
}

impl Play {
    ghost use Rattle.uz_player.specs.Frames.{IsFrame, PlaysFrame};

    /// Puts the records of the picture behind a list, up to the end of a frame.
    fn frame_until(&mut self, until: u64, out: &mut Vec<u8>) -> Result<Frame, AllocError>
        requires { until ≤ 2 ^ 62 }
        ensures { IfOk result (λ frame. IsFrame until self.old self.new out.old.items out.new.items frame) }
    {
        'records: loop {
            match self.advance(until) {
                Shown::Row(row) => out.extend_from_slice(&row)?,
                Shown::End(end) => {
                    out.extend_from_slice(&end)?;
                    return Ok(Frame::Over);
                }
                Shown::Quiet => return Ok(Frame::Quiet),
                Shown::Stopped => return Ok(Frame::Stopped),
            }
        }
    }

    /// Holds buttons and goes on to the end of a frame, or so many clocks. Records of rows, each with the sound value at its line's
    /// end, and of the frame's end are put behind a list: a row's is 461 bytes, an end's 5. No edge is lost where no frame ends.
    /// Where memory runs out, the play is some turns further, and the list lacks records.
    pub fn frame(
        &mut self,
        alloc: Global,
        pad: Pad,
        clocks: u32,
        out: &mut Vec<u8>,
    ) -> Result<Frame, AllocError>
        ensures { IfOk result (λ frame. PlaysFrame pad clocks self.old self.new out.old.items out.new.items frame) }
    {
        self.hold(alloc, pad)?;
        let until = self.clock().saturating_add(u64::from(clocks)).min(LAST);
        self.frame_until(until, out)
    }
}

//! Calls of live play, from plain fields to plain fields.

ghost use Rattle.std.specs.Prelude.{◌≡◌, ◌++◌, IfOk, List};
ghost use Rattle.uz_player.specs.Calls.{Calls, IsCalled};

use crate::frame::Frame;
use crate::play::Play;
use crate::state::State;
use std::alloc::{AllocError, Global};
use uz_hex::Image;
use uz_pads::Pad;

/// How a call ended, and the play afterwards.
#[derive(Clone, Copy)]
pub struct Called {
    pub frame: Frame,
    pub state: State,
    /// So many latches found the pair that was held.
    pub latches: u32,
}

/// Goes on from a play's plain fields to the end of a frame, or so many clocks, with buttons held. The flash is one that the fields
/// belong to. Records are put behind a list.
pub fn play_frame(
    alloc: Global,
    image: Image,
    state: &State,
    pad: Pad,
    clocks: u32,
    out: &mut Vec<u8>,
) -> Result<Called, AllocError>
    ensures { IfOk result (IsCalled pad clocks image state.now out.old.items out.new.items) }
{
    let mut play = Play::of_state(alloc, image, state)?;
    let frame = play.frame(alloc, pad, clocks, out)?;
    Ok(Called {
        frame,
        state: play.state(),
        latches: play.pads_taken() as u32,
    })
}

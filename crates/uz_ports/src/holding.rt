//! Buttons that are held.

ghost use Rattle.std.specs.Prelude.{◌≡◌};

use crate::Board;
use std::alloc::{AllocError, Global};
use uz_pads::Pad;

impl Board {
    ghost use Rattle.uz_pads.specs.Pads.{pads_left, times_held};
    ghost use Rattle.uz_ports.specs.BoardStates.{HoldsPad};
    ghost use Rattle.uz_ports.specs.Boards.{space_of};

    /// Holds buttons: the next latches, so many of them, find this pair, and those after them none. What was latched stays, and so
    /// does all else. Where memory runs out no latch finds a pair.
    pub fn hold(&mut self, alloc: Global, pad: Pad, times: usize) -> Result<(), AllocError>
        ensures { HoldsPad pad (times_held result times) self.old self.new }
    {
        self.pads.hold(alloc, pad, times)
    }

    /// So many pairs of the pads' list aren't latched yet.
    pub fn pads_left(&self) -> usize
        ensures { result ≡ pads_left (space_of self.now).pads }
    {
        self.pads.left()
    }
}

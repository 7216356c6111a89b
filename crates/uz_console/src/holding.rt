//! Buttons that are held.

ghost use Rattle.std.specs.Prelude.{◌≡◌, ◌≤◌, ◌<◌, length};
ghost use Rattle.uz_core.specs.PadLine.{PadHistory, latches};
ghost use Rattle.uz_core.specs.Turn.{State};
ghost use Rattle.uz_pads.specs.Pads.{times_held};
ghost use Rattle.uz_console.specs.Consoles.{StandsFor, clock_of};
ghost use Rattle.uz_console.specs.Holding.{IsHeld, holding_state, pads_left};

use crate::Console;
use std::alloc::{AllocError, Global};
use uz_pads::Pad;

impl Console {
    /// Holds buttons: the next latches, so many of them, find this pair, and those after them none. What was latched stays, and so
    /// does all else. Where memory runs out no latch finds a pair.
    pub fn hold(&mut self, alloc: Global, pad: Pad, times: usize) -> Result<(), AllocError>
        ensures stands { (s : State PadHistory) → StandsFor self.old s → latches s.space.pads.levels ≤ length s.space.pads.pairs
            → StandsFor self.new (holding_state pad (times_held result times) s) }
        ensures clock { clock_of self.new ≡ clock_of self.old }
    {
        self.hold_parts(alloc, pad, times)
    }

    fn hold_parts(&mut self, alloc: Global, pad: Pad, times: usize) -> Result<(), AllocError>
        ensures { IsHeld pad (times_held result times) self.old self.new }
    {
        self.board.hold(alloc, pad, times)
    }

    /// So many pairs of the pads' list aren't latched yet. Where there is one, no latch found the list at its end.
    pub fn pads_left(&self) -> usize
        ensures exact { result ≡ pads_left self.now }
        ensures stands { (s : State PadHistory) → StandsFor self.now s → 0 < result
            → latches s.space.pads.levels < length s.space.pads.pairs }
    {
        self.board.pads_left()
    }
}

//! What a turn will read: the flash, timer 1, and whether the interrupt is taken.

ghost use Rattle.std.specs.Prelude.{◌≡◌};
ghost use Rattle.uz_core.specs.PadLine.{PadHistory};
ghost use Rattle.uz_core.specs.Turn.{State, is_entry};
ghost use Rattle.uz_console.specs.Consoles.{StandsFor, state_of};

use crate::Console;
use uz_hex::Image;
use uz_timer::Timer1;

impl Console {
    /// The flash, which no turn changes.
    pub fn image(&self) -> &Image
        ensures own { result.now ≡ (state_of self.now).image }
        ensures stands { (s : State PadHistory) → StandsFor self.now s → result.now ≡ s.image }
    {
        self.program.image()
    }

    /// Timer 1 as it is before the next turn.
    pub fn timer(&self) -> &Timer1
        ensures own { result.now ≡ (state_of self.now).space.timer }
        ensures stands { (s : State PadHistory) → StandsFor self.now s → result.now ≡ s.space.timer }
    {
        self.board.timer()
    }

    /// Whether the next turn is an entry of the interrupt, and not an instruction.
    #[tactic(auto, using(crate::proofs::TurnLemmas::entry_is))]
    pub fn is_entering(&self) -> bool
        ensures own { result ≡ is_entry (state_of self.now) }
        ensures stands { (s : State PadHistory) → StandsFor self.now s → result ≡ is_entry s }
    {
        self.enters()
    }
}

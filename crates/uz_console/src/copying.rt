//! Copies of a console, and save states.

ghost use Rattle.std.specs.Prelude.{◌≡◌, ℕ, List, IfOk};
ghost use Rattle.uz_core.specs.declared.machine.Edge.{Edge};
ghost use Rattle.uz_core.specs.Run.{MachineTurn, Run};
ghost use Rattle.uz_core.specs.PadLine.{PadHistory};
ghost use Rattle.uz_core.specs.Turn.{State};
ghost use Rattle.uz_console.specs.Consoles.{StandsFor, clock_of, state_of};
ghost use Rattle.uz_console.specs.SaveStates.{IsSaveOf, IsSameConsole, SameConsole, clock_saved, saved, saved_of, with_saved};

use crate::Console;
use std::alloc::{AllocError, Global};
use uz_core::Cpu;
use uz_ports::BoardState;

/// What changes of a console between turns: the core, whether an instruction is owed, and what changes of the board (the bytes of
/// the data space, timer 1 with TEMP, the state of the pads, the clock). The flash and the list of pads aren't in it, so that it takes
/// under 5 KB.
#[derive(Drop)]
pub struct SaveState {
    cpu: Cpu,
    owed: bool,
    board: BoardState,
}

impl SaveState {
    /// The clock, counted from reset.
    pub fn clock(&self) -> u64
        ensures { result ≡ clock_saved self.now }
    {
        self.board.clock()
    }
}

impl Console {
    /// A console with the same flash, core, board, response and owed instruction. It stands for the same states.
    #[tactic(auto, using(crate::proofs::SaveLemmas::copy_stands))]
    pub fn copy(&self, alloc: Global) -> Result<Console, AllocError>
        ensures same { IfOk result (SameConsole self.now) }
        ensures stands { IfOk result (λ console. (s : State PadHistory) → StandsFor self.now s → StandsFor console s) }
    {
        let console = self.duplicate(alloc)?;
        Ok(console)
    }

    fn duplicate(&self, alloc: Global) -> Result<Console, AllocError>
        ensures { IfOk result (SameConsole self.now) }
    {
        Ok(Console {
            program: self.program.copy(alloc)?,
            cpu: self.cpu.copy(),
            board: self.board.copy(alloc)?,
            irq: self.irq,
            owed: self.owed,
        })
    }

    /// What changes of the console, as it is now.
    #[tactic(auto, using(crate::proofs::SaveLemmas::save_stands))]
    pub fn save(&self, alloc: Global) -> Result<SaveState, AllocError>
        ensures stands { IfOk result (λ save. (s : State PadHistory) → StandsFor self.now s → IsSaveOf save s) }
        ensures clock { IfOk result (λ save. clock_saved save ≡ clock_of self.now) }
    {
        let save = self.save_parts(alloc)?;
        Ok(save)
    }

    fn save_parts(&self, alloc: Global) -> Result<SaveState, AllocError>
        ensures { IfOk result (λ save. saved save ≡ saved_of (state_of self.now)) }
    {
        Ok(SaveState {
            cpu: self.cpu.copy(),
            owed: self.owed,
            board: self.board.state(alloc)?,
        })
    }

    /// Goes to a state that was saved, of a console with the same flash, list of pads and response. Takes no memory.
    pub fn load(&mut self, save: &SaveState)
        ensures stands { (now s : State PadHistory) → StandsFor self.old now → IsSaveOf save.now s → IsSameConsole now s
            → StandsFor self.new s }
        ensures clock { clock_of self.new ≡ clock_saved save.now }
    {
        self.load_parts(save);
    }

    fn load_parts(&mut self, save: &SaveState)
        ensures { state_of self.new ≡ with_saved (saved save.now) (state_of self.old) }
    {
        self.cpu = save.cpu.copy();
        self.owed = save.owed;
        self.board.set_state(&save.board);
    }
}

/// The law that turns leave the flash, the pairs of the pads' list and the response. Does nothing.
#[tactic(auto, using(crate::proofs::SaveLemmas::run_keeps))]
pub fn run_keeps_console()
    ensures { (n : ℕ) (s last : State PadHistory) (edges : List Edge) → Run MachineTurn n s edges last → IsSameConsole s last }
{}

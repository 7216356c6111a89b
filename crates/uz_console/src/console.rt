//! The console's parts and readings.

ghost use Rattle.std.specs.Prelude.{◌≡◌, ◌<◌, [], ℕ, IfOk, None};
ghost use Rattle.uz_schedule.specs.Schedule.{response_clocks};
ghost use Rattle.uz_hex.specs.Cells.{word_of};
ghost use Rattle.uz_core.specs.PadLine.{PadHistory};
ghost use Rattle.uz_core.specs.Core.{register};
ghost use Rattle.uz_core.specs.Space.{history_wiring};
ghost use Rattle.uz_core.specs.Turn.{State, state_at_reset, history_at_reset, state_byte};
ghost use Rattle.uz_pads.specs.Pads.{pairs_of, pads_wiring};
ghost use Rattle.uz_ports.specs.Boards.{held_of, entered_of};

use std::alloc::{AllocError, Global};
use uz_core::address::{IO_BASE, SPH, SPL, SREG};
use uz_core::{Cpu, Program};
use uz_hex::Image;
use uz_pads::{Pad, Pads};
use uz_ports::Board;
use uz_schedule::Response;

/// A Uzebox console: the flash with its words decoded, the core, and the board with the clock. Between turns nothing is held or
/// noted.
#[derive(Drop)]
pub struct Console {
    pub(crate) program: Program,
    pub(crate) cpu: Cpu,
    pub(crate) board: Board,
    pub(crate) irq: Response,
    /// Whether one instruction is made before an interrupt is taken.
    pub(crate) owed: bool,
    ghost idle: { held_of board ≡ [] },
    ghost left: { entered_of board ≡ None },
}

impl Console {
    ghost use Rattle.uz_console.specs.Consoles.{StandsFor, clock_of, state_of};
    ghost use Rattle.uz_console.specs.Runs.{RunsTo};

    /// The console at reset, at clock 0: RAM, ports, timer and registers are 0, SP is 0x10FF, and PORTA has had one
    /// value, 0. An interrupt entry takes as many clocks as `irq` says.
    pub fn reset(
        alloc: Global,
        image: Image,
        pads: Vec<Pad>,
        irq: Response,
    ) -> Result<Console, AllocError>
        ensures stands { IfOk result (λ console. StandsFor console
            (state_at_reset image (history_at_reset (pairs_of pads.items)) (response_clocks irq))) }
        ensures run { (limit : ℕ) → IfOk result (λ console. RunsTo limit
            (state_at_reset image (history_at_reset (pairs_of pads.items)) (response_clocks irq)) [] console) }
    {
        let console = Console::at_reset(alloc, image, pads, irq)?;
        Ok(console)
    }

    fn at_reset(
        alloc: Global,
        image: Image,
        pads: Vec<Pad>,
        irq: Response,
    ) -> Result<Console, AllocError>
        ensures { IfOk result (λ console. StandsFor console
            (state_at_reset image (history_at_reset (pairs_of pads.items)) (response_clocks irq))) }
    {
        Ok(Console {
            program: Program::new(alloc, image)?,
            cpu: Cpu::reset(),
            board: Board::reset(alloc, Pads::new(pads))?,
            irq,
            owed: false,
        })
    }

    /// The clock, counted from reset: it is the board's.
    pub fn clock(&self) -> u64
        ensures clock { result ≡ clock_of self.now }
        ensures stands { (s : State PadHistory) → StandsFor self.now s → result ≡ s.clock }
    {
        self.board.clock()
    }

    /// The program counter, a word address below 32,768.
    pub fn pc(&self) -> u16
        ensures own { result ≡ (state_of self.now).core.pc }
        ensures stands { (s : State PadHistory) → StandsFor self.now s → result ≡ s.core.pc }
        ensures below { result < 32768 }
    {
        self.cpu.pc()
    }

    /// The word at the program counter.
    pub fn word(&self) -> u16
        ensures own { result ≡ word_of (state_of self.now).image (state_of self.now).core.pc }
        ensures stands { (s : State PadHistory) → StandsFor self.now s → result ≡ word_of s.image s.core.pc }
    {
        self.program.image().word(self.cpu.pc())
    }

    /// A register.
    pub fn reg(&self, n: u8) -> u8
        requires { n < 32 }
        ensures own { result ≡ register (state_of self.now).core n }
        ensures stands { (s : State PadHistory) → StandsFor self.now s → result ≡ register s.core n }
    {
        self.cpu.reg(n)
    }

    /// The byte that a read of a data address would give, without its effect; the core's own addresses too.
    pub fn byte(&self, at: u16) -> u8
        ensures own { result ≡ state_byte pads_wiring (state_of self.now) at }
        ensures stands { (s : State PadHistory) → StandsFor self.now s → result ≡ state_byte history_wiring s at }
    {
        self.own_byte(at)
    }

    fn own_byte(&self, at: u16) -> u8
        ensures { result ≡ state_byte pads_wiring (state_of self.now) at }
    {
        if at < IO_BASE {
            return self.cpu.reg(at as u8);
        }
        match at {
            SPL => (self.cpu.sp() % 256) as u8,
            SPH => (self.cpu.sp() / 256) as u8,
            SREG => self.cpu.sreg(),
            _ => self.board.byte(at),
        }
    }
}

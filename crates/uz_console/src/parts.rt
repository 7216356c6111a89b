//! The parts of a console.

ghost use Rattle.std.specs.Prelude.{◌≡◌, [], IfOk, None};
ghost use Rattle.uz_schedule.specs.Schedule.{response_clocks};
ghost use Rattle.uz_ports.specs.Boards.{clock_of, entered_of, held_of, space_of};
ghost use Rattle.uz_console.specs.Consoles.{state_of};

use crate::Console;
use std::alloc::{AllocError, Global};
use uz_core::{Cpu, Program};
use uz_hex::Image;
use uz_ports::Board;
use uz_schedule::Response;

impl Console {
    /// A console between turns with this flash, core and board. An interrupt entry takes as many clocks as `irq` says, and with
    /// `owed` one instruction is made before it.
    pub fn at(
        alloc: Global,
        image: Image,
        cpu: Cpu,
        board: Board,
        irq: Response,
        owed: bool,
    ) -> Result<Console, AllocError>
        requires held { held_of board ≡ [] }
        requires entered { entered_of board ≡ None }
        ensures { IfOk result (λ console. state_of console ≡ record {
          image = image;
          core = cpu;
          space = space_of board;
          response = response_clocks irq;
          is_owed = owed;
          clock = clock_of board;
        }) }
    {
        Ok(Console {
            program: Program::new(alloc, image)?,
            cpu,
            board,
            irq,
            owed,
        })
    }

    /// The core.
    pub fn cpu(&self) -> &Cpu
        ensures { result.now ≡ (state_of self.now).core }
    {
        &self.cpu
    }

    /// The board.
    pub fn board(&self) -> &Board
        ensures space { space_of result.now ≡ (state_of self.now).space }
        ensures clock { clock_of result.now ≡ (state_of self.now).clock }
    {
        &self.board
    }

    /// Whether one instruction is made before an interrupt is taken.
    pub fn owes(&self) -> bool
        ensures { result ≡ (state_of self.now).is_owed }
    {
        self.owed
    }

    /// How many clocks an interrupt entry takes.
    pub fn response(&self) -> Response
        ensures { response_clocks result ≡ (state_of self.now).response }
    {
        self.irq
    }
}

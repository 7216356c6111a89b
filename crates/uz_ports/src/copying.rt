//! Copies of a board, and what changes of it.

ghost use Rattle.std.specs.Prelude.{◌≡◌, [], length, IfOk};

use crate::Board;
use arrayvec::ArrayVec;
use std::alloc::{AllocError, Global};
use uz_pads::PadState;
use uz_timer::Timer1;

/// What changes of a board between turns: the bytes of the data space, timer 1 with TEMP, the state of the pads, and the clock.
/// The list of pads isn't in it.
#[derive(Drop)]
pub struct BoardState {
    bytes: Vec<u8>,
    timer: Timer1,
    pads: PadState,
    clock: u64,
    ghost sized: { length bytes.items ≡ 4352 },
}

impl BoardState {
    ghost use Rattle.uz_ports.specs.BoardStates.{board_state};

    /// The clock, counted from reset.
    pub fn clock(&self) -> u64
        ensures { result ≡ (board_state self.now).clock }
    {
        self.clock
    }
}

impl Board {
    ghost use Rattle.uz_ports.specs.BoardStates.{SameBoard, board_state, board_state_of, with_board_state};
    ghost use Rattle.uz_ports.specs.Boards.{content_of, held_of};

    /// A board with the same bytes, timer, pads, held stores, noted interrupt and clock.
    pub fn copy(&self, alloc: Global) -> Result<Board, AllocError>
        ensures { IfOk result (SameBoard self.now) }
    {
        Ok(Board {
            bytes: Vec::from_slice(alloc, self.bytes.as_slice())?,
            timer: self.timer.copy(),
            pads: self.pads.copy(alloc)?,
            held: self.held.clone()?,
            entered: self.entered,
            clock: self.clock,
        })
    }

    /// What changes of the board between turns.
    pub fn state(&self, alloc: Global) -> Result<BoardState, AllocError>
        ensures { IfOk result (λ state. board_state state ≡ board_state_of (content_of self.now)) }
    {
        Ok(BoardState {
            bytes: Vec::from_slice(alloc, self.bytes.as_slice())?,
            timer: self.timer.copy(),
            pads: self.pads.state(),
            clock: self.clock,
        })
    }

    /// Goes to a state of a board between turns. Takes no memory.
    pub fn set_state(&mut self, state: &BoardState)
        ensures content { content_of self.new ≡ with_board_state (board_state state.now) (content_of self.old) }
        ensures idle { held_of self.new ≡ [] }
    {
        self.bytes
            .as_mut_slice()
            .copy_from_slice(state.bytes.as_slice());
        self.timer = state.timer.copy();
        self.pads.set_state(state.pads);
        self.held = ArrayVec::new();
        self.entered = None;
        self.clock = state.clock;
    }
}

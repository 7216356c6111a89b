//! A play as plain fields, which a host keeps between calls, and back.

ghost use Rattle.std.specs.Prelude.{◌≡◌, List, IfOk};
ghost use Rattle.uz_core.specs.declared.machine.Edge.{Edge};
ghost use Rattle.uz_core.specs.PadLine.{PadHistory};
ghost use Rattle.uz_core.specs.Turn.{State as MachineState};

use crate::play::Play;
use crate::state_parts::{
    board_of, clocks_of, core_state, count_of, cpu_of, edge_states, edges_of, pads_state,
    picture_state, response_of, scanner_of, timer_state,
};
use std::alloc::{AllocError, Global};
use uz_console::Console;
use uz_hex::Image;

/// The core's registers, and whether one instruction is made before an interrupt is taken (0: no).
#[repr(C)]
#[derive(Clone, Copy)]
pub struct CoreState {
    /// A word address. It is taken modulo 32,768.
    pub pc: u16,
    pub sp: u16,
    pub registers: [u8; 32],
    pub sreg: u8,
    pub owed: u8,
}

/// Timer 1: TCNT1, OCR1A, OCF1A (0 or not), TEMP, TIMSK1, TCCR1A, TCCR1B.
#[repr(C)]
#[derive(Clone, Copy)]
pub struct TimerState {
    pub count: u16,
    pub top: u16,
    pub matched: u8,
    pub temp: u8,
    pub interrupt_mask: u8,
    pub control_a: u8,
    pub control_b: u8,
    pub unused: u8,
}

/// The pads: the pair that the last latch loaded, unless `latched` is 0; PORTA's value; and moves since that latch, up to 12.
#[repr(C)]
#[derive(Clone, Copy)]
pub struct PadsState {
    pub one: u16,
    pub two: u16,
    pub latched: u8,
    pub level: u8,
    pub moves: u8,
    pub unused: u8,
}

/// The picture: the line and the frame that run, and the row of the last line that ended.
#[repr(C)]
#[derive(Clone, Copy)]
pub struct PictureState {
    /// The last edge's clock.
    pub clock: u64,
    /// The clock of the fall that began the line, unless `has_start` is 0.
    pub start: u64,
    /// Clocks from that fall to the line's rise, unless `has_low` is 0.
    pub low: u64,
    /// Frames that have begun.
    pub frame: u64,
    /// Lines of the frame that have ended.
    pub rows: u64,
    /// So many samples of the line are known, up to 455.
    pub filled: u64,
    pub has_start: u8,
    pub has_low: u8,
    /// The sync level, 0 or not.
    pub is_high: u8,
    /// Whether the line before was broad (0: no).
    pub after_broad: u8,
    /// The sound value.
    pub sound: u8,
    /// PORTC's value.
    pub pixel: u8,
    pub samples: [u8; 455],
    pub row: [u8; 455],
    pub unused: [u8; 4],
}

/// An edge: its kind is 0 (sync), 1 (pixel), 2 (sound), 3 (an interrupt is entered) or another one (it is left).
#[repr(C)]
#[derive(Clone, Copy)]
pub struct EdgeState {
    pub clock: u64,
    pub value: u16,
    pub kind: u8,
    pub unused: [u8; 5],
}

/// A play between two calls. Any content is safe.
#[repr(C)]
#[derive(Clone, Copy)]
pub struct State {
    /// The clock, counted from reset.
    pub clock: u64,
    pub core: CoreState,
    pub timer: TimerState,
    pub pads: PadsState,
    pub picture: PictureState,
    /// The edges of the last turn; none once there is no next one.
    pub edges: [EdgeState; 4],
    /// So many they are, up to 4.
    pub edge_count: u8,
    /// So many of them the picture has seen.
    pub edges_seen: u8,
    /// An interrupt is entered in 5 clocks where this is 5, and else in 4.
    pub response: u8,
    pub unused: [u8; 5],
    /// The bytes of the data space as they were stored.
    pub bytes: [u8; 4352],
}

impl Play {
    ghost use Rattle.uz_player.specs.Frames.{IsAt, clock_of, left_of};
    ghost use Rattle.uz_player.specs.States.{StandsFor, left_in, pads_in, remembering};

    /// The play as plain fields. The flash isn't in it, nor are the pairs that latches found before the last one.
    pub fn state(&self) -> State
        ensures stands { (s : MachineState PadHistory) (seen : List Edge) → IsAt self.now s seen → StandsFor result s seen }
        ensures clock { result.clock ≡ clock_of self.now }
        ensures left { left_in result ≡ left_of self.now }
    {
        let console = &self.console;
        let board = console.board();
        let mut bytes = [0; 4352];
        bytes.copy_from_slice(board.bytes());
        State {
            clock: console.clock(),
            core: core_state(console.cpu(), console.owes()),
            timer: timer_state(board.timer()),
            pads: pads_state(board.pads()),
            picture: picture_state(&self.scanner),
            edges: edge_states(&self.edges),
            edge_count: count_of(&self.edges),
            edges_seen: self.next.min(4) as u8,
            response: clocks_of(console.response()),
            unused: [0; 5],
            bytes,
        }
    }

    /// The play of plain fields over a flash. The next latch finds no pair: where buttons are held, that is for `hold` to say.
    pub fn of_state(alloc: Global, image: Image, state: &State) -> Result<Play, AllocError>
        ensures stands { IfOk result (λ play. (s : MachineState PadHistory) (seen : List Edge) → StandsFor state.now s seen
            → image ≡ s.image → IsAt play (remembering (pads_in state.now.pads) s) seen) }
        ensures clock { IfOk result (λ play. clock_of play ≡ state.now.clock) }
        ensures left { IfOk result (λ play. left_of play ≡ left_in state.now) }
    {
        let board = board_of(alloc, state)?;
        let cpu = cpu_of(&state.core);
        let owed = state.core.owed != 0;
        Ok(Play {
            console: Console::at(alloc, image, cpu, board, response_of(state.response), owed)?,
            scanner: scanner_of(&state.picture),
            edges: edges_of(state),
            next: state.edges_seen as usize,
        })
    }
}

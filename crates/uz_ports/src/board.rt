//! The board and its readings.

ghost use Rattle.std.specs.Prelude.{◌≡◌, ◌<◌, ◌+◌, ◌^◌, [], length, All, IfOk, if◌then◌else◌, None, Some};
ghost use Rattle.uz_core.specs.Core.{is_core_address};
ghost use Rattle.uz_core.specs.Space.{space_at_reset, byte_at, history_wiring, plain_byte};
ghost use Rattle.uz_core.specs.PadLine.{PadHistory};
ghost use Rattle.uz_pads.specs.Pads.{pad_state_of, pads_wiring, StandsFor};
ghost use Rattle.uz_ports.specs.HeldStoreFits.{HeldStoreFits};

use arrayvec::ArrayVec;
use std::alloc::{AllocError, Global};
use uz_core::address::{PINA, PINB, PINC, PIND, PORTA, RAM_END, is_core_address};
use uz_core::{Data, HeldStore};
use uz_pads::{PadState, Pads};
use uz_timer::Timer1;

/// The data space of the ATmega644 but for the core's own addresses, with timer 1, the pads on PORTA, the stores
/// that are held for the turn's end, and the clock. Clocks count from reset.
#[derive(Drop)]
pub struct Board {
    pub(crate) bytes: Vec<u8>,
    pub(crate) timer: Timer1,
    pub(crate) pads: Pads,
    pub(crate) held: ArrayVec<HeldStore, 2>,
    /// TCNT1 as an interrupt was taken in this turn.
    pub(crate) entered: Option<u16>,
    pub(crate) clock: u64,
    ghost sized: { length bytes.items ≡ 4352 },
    ghost fit: { All HeldStoreFits held.items },
}

impl Board {
    ghost use Rattle.uz_ports.specs.Boards.{space_of, held_of, entered_of, clock_of, with_pads};

    /// The board at reset: RAM, ports and timer are 0, with nothing held or noted, at clock 0.
    pub fn reset(alloc: Global, pads: Pads) -> Result<Board, AllocError>
        ensures space { IfOk result (λ board. space_of board ≡ space_at_reset pads) }
        ensures idle { IfOk result (λ board. (held_of board ≡ []) × (entered_of board ≡ None)) }
        ensures clock { IfOk result (λ board. clock_of board ≡ 0) }
    {
        Ok(Board {
            bytes: vec![in alloc; 0; RAM_END as usize + 1]?,
            timer: Timer1::reset(),
            pads,
            held: ArrayVec::new(),
            entered: None,
            clock: 0,
        })
    }

    /// A board between turns with these bytes of the data space, timer and pads, at a clock.
    pub fn at(bytes: Vec<u8>, timer: Timer1, pads: Pads, clock: u64) -> Board
        requires { length bytes.items ≡ 4352 }
        ensures space { space_of result ≡ record { bytes = bytes.items; timer = timer; pads = pads } }
        ensures idle { (held_of result ≡ []) × (entered_of result ≡ None) }
        ensures clock { clock_of result ≡ clock }
    {
        Board {
            bytes,
            timer,
            pads,
            held: ArrayVec::new(),
            entered: None,
            clock,
        }
    }

    /// The bytes of the data space as they were stored. Those of the core's own addresses and of the timer's aren't used.
    pub fn bytes(&self) -> &[u8]
        ensures bytes { result.now ≡ (space_of self.now).bytes }
        ensures size { length result.now ≡ 4352 }
    {
        self.bytes.as_slice()
    }

    /// What changes of the pads.
    pub fn pads(&self) -> PadState
        ensures { result ≡ pad_state_of (space_of self.now).pads }
    {
        self.pads.state()
    }

    /// The clock, counted from reset.
    pub fn clock(&self) -> u64
        ensures { result ≡ clock_of self.now }
    {
        self.clock
    }

    /// Timer 1.
    pub fn timer(&self) -> &Timer1
        ensures { result.now ≡ (space_of self.now).timer }
    {
        &self.timer
    }

    /// The byte that a read of a data address would give, without its effect. The core's own addresses answer 0.
    pub fn byte(&self, at: u16) -> u8
        ensures own { result ≡ (if is_core_address at then 0 else byte_at pads_wiring (space_of self.now) at) }
        ensures stands { (history : PadHistory) → StandsFor (space_of self.now).pads history
            → result ≡ (if is_core_address at then 0 else byte_at history_wiring
            (with_pads history (space_of self.now)) at) }
    {
        self.own_byte(at)
    }

    fn own_byte(&self, at: u16) -> u8
        ensures { result ≡ (if is_core_address at then 0 else byte_at pads_wiring (space_of self.now) at) }
    {
        if is_core_address(at) {
            0
        } else {
            self.peek(at)
        }
    }

    /// The byte that the data space holds at an address: what was stored there, where RAM, a port or a device that isn't
    /// modelled keeps it. 0 above 0x10FF.
    pub fn stored(&self, at: u16) -> u8
        ensures { result ≡ plain_byte (space_of self.now) at }
    {
        self.bytes.get(at as usize).copied().unwrap_or(0)
    }

    /// The byte of the data space.
    pub(crate) fn peek(&self, at: u16) -> u8
        ensures { result ≡ byte_at pads_wiring (space_of self.now) at }
    {
        let bytes = self.bytes.as_slice();
        match at {
            PINA => bytes[PORTA as usize] / 4 * 4 + self.pads.lines(),
            PINB | PINC | PIND => bytes[at as usize + 2],
            _ => {
                if Timer1::owns(at) {
                    self.timer.peek(at)
                } else if at > RAM_END {
                    0
                } else {
                    bytes[at as usize]
                }
            }
        }
    }
}

impl Data for Board {
    ghost use Rattle.uz_ports.specs.Boards.{BoardContent, content_of, held_of, board_loads};

    ghost Content = { BoardContent };

    ghost content = { content_of };

    ghost held = { held_of };

    ghost model = { board_loads };

    fn load(&mut self, at: u16, late: u8) -> u8 {
        let bytes = self.bytes.as_slice();
        match at {
            PINA => bytes[PORTA as usize] / 4 * 4 + self.pads.lines(),
            PINB | PINC | PIND => bytes[at as usize + 2],
            _ => {
                if Timer1::owns(at) {
                    self.timer.read(at, late)
                } else if at > RAM_END {
                    0
                } else {
                    bytes[at as usize]
                }
            }
        }
    }

    fn store(&mut self, at: u16, value: u8) {
        self.held.push(HeldStore::Byte { at, value });
    }

    fn bit(&mut self, at: u16, bit: u8, set: bool) {
        self.held.push(HeldStore::Bit { at, bit, set });
    }
}

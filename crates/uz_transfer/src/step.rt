//! The abstract step of an instance.

use arrayvec::ArrayVec;
use uz_schedule::{EventKind, Instance};

/// A pc, and the clocks that it takes to come there.
#[derive(Clone, Copy, Default)]
pub struct Exit {
    /// A word address.
    pub pc: u16,
    /// 1 to 4.
    pub clocks: u8,
}

/// What an instruction asks of main's state, of which each exit tells, by the rules of version 3.
#[derive(Clone, Copy)]
pub enum Test {
    /// Nothing that is known of.
    Nothing,
    /// A flag, by its bit in SREG, which has this value where the branch is taken.
    Flag(u8, bool),
    /// Whether two registers are equal.
    Equal(u8, u8),
    /// A bit of a register, which has this value where the next instruction is skipped.
    Bit(u8, u8, bool),
}

/// What an instruction makes of an instance. OCR1A, TEMP, registers, pairs, flags, what
/// they tell, stack and cells are the same wherever it goes.
#[derive(Drop)]
pub struct Step {
    /// Its OCR1A, TEMP, registers, pairs, flags, what they tell, stack and cells are those of each result; the rest is the
    /// instance's own.
    pub draft: Instance,
    /// Where it goes.
    pub exits: ArrayVec<Exit, 16>,
    /// What is emitted, at the end clock.
    pub emit: Option<EventKind>,
    /// Whether it is RETI.
    pub back: bool,
    /// Whether TIFR1 is stored with bit 1 set.
    pub clears: bool,
    /// What it asks of main's state.
    pub test: Test,
}

impl Step {
    /// A step that leads nowhere: room, to begin with, where one step is put in place of another.
    pub fn empty() -> Step {
        Step {
            draft: Instance::default(),
            exits: ArrayVec::new(),
            emit: None,
            back: false,
            clears: false,
            test: Test::Nothing,
        }
    }
}

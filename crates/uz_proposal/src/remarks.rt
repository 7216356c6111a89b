//! A hint with what was seen of it.

use avr_asm::Hint;

/// What a run showed of a hint.
#[derive(Clone, Copy)]
pub enum Remark {
    /// Of a frame: the clock at which sync falls, of how many of its lines it falls then, how many lines there are, and how many of
    /// them have half a scanline's clocks.
    Falls {
        clock: u16,
        falling: u16,
        lines: u16,
        halves: u16,
    },
    /// Of lines with half a scanline's clocks.
    Halves,
    /// Of the stack: SP at main's loop, and how far the code pushes.
    Pushes,
    /// Of main's loop: how often it was met.
    Loop {
        visits: u32,
    },
    /// Of a program without interrupts: how often the store was met by which sync falls.
    Fall {
        visits: u32,
    },
    /// Of a cell: the least and the greatest byte that was stored to it.
    Stored {
        least: u8,
        greatest: u8,
    },
    /// Of a cell that was read, and to which nothing was stored.
    Unwritten,
    /// Of a register that was the same at each visit of the start.
    Constant {
        visits: u32,
    },
}

/// A hint, and what was seen of it.
#[derive(Clone, Copy)]
pub struct Remarked {
    pub remark: Remark,
    pub hint: Hint,
}

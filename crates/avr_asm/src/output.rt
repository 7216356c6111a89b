//! What a source gives.

use avr_table::Instr;
use uz_hex::Image;
use uz_schedule::Kind;

/// An instruction with its place.
#[derive(Clone, Copy)]
pub struct Placed {
    /// Its word address, below 32,768.
    pub at: u16,
    /// Its line, counted from 1.
    pub line: u32,
    /// The instruction.
    pub instr: Instr,
}

/// What a source tells the certifier.
#[derive(Clone, Copy)]
pub enum Hint {
    /// Where main or an alone program enters: its word address.
    Start {
        kind: Kind,
        at: u16,
    },
    /// The lines of a frame, and the clock of the fall.
    Lines {
        lines: u16,
        fall: u16,
    },
    /// The lines from one to another, both among them, that have half a scanline's clocks; all others have a scanline's.
    Half {
        from: u16,
        to: u16,
    },
    /// The stack's lowest and highest data address, and the greatest depths of main and handler in bytes.
    Stack {
        lo: u16,
        hi: u16,
        main: u8,
        handler: u8,
    },
    /// A tracked byte of RAM: its data address, its owner, its range, and the handler's value at the start, 0 for main.
    Cell {
        at: u16,
        owner: Kind,
        lo: u8,
        hi: u8,
        first: u8,
    },
    /// The range of a register, 0 to 31, or of X, Y or Z, 32 to 34, at a word address: that of the first instruction
    /// line after the hint, or the one that the hint names.
    Fact {
        at: u16,
        place: u8,
        lo: u16,
        hi: u16,
    },
}

/// What a source assembles to.
#[derive(Drop)]
pub struct Built {
    /// The bytes.
    pub image: Image,
    /// The instruction lines, in order.
    pub items: Vec<Placed>,
    /// The hint directives, in order.
    pub hints: Vec<Hint>,
}

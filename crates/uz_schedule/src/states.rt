//! Points, the states that they stand for, and the states where runs enter.

use crate::facts::{Bit, Compared, Fact, PairFact, Val};
use crate::kinds::Kind;
use crate::line_length::SCANLINE;
use crate::ranges::{Span, Wide};
use arrayvec::ArrayVec;
use std::hash::{Hash, Hasher};

/// Where the handler of a line returns to the main loop, and what holds there.
#[derive(Drop)]
pub struct Rest {
    /// The line, counted from 0.
    pub line: u16,
    /// The clock of the line at which the return ends, below `CLOCK_LIMIT`.
    pub clock: u16,
    /// The number of the point where the handler's next entry is.
    pub vector: u32,
    /// A range for each cell of the handler.
    pub cells: ArrayVec<Span, 16>,
}

/// The states at which the claim of a certificate begins.
#[derive(Drop)]
pub struct Entry {
    /// Main or alone.
    pub kind: Kind,
    /// The number of its point, counted from 0.
    pub id: u32,
    /// The program counter, a word address below 32,768.
    pub pc: u16,
    /// The line, counted from 0.
    pub line: u16,
    /// The clock of the line, below `CLOCK_LIMIT`.
    pub clock: u16,
    /// The values that each register may have.
    pub regs: [Span; 32],
    /// What is known of the flags C, Z, N, V, S, H and T.
    pub flags: [Bit; 7],
    /// The values that each byte of the stack may have, from the bottom.
    pub stack: ArrayVec<Span, 32>,
    /// The values that each cell may have that its kind tracks.
    pub cells: ArrayVec<Span, 16>,
}

/// A place of the program, for a box of lines and counts of a loop.
#[derive(Drop)]
pub struct Point {
    /// What it belongs to.
    pub kind: Kind,
    /// The program counter, a word address below 32,768.
    pub pc: u16,
    /// The first line of the box.
    pub l0: u16,
    /// The last line of the box.
    pub l1: u16,
    /// The first count of the box.
    pub c0: u8,
    /// The last count of the box.
    pub c1: u8,
    /// The clock of the line at count 0, below `CLOCK_LIMIT`.
    pub clock: u16,
    /// The clocks by which each count is later than the one before it: more than `CLOCK_LIMIT` clocks below 0, and less
    /// than `CLOCK_LIMIT`.
    pub slope: i16,
    /// Whether a compare match waits for its interrupt.
    pub pending: bool,
    /// In a handler the timer's OCR1A: the last clock of a line, `HALF_LINE - 1` or `SCANLINE - 1`. Else `SCANLINE - 1`.
    pub top: u16,
    /// In a handler the values that the timer's TEMP may have. Else every byte.
    pub temp: Span,
    /// What is known of each register.
    pub regs: [Fact; 32],
    /// What is known of the pairs X, Y and Z.
    pub pairs: [PairFact; 3],
    /// What is known of the flags C, Z, N, V, S, H and T.
    pub flags: [Bit; 7],
    /// What the flags tell of main's last comparison or result: nothing by the rules of version 2.
    pub compared: Compared,
    /// The register by whose values a result may be covered, 0 to 31: of main by the rules of version 3.
    pub split: Option<u8>,
    /// What is known of each byte of the stack, from the bottom.
    pub stack: ArrayVec<Fact, 32>,
    /// What is known of each cell that its kind tracks.
    pub cells: ArrayVec<Fact, 16>,
    /// The numbers of the points where an instruction may lead, rising.
    pub next: ArrayVec<u32, 16>,
}

/// A point at one line and one count of its box.
#[derive(Drop, PartialEq, Eq)]
pub struct Instance {
    /// What it belongs to.
    pub kind: Kind,
    /// What is known of the flags C, Z, N, V, S, H and T.
    pub flags: [Bit; 7],
    /// The program counter, a word address below 32,768.
    pub pc: u16,
    /// The line, counted from 0.
    pub line: u16,
    /// The clock of the line, below its length.
    pub clock: u16,
    /// The level of sync, 0 or 1.
    pub level: u8,
    /// Whether a compare match waits for its interrupt.
    pub pending: bool,
    /// In a handler the timer's OCR1A: the last clock of a line, `HALF_LINE - 1` or `SCANLINE - 1`. Else `SCANLINE - 1`.
    pub top: u16,
    /// In a handler the values that the timer's TEMP may have. Else every byte.
    pub temp: Span,
    /// What is known of each register.
    pub regs: [Val; 32],
    /// The values that the pairs X, Y and Z may have.
    pub pairs: [Wide; 3],
    /// What the flags tell of main's last comparison or result: nothing by the rules of version 2.
    pub compared: Compared,
    /// What is known of each byte of the stack, from the bottom.
    pub stack: ArrayVec<Val, 32>,
    /// The values that each cell may have that its kind tracks.
    pub cells: ArrayVec<Span, 16>,
}

impl Hash for Instance {
    ghost use Rattle.std.proofs.Common.{ap};
    ghost use Rattle.uz_schedule.specs.HashWrites.{instance_writes};
    ghost use Rattle.uz_schedule.specs.Exact.{exact_instance};

    ghost hash_input = { instance_writes };

    ghost respects_eq = { λ x y same. ap instance_writes (exact_instance x y same) };

    /// Its place, and what is known of the pairs, the registers, the stack and the cells: few others have all these alike.
    fn hash<H: Hasher>(&self, state: &mut H) {
        state.write_u16(self.pc);
        state.write_u16(self.line);
        state.write_u16(self.clock);
        self.pairs.hash(state);
        self.regs.hash(state);
        self.stack.hash(state);
        self.cells.hash(state);
    }
}

impl Default for Instance {
    ghost use Rattle.std.specs.Prelude.{◌≡◌};
    ghost use Rattle.uz_schedule.specs.Blank.{blank_instance};

    ghost is_default = { λ i. i ≡ blank_instance };

    /// An instance that says nothing: alone, all numbers 0, no slot and no cell, each register and TEMP any byte, and OCR1A the
    /// last clock of a scanline.
    fn default() -> Self {
        Instance {
            kind: Kind::Alone,
            pc: 0,
            line: 0,
            clock: 0,
            level: 0,
            pending: false,
            top: SCANLINE - 1,
            temp: Span::between(0, 255),
            regs: [Val::Range(Span::between(0, 255)); 32],
            pairs: [Wide::between(0, 65535); 3],
            flags: [Bit::Free; 7],
            compared: Compared::Nothing,
            stack: ArrayVec::new(),
            cells: ArrayVec::new(),
        }
    }
}

const _: () = prove!(std::mem::size_of::<Instance>() == 280);

const _: () = prove!(std::mem::size_of::<Point>() == 384);

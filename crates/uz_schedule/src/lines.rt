//! The events of a frame's lines.

use crate::line_events::LineEvents;
use crate::sequence::Sequence;

/// What a program shows at one clock.
#[derive(Clone, Copy, Debug, PartialEq, Eq)]
pub enum EventKind {
    /// The sync pin, bit 0 of PORTB, takes this level, 0 or 1.
    Sync(u8),
    /// A pixel, written to PORTC.
    Pixel,
    /// A sound sample, written to OCR2A.
    Sound,
    /// The handler returns.
    Leave,
}

/// An event of a line.
#[derive(Clone, Copy, Debug)]
pub struct Event {
    /// The clock of its line at which it is seen, below the line's length.
    pub clock: u16,
    /// What is seen.
    pub kind: EventKind,
}

/// The events of a frame's lines.
#[derive(Drop)]
pub struct Schedule {
    /// The kinds of line: of each its events, clocks rising.
    pub kinds: Sequence<LineEvents>,
    /// Of each kind of line its length in clocks, `HALF_LINE` or `SCANLINE`; as many as kinds.
    pub lengths: Sequence<u16>,
    /// Of each line of the frame the number of its kind, counted from 0.
    pub lines: Sequence<u16>,
    /// The clock of each line at which the level of sync falls, 1 or later and below `CLOCK_LIMIT`.
    pub fall: u16,
}

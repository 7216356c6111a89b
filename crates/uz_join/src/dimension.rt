//! The dimension of a box of points along which they follow each other: its lines or its counts.

use uz_schedule::Point;

/// What points of one chain follow each other by: the lines of their box, or its counts.
#[derive(Clone, Copy)]
pub enum Dimension {
    /// They stand at lines that follow each other, each at one.
    Lines,
    /// They stand at clocks with the same distance, each at one: turns of a loop.
    Counts,
}

/// The most points of a chain by counts: counts are bytes.
const MOST_COUNTS: u32 = 256;

impl Dimension {
    /// Whether a place may be the second one of a chain that begins at another: the next line, or a later clock.
    pub fn may_follow(self, from: u16, to: u16) -> bool {
        match self {
            Dimension::Lines => u32::from(to) == u32::from(from) + 1,
            Dimension::Counts => from < to,
        }
    }

    /// Whether a chain of so many points may have one more.
    pub fn has_room(self, count: u32) -> bool {
        match self {
            Dimension::Lines => true,
            Dimension::Counts => count < MOST_COUNTS,
        }
    }

    /// The line or count at which the box of a chain with this first point begins.
    pub fn start(self, first: &Point) -> u16 {
        match self {
            Dimension::Lines => first.l0,
            Dimension::Counts => 0,
        }
    }
}

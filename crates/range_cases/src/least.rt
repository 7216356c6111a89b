//! The least range of the numbers that were met.

use uz_schedule::{Span, Wide};

/// The least range; where no number was met its lower end is above the upper one.
#[derive(Clone, Copy)]
pub(crate) struct Least {
    lo: u16,
    hi: u16,
}

impl Least {
    pub(crate) fn nothing() -> Least {
        Least {
            lo: u16::MAX,
            hi: 0,
        }
    }

    /// With one number more.
    pub(crate) fn with(self, number: u16) -> Least {
        Least {
            lo: self.lo.min(number),
            hi: self.hi.max(number),
        }
    }

    /// Whether no number was met.
    pub(crate) fn is_nothing(self) -> bool {
        self.lo > self.hi
    }

    /// Whether a range of pairs holds each number.
    pub(crate) fn is_in(self, range: Wide) -> bool {
        self.is_nothing() || range.lo() <= self.lo && self.hi <= range.hi()
    }

    /// Whether a range of pairs is this one.
    pub(crate) fn is(self, range: Wide) -> bool {
        range.lo() == self.lo && range.hi() == self.hi
    }
}

/// A range of bytes as one of pairs.
pub(crate) fn wide_of(a: Span) -> Wide {
    Wide::between(u16::from(a.lo()), u16::from(a.hi()))
}

//! The words of a row.

use uz_schedule::{Bit, Span, Wide};

/// What is left of a row, whose words stand apart by one space.
#[derive(Drop)]
pub(crate) struct Words<'a> {
    rest: &'a str,
}

impl<'a> Words<'a> {
    pub(crate) fn new(row: &'a str) -> Words<'a> {
        Words { rest: row }
    }

    /// The next word; the empty one where none is left.
    pub(crate) fn word(&mut self) -> &'a str {
        let (word, rest) = self.rest.split_once(" ").unwrap_or((self.rest, ""));
        self.rest = rest;
        word
    }

    /// The next word as a byte.
    pub(crate) fn byte(&mut self) -> Option<u8> {
        self.word().parse().ok()
    }

    /// The next two words as the ends of a range of bytes.
    pub(crate) fn span(&mut self) -> Option<Span> {
        let lo = self.byte()?;
        let hi = self.byte()?;
        Span::new(lo, hi)
    }

    /// The next two words as the ends of a range of pairs.
    pub(crate) fn wide(&mut self) -> Option<Wide> {
        let lo = self.number()?;
        let hi = self.number()?;
        Wide::new(lo, hi)
    }

    /// The next word as a number of 16 bits.
    pub(crate) fn number(&mut self) -> Option<u16> {
        self.word().parse().ok()
    }

    /// The next word as the bit of SREG that a flag is.
    pub(crate) fn flag(&mut self) -> Option<u8> {
        match self.word() {
            "C" => Some(0),
            "Z" => Some(1),
            "N" => Some(2),
            "V" => Some(3),
            "S" => Some(4),
            "H" => Some(5),
            "T" => Some(6),
            _ => None,
        }
    }

    /// The next word as a flag or a bit that is known.
    pub(crate) fn is_set(&mut self) -> Option<bool> {
        match self.word() {
            "0" => Some(false),
            "1" => Some(true),
            _ => None,
        }
    }

    /// The next word as a flag of which more or less is known.
    pub(crate) fn bit(&mut self) -> Option<Bit> {
        match self.word() {
            "0" => Some(Bit::Zero),
            "1" => Some(Bit::One),
            "?" => Some(Bit::Free),
            "o" => Some(Bit::Old),
            _ => None,
        }
    }
}

//! The head of a certificate.

use crate::kinds::{Owner, Response, RuleVersion};
use crate::ranges::Span;
use arrayvec::ArrayVec;

/// A byte of RAM whose values the certificate tracks.
#[derive(Clone, Copy, Default)]
pub struct Cell {
    /// Its address in the data space, 256 to 4351, off the stack.
    pub at: u16,
    /// Who writes it.
    pub owner: Owner,
    /// The values that it may have.
    pub range: Span,
}

/// What a certificate says once, for all its points.
#[derive(Drop)]
pub struct Head {
    /// The clocks of an interrupt entry.
    pub irq: Response,
    /// The lowest address of the stack, 256 or more.
    pub lo: u16,
    /// The highest address of the stack, 4351 at most.
    pub hi: u16,
    /// How many bytes the main loop may push, 0 to 32.
    pub main: u8,
    /// How many bytes the handler may push, 0 to 32.
    pub handler: u8,
    /// The tracked cells, addresses rising.
    pub cells: ArrayVec<Cell, 16>,
    /// By which rules the certificate is judged.
    pub version: RuleVersion,
}

//! The flash as a finite map from byte addresses to bytes.

ghost use Rattle.std.specs.Prelude.{◌≡◌, All, IfOk, length};
ghost use Rattle.std.specs.FinMap as map;
ghost use Rattle.uz_hex.specs.Cells.{word_of, present, HoldsByte, IsFlash};

use std::alloc::{AllocError, Global};
use std::marker::Model;

/// How many byte addresses the flash has (ATmega644 data sheet: 64 KiB).
pub const FLASH_BYTES: u32 = 65536;

/// How many word addresses the flash has: two bytes to each.
pub const FLASH_WORDS: u16 = 32768;

/// What an absent byte reads as: erased flash.
pub const ERASED: u8 = 255;

/// The flash of an ATmega644, of which some bytes are present.
///
/// A clause sees a finite map from byte addresses, 0 to 65,535, to bytes.
#[derive(Drop)]
pub struct Image {
    cells: Vec<Option<u8>>,
}

impl Model for Image {
    ghost use Rattle.std.specs.Prelude.{◌≡◌, ℕ, All, length};
    ghost use Rattle.std.specs.Ordering.{nat_cmp};
    ghost use Rattle.std.specs.Coded.{coded_ℕ};
    ghost use Rattle.std.specs.FinMap as map;
    ghost use Rattle.uz_hex.specs.Cells.{present, HoldsByte};

    ghost Value = { map.FinMap nat_cmp ℕ };

    ghost coded = { map.code coded_ℕ coded_ℕ };

    ghost view = { λ image. present 0 image.cells.items };

    ghost invariant = { λ image. (length image.cells.items ≡ 65536) × All HoldsByte image.cells.items };
}

impl Image {
    /// The image without a byte. Makes the room for all 65,536 bytes, so that no later call of
    /// this type takes memory.
    #[tactic(auto, using(crate::proofs::CellsLemmas::cells))]
    pub fn empty(alloc: Global) -> Result<Image, AllocError>
        ensures { IfOk result (λ image. image ≡ map.empty) }
    {
        Ok(Image {
            cells: vec![in alloc; None; FLASH_BYTES as usize]?,
        })
    }

    /// An image with the same bytes.
    #[tactic(auto, using(crate::proofs::CellsLemmas::cells))]
    pub fn copy(&self, alloc: Global) -> Result<Image, AllocError>
        ensures { IfOk result (λ image. image ≡ self.now) }
    {
        Ok(Image {
            cells: Vec::from_slice(alloc, self.cells.as_slice())?,
        })
    }

    /// Sets the byte at a byte address and leaves the others.
    #[tactic(auto, using(crate::proofs::CellsLemmas::cells))]
    pub fn set(&mut self, at: u16, value: u8)
        ensures { self.new ≡ map.insert self.old at value }
    {
        self.cells[at as usize] = Some(value);
    }

    /// The byte at a byte address, or `None` where it is absent.
    #[tactic(auto, using(crate::proofs::CellsLemmas::cells))]
    pub fn byte(&self, at: u16) -> Option<u8>
        ensures { result ≡ map.get self.now at }
    {
        self.cells[at as usize]
    }

    /// The word at a word address, taken modulo 32,768: the byte at twice the address, plus 256
    /// times the next one. An absent byte counts as 255.
    pub fn word(&self, at: u16) -> u16
        ensures { result ≡ word_of self.now at }
    {
        let low = 2 * (at % 32768);
        let first = self.byte(low).unwrap_or(ERASED);
        let second = self.byte(low + 1).unwrap_or(ERASED);
        u16::from(first) + 256 * u16::from(second)
    }

    /// The law that an image holds bytes alone, at addresses below 65,536. Does nothing.
    #[tactic(auto, using(crate::proofs::CellsLemmas::cells))]
    pub fn is_flash(&self)
        ensures { IsFlash self.now }
    {
        let _ = &self.cells; // what the law speaks of
    }

    /// The 65,536 cells in the order of their addresses.
    #[tactic(auto, using(crate::proofs::CellsLemmas::cells))]
    pub(crate) fn cells(&self) -> &[Option<u8>]
        ensures view { self.now ≡ present 0 result.now }
        ensures size { length result.now ≡ 65536 }
        ensures bytes { All HoldsByte result.now }
    {
        self.cells.as_slice()
    }

    /// How many bytes are present, at most 65,536.
    #[tactic(auto, using(crate::proofs::CellsLemmas::cells))]
    pub fn count(&self) -> u32
        ensures { result ≡ map.len self.now }
    {
        self.cells.iter().filter(|cell| cell.is_some()).count() as u32
    }
}

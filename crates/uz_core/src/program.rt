//! The flash, decoded once.

ghost use Rattle.std.specs.Prelude.{◌≡◌, ◌<◌, IfOk, length};
ghost use Rattle.uz_core.specs.Programs.{AreReadings, IsReading};

use crate::decoded::Reading;
use std::alloc::{AllocError, Global};
use std::marker::Model;
use uz_hex::{FLASH_WORDS, Image};

/// The flash of an image, with the instruction that is read at each of its 32,768 words. Contracts see the image: a finite map from
/// byte addresses to bytes. It can't change, since SPM stops (this project's profile).
#[derive(Drop)]
pub struct Program {
    image: Image,
    readings: Vec<Reading>,
}

impl Model for Program {
    ghost use Rattle.std.specs.Prelude.{◌≡◌, ℕ, length};
    ghost use Rattle.std.specs.Ordering.{nat_cmp};
    ghost use Rattle.std.specs.Coded.{coded_ℕ};
    ghost use Rattle.std.specs.FinMap as map;
    ghost use Rattle.uz_core.specs.Programs.{AreReadings};

    ghost Value = { map.FinMap nat_cmp ℕ };

    ghost coded = { map.code coded_ℕ coded_ℕ };

    ghost view = { λ program. program.image };

    ghost invariant = { λ program. (length program.readings.items ≡ 32768) × AreReadings program.image program.readings.items };
}

/// What is read at a word address.
pub(crate) fn read_at(image: &Image, at: u16) -> Reading
    requires { at < 32768 }
    ensures { IsReading image.now at result }
{
    Reading::of(at, image.word(at), image.word((at + 1) % FLASH_WORDS))
}

/// What is read at each word.
fn read_all(alloc: Global, image: &Image) -> Result<Vec<Reading>, AllocError>
    ensures size { IfOk result (λ readings. length readings.items ≡ 32768) }
    ensures readings { IfOk result (λ readings. AreReadings image.now readings.items) }
{
    let mut readings = Vec::with_capacity(alloc, FLASH_WORDS as usize)?;
    for at in 0..FLASH_WORDS {
        readings.push(read_at(image, at))?;
    }
    Ok(readings)
}

fn copied(alloc: Global, readings: &[Reading]) -> Result<Vec<Reading>, AllocError>
    ensures { IfOk result (λ copy. copy.items ≡ readings.now) }
{
    Vec::from_slice(alloc, readings)
}

impl Program {
    /// Decodes each word of an image.
    pub fn new(alloc: Global, image: Image) -> Result<Program, AllocError>
        ensures { IfOk result (λ program. program ≡ image) }
    {
        let readings = read_all(alloc, &image)?;
        Ok(Program { image, readings })
    }

    /// A program of the same image. Nothing is decoded again.
    pub fn copy(&self, alloc: Global) -> Result<Program, AllocError>
        ensures { IfOk result (λ program. program ≡ self.now) }
    {
        Ok(Program {
            image: self.image.copy(alloc)?,
            readings: copied(alloc, self.readings.as_slice())?,
        })
    }

    /// The flash.
    #[inline(always)]
    pub fn image(&self) -> &Image
        ensures { result.now ≡ self.now }
    {
        &self.image
    }

    /// What is read at a word address.
    #[inline(always)]
    pub(crate) fn reading(&self, at: u16) -> &Reading
        requires { at < 32768 }
        ensures { IsReading self.now at result.now }
    {
        &self.readings.as_slice()[at as usize]
    }
}

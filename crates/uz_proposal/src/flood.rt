//! What the code alone tells: from a pc along both ways of each branch, into calls and on behind them, with the depth of pushes.

ghost use Rattle.std.specs.Prelude.{◌≡◌, ◌<◌, ◌≤◌, length};

use crate::registers_read;
use avr_decode::{decode, length};
use avr_table::words;
use std::alloc::{AllocError, Global};
use uz_core::{AddressMode, Effect, JumpTarget, effect};
use uz_hex::{FLASH_WORDS, Image};

/// No way is followed deeper than so many bytes: recursion has no end.
const DEEPEST: u8 = 33;

/// Each word at each depth, once.
const MOST_STEPS: u32 = 34 * 32768;

/// The words of the flash.
const WORDS: usize = 32768;

/// The bytes of RAM, and their first address.
const RAM_BYTES: usize = 4096;

const RAM_BEGIN: u16 = 256;

/// What the code from a pc on reads, loads, stores and pushes.
#[derive(Drop)]
pub(crate) struct Flood {
    /// The registers that are read, but for pushes, a bit each.
    pub(crate) reads: u32,
    /// The most bytes pushed, 33 if there are more.
    pub(crate) depth: u8,
    /// The bytes of RAM that LDS loads and that STS stores.
    pub(crate) loads: Vec<bool>,
    pub(crate) stores: Vec<bool>,
    /// The depths at which a word was reached, a bit each.
    seen: Vec<u64>,
    /// What is still to be looked at.
    list: Vec<(u16, u8)>,
}

/// The word behind some others.
fn behind(pc: u16, words: u16) -> u16
    ensures { result < 32768 }
{
    ((u32::from(pc) + u32::from(words)) % u32::from(FLASH_WORDS)) as u16
}

/// The place of a data address in RAM.
fn place_in_ram(mode: AddressMode) -> Option<usize> {
    match mode {
        AddressMode::Direct(at) if at >= RAM_BEGIN => Some(usize::from(at - RAM_BEGIN)),
        _ => None,
    }
}

impl Flood {
    fn new(alloc: Global) -> Result<Flood, AllocError> {
        Ok(Flood {
            reads: 0,
            depth: 0,
            loads: vec![in alloc; false; RAM_BYTES]?,
            stores: vec![in alloc; false; RAM_BYTES]?,
            seen: vec![in alloc; 0; WORDS]?,
            list: Vec::new(alloc),
        })
    }

    /// A word that is reached.
    fn reach(&mut self, pc: u16, depth: u8) -> Result<(), AllocError> {
        if depth > DEEPEST {
            return Ok(());
        }
        let bit = 1u64 << depth;
        if let Some(depths) = self.seen.get_mut(usize::from(pc)) {
            if *depths & bit == 0 {
                *depths = *depths | bit;
                self.depth = self.depth.max(depth);
                self.list.push((pc, depth))?;
            }
        }
        Ok(())
    }

    /// The bytes of RAM that an effect loads or stores by their address.
    fn use_memory(&mut self, effect: Effect) {
        match effect {
            Effect::Load { from, .. } => {
                if let Some(place) = place_in_ram(from) {
                    mark(self.loads.as_mut_slice(), place);
                }
            }
            Effect::Store { to, .. } => {
                if let Some(place) = place_in_ram(to) {
                    mark(self.stores.as_mut_slice(), place);
                }
            }
            _ => {}
        }
    }

    /// A jump or a call.
    fn jump(
        &mut self,
        target: JumpTarget,
        call: bool,
        next: u16,
        depth: u8,
    ) -> Result<(), AllocError> {
        let inner = if call { depth.saturating_add(2) } else { depth };
        match target {
            JumpTarget::Absolute(at) => self.reach(at, inner)?,
            JumpTarget::Relative(offset) => self.reach(behind(next, offset), inner)?,
            JumpTarget::Indirect => {}
        }
        if call {
            self.reach(next, depth)?;
        }
        Ok(())
    }

    /// Where an effect leads.
    fn lead(
        &mut self,
        image: &Image,
        effect: Effect,
        next: u16,
        depth: u8,
    ) -> Result<(), AllocError> {
        match effect {
            Effect::Branch { offset, .. } => {
                self.reach(behind(next, offset), depth)?;
                self.reach(next, depth)
            }
            Effect::SkipIf { .. } => {
                self.reach(behind(next, u16::from(length(image.word(next)))), depth)?;
                self.reach(next, depth)
            }
            Effect::Jump { target, call } => self.jump(target, call, next, depth),
            Effect::Return { .. } => Ok(()),
            Effect::Stop => Ok(()),
            Effect::PushByte { .. } => self.reach(next, depth.saturating_add(1)),
            Effect::PopByte { .. } => self.reach(next, depth.saturating_sub(1)),
            _ => self.reach(next, depth),
        }
    }

    /// One instruction.
    fn step(&mut self, image: &Image, pc: u16, depth: u8) -> Result<(), AllocError> {
        match decode(image.word(pc), image.word(behind(pc, 1))) {
            None => Ok(()),
            Some(row) => {
                let effect = effect(&row);
                self.reads = self.reads | registers_read(&effect);
                self.use_memory(effect);
                self.lead(image, effect, behind(pc, u16::from(words(&row))), depth)
            }
        }
    }
}

fn mark(marks: &mut [bool], place: usize) {
    if let Some(mark) = marks.get_mut(place) {
        *mark = true;
    }
}

/// Follows the code from a pc on. What it tells is a base for guesses: no clause speaks of it.
pub(crate) fn flood_from(alloc: Global, image: &Image, from: u16) -> Result<Flood, AllocError> {
    let mut all = Flood::new(alloc)?;
    all.reach(from, 0)?;
    for _ in 0..MOST_STEPS {
        match all.list.pop() {
            None => break,
            Some((pc, depth)) => all.step(image, pc, depth)?,
        }
    }
    Ok(all)
}

//! The breakpoints.

ghost use Rattle.std.specs.Prelude.{◌≡◌, ◌<◌, ◌||◌, IfOk, if◌then◌else◌, nat_lt};
ghost use Rattle.std.specs.FinSet as set;

use std::alloc::{AllocError, Global};
use std::marker::Model;
use uz_hex::FLASH_WORDS;

/// How many breakpoints there may be.
const MOST: u8 = 64;

/// A set of word addresses of the flash, at most 64. A mark for each word tells at once whether it is in the set.
#[derive(Drop)]
pub(crate) struct Breakpoints {
    marks: Vec<bool>,
    count: u8,
}

impl Model for Breakpoints {
    ghost use Rattle.std.specs.Prelude.{◌≡◌, ◌≤◌, length};
    ghost use Rattle.std.specs.Ordering.{nat_cmp};
    ghost use Rattle.std.specs.Coded.{coded_ℕ};
    ghost use Rattle.std.specs.FinSet as set;
    ghost use Rattle.uz_debug.specs.Marks.{marked};

    ghost Value = { set.FinSet nat_cmp };

    ghost coded = { set.code coded_ℕ };

    ghost view = { λ b. marked 0 b.marks.items };

    ghost invariant = { λ b. (length b.marks.items ≡ 32768) × (b.count ≡ set.len (marked 0 b.marks.items)) × (b.count ≤ 64) };
}

impl Breakpoints {
    /// No breakpoint.
    pub(crate) fn none(alloc: Global) -> Result<Breakpoints, AllocError>
        ensures { IfOk result (λ breakpoints. breakpoints ≡ set.empty) }
    {
        Ok(Breakpoints {
            marks: vec![in alloc; false; FLASH_WORDS as usize]?,
            count: 0,
        })
    }

    #[tactic(auto, using(crate::proofs::MarkLemmas::marks))]
    pub(crate) fn contains(&self, pc: u16) -> bool
        requires { pc < 32768 }
        ensures { result ≡ set.contains self.now pc }
    {
        self.marks[pc as usize]
    }

    /// Adds an address, or answers false where 64 others are set.
    #[tactic(auto, using(crate::proofs::MarkLemmas::marks))]
    pub(crate) fn insert(&mut self, pc: u16) -> bool
        requires { pc < 32768 }
        ensures done { result ≡ (set.contains self.old pc || nat_lt (set.len self.old) 64) }
        ensures set { self.new ≡ (if result then set.insert self.old pc else self.old) }
    {
        if self.contains(pc) {
            return true;
        }
        if self.count == MOST {
            return false;
        }
        self.marks[pc as usize] = true;
        self.count += 1;
        true
    }

    /// Takes an address away, or answers false where it isn't set.
    #[tactic(auto, using(crate::proofs::MarkLemmas::marks))]
    pub(crate) fn remove(&mut self, pc: u16) -> bool
        requires { pc < 32768 }
        ensures done { result ≡ set.contains self.old pc }
        ensures set { self.new ≡ (if result then set.remove self.old pc else self.old) }
    {
        if !self.contains(pc) {
            return false;
        }
        self.marks[pc as usize] = false;
        self.count -= 1;
        true
    }
}

//! The values of names.

ghost use Rattle.std.specs.Prelude.{◌≡◌, IfOk, OnErr, OnOk, is_none, if◌then◌else◌};
ghost use Rattle.std.specs.FinMap as map;

use std::alloc::{AllocError, Global};
use std::collections::BTreeMap;
use std::marker::Model;

/// Names with their values, each name once. Names are compared byte by byte: case counts.
///
/// A clause sees a finite map from names to values.
#[derive(Drop)]
pub struct Symbols {
    values: BTreeMap<Vec<u8>, i64>,
}

impl Model for Symbols {
    ghost use Rattle.std.specs.Prelude.{ℤ};
    ghost use Rattle.std.specs.Ordering.{nat_cmp};
    ghost use Rattle.std.specs.Cmp.Lexicographic.{slice_cmp};
    ghost use Rattle.std.specs.Coded.{coded_ℕ, coded_ℤ, coded_list};
    ghost use Rattle.std.specs.FinMap as map;
    ghost use Rattle.avr_text.specs.Names.{named};

    ghost Value = { map.FinMap (slice_cmp nat_cmp) ℤ };

    ghost coded = { map.code (coded_list coded_ℕ) coded_ℤ };

    ghost view = { λ symbols. map.from_entries (named symbols.values.entries) };
}

impl Symbols {
    /// No name.
    pub fn new(alloc: Global) -> Result<Symbols, AllocError>
        ensures { IfOk result (λ symbols. symbols ≡ map.empty) }
    {
        Ok(Symbols {
            values: BTreeMap::new(alloc),
        })
    }

    /// Gives a name its value, where it has none yet: false, and no change, exactly where the name is
    /// there. After want of memory nothing is changed.
    pub fn add(&mut self, alloc: Global, name: &[u8], value: i64) -> Result<bool, AllocError>
        ensures added { IfOk result (λ added. added ≡ is_none (map.get self.old name.now)) }
        ensures after { IfOk result (λ added. self.new ≡ (if added then map.insert self.old name.now value else self.old)) }
        ensures err { OnErr result (self.new ≡ self.old) }
    {
        if self.values.contains_key(name) {
            return Ok(false);
        }
        let key = Vec::from_slice(alloc, name)?;
        self.values.insert(key, value)?;
        Ok(true)
    }

    /// Gives a name this value, whether it has one already or not. After want of memory nothing is changed.
    pub fn set(&mut self, alloc: Global, name: &[u8], value: i64) -> Result<(), AllocError>
        ensures ok { OnOk result (self.new ≡ map.insert self.old name.now value) }
        ensures err { OnErr result (self.new ≡ self.old) }
    {
        let key = Vec::from_slice(alloc, name)?;
        self.values.insert(key, value)?;
        Ok(())
    }

    /// The value of a name, and None exactly where the name isn't there.
    pub fn get(&self, name: &[u8]) -> Option<i64>
        ensures { result ≡ map.get self.now name.now }
    {
        self.values.get(name).copied()
    }
}

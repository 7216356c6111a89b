//! A data space whose bytes are known by their address and sampling clock, and which shows what it holds.

ghost use Rattle.std.specs.Prelude.{◌≡◌, []};

use arrayvec::ArrayVec;
use uz_core::{Data, HeldStore};

/// A load gives the address and 51 times the sampling clock, modulo 256.
#[derive(Drop)]
pub(crate) struct Echo {
    held: ArrayVec<HeldStore, 2>,
}

impl Data for Echo {
    ghost use Rattle.std.specs.Prelude.{ℕ, ◌+◌, ◌*◌, ◌%◌};

    ghost Content = { ℕ };

    ghost content = { λ echo. 0 };

    ghost held = { λ echo. echo.held.items };

    ghost model = { record { byte = λ content at late. (at % 256 + late * 51) % 256; content_after = λ content at late. content } };

    fn load(&mut self, at: u16, late: u8) -> u8 {
        ((at % 256 + u16::from(late) * 51) % 256) as u8
    }

    fn store(&mut self, at: u16, value: u8) {
        self.held.push(HeldStore::Byte { at, value });
    }

    fn bit(&mut self, at: u16, bit: u8, set: bool) {
        self.held.push(HeldStore::Bit { at, bit, set });
    }
}

impl Echo {
    pub(crate) fn new() -> Echo
        ensures { result.held.items ≡ [] }
    {
        Echo {
            held: ArrayVec::new(),
        }
    }

    /// The held stores, in order.
    pub(crate) fn stores(&self) -> &[HeldStore] {
        self.held.as_slice()
    }

    /// Drops the held stores.
    pub(crate) fn clear(&mut self)
        ensures { self.new.held.items ≡ [] }
    {
        self.held = ArrayVec::new();
    }
}

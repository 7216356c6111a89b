//! A plain data space: 4,352 bytes, and the stores of one instruction.

ghost use Rattle.std.specs.Prelude.{◌≡◌, [], length, IfOk};

use arrayvec::ArrayVec;
use std::alloc::{AllocError, Global};
use uz_core::{Data, HeldStore};

/// How many bytes the data space has (ATmega644 data sheet).
const DATA_BYTES: usize = 4352;

/// Bytes without ports or a timer.
#[derive(Drop)]
pub(crate) struct Memory {
    bytes: Vec<u8>,
    held: ArrayVec<HeldStore, 2>,
    ghost sized: { length bytes.items ≡ 4352 },
}

impl Data for Memory {
    ghost use Rattle.std.specs.Prelude.{ℕ, List, nat_lt, slice_index, if◌then◌else◌};

    ghost Content = { List ℕ };

    ghost content = { λ memory. memory.bytes.items };

    ghost held = { λ memory. memory.held.items };

    ghost model = { record {
      byte = λ bytes at late. if nat_lt at 4352 then slice_index bytes at else 0;
      content_after = λ bytes at late. bytes;
    } };

    fn load(&mut self, at: u16, _late: u8) -> u8 {
        if (at as usize) < DATA_BYTES {
            self.bytes[at as usize]
        } else {
            0
        }
    }

    fn store(&mut self, at: u16, value: u8) {
        self.held.push(HeldStore::Byte { at, value });
    }

    fn bit(&mut self, at: u16, bit: u8, set: bool) {
        self.held.push(HeldStore::Bit { at, bit, set });
    }
}

impl Memory {
    /// All bytes are 0, and nothing is held.
    pub(crate) fn new(alloc: Global) -> Result<Memory, AllocError>
        ensures { IfOk result (λ memory. memory.held.items ≡ []) }
    {
        Ok(Memory {
            bytes: vec![in alloc; 0; DATA_BYTES]?,
            held: ArrayVec::new(),
        })
    }

    /// Makes the held stores of bytes.
    pub(crate) fn finish(&mut self)
        ensures { self.new.held.items ≡ [] }
    {
        let (first, second) = match self.held.as_slice() {
            [first, second, ..] => (Some(*first), Some(*second)),
            [first] => (Some(*first), None),
            [] => (None, None),
        };
        self.held = ArrayVec::new();
        self.make(first);
        self.make(second);
    }

    fn make(&mut self, store: Option<HeldStore>)
        ensures { self.new.held.items ≡ self.old.held.items }
    {
        if let Some(HeldStore::Byte { at, value }) = store {
            if (at as usize) < DATA_BYTES {
                self.bytes[at as usize] = value;
            }
        }
    }
}

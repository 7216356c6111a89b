//! Printed text in memory, which meets no fault.

ghost use Rattle.std.specs.Prelude.{◌≡◌, []};

use std::alloc::Global;
use uz_shelf::{Sink, WriteError};

/// What was printed.
#[derive(Drop)]
pub(crate) struct Printed {
    text: Vec<u8>,
}

impl Printed {
    ghost use Rattle.uzebox_c.specs.Printed.{text_of};

    /// Nothing.
    pub fn new(alloc: Global) -> Printed
        ensures { text_of result ≡ [] }
    {
        Printed {
            text: Vec::new(alloc),
        }
    }

    /// The text so far.
    pub fn text(&self) -> &[u8]
        ensures { result.now ≡ text_of self.now }
    {
        self.text.as_slice()
    }
}

impl Sink for Printed {
    ghost use Rattle.std.specs.Prelude.{Some};
    ghost use Rattle.uzebox_c.specs.Printed.{text_of};

    ghost text = { λ printed. Some (text_of printed) };

    ghost faults = { λ printed. 0 };

    ghost may_lack = { Unit {0} };

    fn put(&mut self, _alloc: Global, piece: &[u8]) -> Result<(), WriteError> {
        self.text.extend_from_slice(piece)?;
        Ok(())
    }
}

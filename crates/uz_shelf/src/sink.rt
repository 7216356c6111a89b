//! Where printed text goes.

ghost use Rattle.std.specs.Prelude.{◌≡◌, ◌≤◌, IsErrOf, OnErr, OnOk};

use crate::errors::WriteError;
use std::alloc::Global;

/// A text that only grows, piece by piece.
pub trait Sink {
    ghost use Rattle.std.specs.Prelude.{List, Option, ℕ};
    ghost use Rattle.uz_shelf.specs.Text.{TakesAll, TakesPrefix};
    ghost use Rattle.uz_shelf.specs.Faults.{Rose};

    /// The bytes taken so far, where the sink tells them.
    ghost text: { Self → Option (List ℕ) };

    /// How many faults it has met. It never falls, and stands still at 2^64 - 1.
    ghost faults: { Self → ℕ };

    /// Whether it may lack memory for what it takes. One that writes to a real output never does.
    ghost may_lack: { Type 0 };

    /// Adds a piece at the end of the text.
    ///
    /// `Failed` comes only where the count of faults rose in this call. `Memory` may come at any time, of a sink that may lack
    /// memory. After either a prefix of the piece was added.
    fn put(&mut self, alloc: Global, piece: &[u8]) -> Result<(), WriteError>
        ensures ok { OnOk result (TakesAll (text self.old) piece.now (text self.new)) }
        ensures err { OnErr result (TakesPrefix (text self.old) piece.now (text self.new)) }
        ensures failed { IsErrOf result WriteError.Failed → Rose (faults self.old) (faults self.new) }
        ensures memory { IsErrOf result WriteError.Memory → may_lack }
        ensures faults { faults self.old ≤ faults self.new };
}

//! Formats of files, and how a file of one is loaded and read.

ghost use Rattle.std.specs.Prelude.{◌≡◌, ◌≤◌, IfErr, IfOk};
ghost use Rattle.uz_shelf.specs.Faults.{Rose};
ghost use Rattle.uz_files.specs.Endings.{EndsBy};
ghost use Rattle.uz_files.specs.Reading.{Fails, Says};
ghost use Rattle.uz_files.specs.TextFaults.{TellsFault};

use crate::ending::Failure;
use crate::loading::{bad_input, load};
use crate::text_fault::TextFault;
use std::alloc::{AllocError, Global};
use uz_shelf::Shelf;

/// A format of files: how long a text of it may be, and what is read of one.
pub trait Format {
    ghost use Rattle.std.specs.Prelude.{List, ℕ, ◌≤◌, IfErr, IfOk, length};
    ghost use Rattle.uz_files.specs.Reading.{Fault};
    ghost use Rattle.uz_files.specs.TextFaults.{Tells};

    /// What a text is read as.
    type Value;

    /// The most bytes that a text may have.
    const LIMIT: u32;

    ghost LIMIT: { ℕ };

    /// What a text spells.
    ghost spells: { List ℕ → Self.Value → Type 0 };

    /// A text's first fault: its line, and the name of its why.
    ghost refuses: { List ℕ → Fault → Type 0 };

    /// What holds of all that is read.
    ghost formed: { Self.Value → Type 0 };

    /// Reads a text, or tells its first fault. `Memory` may come at any time.
    fn read(alloc: Global, text: &[u8]) -> Result<Self::Value, TextFault>
        requires { length text.now ≤ LIMIT }
        ensures said { IfOk result (spells text.now) }
        ensures well_formed { IfOk result formed }
        ensures refused { IfErr result (Tells (refuses text.now)) };
}

/// The end of a command whose file has this fault.
fn failure_of(alloc: Global, name: &str, fault: TextFault) -> Result<Failure, AllocError>
    ensures { IfOk result (EndsBy (TellsFault name.now fault)) }
{
    match fault {
        TextFault::At { line, why } => Ok(Failure::BadInput(bad_input(alloc, name, line, why)?)),
        TextFault::Memory => Ok(Failure::Memory),
    }
}

/// What a file of this format spells.
pub fn read_file<F: Format, H: Shelf>(
    alloc: Global,
    shelf: &mut H,
    name: &str,
) -> Result<F::Value, Failure>
    ensures said { IfOk result (Says (H.files shelf.old) name.now F.LIMIT F.spells) }
    ensures well_formed { IfOk result F.formed }
    ensures fails { IfErr result (EndsBy (Fails (H.files shelf.old)
        (Rose (H.load_faults shelf.old) (H.load_faults shelf.new)) name.now F.LIMIT F.refuses)) }
    ensures files { H.files shelf.new ≡ H.files shelf.old }
    ensures load_faults { H.load_faults shelf.old ≤ H.load_faults shelf.new }
    ensures write_faults { H.write_faults shelf.new ≡ H.write_faults shelf.old }
{
    let text = load(alloc, shelf, name, F::LIMIT)?;
    match F::read(alloc, text.as_slice()) {
        Ok(value) => Ok(value),
        Err(fault) => Err(failure_of(alloc, name, fault)?),
    }
}
